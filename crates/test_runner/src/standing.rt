// A snapshot of a runner: its session, as a sum, and its checkpoints.

use machine::{HostFiles, Name, Session};
use replay::Runner;

/// The largest number of checkpoints of a session of this program.
pub const SLOTS: usize = 64;

/// A snapshot of a runner's session and checkpoints.
#[derive(Clone, Copy)]
pub struct Standing {
    session: u64,
    kept: [Option<u64>; SLOTS],
}

// Returns the sum of Fowler, Noll and Vo (FNV-1a) over a length and its bytes.
fn with_bytes(sum: u64, bytes: &[u8]) -> u64 {
    let mut sum = (sum ^ bytes.len() as u64).wrapping_mul(0x0100_0000_01b3);
    for byte in bytes {
        sum = (sum ^ u64::from(*byte)).wrapping_mul(0x0100_0000_01b3);
    }
    sum
}

fn with_file(sum: u64, files: &HostFiles, name: &Name) -> u64 {
    let mut sum = with_bytes(sum, &name.key());
    for place in 0..files.records(name).unwrap_or(0) {
        if let Some(record) = files.record(name, place) {
            sum = with_bytes(sum, &record);
        }
    }
    sum
}

fn sum_of(session: &Session) -> u64 {
    let mut sum = with_bytes(0xcbf2_9ce4_8422_2325, session.program());
    sum = with_bytes(sum, session.tail());
    sum = with_bytes(sum, session.script());
    sum = with_bytes(sum, &session.limit().to_le_bytes());
    let files = session.files();
    let mut after: Option<Name> = None;
    for _ in 0..files.len() {
        if let Some(name) = files.next(after.as_ref()) {
            sum = with_file(sum, files, &name);
            after = Some(name);
        }
    }
    sum
}

impl Standing {
    /// Takes a snapshot.
    pub fn of(runner: &Runner) -> Standing {
        let mut kept = [None; SLOTS];
        for i in 0..SLOTS {
            kept[i] = runner.kept(i);
        }
        Standing {
            session: sum_of(runner.session()),
            kept,
        }
    }

    /// Returns whether the session is unchanged, and each checkpoint of the snapshot is still kept.
    pub fn is_left(&self, runner: &Runner) -> bool {
        for i in 0..SLOTS {
            if self.kept[i].is_some() && runner.kept(i) != self.kept[i] {
                return false;
            }
        }
        sum_of(runner.session()) == self.session
    }

    /// Returns whether the session is unchanged, and exactly the checkpoints of the snapshot are kept.
    pub fn is_same(&self, runner: &Runner) -> bool {
        for i in 0..SLOTS {
            if runner.kept(i) != self.kept[i] {
                return false;
            }
        }
        self.is_left(runner)
    }
}

/// Returns whether the steps of the checkpoints rise.
pub fn rises(runner: &Runner) -> bool {
    let mut last = 0;
    for i in 0..SLOTS {
        if let Some(step) = runner.kept(i) {
            if step <= last {
                return false;
            }
            last = step;
        }
    }
    true
}
