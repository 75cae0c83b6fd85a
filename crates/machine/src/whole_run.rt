ghost use Rattle.std.specs.Prelude.{◌≡◌};
ghost use Rattle.hostfiles.specs.Files.{files};
ghost use Rattle.machine.specs.PlainLaid.{plain_run_of};
ghost use Rattle.machine.specs.PlainState.{plain_run};
ghost use Rattle.machine.specs.RunCodes.{equal_runs-prop};

use crate::session::Session;
use crate::state::State;
use console_calls::Cause;
use first_looks::FirstLooks;
use hostfiles::Journal;

/// A whole run of a session: its last state, its first looks if it noted them, its number of steps, and why it ended.
#[derive(Drop)]
pub struct WholeRun<'s> {
    pub session: &'s Session,
    pub state: State,
    pub looks: FirstLooks,
    pub steps: u64,
    pub cause: Cause,
    ghost of_run: { plain_run_of session.now
        (record { state = state.state; steps = steps; cause = cause })
        ≡ plain_run session.now } by { equal_runs-prop _ _ },
}

impl WholeRun<'_> {
    /// Returns why the run ended.
    pub fn cause(&self) -> Cause
        ensures { result ≡ (plain_run self.now.session.now).cause }
    {
        self.cause
    }

    /// Returns all bytes that were sent to the console.
    pub fn text(&self) -> &[u8]
        ensures { result.now ≡ (plain_run self.now.session.now).state.core.desk.text }
    {
        self.state.desk.text()
    }

    /// Returns what the run did to the files. Laid over the host files, it is the files at the end.
    pub fn journal(&self) -> &Journal
        ensures { files self.now.session.now.files result.now.entries
            ≡ (plain_run self.now.session.now).state.files }
    {
        &self.state.changes.journal
    }
}
