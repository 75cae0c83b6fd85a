// Failures of readers and writers in mid-stream, and the replies to long texts.

ghost use Rattle.std.specs.Prelude.{vec_len};

use crate::replaying::{Replay, replays};
use edit_lines::ReplayFault;
use std::alloc::{AllocError, Global};
use std::process::Abort;
use std::test::Fail;
use test_sessions::{PRINTS, program};

const REPORT: &[u8] =
    b"stop WarmBoot\nsteps 7\nregs A=00 F=02 B=00 C=09 D=01 E=09 H=00 L=00 SP=FE00 PC=FF03\ntext 4869\nend\n";

// Returns a replay of an edit text over the program that prints `Hi`, read and written to its end.
fn whole<'a>(text: &'a [u8], replies: &'a [u8], answer: Result<u64, ReplayFault>) -> Replay<'a> {
    Replay {
        program: PRINTS.program,
        text,
        longest: 4096,
        fails: false,
        room: usize::MAX,
        replies,
        answer,
    }
}

fn replayed(rt: &impl Abort, alloc: Global, replay: &Replay<'_>) -> Result<(), Fail> {
    let (text, longest) = (replay.text, replay.longest);
    assert!(rt; replays(alloc, replay)?, "{text:?} by {longest}");
    Ok(())
}

#[test]
fn devices_fail_in_mid_stream(rt: HostRuntime) -> Result<(), Fail> {
    let read = Replay {
        longest: 4,
        fails: true,
        ..whole(b"limit 5\nru", b"ok\n", Err(ReplayFault::Read))
    };
    replayed(&rt, rt.alloc(), &read)?;
    for room in [0, 1, 40] {
        let replay = Replay {
            room,
            ..whole(b"run\n", &REPORT[..room], Err(ReplayFault::Write))
        };
        replayed(&rt, rt.alloc(), &replay)?;
    }
    Ok(())
}

// Each error of a replay, and its message.
const FAULTS: [(ReplayFault, &str); 5] = [
    (ReplayFault::Malformed(3), "line 3 is malformed"),
    (
        ReplayFault::LineTooLong(1_000_000),
        "line 1000000 is too long",
    ),
    (ReplayFault::Read, "the edit lines could not be read"),
    (ReplayFault::Write, "the replies could not be written"),
    (ReplayFault::OutOfMemory, "out of memory"),
];

#[test]
fn each_fault_has_its_text(rt: HostRuntime) -> Result<(), Fail> {
    for (fault, wanted) in FAULTS {
        let text = format!(in rt.alloc(); "{fault}")?;
        assert!(rt; text.as_str() == wanted, "{fault:?} is {text}");
    }
    Ok(())
}

// The bytes before the string of the program that prints `Hi`, and the lines before the digits of its report.
const BEFORE_STRING: &[u8] = &program![MVI C,9; LXI D,0x0109; CALL 5; RET;];

const BEFORE_DIGITS: &[u8] =
    b"stop WarmBoot\nsteps 7\nregs A=00 F=02 B=00 C=09 D=01 E=09 H=00 L=00 SP=FE00 PC=FF03\ntext ";

// Returns `before`, then `part` repeated `count` times, then `behind`.
fn repeated(
    alloc: Global,
    before: &[u8],
    part: &[u8],
    count: usize,
    behind: &[u8],
) -> Result<Vec<u8>, AllocError> {
    let mut text = Vec::from_slice(alloc, before)?;
    for _ in 0..count {
        text.extend_from_slice(part)?;
    }
    text.extend_from_slice(behind)?;
    Ok(text)
}

// `Hi` is printed many times by one call. A report of 1024 bytes has 926 digits.
#[test]
fn a_text_is_reported_whole_however_long(rt: HostRuntime) -> Result<(), Fail> {
    for count in [2, 231, 232, 512, 1023, 1024, 1025, 2048, 3000] {
        let program = repeated(rt.alloc(), BEFORE_STRING, b"Hi", count, b"$")?;
        let replies = repeated(rt.alloc(), BEFORE_DIGITS, b"4869", count, b"\nend\n")?;
        let replay = Replay {
            program: program.as_slice(),
            ..whole(b"run\n", replies.as_slice(), Ok(1))
        };
        replayed(&rt, rt.alloc(), &replay)?;
        for room in [100, 1024, 4096] {
            if room < replies.len() {
                let replay = Replay {
                    program: program.as_slice(),
                    room,
                    ..whole(b"run\n", &replies[..room], Err(ReplayFault::Write))
                };
                replayed(&rt, rt.alloc(), &replay)?;
            }
        }
    }
    Ok(())
}
