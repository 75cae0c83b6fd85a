// The message of each refusal.

use machine::SessionError;
use replay::{EditError, OptionsError};
use std::test::Fail;

#[test]
fn refused_sessions_have_their_messages(rt: HostRuntime) -> Result<(), Fail> {
    for (error, message) in [
        (SessionError::ProgramTooLong, "the program is too long"),
        (SessionError::TailTooLong, "the command tail is too long"),
        (
            SessionError::TailByte,
            "the command tail has a byte that no tail may have",
        ),
        (SessionError::ScriptTooLong, "the script is too long"),
        (SessionError::LimitTooLarge, "the limit is too large"),
    ] {
        let printed = format!(in rt.alloc(); "{error}")?;
        assert!(rt; printed.as_str() == message, "{message}");
    }
    Ok(())
}

#[test]
fn refused_edits_have_their_messages(rt: HostRuntime) -> Result<(), Fail> {
    for (error, message) in [
        (EditError::PastEnd, "past the end of the script"),
        (EditError::ScriptTooLong, "the script is too long"),
        (EditError::NoSuchFile, "no such file"),
        (EditError::FileTooLong, "the file is too long"),
        (EditError::TooManyFiles, "there are too many files"),
        (EditError::OutsideProgram, "outside the program"),
        (EditError::LimitTooLarge, "the limit is too large"),
        (EditError::OutOfMemory, "out of memory"),
    ] {
        let printed = format!(in rt.alloc(); "{error}")?;
        assert!(rt; printed.as_str() == message, "{message}");
    }
    Ok(())
}

#[test]
fn refused_options_have_their_messages(rt: HostRuntime) -> Result<(), Fail> {
    for (error, message) in [
        (OptionsError::Spacing, "the spacing is out of range"),
        (OptionsError::Slots, "the count of slots is out of range"),
        (OptionsError::OutOfMemory, "out of memory"),
    ] {
        let printed = format!(in rt.alloc(); "{error}")?;
        assert!(rt; printed.as_str() == message, "{message}");
    }
    Ok(())
}

#[test]
fn out_of_memory_has_its_numbers(rt: HostRuntime) -> Result<(), Fail> {
    assert!(rt; OptionsError::OutOfMemory.number() == 3);
    assert!(rt; EditError::OutOfMemory.number() == 8);
    Ok(())
}
