// The message of each refusal of a name and of a host file.

use cpmfiles::{FilesError, NameError};
use std::test::Fail;

#[test]
fn refused_names_have_their_messages(rt: HostRuntime) -> Result<(), Fail> {
    for (error, message) in [
        (NameError::Empty, "the name is empty"),
        (NameError::TooLong, "the name or its type is too long"),
        (
            NameError::BadByte,
            "the name has a byte that no name may have",
        ),
        (NameError::BadLetter, "the drive is none of A to D"),
    ] {
        let printed = format!(in rt.alloc(); "{error}")?;
        assert!(rt; printed.as_str() == message, "{message}");
    }
    Ok(())
}

#[test]
fn refused_files_have_their_messages(rt: HostRuntime) -> Result<(), Fail> {
    for (error, message) in [
        (FilesError::FileTooLong, "the file is too long"),
        (FilesError::TooManyFiles, "there are too many files"),
        (FilesError::OutOfMemory, "out of memory"),
    ] {
        let printed = format!(in rt.alloc(); "{error}")?;
        assert!(rt; printed.as_str() == message, "{message}");
    }
    Ok(())
}
