// The message and the status of each error.

use cpmrun::{Fault, Over, Tool, report_fault};
use filenames::Name;
use std::alloc::{AllocError, Global};
use std::process::Abort;
use std::test::Fail;

// A path of 300 bytes.
const LONG: &str =
    "a234567890123456789012345678901234567890123456789012345678901234567890123456789012345678901234567890\
b234567890123456789012345678901234567890123456789012345678901234567890123456789012345678901234567890\
c234567890123456789012345678901234567890123456789012345678901234567890123456789012345678901234567890";

// Checks that an error has this message, between `cpmrun: ` and the end of its line, and this status.
fn is_reported(rt: &impl Abort, alloc: Global, fault: Fault<'_>, wanted: (&str, &str, u8)) {
    let (before, after, code) = wanted;
    let mut err = Over::new(Vec::new(alloc));
    let status = report_fault(Tool::Cpmrun, fault, &mut err);
    let err = err.into_inner();
    let rest = err.as_slice().strip_prefix(b"cpmrun: ".as_slice());
    let rest = rest.and_then(|text| text.strip_prefix(before.as_bytes()));
    let rest = rest.and_then(|text| text.strip_suffix(b"\n".as_slice()));
    assert!(rt;
        status == code && rest == Some(after.as_bytes()),
        "{before}{after}: {status}"
    );
}

fn text(alloc: Global, text: &str) -> Result<String, AllocError> {
    String::from_str(alloc, text)
}

fn texts(alloc: Global, given: &[&str]) -> Result<Vec<String>, AllocError> {
    let mut texts = Vec::new(alloc);
    for one in given {
        texts.push(text(alloc, one)?)?;
    }
    Ok(texts)
}

#[test]
fn each_fault_has_its_message(rt: HostRuntime) -> Result<(), Fail> {
    let alloc = rt.alloc();
    let cannot_read = Fault::CannotRead("a/b.com");
    is_reported(&rt, alloc, cannot_read, ("cannot read ", "a/b.com", 1));
    is_reported(
        &rt,
        alloc,
        Fault::CannotWrite,
        ("cannot write ", "standard output", 1),
    );
    is_reported(
        &rt,
        alloc,
        Fault::DiskUnchanged,
        ("cannot write ", "standard output\ndisk unchanged", 1),
    );
    is_reported(&rt, alloc, Fault::Refused(4), ("session refused ", "4", 1));
    is_reported(
        &rt,
        alloc,
        Fault::Malformed(1_000_001),
        ("line ", "1000001 is malformed", 2),
    );
    is_reported(
        &rt,
        alloc,
        Fault::TooLong(17),
        ("line ", "17 is too long", 2),
    );
    is_reported(&rt, alloc, Fault::OutOfMemory, ("out of ", "memory", 12));
    Ok(())
}

#[test]
fn a_fault_of_a_folder_has_its_message(rt: HostRuntime) -> Result<(), Fail> {
    let alloc = rt.alloc();
    let name = Name::parse("c:a.txt")?;
    let unread = Fault::Folders(folders::Fault::CannotRead(text(alloc, "disk/a.txt")?));
    let unwritten = Fault::Folders(folders::Fault::CannotWrite(text(alloc, "disk/A.TXT")?));
    let twice = Fault::Folders(folders::Fault::TwoFiles(name));
    let refused = Fault::Folders(folders::Fault::Refused(name, 2));
    let unmoved = Fault::Folders(folders::Fault::CannotMove(
        text(alloc, "disk/A.TXT")?,
        text(alloc, "disk/.A.TXT.new")?,
        texts(alloc, &["disk/.B.new", "disk/.C.new"])?,
    ));
    let crowded = Fault::Folders(folders::Fault::TooManyFiles(text(alloc, "disk")?));
    let both = Fault::Folders(folders::Fault::WouldBeTwo(name));
    let changed = Fault::Folders(folders::Fault::Changed(text(alloc, "disk/A.TXT")?));
    let irregular = Fault::Folders(folders::Fault::Irregular(text(alloc, "disk/A.TXT")?));
    is_reported(&rt, alloc, unread, ("cannot read ", "disk/a.txt", 1));
    is_reported(&rt, alloc, unwritten, ("cannot write ", "disk/A.TXT", 1));
    is_reported(&rt, alloc, twice, ("two files are ", "C:A.TXT", 1));
    is_reported(&rt, alloc, refused, ("file ", "C:A.TXT refused 2", 1));
    is_reported(
        &rt,
        alloc,
        unmoved,
        (
            "cannot write disk/A.TXT: ",
            "its contents are in disk/.A.TXT.new, those of other files in disk/.B.new, disk/.C.new",
            1,
        ),
    );
    is_reported(
        &rt,
        alloc,
        crowded,
        ("disk ", "would have more than 512 files", 1),
    );
    is_reported(&rt, alloc, both, ("two files would be ", "C:A.TXT", 1));
    is_reported(
        &rt,
        alloc,
        changed,
        ("cannot write disk/A.TXT: ", "it was changed meanwhile", 1),
    );
    is_reported(
        &rt,
        alloc,
        irregular,
        ("cannot write disk/A.TXT: ", "it is no regular file", 1),
    );
    Ok(())
}

#[test]
fn a_message_has_a_long_path(rt: HostRuntime) -> Result<(), Fail> {
    let alloc = rt.alloc();
    let unread = Fault::Folders(folders::Fault::CannotRead(text(alloc, LONG)?));
    let unwritten = Fault::Folders(folders::Fault::CannotWrite(text(alloc, LONG)?));
    is_reported(
        &rt,
        alloc,
        Fault::CannotRead(LONG),
        ("cannot read ", LONG, 1),
    );
    is_reported(&rt, alloc, unread, ("cannot read ", LONG, 1));
    is_reported(&rt, alloc, unwritten, ("cannot write ", LONG, 1));
    Ok(())
}

#[test]
fn a_fault_of_use_has_its_own_text(rt: HostRuntime) -> Result<(), Fail> {
    let alloc = rt.alloc();
    let used = Fault::Usage(text(alloc, "cpmrun: wrong words\n")?);
    is_reported(&rt, alloc, used, ("wrong ", "words", 1));
    let mut err = Over::new(Vec::new(alloc));
    let status = report_fault(Tool::Cpmrun, Fault::NotText, &mut err);
    let err = err.into_inner();
    assert!(&rt; status == 1 && err.as_slice() == NOT_TEXT.as_bytes());
    Ok(())
}

const NOT_TEXT: &str = "\
error: invalid UTF-8 was detected in one or more arguments

Usage: cpmrun [OPTIONS] <PROGRAM> [TAIL]

For more information, try '--help'.
";
