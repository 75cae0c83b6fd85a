// The messages of errors. Each is pushed piece by piece, which needs no memory.

ghost use Rattle.std.specs.Prelude.{◌≡◌, ◌∷◌, ◌++◌, ◌+◌, [], IfOk, codes, string_bytes};
ghost use Rattle.std.specs.Fmt.{decimal};
ghost use Rattle.faults.specs.Faults.{joined, message_of, message_line, name_of, shown, value_text};
ghost use Rattle.filenames.specs.Drives.{drive_number};
ghost use Rattle.filenames.specs.Names.{display_text};
ghost use Rattle.folders.specs.Faults.{others_text, text_of};
ghost use Rattle.streams.specs.Pushing.{more};

use crate::fault::Fault;
use crate::shown::push_shown;
use crate::tool::Tool;
use filenames::{Drive, Name, Pieces};
use folders::Fault as FolderFault;
use itoa::Buffer;
use std::alloc::{AllocError, Global};
use streams::Text;

// Appends pieces.
fn push_pieces<X: Text>(text: &mut X, pieces: &[&str])
    ensures { X.pushed text.new ≡ more (X.pushed text.old) (joined pieces.now) }
{
    for piece in pieces {
        text.push(piece.as_bytes());
    }
}

// Appends pieces with an escape for each control character.
fn push_shown_pieces<X: Text>(text: &mut X, pieces: &[&str])
    ensures { X.pushed text.new ≡ more (X.pushed text.old) (shown (joined pieces.now)) }
{
    for piece in pieces {
        push_shown(text, piece.as_bytes());
    }
}

// Appends the beginning of a line of a program.
fn push_program<X: Text>(text: &mut X, tool: Tool)
    ensures { X.pushed text.new ≡ more (X.pushed text.old) (name_of tool ++ codes ": ") }
{
    text.push(tool.name().as_bytes());
    text.push(b": ");
}

// Appends a line of a program.
fn push_line<X: Text>(text: &mut X, tool: Tool, pieces: &[&str])
    ensures { X.pushed text.new ≡ more (X.pushed text.old) (message_line tool (joined pieces.now)) }
{
    push_program(text, tool);
    push_shown_pieces(text, pieces);
    text.push(b"\n");
}

// Appends the printed form of a name between two texts.
fn push_name<X: Text>(text: &mut X, before: &str, name: &Name, after: &[&str])
    ensures { X.pushed text.new ≡ more (X.pushed text.old)
        (shown (before.now ++ display_text name.now ++ joined after.now)) }
{
    let Pieces {
        drive,
        name,
        dot,
        kind,
    } = name.pieces();
    push_shown_pieces(text, &[before, drive, name, dot, kind]);
    push_shown_pieces(text, after);
}

// Appends the end of a message that names these paths too.
fn push_others<X: Text>(text: &mut X, paths: &[String])
    ensures { X.pushed text.new ≡ more (X.pushed text.old) (shown (others_text paths.now)) }
{
    let Some((first, others)) = paths.split_first() else {
        return;
    };
    push_shown_pieces(text, &[", those of other files in ", first.as_str()]);
    for path in others {
        push_shown_pieces(text, &[", ", path.as_str()]);
    }
}

// Returns the letter of a drive.
fn letter(drive: Drive) -> &'static str
    ensures { result.now ≡ (65 + drive_number drive) ∷ [] }
{
    match drive {
        Drive::A => "A",
        Drive::B => "B",
        Drive::C => "C",
        Drive::D => "D",
    }
}

// Appends the text of an error of a folder.
fn push_folder_fault<X: Text>(text: &mut X, fault: &FolderFault)
    ensures { X.pushed text.new ≡ more (X.pushed text.old) (shown (text_of fault.now)) }
{
    let unwritten = "cannot write ";
    match fault {
        FolderFault::CannotRead(path) => push_shown_pieces(text, &["cannot read ", path.as_str()]),
        FolderFault::CannotWrite(path) => push_shown_pieces(text, &[unwritten, path.as_str()]),
        FolderFault::CannotMove(path, other, others) => {
            let contents = ": its contents are in ";
            push_shown_pieces(text, &[unwritten, path.as_str(), contents, other.as_str()]);
            push_others(text, others.as_slice());
        }
        FolderFault::Changed(path) => {
            push_shown_pieces(
                text,
                &[unwritten, path.as_str(), ": it was changed meanwhile"],
            );
        }
        FolderFault::Irregular(path) => {
            push_shown_pieces(text, &[unwritten, path.as_str(), ": it is no regular file"]);
        }
        FolderFault::Crowded(path) => {
            let reason = ": no temporary name beside it is free";
            push_shown_pieces(text, &[unwritten, path.as_str(), reason]);
        }
        FolderFault::NoFolder(name) => {
            let letter = letter(name.drive());
            push_name(
                text,
                unwritten,
                name,
                &[": drive ", letter, " has no folder"],
            );
        }
        FolderFault::TwoFiles(name) => push_name(text, "two files are ", name, &[]),
        FolderFault::TooManyFiles(path) => {
            push_shown_pieces(text, &[path.as_str(), " would have more than 512 files"]);
        }
        FolderFault::WouldBeTwo(name) => push_name(text, "two files would be ", name, &[]),
        FolderFault::Refused(name, number) => {
            let mut digits = Buffer::new();
            push_name(text, "file ", name, &[" refused ", digits.format(*number)]);
        }
    }
}

// Returns the pieces of the message for an option with a value that it cannot have, worded as `clap` words it.
fn value_pieces<'a>(value: &'a str, option: &'a str, mistake: &'a str) -> [&'a str; 7]
    ensures { joined result ≡ value_text value.entry.now option.entry.now mistake.entry.now }
{
    [
        "error: invalid value '",
        value,
        "' for '",
        option,
        "': ",
        mistake,
        "\n\nFor more information, try '--help'.\n",
    ]
}

/// Returns this message.
pub fn value_text(
    alloc: Global,
    value: &str,
    option: &str,
    mistake: &str,
) -> Result<String, AllocError>
    ensures { IfOk result (λ s. string_bytes s ≡ value_text value.now option.now mistake.now) }
{
    value_pieces(value, option, mistake)
        .as_slice()
        .concat(alloc)
}

// Appends the line of an error that has a number in it.
fn push_numbered<X: Text>(text: &mut X, tool: Tool, before: &str, number: u64, after: &str)
    ensures { X.pushed text.new ≡ more (X.pushed text.old)
        (message_line tool (before.now ++ decimal number ++ after.now)) }
{
    let mut digits = Buffer::new();
    push_line(text, tool, &[before, digits.format(number), after]);
}

/// Appends the message of an error of a program. It is one line, except for a usage error and for disks that are unchanged.
pub fn push_message<X: Text>(text: &mut X, tool: Tool, fault: &Fault<'_>)
    ensures { X.pushed text.new ≡ more (X.pushed text.old) (message_of tool fault.now) }
{
    match fault {
        Fault::Usage(message) => text.push(message.as_bytes()),
        Fault::BadEscape(value) => {
            let mistake = "unknown escape after a backslash";
            push_pieces(text, &value_pieces(value, "--typed <TEXT>", mistake));
        }
        // Its words are those of `clap`, which never returns it, since the command lines take only strings.
        Fault::NotText => push_pieces(
            text,
            &[
                "error: invalid UTF-8 was detected in one or more arguments\n\nUsage: ",
                tool.name(),
                " [OPTIONS] <PROGRAM> [TAIL]\n\nFor more information, try '--help'.\n",
            ],
        ),
        Fault::CannotRead(path) => push_line(text, tool, &["cannot read ", path]),
        Fault::CannotWrite => push_line(text, tool, &["cannot write standard output"]),
        Fault::DiskUnchanged => {
            push_line(text, tool, &["cannot write standard output"]);
            text.push(b"disk unchanged\n");
        }
        Fault::Folders(fault) => {
            push_program(text, tool);
            push_folder_fault(text, fault);
            text.push(b"\n");
        }
        Fault::Refused(n) => push_numbered(text, tool, "session refused ", u64::from(*n), ""),
        Fault::Malformed(line) => push_numbered(text, tool, "line ", *line, " is malformed"),
        Fault::TooLong(line) => push_numbered(text, tool, "line ", *line, " is too long"),
        Fault::RulePath(path) => {
            push_line(
                text,
                tool,
                &["a rule for make cannot have the path ", path.as_str()],
            );
        }
        Fault::OutOfMemory => push_line(text, tool, &["out of memory"]),
    }
}
