// The texts of the help that are not about one argument.

/// The version that `--version` prints.
pub const VERSION: &str = "1.0.0";

/// What `cpmrun` does.
pub const RUN_ABOUT: &str = "Runs a CP/M 2.2 program, or replays edit lines over its session.";

/// The end of the help of `cpmrun`.
pub const RUN_AFTER_HELP: &str = "\
Example:
  cpmrun hello.com \"note.txt\" --files disk --out changed
      runs hello.com with the tail note.txt and the host files in the folder disk, and writes
      the changed files to the folder changed

Quote a TAIL of several words: 'a.txt b.txt'. A TAIL -x is written last: cpmrun hello.com --files disk -- -x

Exit status:
  0   the program stopped by WarmBoot, the edit lines were replayed, or help was printed
  1   usage error, I/O error, invalid host files, or a program, tail or script that is too large
  2   an edit line is malformed or too long
  3   the program stopped by Limit
  4   by Halt
  5   by Undefined
  6   by SystemArea
  7   by ConsoleExhausted
  8   by NoDollar
  9   by Unsupported
  10  by BadDrive
  12  out of memory

Messages with a number:
  session refused 1    PROGRAM has more than 64,512 bytes
  session refused 2    TAIL has more than 126 bytes
  session refused 3    TAIL has a byte that is not printable ASCII
  session refused 4    the script has more than 1,048,576 bytes
  file NAME refused 1  the file has more than 8,388,608 bytes
  file NAME refused 2  it is the 513th host file
A directory cannot be read either if a name in it is not UTF-8.

The manual has every message, edit line and reply: docs/MANUAL.md,
or share/doc/cpmrun/MANUAL.md of an installed program.";

/// What `cpmdeps` does.
pub const DEPENDENCY_ABOUT: &str =
    "Prints what the run of a CP/M 2.2 program asked for: memory, script, files.";

/// The end of the help of `cpmdeps`.
pub const DEPENDENCY_AFTER_HELP: &str = "\
Example:
  cpmdeps hello.com \"note.txt\" --files disk
      runs hello.com with the tail note.txt and the host files in the folder disk, and prints
      what the run asked for

Quote a TAIL of several words: 'a.txt b.txt'. A TAIL -x is written last: cpmdeps hello.com --files disk -- -x

Exit status:
  0   the listing or the rule was printed, or help
  1   usage error, I/O error, invalid host files, or a program, tail or script that is too large
  12  out of memory

Messages with a number:
  session refused 1    PROGRAM has more than 64,512 bytes
  session refused 2    TAIL has more than 126 bytes
  session refused 3    TAIL has a byte that is not printable ASCII
  session refused 4    the script has more than 1,048,576 bytes
  file NAME refused 1  the file has more than 8,388,608 bytes
  file NAME refused 2  it is the 513th host file
A directory cannot be read either if a name in it is not UTF-8.

The manual has every line of the listing and every message: docs/MANUAL.md,
or share/doc/cpmrun/MANUAL.md of an installed program.";

/// What `cpmtrace` does.
pub const TRACE_ABOUT: &str =
    "Prints the BDOS calls of a CP/M 2.2 program, and with --steps its instructions too.";

/// The end of the help of `cpmtrace`.
pub const TRACE_AFTER_HELP: &str = "\
Example:
  cpmtrace hello.com \"note.txt\" --files disk --file note.txt
      runs hello.com with the tail note.txt and the host files in the folder disk, and prints
      each call that names the file note.txt

Options combine: --from 100 --at 5 is steps from 100 on that are at 0005.

Quote a TAIL of several words: 'a.txt b.txt'. A TAIL -x is written last: cpmtrace hello.com --files disk -- -x

Exit status:
  0   the trace was printed, or help
  1   usage error, I/O error, invalid host files, or a program, tail or script that is too large
  12  out of memory

Messages with a number:
  session refused 1    PROGRAM has more than 64,512 bytes
  session refused 2    TAIL has more than 126 bytes
  session refused 3    TAIL has a byte that is not printable ASCII
  session refused 4    the script has more than 1,048,576 bytes
  file NAME refused 1  the file has more than 8,388,608 bytes
  file NAME refused 2  it is the 513th host file
A directory cannot be read either if a name in it is not UTF-8.

The manual has every line of the trace and every message: docs/MANUAL.md,
or share/doc/cpmrun/MANUAL.md of an installed program.";
