// What the line of each call shows.

ghost use Rattle.std.specs.Prelude.{◌≡◌};
ghost use Rattle.trace_lines.specs.CallForms.{argument_of, call_name, is_read, returned_of};

/// What a call is given.
#[derive(Clone, Copy)]
pub enum Argument {
    /// Nothing, or nothing that is shown.
    Nothing,
    /// The byte in E.
    Byte,
    /// The word in DE.
    Word,
    /// A file.
    File,
    /// A file and its new name.
    Renaming,
    /// A file and the sequential record number.
    NextRecord,
    /// A file and the random record number.
    ChosenRecord,
}

/// What a call returns.
#[derive(Clone, Copy)]
pub enum Returned {
    /// Nothing.
    Nothing,
    /// A byte, in A.
    Byte,
    /// A word, in HL.
    Word,
}

/// Returns the name of a call: `unsupported` for one that the guide names and that is not there, `unknown` for one that it does not name.
/// [Interface Guide 1979, system function summary]
pub fn call_name(number: u8) -> &'static str
    ensures { result.now ≡ call_name number }
{
    match number {
        0 => "system reset",
        1 => "console input",
        2 => "console output",
        6 => "direct console i/o",
        7 => "get i/o byte",
        8 => "set i/o byte",
        9 => "print string",
        10 => "read console buffer",
        11 => "get console status",
        12 => "return version number",
        13 => "reset disk system",
        14 => "select disk",
        15 => "open file",
        16 => "close file",
        17 => "search for first",
        18 => "search for next",
        19 => "delete file",
        20 => "read sequential",
        21 => "write sequential",
        22 => "make file",
        23 => "rename file",
        24 => "return login vector",
        25 => "return current disk",
        26 => "set dma address",
        33 => "read random",
        34 => "write random",
        35 => "compute file size",
        36 => "set random record",
        40 => "write random with zero fill",
        3 | 4 | 5 | 27..=32 | 37 => "unsupported",
        _ => "unknown",
    }
}

/// Returns what a call is given.
pub fn argument_of(number: u8) -> Argument
    ensures { result ≡ argument_of number }
{
    match number {
        2 | 6 | 8 | 14 => Argument::Byte,
        9 | 10 | 26 => Argument::Word,
        15 | 16 | 17 | 19 | 22 | 35 | 36 => Argument::File,
        23 => Argument::Renaming,
        20 | 21 => Argument::NextRecord,
        33 | 34 | 40 => Argument::ChosenRecord,
        _ => Argument::Nothing,
    }
}

/// Returns whether a call reads a record into the buffer.
pub fn is_read(number: u8) -> bool
    ensures { result ≡ is_read number }
{
    number == 20 || number == 33
}

/// Returns what a call returns.
pub fn returned_of(number: u8) -> Returned
    ensures { result ≡ returned_of number }
{
    match number {
        12 | 24 => Returned::Word,
        0 | 2 | 8 | 9 | 10 | 13 | 14 | 26 => Returned::Nothing,
        _ => Returned::Byte,
    }
}
