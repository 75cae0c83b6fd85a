// The limits of an edit text: this project's profile.

/// The largest number of bytes of a line, without its 0AH.
pub const LINE_LIMIT: usize = 65_536;

/// The largest number of lines of a text.
pub const LINES_LIMIT: u64 = 1_000_000;
