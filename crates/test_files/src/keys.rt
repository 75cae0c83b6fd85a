use cpmfiles::Key;

/// Names on drive A.
pub const ANN: Key = *b"\0ANN        ";

pub const BEN: Key = *b"\0BEN        ";

pub const CAT: Key = *b"\0CAT        ";

/// A name on drive B.
pub const B_ANN: Key = *b"\x01ANN        ";

/// The pattern of all files on drive A.
pub const ALL: Key = *b"\0???????????";
