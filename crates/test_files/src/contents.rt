// Records that are given by a byte.

use cpmfiles::Record;

/// Returns a record with the same byte throughout.
pub fn filled(byte: u8) -> Record {
    [byte; 128]
}

/// Returns a record of bytes `x`, except one byte `y` at this index.
pub fn filled_but(at: usize) -> Record {
    let mut record = filled(b'x');
    if at < 128 {
        record[at] = b'y';
    }
    record
}

/// Returns a record of `count` bytes `x`, padded with 1AH.
pub fn filled_up(count: usize) -> Record {
    let mut record = filled(0x1a);
    for i in 0..128 {
        if i < count {
            record[i] = b'x';
        }
    }
    record
}
