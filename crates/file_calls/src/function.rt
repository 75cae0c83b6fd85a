ghost use Rattle.std.specs.Prelude.{◌≡◌, true, IfOk, OnErr, if◌then◌else◌};
ghost use Rattle.file_calls.specs.Findings.{finding_of, block_length};
ghost use Rattle.file_calls.specs.DistinctKeys.{HasDistinctKeys};
ghost use Rattle.file_calls.specs.Asks.{Asks, is_asking};

use crate::block::Block;
use crate::finding::Finding;
use crate::inquiry::{
    close_file, file_size, make_file, open_file, read_random, read_sequential, rename_file, search,
    write_random, write_sequential,
};
use cpmfiles::{Changes, HostFiles};
use hostfiles::Gap;
use std::alloc::AllocError;

/// A call that names a file by a control block, except deletion.
/// [Interface Guide 1979, functions 15 to 17, 20 to 23, 33 to 36 and 40]
#[derive(Clone, Copy, Debug, PartialEq, Eq)]
pub enum FileFunction {
    /// 15: opens an extent of a file.
    Open,
    /// 16: closes a file.
    Close,
    /// 17: returns the first matching entry of the directory.
    SearchFirst,
    /// 20: reads the record at the sequential record number.
    ReadSequential,
    /// 21: writes the record at the sequential record number.
    WriteSequential,
    /// 22: makes a file.
    Make,
    /// 23: renames a file.
    Rename,
    /// 33: reads the record at the random record number.
    ReadRandom,
    /// 34: writes the record at the random record number.
    WriteRandom,
    /// 35: returns the length of a file.
    FileSize,
    /// 36: sets the random record number to the sequential one.
    SetRandomRecord,
    /// 40: writes the record at the random record number, and zeros in a gap before it.
    WriteRandomZeroFill,
}

impl FileFunction {
    /// Returns whether the call reads the random record number, and so 36 bytes of its control block; else it reads 33.
    pub fn has_random_place(self) -> bool
        ensures { block_length self ≡ (if result then 36 else 33) }
    {
        match self {
            FileFunction::ReadRandom
            | FileFunction::WriteRandom
            | FileFunction::FileSize
            | FileFunction::SetRandomRecord
            | FileFunction::WriteRandomZeroFill => true,
            _ => false,
        }
    }

    /// Asks the call's questions about the files, and returns what it finds. `Err` means out of memory; a call that asks
    /// nothing is never an `Err`.
    #[tactic(auto, using(crate::proofs::Extending::extends_same))]
    #[inline(never)]
    pub fn inquire(
        self,
        host: &HostFiles,
        changes: &mut Changes,
        block: &Block,
    ) -> Result<Finding, AllocError>
        ensures asks { Asks (finding_of self block.now) host.now changes.old result changes.new }
        ensures apart { IfOk result HasDistinctKeys }
        ensures grows { OnErr result (is_asking (finding_of self block.now) ≡ true) }
    {
        match self {
            FileFunction::Open => open_file(host, changes, block),
            FileFunction::Close => close_file(host, changes, block),
            FileFunction::SearchFirst => {
                Ok(search(host, changes, &block.key(), block.fcb.ex(), None))
            }
            FileFunction::ReadSequential => read_sequential(host, changes, block),
            FileFunction::WriteSequential => write_sequential(host, changes, block),
            FileFunction::Make => make_file(host, changes, block),
            FileFunction::Rename => rename_file(host, changes, block),
            FileFunction::ReadRandom => read_random(host, changes, block),
            FileFunction::WriteRandom => write_random(host, changes, block, Gap::Holes),
            FileFunction::FileSize => file_size(host, changes, block),
            FileFunction::SetRandomRecord => Ok(Finding::RandomPlace(block.fcb.place())),
            FileFunction::WriteRandomZeroFill => write_random(host, changes, block, Gap::Zeros),
        }
    }
}
