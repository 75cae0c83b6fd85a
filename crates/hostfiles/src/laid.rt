// What a run did, laid over the host files.

ghost use Rattle.hostfiles.specs.Hosts.{Host};
ghost use Rattle.hostfiles.specs.Files.{OwnFiles};
ghost use Rattle.hostfiles.specs.Laid.{FilesAreLaid, HaveNoRecordPastEnd};

/// Laid over the host files, what a run did is the map of all files, and each operation of the run changes this map only at
/// the keys that it names.
pub fn files_are_laid()
    ensures { (host : Host) → (own : OwnFiles) → FilesAreLaid host own }
{}

/// No file has a record at or past its end. This holds if nothing was done, and each operation of a run keeps it.
pub fn no_record_past_end()
    ensures { (host : Host) → HaveNoRecordPastEnd host }
{}
