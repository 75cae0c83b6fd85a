ghost use Rattle.pagemem.specs.Agreement.{MemoriesAgree};

/// Two memories with the same bytes return the same bytes in every run of reads and writes, whether these bytes are in pages
/// or in an image.
pub fn memories_agree()
    ensures { MemoriesAgree }
{}
