ghost use Rattle.std.specs.Prelude.{◌≡◌, vec_len, IfOk};

use pagemem::PlainMemory;
use std::alloc::{AllocError, Global};

fn zeros(alloc: Global, count: usize) -> Result<Vec<u8>, AllocError>
    ensures { IfOk result (λ v. vec_len v ≡ count) }
{
    Ok(vec![in alloc; 0; count]?)
}

/// Returns a plain memory of zeros.
pub fn blank(alloc: Global) -> Result<PlainMemory, AllocError> {
    Ok(PlainMemory::new(zeros(alloc, 65_536)?))
}
