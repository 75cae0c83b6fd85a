ghost use Rattle.std.specs.Prelude.{◌≡◌};
ghost use Rattle.pagemem.specs.Image.{image_at};

use std::snapshot::Snapshot;

/// The image that the known cells of an overlay belong to, for contracts alone. It has no bytes.
#[derive(Drop)]
pub struct Beneath {
    page_zero: Snapshot<[u8; 256]>,
    program: Snapshot<Vec<u8>>,
}

impl Beneath {
    ghost use Rattle.pagemem.specs.Beneath.{cells_beneath};

    /// Returns the image of page zero and of a program, which starts at 0100H.
    #[inline(always)]
    pub fn of(page_zero: &[u8; 256], program: &Vec<u8>) -> Beneath
        ensures { cells_beneath result ≡ image_at page_zero.now program.now.items }
    {
        Beneath {
            page_zero: Snapshot::of(page_zero),
            program: Snapshot::of(program),
        }
    }
}
