// `pagemem`: a run's memory over a borrowed image, and plain memory.

ghost use Rattle.std.specs.Prelude.{◌≡◌, ◌≤◌, length};

use i8080::Bus;
use pagemem::{Cells, Image, Overlay, PlainMemory, View};
use std::alloc::{AllocError, Global};

/// Calls each function of an overlay and its view once.
pub fn overlay(alloc: Global, page_zero: &[u8; 256], program: &[u8]) -> Result<(), AllocError>
    requires { length program.now ≤ 64512 }
{
    let mut overlay: Overlay = Overlay::new(alloc)?;
    let mut view: View<'_> = View::new(Image::new(page_zero, program), &mut overlay);
    view.ready(0)?;
    view.write(0, 1);
    let _cell: u8 = view.read(0);
    overlay.share()?;
    let mut copy: Overlay = overlay.snapshot()?;
    let _byte: Option<u8> = copy.written(0);
    let _is_looked: bool = copy.looked(0);
    let _look: Option<u16> = copy.take_look();
    let cells: Cells = overlay.shared_cells()?;
    let _copied: Cells = cells.snapshot()?;
    Ok(())
}

/// Makes a plain memory.
pub fn plain(bytes: Vec<u8>) -> PlainMemory
    requires { length bytes.items ≡ 65536 }
{
    PlainMemory::new(bytes)
}
