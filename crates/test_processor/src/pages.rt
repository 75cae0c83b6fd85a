// What a run wrote and looked at, over an image.

use crate::fixtures::blank;
use i8080::{Bus, HLT, fetch};
use pagemem::{Beneath, BlankMarks, Cells, Image, Overlay, View, memories_agree};
use std::alloc::AllocError;
use std::process::Abort;
use std::test::Fail;

// Writes a cell.
fn put(overlay: &mut Overlay, a: u16, value: u8) -> Result<(), AllocError> {
    overlay.ready(a)?;
    overlay.write(a, value);
    Ok(())
}

// Reads three cells in order.
fn three<B: Bus>(bus: &mut B) -> Result<[u8; 3], AllocError> {
    Ok([fetch(bus, 0x0100), fetch(bus, 0x0101), fetch(bus, 0xffff)])
}

// Reads three cells of an overlay laid over an image.
fn three_laid(image: Image<'_>, overlay: &mut Overlay) -> Result<[u8; 3], AllocError> {
    three(&mut View::new(image, overlay))
}

#[test]
fn reads_of_unwritten_cells_alone_are_looks(rt: HostRuntime) -> Result<(), Fail> {
    let page_zero = [0; 256];
    let mut overlay = Overlay::new(rt.alloc())?;
    reads_are_looks(&rt, Image::new(&page_zero, &[0x0e, 0x09]), &mut overlay)
}

fn reads_are_looks(rt: &impl Abort, image: Image<'_>, overlay: &mut Overlay) -> Result<(), Fail> {
    overlay.ready(0x0100)?;
    assert!(rt; overlay.read(image, 0x0100) == 0x0e);
    put(overlay, 0x0101, 0x5a)?;
    let mut earlier = overlay.snapshot()?;
    later_looks(rt, image, overlay, &mut earlier)
}

// Checks what is read and written after a snapshot.
fn later_looks(
    rt: &impl Abort,
    image: Image<'_>,
    overlay: &mut Overlay,
    earlier: &mut Overlay,
) -> Result<(), Fail> {
    put(overlay, 0xffff, 0x5a)?;
    assert!(rt; three_laid(image, overlay)? == [0x0e, 0x5a, 0x5a]);
    one_is_looked(rt, overlay);
    assert!(rt; earlier.written(0xffff) == None);
    assert!(rt; three_laid(image, earlier)? == [0x0e, 0x5a, 0x00]);
    assert!(rt; [overlay.take_look(), overlay.take_look()] == [Some(0x0100), None]);
    Ok(())
}

fn one_is_looked(rt: &impl Abort, overlay: &Overlay) {
    let written = [overlay.written(0x0101), overlay.written(0x0100)];
    assert!(rt; written == [Some(0x5a), None]);
    assert!(rt; overlay.look_count() == 1);
    assert!(rt; overlay.nth_look(0) == 0x0100);
    let looked = [
        overlay.looked(0x0100),
        overlay.looked(0x0101),
        overlay.looked(0xffff),
    ];
    assert!(rt; looked == [true, false, false]);
}

#[test]
fn plain_memory_reads_the_same(rt: HostRuntime) -> Result<(), Fail> {
    let mut memory = blank(rt.alloc())?;
    memory.write(0x0100, 0x0e);
    memory.write(0x0101, 0x5a);
    memory.write(0xffff, 0x5a);
    assert!(rt; three(&mut memory)? == [0x0e, 0x5a, 0x5a]);
    memories_agree();
    Ok(())
}

fn put_two(overlay: &mut Overlay) -> Result<(), AllocError> {
    put(overlay, 0x0101, 0x11)?;
    put(overlay, 0x0102, 0x22)
}

#[test]
fn a_shared_page_is_copied_before_it_is_written(rt: HostRuntime) -> Result<(), Fail> {
    let mut overlay = Overlay::new(rt.alloc())?;
    put(&mut overlay, 0x0101, 0x5a)?;
    overlay.share()?;
    first_alone_is_written(&rt, &overlay)
}

fn first_alone_is_written(rt: &impl Abort, overlay: &Overlay) -> Result<(), Fail> {
    let mut first = overlay.snapshot()?;
    let second = overlay.snapshot()?;
    write_first(rt, &mut first, [&second, overlay])
}

fn write_first(rt: &impl Abort, first: &mut Overlay, others: [&Overlay; 2]) -> Result<(), Fail> {
    put_two(first)?;
    assert!(rt; two_written(first) == [Some(0x11), Some(0x22)]);
    for other in others {
        assert!(rt; two_written(other) == [Some(0x5a), None]);
    }
    Ok(())
}

fn two_written(overlay: &Overlay) -> [Option<u8>; 2] {
    [overlay.written(0x0101), overlay.written(0x0102)]
}

#[test]
fn cells_are_shared_and_copied(rt: HostRuntime) -> Result<(), Fail> {
    let mut cells = Cells::new(rt.alloc())?;
    cells.ready(0x0101)?;
    cells.write(0x0101, 0x5a);
    cells.share()?;
    let beneath = Beneath::of(&[0; 256], &Vec::new(rt.alloc()));
    let marks = BlankMarks::new(rt.alloc())?;
    let mut copy = Overlay::from_parts(marks, cells.snapshot()?, beneath);
    copy_is_as_before(&rt, &mut cells, &mut copy)
}

fn copy_is_as_before(rt: &impl Abort, cells: &mut Cells, copy: &mut Overlay) -> Result<(), Fail> {
    cells.ready(0x0101)?;
    assert!(rt; cells.written(0x0101) == Some(0x5a));
    cells.write(0x0101, 0x11);
    assert!(rt; [copy.written(0x0101), cells.written(0x0101)] == [Some(0x5a), Some(0x11)]);
    assert!(rt; copy.take_look() == None);
    Ok(())
}

#[test]
fn words_of_known_cells_are_read_at_once(rt: HostRuntime) -> Result<(), Fail> {
    let mut overlay = Overlay::new(rt.alloc())?;
    put(&mut overlay, 0xfffe, 0x34)?;
    put(&mut overlay, 0xffff, 0x12)?;
    put(&mut overlay, 0x0000, 0x56)?;
    assert!(rt; overlay.known_word(0xfffe) == Some(0x1234));
    // The word at 0FFFFH, whose high byte is in 0000H, is read cell by cell; 0FFFDH is not known.
    assert!(rt; overlay.known_word(0xffff).is_none());
    assert!(rt; overlay.known_word(0xfffd).is_none());
    Ok(())
}

#[test]
fn an_opcode_is_learned_until_its_cell_is_written(rt: HostRuntime) -> Result<(), Fail> {
    let mut overlay = Overlay::new(rt.alloc())?;
    overlay.learn_opcode(0x0100);
    assert!(rt; overlay.learned_opcode(0x0100) == HLT);
    put(&mut overlay, 0x0100, 0x04)?;
    assert!(rt; overlay.learned_opcode(0x0100) == HLT);
    overlay.learn_opcode(0x0100);
    assert!(rt; overlay.learned_opcode(0x0100) == 0x04);
    put(&mut overlay, 0x0100, 0x05)?;
    assert!(rt; overlay.learned_opcode(0x0100) == HLT);
    in_the_system_area(&rt, &mut overlay)
}

fn in_the_system_area(rt: &impl Abort, overlay: &mut Overlay) -> Result<(), Fail> {
    put(overlay, 0xfdff, 0x04)?;
    put(overlay, 0xfe00, 0x04)?;
    overlay.learn_opcode(0xfdff);
    overlay.learn_opcode(0xfe00);
    assert!(rt; overlay.learned_opcode(0xfdff) == 0x04);
    assert!(rt; overlay.learned_opcode(0xfe00) == HLT);
    Ok(())
}

#[test]
fn an_opcode_is_learned_once_its_operand_is_known(rt: HostRuntime) -> Result<(), Fail> {
    const JMP: u8 = 0xc3;
    let mut overlay = Overlay::new(rt.alloc())?;
    put(&mut overlay, 0x0100, JMP)?;
    put(&mut overlay, 0x0101, 0x34)?;
    overlay.learn_opcode(0x0100);
    assert!(rt; overlay.learned_opcode(0x0100) == HLT);
    put(&mut overlay, 0x0102, 0x12)?;
    overlay.learn_opcode(0x0100);
    assert!(rt; overlay.learned_opcode(0x0100) == JMP);
    // Another operand does not change the opcode.
    put(&mut overlay, 0x0102, 0x56)?;
    assert!(rt; overlay.learned_opcode(0x0100) == JMP);
    Ok(())
}
