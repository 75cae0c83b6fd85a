ghost use Rattle.std.specs.Prelude.{◌≡◌, true, false, ◌<◌, ◌≤◌, ◌+◌, ◌*◌, ◌⊎◌, ◌%◌, ◌∷◌, ◌++◌, [], ℕ, IsTrue, IfOk, OnOk, OnErr};
ghost use Rattle.std.specs.Prelude.{IfNone, IfSome, None, Some, length, slice_index, is_some};
ghost use Rattle.i8080.specs.End.{cells_from};
ghost use Rattle.i8080.specs.Instruction.{one_byte, one_word};
ghost use Rattle.i8080.specs.Memory.{bytes, look, with_look, with_writes, is_among, over};
ghost use Rattle.i8080.specs.Registers.{onward, word};
ghost use Rattle.pagemem.specs.Cells.{own_in, is_ready_in};
ghost use Rattle.i8080.specs.Attempts.{IsKept};
ghost use Rattle.i8080.specs.Opcodes.{decoded};
ghost use Rattle.i8080.specs.Operands.{byte_count};
ghost use Rattle.pagemem.specs.Known.{is_known, byte_in, AreKnownCells, IsKnownCell};
ghost use Rattle.pagemem.specs.Learned.{AreKnown};
ghost use Rattle.pagemem.specs.Beneath.{cells_beneath};

use crate::beneath::Beneath;
use crate::cells::Cells;
use crate::image::Image;
use crate::known::{Known, SYSTEM_AREA};
use crate::looks::Looks;
use std::alloc::{AllocError, Global};

/// What a run wrote, with the cells that it looked at, and the bytes of the cells that are known over one image.
#[derive(Drop)]
pub struct Overlay {
    cells: Cells,
    looks: Looks,
    pub(crate) known: Known,
    beneath: Beneath,
    ghost agrees: { (q : ℕ) → IsTrue (is_known known q)
        → IsKnownCell (own_in cells) (cells_beneath beneath) looks q (byte_in known q) },
}

/// The memory for the marks of an overlay, with no looks and no known cells. A discarded overlay passes it to the next one, so that it is
/// neither allocated nor cleared again.
#[derive(Drop)]
pub struct BlankMarks {
    looks: Looks,
    known: Known,
    ghost unlooked: { looks ≡ [] },
    ghost unknown: { (q : ℕ) → is_known known q ≡ false },
}

impl BlankMarks {
    /// Allocates the memory. `Err` means out of memory.
    pub fn new(alloc: Global) -> Result<BlankMarks, AllocError> {
        let looks = Looks::new(alloc)?;
        let known = Known::new(alloc)?;
        Ok(BlankMarks { looks, known })
    }
}

impl Overlay {
    ghost use Rattle.pagemem.specs.ImageView.{cells_of};
    ghost use Rattle.pagemem.specs.Overlay.{own_of, looks_of, is_ready_at, is_known_at, opcode_at, parts_beneath, beneath_of, memory_of, memory_over};

    /// Creates an overlay with nothing written and no looks. `Err` means out of memory.
    pub fn new(alloc: Global) -> Result<Overlay, AllocError>
        ensures own { IfOk result (λ o. own_of o ≡ (λ _. None)) }
        ensures looks { IfOk result (λ o. looks_of o ≡ []) }
    {
        let cells = Cells::new(alloc)?;
        let beneath = no_image(alloc);
        Ok(Overlay::from_parts(BlankMarks::new(alloc)?, cells, beneath))
    }

    /// Creates an overlay of these cells, with no looks, whose known cells belong to this image. Allocates nothing.
    pub fn from_parts(marks: BlankMarks, cells: Cells, beneath: Beneath) -> Overlay
        ensures own { own_of result ≡ own_in cells }
        ensures looks { looks_of result ≡ [] }
        ensures ready { is_ready_at result ≡ is_ready_in cells }
        ensures beneath { beneath_of result ≡ cells_beneath beneath }
    {
        let BlankMarks { looks, known } = marks;
        Overlay {
            cells,
            looks,
            known,
            beneath,
        }
    }

    /// Returns the cells and the cleared marks. Allocates nothing, and takes time proportional to the number of looks and of pages.
    pub fn into_parts(self) -> (Cells, BlankMarks)
        ensures own { own_in result.0 ≡ own_of self }
        ensures ready { is_ready_in result.0 ≡ is_ready_at self }
    {
        let mut overlay = self;
        overlay.forget_looks();
        let Overlay {
            cells,
            looks,
            mut known,
            beneath: _,
        } = overlay;
        remove_written(&mut known, &cells);
        (cells, BlankMarks { looks, known })
    }

    // Removes all looks.
    fn forget_looks(&mut self)
        ensures own { own_of self.new ≡ own_of self.old }
        ensures looks { looks_of self.new ≡ [] }
        ensures ready { is_ready_at self.new ≡ is_ready_at self.old }
    {
        while let Some(_) = self.take_look() {}
    }

    /// Returns the written bytes, in pages that are then shared with this overlay: a page that was owned is copied, and any
    /// other costs a reference. What was written and looked at does not change, but cells may have to be made ready again. `Err`
    /// means out of memory.
    pub fn shared_cells(&mut self) -> Result<Cells, AllocError>
        ensures cells { IfOk result (λ c. own_in c ≡ own_of self.old) }
        ensures shared { IfOk result (λ c. (q : ℕ) → is_ready_in c q ≡ false) }
        ensures memory { memory_of self.new ≡ memory_of self.old }
        ensures beneath { parts_beneath self.new ≡ parts_beneath self.old }
    {
        self.share()?;
        self.cells.snapshot()
    }

    /// Makes a cell ready to be written. No byte and no look changes. `Err` means out of memory; the cell was then not ready, and
    /// nothing has changed.
    #[inline(always)]
    pub fn ready(&mut self, a: u16) -> Result<(), AllocError>
        ensures ready { OnOk result (IsTrue (is_ready_at self.new a)) }
        ensures err { OnErr result (is_ready_at self.new ≡ is_ready_at self.old) }
        ensures refused { OnErr result (is_ready_at self.old a ≡ false) }
        ensures kept { (q : ℕ) → IsTrue (is_ready_at self.old q) → IsTrue (is_ready_at self.new q) }
        ensures memory { memory_of self.new ≡ memory_of self.old }
    {
        self.cells.ready(a)
    }

    /// Returns the byte that was last written to a cell, or `None` if none was. This is no look.
    pub fn written(&self, a: u16) -> Option<u8>
        ensures { result ≡ own_of self.now a }
    {
        self.cells.written(a)
    }

    /// Returns whether a cell was looked at.
    pub fn looked(&self, a: u16) -> bool
        ensures { result ≡ is_among a (looks_of self.now) }
    {
        self.looks.contains(a)
    }

    /// Returns whether a cell may be written.
    #[inline(always)]
    pub fn is_ready(&self, a: u16) -> bool
        ensures { result ≡ is_ready_at self.now a }
    {
        self.cells.is_ready(a)
    }

    /// Returns the byte of a cell over any image: the written one if there is one, otherwise the image's, which is a look. No cell
    /// becomes known.
    #[inline(always)]
    pub fn read(&mut self, image: Image<'_>, a: u16) -> u8
        ensures value { result ≡ over (own_of self.old) (cells_of image.entry) a }
        ensures kept { (q : ℕ) → IsTrue (is_ready_at self.old q) → IsTrue (is_ready_at self.new q) }
        ensures memory { memory_of self.new ≡ with_look a (memory_of self.old) }
    {
        match self.cells.written(a) {
            Some(value) => value,
            None => {
                self.looks.add(a);
                image.at(a)
            }
        }
    }

    /// Returns the byte of a cell over the image that the known cells belong to. The cell may be known from then on.
    #[inline(always)]
    pub fn learn(&mut self, image: Image<'_>, a: u16) -> u8
        requires { beneath_of self.old ≡ cells_of image }
        ensures value { result ≡ over (own_of self.old) (cells_of image.entry) a }
        ensures kept { (q : ℕ) → IsTrue (is_ready_at self.old q) → IsTrue (is_ready_at self.new q) }
        ensures memory { memory_of self.new ≡ with_look a (memory_of self.old) }
    {
        let byte = self.read(image, a);
        self.known.set(a, byte);
        byte
    }

    /// Returns the byte of a cell, or `None` if the cell is not known. This is no new look.
    #[inline(always)]
    pub fn known(&self, a: u16) -> Option<u8>
        ensures value { IfSome result (λ v. v ≡ over (own_of self.now) (beneath_of self.now) a) }
        ensures unlooked { IfSome result (λ _.
            look (own_of self.now) (looks_of self.now) a ≡ looks_of self.now) }
        ensures unknown { IfNone result (is_known_at self.now a ≡ false) }
    {
        self.known.get(a)
    }

    /// Returns the learned opcode of a cell, or HLT if it has none. This is no new look.
    #[inline(always)]
    pub fn learned_opcode(&self, a: u16) -> u8
        ensures kept { result ≡ opcode_at self.now a }
        ensures value { IsKept result → result ≡ over (own_of self.now) (beneath_of self.now) a }
        ensures unlooked { IsKept result
            → look (own_of self.now) (looks_of self.now) a ≡ looks_of self.now }
        ensures operand { IsKept result
            → AreKnown (is_known_at self.now) a (byte_count (decoded result)) }
        ensures low { IsKept result → a < SYSTEM_AREA }
    {
        self.known.opcode(a)
    }

    /// Learns the byte of a cell as an opcode, if each byte of the instruction is known and the cell is below the system area. This is
    /// no look.
    #[inline(always)]
    pub fn learn_opcode(&mut self, a: u16)
        ensures memory { memory_of self.new ≡ memory_of self.old }
        ensures ready { is_ready_at self.new ≡ is_ready_at self.old }
        ensures beneath { parts_beneath self.new ≡ parts_beneath self.old }
        ensures learned { AreKnown (is_known_at self.old) a
            (byte_count (decoded (bytes (memory_of self.old) a))) → a < SYSTEM_AREA
            → opcode_at self.new a ≡ bytes (memory_of self.old) a }
    {
        self.known.learn_opcode(a)
    }

    /// Returns the word at an address, low byte first, if both of its cells are known, or `None`, as for the word at 0FFFFH. This is no
    /// new look.
    #[inline(always)]
    pub fn known_word(&self, a: u16) -> Option<u16>
        ensures value { IfSome result (λ w. w ≡ word (over (own_of self.now) (beneath_of self.now) a)
            (over (own_of self.now) (beneath_of self.now) (onward a 1))) }
        ensures low { IfSome result (λ _.
            look (own_of self.now) (looks_of self.now) a ≡ looks_of self.now) }
        ensures high { IfSome result (λ _.
            look (own_of self.now) (looks_of self.now) (onward a 1) ≡ looks_of self.now) }
    {
        self.known.word(a)
    }

    /// Writes a ready cell.
    #[inline(always)]
    pub fn write(&mut self, a: u16, value: u8)
        requires { IsTrue (is_ready_at self.old a) }
        ensures kept { (q : ℕ) → IsTrue (is_ready_at self.old q) → IsTrue (is_ready_at self.new q) }
        ensures memory { memory_of self.new ≡ with_writes (one_byte a value) (memory_of self.old) }
    {
        self.cells.write(a, value);
        self.known.set(a, value);
    }

    // Writes bytes to ready cells of one page, starting at `at`.
    #[inline(always)]
    fn write_in_page(&mut self, at: u16, values: &[u8])
        requires ready { IsTrue (is_ready_at self.old at) }
        requires page { at % 256 + length values.now ≤ 256 }
        ensures kept { (q : ℕ) → IsTrue (is_ready_at self.old q) → IsTrue (is_ready_at self.new q) }
        ensures memory { memory_of self.new ≡ with_writes (cells_from at values.now) (memory_of self.old) }
    {
        self.cells.write_in_page(at, values);
        self.known.set_cells(at, values);
    }

    /// Writes a word, low byte first, to two cells of a page that is ready.
    #[inline(always)]
    pub fn write_word(&mut self, a: u16, value: u16)
        requires ready { IsTrue (is_ready_at self.old a) }
        requires page { a % 256 < 255 }
        ensures kept { (q : ℕ) → IsTrue (is_ready_at self.old q) → IsTrue (is_ready_at self.new q) }
        ensures memory { memory_of self.new ≡ with_writes (one_word a value) (memory_of self.old) }
    {
        self.write_in_page(a, &[(value % 256) as u8, (value / 256) as u8])
    }

    /// Writes bytes to ready cells, starting at `at`; the cell after 0FFFFH is 0000H.
    #[inline(always)]
    pub fn write_cells(&mut self, at: u16, values: &[u8])
        requires { (i : ℕ) → i < length values.now → IsTrue (is_ready_at self.old (onward at i)) }
        ensures kept { (q : ℕ) → IsTrue (is_ready_at self.old q) → IsTrue (is_ready_at self.new q) }
        ensures memory { memory_of self.new ≡ with_writes (cells_from at values.now) (memory_of self.old) }
    {
        if !values.is_empty() && values.len() <= 256 - usize::from(at % 256) {
            // The usual case, in which the count is often a constant at the call.
            return self.write_in_page(at, values);
        }
        self.write_in_pages(at, values)
    }

    // Does the same, one page after another.
    #[inline(never)]
    fn write_in_pages(&mut self, at: u16, values: &[u8])
        requires { (i : ℕ) → i < length values.now → IsTrue (is_ready_at self.old (onward at i)) }
        ensures kept { (q : ℕ) → IsTrue (is_ready_at self.old q) → IsTrue (is_ready_at self.new q) }
        ensures memory { memory_of self.new ≡ with_writes (cells_from at values.now) (memory_of self.old) }
    {
        let mut address = at;
        let mut done = 0;
        while done < values.len() {
            let count = count_in_page(address, values.len() - done);
            self.write_in_page(address, &values[done..done + count]);
            address = address.wrapping_add(count as u16);
            done += count;
        }
    }

    /// Makes `count` cells ready, starting at `at`; the cell after 0FFFFH is 0000H. No byte and no look changes. `Err` means
    /// out of memory; one of the cells was then not ready, and some may be ready now. Cells that were ready always stay ready.
    #[tactic(auto, using(i8080::proofs::ReadyLemmas::unready_before))]
    pub fn ready_cells(&mut self, at: u16, count: u16) -> Result<(), AllocError>
        ensures ready { OnOk result ((i : ℕ) → i < count
            → IsTrue (is_ready_at self.new (onward at i))) }
        ensures refused { OnErr result ((i : ℕ) × (i < count)
            × (is_ready_at self.old (onward at i) ≡ false)) }
        ensures kept { (q : ℕ) → IsTrue (is_ready_at self.old q) → IsTrue (is_ready_at self.new q) }
        ensures memory { memory_of self.new ≡ memory_of self.old }
    {
        // One cell of each page: making it ready makes the page ready.
        let mut done = 0;
        while done < u32::from(count) {
            let address = at.wrapping_add(done as u16);
            self.ready(address)?;
            done += 256 - u32::from(address % 256);
        }
        Ok(())
    }

    /// Copies the bytes of cells of one page over the image that the known cells belong to, starting at `at`, if all of them are
    /// known. This is no new look. Returns `false` otherwise; the bytes in `cells` are then unspecified.
    #[inline(always)]
    pub fn copy_known(&self, at: u16, cells: &mut [u8]) -> bool
        ensures length { length cells.new ≡ length cells.old }
        ensures known { result ≡ true → AreKnownCells (memory_of self.now) at cells.new }
    {
        cells.len() <= 256 - usize::from(at % 256) && self.known.copy_to(at, cells)
    }

    /// Copies the bytes of cells over an image, starting at `at`, if each was written or looked at before; the cell after
    /// 0FFFFH is 0000H. This is no look. Returns `false` otherwise; the bytes in `cells` are then unspecified.
    #[inline(always)]
    pub fn seen_cells(&self, image: Image<'_>, at: u16, cells: &mut [u8]) -> bool
        ensures length { length cells.new ≡ length cells.old }
        ensures known { result ≡ true → AreKnownCells (memory_over image.entry self.now) at cells.new }
    {
        if cells.len() <= 256 - usize::from(at % 256) {
            // The usual case, in which the count is often a constant at the call.
            return self.seen_in_page(image, at, cells);
        }
        self.seen_in_pages(image, at, cells)
    }

    // Does the same, one page after another.
    #[inline(never)]
    fn seen_in_pages(&self, image: Image<'_>, at: u16, cells: &mut [u8]) -> bool
        ensures length { length cells.new ≡ length cells.old }
        ensures known { result ≡ true → AreKnownCells (memory_over image.entry self.now) at cells.new }
    {
        let mut address = at;
        let mut copied = 0;
        while copied < cells.len() {
            let count = count_in_page(address, cells.len() - copied);
            if !self.seen_in_page(image, address, &mut cells[copied..copied + count]) {
                return false;
            }
            address = address.wrapping_add(count as u16);
            copied += count;
        }
        true
    }

    // Does the same within a page.
    #[inline(always)]
    fn seen_in_page(&self, image: Image<'_>, at: u16, cells: &mut [u8]) -> bool
        requires { at % 256 + length cells.old ≤ 256 }
        ensures length { length cells.new ≡ length cells.old }
        ensures known { result ≡ true → AreKnownCells (memory_over image.entry self.now) at cells.new }
    {
        let Some(beneath) = image.cells(at, cells.len()) else {
            return false;
        };
        let marks = self.looks.marks(at, cells.len());
        self.cells.copy_over(at, beneath, marks, cells)
    }

    /// Returns the number of cells that were looked at.
    #[inline(always)]
    pub fn look_count(&self) -> usize
        ensures { result ≡ length (looks_of self.now) }
    {
        self.looks.len()
    }

    /// Returns the cell of the look with this index, in the order of the looks.
    pub fn nth_look(&self, index: usize) -> u16
        requires { index < length (looks_of self.now) }
        ensures { result ≡ slice_index (looks_of self.now) index }
    {
        self.looks.nth(index)
    }

    /// Removes the last look and returns its cell, or `None` if there are no looks. Allocates nothing, and the same cells
    /// stay ready.
    pub fn take_look(&mut self) -> Option<u16>
        ensures none { IfNone result ((looks_of self.old ≡ []) × (looks_of self.new ≡ [])) }
        ensures some { IfSome result (λ a. looks_of self.old ≡ looks_of self.new ++ a ∷ []) }
        ensures own { own_of self.new ≡ own_of self.old }
        ensures ready { is_ready_at self.new ≡ is_ready_at self.old }
        ensures beneath { beneath_of self.new ≡ beneath_of self.old }
    {
        let last = self.looks.take()?;
        self.known.remove(last);
        Some(last)
    }

    /// Makes the owned pages shared, by a copy of each, so that a snapshot only needs a reference to each. What was written and
    /// looked at does not change, but cells may have to be made ready again. `Err` means out of memory; a cell was then ready.
    pub fn share(&mut self) -> Result<(), AllocError>
        ensures shared { OnOk result ((q : ℕ) → is_ready_at self.new q ≡ false) }
        ensures refused { OnErr result ((q : ℕ) × IsTrue (is_ready_at self.old q)) }
        ensures memory { memory_of self.new ≡ memory_of self.old }
        ensures beneath { parts_beneath self.new ≡ parts_beneath self.old }
    {
        self.cells.share()
    }

    /// Returns an overlay with the same written bytes and the same looks. `Err` means out of memory.
    pub fn snapshot(&self) -> Result<Overlay, AllocError>
        ensures own { IfOk result (λ o. own_of o ≡ own_of self.now) }
        ensures looks { IfOk result (λ o. looks_of o ≡ looks_of self.now) }
        ensures ready { IfOk result (λ o. (q : ℕ) → is_ready_at o q ≡ is_ready_at self.now q) }
    {
        let cells = self.cells.snapshot()?;
        let looks = self.looks.snapshot()?;
        let known = Known::new(self.cells.allocator())?;
        let beneath = no_image(self.cells.allocator());
        Ok(Overlay {
            cells,
            looks,
            known,
            beneath,
        })
    }
}

// Returns an image for an overlay of which no cell is known.
fn no_image(alloc: Global) -> Beneath {
    Beneath::of(&[0; 256], &Vec::new(alloc))
}

// Removes all known cells, each of which was written.
fn remove_written(known: &mut Known, cells: &Cells)
    requires { (q : ℕ) → is_known known.old q ≡ true → is_some (own_in cells.now q) ≡ true }
    ensures { (q : ℕ) → is_known known.new q ≡ false }
{
    for page in 0..256 {
        remove_written_in(known, cells, page);
    }
}

// Removes the known cells of a page, each of which was written.
fn remove_written_in(known: &mut Known, cells: &Cells, page: usize)
    requires page { page < 256 }
    requires written { (q : ℕ) → is_known known.old q ≡ true → is_some (own_in cells.now q) ≡ true }
    ensures kept { (q : ℕ) → is_known known.new q ≡ true → is_known known.old q ≡ true }
    ensures gone { (q : ℕ) → is_known known.new q ≡ true → (q < 256 * page) ⊎ (256 * page + 256 ≤ q) }
{
    if cells.has_page(page) {
        known.remove_page(page);
    }
}

// Returns how many of `left` bytes fit in the page of a cell, starting with this cell.
fn count_in_page(address: u16, left: usize) -> usize
    ensures within { (result ≤ left) × (address % 256 + result ≤ 256) }
    ensures some { 0 < left → 0 < result }
{
    let room = 256 - usize::from(address % 256);
    if left < room { left } else { room }
}
