ghost use Rattle.std.specs.Prelude.{◌≡◌, ◌<◌, ◌≤◌, ◌+◌, ◌%◌, ℕ, IfSome, length, slice_index};
ghost use Rattle.pagemem.specs.Image.{image_at};

/// The cells of a page past the program.
static ZEROS: [u8; 256] = [0; 256];

/// Page zero and the program, borrowed. Every other cell is 0.
#[derive(Clone, Copy)]
pub struct Image<'a> {
    page_zero: &'a [u8; 256],
    program: &'a [u8],
    ghost bounded: { length program.now ≤ 64512 },
}

impl<'a> Image<'a> {
    ghost use Rattle.pagemem.specs.ImageView.{cells_of};

    /// Returns the image of page zero and of a program, which starts at 0100H.
    #[inline(always)]
    pub fn new(page_zero: &'a [u8; 256], program: &'a [u8]) -> Image<'a>
        requires { length program.now ≤ 64512 }
        ensures { cells_of result ≡ image_at page_zero.now program.now }
    {
        Image { page_zero, program }
    }

    /// Returns the byte of a cell.
    #[inline(always)]
    pub fn at(self, a: u16) -> u8
        ensures { result ≡ cells_of self.entry a }
    {
        // Below 0100H this wraps to at least 65,280, which is past every program.
        let at = a.wrapping_sub(256) as usize;
        if at < self.program.len() {
            self.program[at]
        } else if a < 256 {
            self.page_zero[a as usize]
        } else {
            0
        }
    }

    /// Returns the bytes of `count` cells of one page, starting at `at`, if they are contiguous: all in page zero, all in the
    /// program, or all past it.
    #[inline(always)]
    pub fn cells(self, at: u16, count: usize) -> Option<&'a [u8]>
        requires { at % 256 + count ≤ 256 }
        ensures length { IfSome result (λ b. length b.now ≡ count) }
        ensures bytes { IfSome result (λ b. (i : ℕ) → i < count
            → slice_index b.now i ≡ cells_of self.entry (at + i)) }
    {
        let (page_zero, program) = (self.page_zero, self.program);
        let start = usize::from(at);
        if start < 256 {
            return Some(&page_zero[start..start + count]);
        }
        let from = start - 256;
        if from >= program.len() {
            return Some(&ZEROS[..count]);
        }
        if count > program.len() - from {
            return None;
        }
        Some(&program[from..from + count])
    }
}
