ghost use Rattle.std.specs.Prelude.{◌≡◌, ℕ, Bool};
ghost use Rattle.pagemem.specs.Overlay.{is_ready_at, beneath_of};
ghost use Rattle.pagemem.specs.ImageView.{cells_of};

use crate::image::Image;
use crate::overlay::Overlay;
use i8080::Bus;
use std::alloc::AllocError;

/// An overlay's written cells laid over any image. No cell becomes known by a read.
#[derive(Drop)]
pub struct View<'a> {
    image: Image<'a>,
    overlay: &'a mut Overlay,
}

impl<'a> View<'a> {
    ghost use Rattle.pagemem.specs.View.{image_in, overlay_in};

    /// Joins an image and an overlay, which is lent for as long as the view exists.
    #[inline(always)]
    pub fn new(image: Image<'a>, overlay: &'a mut Overlay) -> View<'a>
        ensures image { image_in result ≡ image.entry }
        ensures overlay { overlay_in result ≡ overlay.entry }
    {
        View { image, overlay }
    }
}

/// An overlay's written cells laid over the image that its known cells belong to. Each cell that is read becomes known.
#[derive(Drop)]
pub struct LearningView<'a> {
    image: Image<'a>,
    overlay: &'a mut Overlay,
    ghost same_image: { beneath_of overlay.now ≡ cells_of image },
}

impl<'a> LearningView<'a> {
    ghost use Rattle.pagemem.specs.View.{learning_image, learning_overlay};

    /// Joins the image and the overlay, which is lent for as long as the view exists.
    #[inline(always)]
    pub fn new(image: Image<'a>, overlay: &'a mut Overlay) -> LearningView<'a>
        requires { beneath_of overlay.old ≡ cells_of image }
        ensures image { learning_image result ≡ image.entry }
        ensures overlay { learning_overlay result ≡ overlay.entry }
    {
        LearningView { image, overlay }
    }
}

impl Bus for View<'_> {
    ghost use Rattle.pagemem.specs.View.{memory_lent, image_in, overlay_in};

    ghost memory = { λ v. memory_lent (image_in v) (overlay_in v) };

    ghost is_ready = { λ v. is_ready_at (overlay_in v).now };

    #[inline(always)]
    fn ready(&mut self, a: u16) -> Result<(), AllocError> {
        self.overlay.ready(a)
    }

    #[inline(always)]
    fn read(&mut self, a: u16) -> u8 {
        let image = self.image;
        self.overlay.read(image, a)
    }

    #[inline(always)]
    fn write(&mut self, a: u16, value: u8) {
        self.overlay.write(a, value)
    }

    fn ready_cells(&mut self, at: u16, count: u16) -> Result<(), AllocError> {
        self.overlay.ready_cells(at, count)
    }

    fn write_cells(&mut self, at: u16, values: &[u8]) {
        self.overlay.write_cells(at, values)
    }

    #[inline(always)]
    fn cells_at_once(&self, at: u16, cells: &mut [u8]) -> bool {
        self.overlay.seen_cells(self.image, at, cells)
    }
}

impl Bus for LearningView<'_> {
    ghost use Rattle.pagemem.specs.View.{memory_lent, learning_image, learning_overlay};

    ghost memory = { λ v. memory_lent (learning_image v) (learning_overlay v) };

    ghost is_ready = { λ v. is_ready_at (learning_overlay v).now };

    #[inline(always)]
    fn ready(&mut self, a: u16) -> Result<(), AllocError> {
        self.overlay.ready(a)
    }

    #[inline(always)]
    fn read(&mut self, a: u16) -> u8 {
        match self.overlay.known(a) {
            Some(byte) => byte,
            None => {
                let image = self.image;
                self.overlay.learn(image, a)
            }
        }
    }

    #[inline(always)]
    fn write(&mut self, a: u16, value: u8) {
        self.overlay.write(a, value)
    }

    fn ready_cells(&mut self, at: u16, count: u16) -> Result<(), AllocError> {
        self.overlay.ready_cells(at, count)
    }

    #[inline(always)]
    fn write_cells(&mut self, at: u16, values: &[u8]) {
        self.overlay.write_cells(at, values)
    }

    #[inline(always)]
    fn cells_at_once(&self, at: u16, cells: &mut [u8]) -> bool {
        self.overlay.copy_known(at, cells) || self.overlay.seen_cells(self.image, at, cells)
    }

    #[inline(always)]
    fn known_word(&self, a: u16) -> Option<u16> {
        self.overlay.known_word(a)
    }
}
