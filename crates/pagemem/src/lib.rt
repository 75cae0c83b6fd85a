//! The bytes that a run wrote and the cells that it looked at, in pages over a borrowed image; and plain memory.
//!
//! - `page`, `cells`: a page of 256 cells, and a slot, which is empty or has an owned or shared page; the 256 slots of what a
//!   run wrote
//! - `image`: page zero and the program, borrowed
//! - `looks`: the cells that were looked at, in order
//! - `known`, `beneath`, `known_access`: the bytes of known cells; the image that they belong to; known cells as an `Access`
//! - `overlay`, `view`: cells, looks and known cells together; an overlay laid over an image, as a `Bus` that
//!   learns or not
//! - `plain`, `agreement`: a list of bytes as a `Bus`; the law that memories with the same bytes agree
#![tactic(auto)]

mod agreement;
mod beneath;
mod cells;
mod image;
mod known;
mod known_access;
mod looks;
mod overlay;
mod page;
mod plain;
mod view;

pub use agreement::memories_agree;
pub use beneath::Beneath;
pub use cells::Cells;
pub use image::Image;
pub use known::SYSTEM_AREA;
pub use known_access::Refused;
pub use overlay::{BlankMarks, Overlay};
pub use plain::PlainMemory;
pub use view::{LearningView, View};
