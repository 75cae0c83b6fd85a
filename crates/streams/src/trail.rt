// Paths that only contracts see.

ghost use Rattle.std.specs.Prelude.{◌≡◌, [], ◌∷◌};
ghost use Rattle.streams.specs.Trails.{paths};

use boxcar::tag::{Names, Tag};

/// Paths that contracts see, the last one first. They take no memory, and nothing is done with them when the program runs.
#[derive(Drop)]
pub struct Trail {
    /// The lengths of the paths.
    lengths: Tag,
    /// The bytes of the paths, one after the other.
    bytes: Tag,
}

impl Trail {
    /// Returns no paths.
    pub fn new() -> Trail
        ensures { paths result ≡ [] }
    {
        Trail {
            lengths: Tag::empty(),
            bytes: Tag::empty(),
        }
    }

    /// Returns the same paths and one more.
    pub fn and(&self, path: &str) -> Trail
        ensures { paths result ≡ path.now ∷ paths self.now }
    {
        let more = WithPath { path, trail: self };
        Trail {
            lengths: Tag::of::<WithPath<'_>, Lengths>(&more),
            bytes: Tag::of::<WithPath<'_>, Bytes>(&more),
        }
    }
}

// Paths, and one more.
#[derive(Drop)]
struct WithPath<'a> {
    path: &'a str,
    trail: &'a Trail,
}

struct Lengths;

struct Bytes;

impl<'a> Names<WithPath<'a>> for Lengths {
    ghost use Rattle.std.specs.Prelude.{◌∷◌, length};

    ghost numbers = { λ w. length w.path.now ∷ w.trail.now.lengths.numbers };
}

impl<'a> Names<WithPath<'a>> for Bytes {
    ghost use Rattle.std.specs.Prelude.{◌++◌};

    ghost numbers = { λ w. w.path.now ++ w.trail.now.bytes.numbers };
}
