// Patterns of file names.

ghost use Rattle.std.specs.Prelude.{◌≡◌};
ghost use Rattle.directory.specs.Entries.{is_match};

use keymaps::Key;

/// Returns whether a key matches a pattern: the drives are equal, and so are the bytes of the names, except for each `?` of
/// the pattern.
#[tactic(auto, using(crate::proofs::Patterns::byte_by_byte))]
pub fn is_match(pattern: &Key, key: &Key) -> bool
    ensures { result ≡ is_match pattern.now key.now }
{
    if pattern[0] != key[0] {
        return false;
    }
    for i in 1..12 {
        if pattern[i] != b'?' && pattern[i] != key[i] {
            return false;
        }
    }
    true
}
