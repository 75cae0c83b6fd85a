// The paths that a rule can have.

ghost use Rattle.std.specs.Prelude.{◌≡◌};
ghost use Rattle.std.specs.List.{list_all, list_any};
ghost use Rattle.make_rules.specs.Carried as carried;

// Returns whether a byte has a meaning in a rule that no backslash takes from it everywhere.
fn has_meaning(byte: u8) -> bool
    ensures { result ≡ carried.has_meaning byte }
{
    matches!(
        byte,
        9..=13 | b'%' | b'*' | b':' | b';' | b'=' | b'?' | b'[' | b'|'
    )
}

// Returns whether one of these bytes has such a meaning.
fn any_has_meaning(path: &[u8]) -> bool
    ensures { result ≡ list_any carried.has_meaning path.now }
{
    path.iter().any(|byte| has_meaning(*byte))
}

// Returns whether a byte has a meaning at the end of a path.
fn has_meaning_last(byte: u8) -> bool
    ensures { result ≡ carried.has_meaning_last byte }
{
    matches!(byte, b' ' | b'&' | b')' | b'\\')
}

// Returns whether a path ends with such a byte.
fn ends_with_meaning(path: &[u8]) -> bool
    ensures { result ≡ carried.ends_with_meaning path.now }
{
    path.last().is_some_and(|byte| has_meaning_last(*byte))
}

/// Returns a path as make reads it: without each leading `./` and the slashes after it, but `./` if nothing else is left.
pub fn as_read(path: &[u8]) -> &[u8]
    ensures { result.now ≡ carried.as_read path.now }
{
    let mut after = false;
    for index in 0..path.len() {
        let rest = &path[index + 1..];
        let is_dot = path[index] == b'.' && rest.len() > 1 && rest[0] == b'/';
        if !(after && path[index] == b'/' || is_dot) {
            return &path[index..];
        }
        after = true;
    }
    if after { b"./" } else { &[] }
}

// Returns whether a path that make reads is in a home folder.
fn has_home(path: &[u8]) -> bool
    ensures { result ≡ carried.has_home path.now }
{
    path.first().is_some_and(|byte| *byte == b'~')
}

// Returns whether these bytes are capitals.
fn are_capitals(bytes: &[u8]) -> bool
    ensures { result ≡ list_all carried.is_capital bytes.now }
{
    bytes
        .iter()
        .all(|byte| byte.is_ascii_uppercase() || *byte == b'_')
}

// Returns whether a path is named as make's own targets are.
fn is_own_target(path: &[u8]) -> bool
    ensures { result ≡ carried.is_own_target path.now }
{
    path.len() > 1 && path[0] == b'.' && are_capitals(&path[1..])
}

/// Returns whether a rule can have a path, as a target and as a prerequisite.
#[tactic(auto, unfolding(crate::specs::Carried::is_carried))]
pub fn is_carried(path: &[u8]) -> bool
    ensures { result ≡ carried.is_carried path.now }
{
    !path.is_empty()
        && !any_has_meaning(path)
        && !ends_with_meaning(path)
        && !has_home(as_read(path))
        && !is_own_target(as_read(path))
}

// Returns whether a byte has a meaning within a call of a function of make.
fn has_meaning_in_call(byte: u8) -> bool
    ensures { result ≡ carried.has_meaning_in_call byte }
{
    matches!(byte, b' ' | b'#' | b'(' | b')' | b',' | b'\\')
}

/// Returns whether a call of a function of make can have a path.
pub fn fits_call(path: &[u8]) -> bool
    ensures { result ≡ carried.fits_call path.now }
{
    for byte in path {
        if has_meaning_in_call(*byte) {
            return false;
        }
    }
    true
}
