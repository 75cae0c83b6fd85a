// Paths as a rule has them.

ghost use Rattle.std.specs.Prelude.{◌≡◌, ◌<◌, ◌^◌, ◌++◌, OnOk, map, string_bytes};
ghost use Rattle.std.specs.List.{flat_map};
ghost use Rattle.make_rules.specs.Escapes.{argument, doubled, escaped, marks, prerequisite};

use std::alloc::AllocError;

/// Appends a path as a rule has it: blanks and `#` after a backslash and with the backslashes before them doubled, `$` doubled.
pub fn push_make_path(text: &mut Vec<u8>, path: &[u8]) -> Result<(), AllocError>
    ensures { OnOk result (text.new.items ≡ text.old.items ++ escaped path.now) }
{
    let mut slashes = 0;
    for byte in path {
        push_marks(text, slashes, *byte)?;
        text.push(*byte)?;
        slashes = if *byte == b'\\' { slashes + 1 } else { 0 };
    }
    Ok(())
}

// Appends what comes before a byte that follows these backslashes.
fn push_marks(text: &mut Vec<u8>, slashes: usize, byte: u8) -> Result<(), AllocError>
    requires { slashes < 2 ^ 63 }
    ensures { OnOk result (text.new.items ≡ text.old.items ++ marks slashes byte) }
{
    match byte {
        b'$' => Ok(text.push(b'$')?),
        b' ' | b'#' => Ok(text.resize(text.len() + slashes + 1, b'\\')?),
        _ => Ok(()),
    }
}

// Appends a path with each `$` doubled.
fn push_doubled(text: &mut Vec<u8>, path: &[u8]) -> Result<(), AllocError>
    ensures { OnOk result (text.new.items ≡ text.old.items ++ doubled path.now) }
{
    for byte in path {
        if *byte == b'$' {
            text.push(b'$')?;
        }
        text.push(*byte)?;
    }
    Ok(())
}

/// Appends paths on which a target depends, each after a blank.
pub fn push_prerequisites(text: &mut Vec<u8>, paths: &[String]) -> Result<(), AllocError>
    ensures { OnOk result
        (text.new.items ≡ text.old.items ++ flat_map prerequisite (map string_bytes paths.now)) }
{
    for path in paths {
        text.push(b' ')?;
        push_make_path(text, path.as_bytes())?;
    }
    Ok(())
}

/// Appends paths within a call, each after a blank.
pub fn push_arguments(text: &mut Vec<u8>, paths: &[String]) -> Result<(), AllocError>
    ensures { OnOk result
        (text.new.items ≡ text.old.items ++ flat_map argument (map string_bytes paths.now)) }
{
    for path in paths {
        text.push(b' ')?;
        push_doubled(text, path.as_bytes())?;
    }
    Ok(())
}
