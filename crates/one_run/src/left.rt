// What ended runs left on the disks of a run.

ghost use Rattle.std.specs.Prelude.{◌≡◌, ◌++◌, IfOk, OnOk, map, string_bytes};
ghost use Rattle.one_run.specs.Left as left;

use folders::{DriveFolder, path_in};
use std::alloc::{AllocError, Global};

// Adds the paths of what was left in a folder.
fn push_left(
    alloc: Global,
    paths: &mut Vec<String>,
    disk: &DriveFolder<'_>,
) -> Result<(), AllocError>
    ensures { OnOk result (map string_bytes paths.new.items
        ≡ map string_bytes paths.old.items ++ left.left_in disk.now) }
{
    for name in disk.listing.left.as_slice() {
        paths.push(path_in(alloc, disk.folder, name.as_str())?)?;
    }
    Ok(())
}

/// Returns the paths at which ended runs left new contents of files of these disks.
///
/// # Errors
///
/// `Err` means out of memory.
pub fn left_paths(
    alloc: Global,
    disks: &[Option<DriveFolder<'_>>; 4],
) -> Result<Vec<String>, AllocError>
    ensures { IfOk result (λ paths. map string_bytes paths.items ≡ left.left_on disks.now) }
{
    let mut paths = Vec::new(alloc);
    for disk in disks {
        if let Some(disk) = disk {
            push_left(alloc, &mut paths, disk)?;
        }
    }
    Ok(paths)
}
