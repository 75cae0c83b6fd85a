// Which file or folder is at a path.

ghost use Rattle.std.specs.Prelude.{IfErr};
ghost use Rattle.folders.specs.Failures.{KeepsFiles};
ghost use Rattle.folders.specs.Faults.{FailsBy, IsReadFault, failure_paths};
ghost use Rattle.disks.specs.Given.{IsEitherFault};

use folders::{Failure, FileSystem, Id, read_failure};

/// Returns which regular file or folder is at a path, or `None` if neither is there.
pub fn id_at<S: FileSystem>(system: &mut S, path: &str) -> Result<Option<Id>, Failure>
    ensures fault { IfErr result (FailsBy (IsReadFault path.now)) }
    ensures unchanged { KeepsFiles failure_paths result (S.files system.old) (S.files system.new) }
{
    let named = String::from_str(system.alloc(), path)?;
    match system.id(path) {
        Ok(id) => Ok(id),
        Err(error) => Err(read_failure(error, named)),
    }
}

/// Returns whether the same regular file or folder is at two paths.
pub fn are_same<S: FileSystem>(system: &mut S, one: &str, other: &str) -> Result<bool, Failure>
    ensures fault { IfErr result (FailsBy (IsEitherFault one.now other.now)) }
    ensures unchanged { KeepsFiles failure_paths result (S.files system.old) (S.files system.new) }
{
    let Some(id) = id_at(system, one)? else {
        return Ok(false);
    };
    Ok(id_at(system, other)? == Some(id))
}
