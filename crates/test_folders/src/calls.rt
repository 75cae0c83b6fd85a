// What single calls of a file system return.

use crate::acts::make_folder;
use folders::{FileSystem, Kind, SystemFiles};
use std::test::Fail;
use std::{fs, io};

#[test]
fn a_folder_is_locked_by_one_alone_and_synced(rt: HostRuntime) -> Result<(), Fail> {
    let folder = make_folder(&rt, "locks")?;
    let mut system = SystemFiles::new(&rt);
    let mut other = SystemFiles::new(&rt);
    let lock = system.lock(folder.as_str())?;
    assert!(rt; !is_free(&mut other, folder.as_str())?);
    drop(lock);
    assert!(rt; is_free(&mut other, folder.as_str())?);
    assert!(rt; system.sync(folder.as_str()));
    fs::remove_dir_all(&rt, folder.as_str())?;
    assert!(rt; is_free(&mut other, folder.as_str()).is_err());
    assert!(rt; !system.sync(folder.as_str()));
    Ok(())
}

// Returns whether a folder can be locked.
fn is_free<S: FileSystem>(system: &mut S, folder: &str) -> io::Result<bool> {
    Ok(system.try_lock(folder)?.is_some())
}

#[test]
fn a_device_is_apart_from_an_absent_path(rt: HostRuntime) -> Result<(), Fail> {
    let folder = make_folder(&rt, "kinds")?;
    let file = format!(in rt.alloc(); "{folder}/x")?;
    let mut system = SystemFiles::new(&rt);
    assert!(rt; system.kind(file.as_str())? == Kind::Absent);
    fs::write(&rt, file.as_str(), b"x".as_slice())?;
    assert!(rt; system.kind(file.as_str())? == Kind::Regular);
    assert!(rt; system.kind(folder.as_str())? == Kind::Other);
    assert!(rt; system.kind("/dev/null")? == Kind::Other);
    assert!(rt; system.kind("/dev/stdin")? == Kind::Other);
    fs::remove_dir_all(&rt, folder.as_str())?;
    Ok(())
}
