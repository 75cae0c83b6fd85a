// The changed files of a run.

ghost use Rattle.std.specs.Prelude.{◌≡◌, IfOk, find, map, option_map, string_bytes};
ghost use Rattle.std.specs.List.{list_any};
ghost use Rattle.hostfiles.specs.FileView.{is_view_there};
ghost use Rattle.hostfiles.specs.Files.{files};
ghost use Rattle.plan.specs.Wanted.{expected_of};
ghost use Rattle.one_run.specs.ChangedList as list;

use folders::Places;
use hostfiles::{FileView, HostFiles, Journal, Name, next_changed};
use plan::Before;
use std::alloc::{AllocError, Global};

/// A changed file, and where it is written.
#[derive(Drop)]
pub struct Entry<'a> {
    /// Its name.
    pub name: Name,
    /// The file as the run left it.
    pub file: FileView<'a>,
    /// What is expected at its path: on a disk what was loaded from there.
    pub before: Before<'a>,
    /// The path to which it is written, or from which it is removed if it is gone.
    pub path: Option<String>,
}

impl<'a> Entry<'a> {
    /// Returns whether the file is there.
    pub fn is_there(&self) -> bool
        ensures { result ≡ is_view_there self.now.file }
    {
        self.file.is_there()
    }

    /// Returns whether the file is on a disk.
    pub fn is_on_disk(&self) -> bool
        ensures { result ≡ list.is_on_disk (list.changed_by self.now) }
    {
        !matches!(self.before, Before::Any)
    }

    /// Returns whether the file is there and has no place.
    pub fn is_unplaced(&self) -> bool
        ensures { result ≡ list.is_unplaced (list.changed_by self.now) }
    {
        self.is_there() && self.path.is_none()
    }
}

// Returns what is expected at the path of a file.
fn before_of<'a>(places: &Places<'_>, host: &'a HostFiles, name: &Name) -> Before<'a>
    ensures { expected_of result ≡ list.expected_at places.now host.now name.now }
{
    if !places.has_disk(name.drive()) {
        return Before::Any;
    }
    match host.file(&name.key()) {
        Some(file) => Before::Loaded(file),
        None => Before::Nothing,
    }
}

// Returns the path of a file that is there, or the path from which one that is gone is removed.
fn path_of(
    alloc: Global,
    places: &Places<'_>,
    name: &Name,
    there: bool,
) -> Result<Option<String>, AllocError>
    ensures { IfOk result
        (λ path. option_map string_bytes path ≡ list.path_for places.now there name.now) }
{
    if there {
        places.path_of(alloc, name)
    } else {
        places.removed_path_of(alloc, name)
    }
}

/// Returns the changed files of a run, in the order of their names.
///
/// # Errors
///
/// Returns `Err` if an allocation fails.
pub fn changed_entries<'a>(
    alloc: Global,
    places: &Places<'_>,
    host: &'a HostFiles,
    journal: &'a Journal,
) -> Result<Vec<Entry<'a>>, AllocError>
    ensures { IfOk result (λ entries. map list.changed_by entries.items
        ≡ list.changed_list places.now host.now (files host.now journal.now.entries)) }
{
    let mut entries = Vec::new(alloc);
    let mut after: Option<Name> = None;
    while let Some(changed) = next_changed(host, journal, after.as_ref()) {
        let path = path_of(alloc, places, &changed.name, changed.file.is_there())?;
        let entry = Entry {
            name: changed.name,
            file: changed.file,
            before: before_of(places, host, &changed.name),
            path,
        };
        entries.push(entry)?;
        after = Some(changed.name);
    }
    Ok(entries)
}

// Returns whether an entry is on a disk.
fn has_entry_on_disk(entries: &[Entry<'_>]) -> bool
    ensures { result ≡ list_any list.is_entry_on_disk entries.now }
{
    entries.iter().any(|entry| entry.is_on_disk())
}

/// Returns whether a changed file is on a disk.
pub fn is_any_on_disk(entries: &[Entry<'_>]) -> bool
    ensures { result ≡ list_any list.is_on_disk (map list.changed_by entries.now) }
{
    has_entry_on_disk(entries)
}

// Returns the name of the first entry that is there and has no place.
fn first_unplaced_entry(entries: &[Entry<'_>]) -> Option<Name>
    ensures { result ≡ option_map (λ entry. entry.name) (find list.is_entry_unplaced entries.now) }
{
    entries
        .iter()
        .find(|entry| entry.is_unplaced())
        .map(|entry| entry.name)
}

/// Returns the name of the first changed file that is there and has no place.
pub fn first_unplaced(entries: &[Entry<'_>]) -> Option<Name>
    ensures { result ≡ list.first_unplaced (map list.changed_by entries.now) }
{
    first_unplaced_entry(entries)
}
