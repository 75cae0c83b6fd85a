// The changed files, in the order of their names.

ghost use Rattle.std.specs.Prelude.{◌≡◌, true, false, IfSome, IfNone, option_map, option_copied};
ghost use Rattle.keymaps.specs.Order.{IsLeastAbove};
ghost use Rattle.hostfiles.specs.Changed.{is_changed_name, AreAllChanged};
ghost use Rattle.hostfiles.specs.FileView.{view_own};

use crate::file_view::FileView;
use crate::host::HostFiles;
use crate::journal::Journal;
use filenames::{Key, Name};

/// A changed file and its name.
#[derive(Clone, Copy)]
pub struct ChangedFile<'a> {
    /// The name.
    pub name: Name,
    /// The file as the run left it.
    pub file: FileView<'a>,
    pub ghost named: { file.key ≡ name },
}

/// Returns the changed file with the least name above `after`, by key, or `None` if there is none. Every name is above `None`.
/// Compares only files to which something was done, each of which it finds once, and skips files whose keys are not valid.
pub fn next_changed<'a>(
    host: &'a HostFiles,
    journal: &'a Journal,
    after: Option<&Name>,
) -> Option<ChangedFile<'a>>
    ensures host { IfSome result (λ c. c.file.host ≡ host.entry) }
    ensures journal { IfSome result (λ c. c.file.journal ≡ journal.entry) }
    ensures least { IsLeastAbove (option_copied after.entry) (is_changed_name host.now journal.now.entries)
        (option_map (λ c. c.name) result) }
{
    let mut low = key_if_any(after);
    while let Some((key, entry)) = journal.entries.next_key_value(low) {
        let file = FileView::with_entry(host, journal, key, Some(entry));
        if let Some(changed) = changed_file(&file) {
            return Some(changed);
        }
        low = Some(*key);
    }
    None
}

// Returns the key of a name, if there is one.
pub(crate) fn key_if_any(name: Option<&Name>) -> Option<Key>
    ensures { result ≡ option_copied name.entry }
{
    Some(name?.key())
}

// Returns a file with its name, if its key is valid and the file is changed.
fn changed_file<'a>(file: &FileView<'a>) -> Option<ChangedFile<'a>>
    ensures file { IfSome result (λ c. c.file ≡ file.now) }
    ensures some { IfSome result (λ c.
        is_changed_name file.now.host.now (view_own file.now) file.now.key ≡ true) }
    ensures none { IfNone result
        (is_changed_name file.now.host.now (view_own file.now) file.now.key ≡ false) }
{
    let name = Name::from_key(&file.key)?;
    if !file.is_changed() {
        return None;
    }
    Some(ChangedFile { name, file: *file })
}

/// Each changed name is the name of a file to which something was done.
pub fn changed_names_are_all()
    ensures { AreAllChanged }
{}
