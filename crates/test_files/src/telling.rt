// What the files have after changes, without a question, and which are changed.

use crate::acts::Act::{self, Changed, ChangedAfter, Same, TellKeys, TellRecord, TellRecords};
use crate::contents::filled;
use cpmfiles::{Changes, HostFiles, Key, Name};
use hostfiles::{FileView, next_changed};
use std::test::Fail;

/// Names that are listed, in order.
#[derive(Clone, Copy)]
pub enum Names {
    /// The names of the host files.
    Host,
    /// The names of all files after changes.
    All,
    /// The names of the changed files.
    Changed,
}

/// Returns whether the files are as expected.
pub fn tell(host: &HostFiles, changes: &Changes, act: Act<'_>) -> Result<bool, Fail> {
    Ok(match act {
        TellRecords(text, count) => host.records_with(changes, &Name::parse(text)?) == count,
        TellRecord(text, place, byte) => {
            host.record_with(changes, &Name::parse(text)?, place) == byte.map(filled)
        }
        TellKeys(keys) => are_keys(host, changes, Names::All, keys),
        Changed(keys) => {
            are_keys(host, changes, Names::Changed, keys) && are_changed(host, changes, keys)
        }
        ChangedAfter(text, key) => {
            let next = next_name(host, changes, Names::Changed, Some(&Name::parse(text)?));
            has_key(next, &key)
        }
        Same(key) => !FileView::find(host, &changes.journal, &key).is_changed(),
        _ => false,
    })
}

// Returns the name after one, or the first.
fn next_name(
    host: &HostFiles,
    changes: &Changes,
    names: Names,
    after: Option<&Name>,
) -> Option<Name> {
    match names {
        Names::Host => host.next(after),
        Names::All => host.next_with(changes, after),
        Names::Changed => match next_changed(host, &changes.journal, after) {
            Some(changed) => Some(changed.name),
            None => None,
        },
    }
}

fn has_key(name: Option<Name>, key: &Key) -> bool {
    name.map(|name: Name| name.key()) == Some(*key)
}

/// Returns whether these are the keys of all names that are listed, in order.
pub fn are_keys(host: &HostFiles, changes: &Changes, names: Names, keys: &[Key]) -> bool {
    let mut after: Option<Name> = None;
    for key in keys {
        after = next_name(host, changes, names, after.as_ref());
        if !has_key(after, key) {
            return false;
        }
    }
    next_name(host, changes, names, after.as_ref()).is_none()
}

fn are_changed(host: &HostFiles, changes: &Changes, keys: &[Key]) -> bool {
    for key in keys {
        if !FileView::find(host, &changes.journal, key).is_changed() {
            return false;
        }
    }
    true
}
