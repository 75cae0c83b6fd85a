// The files of a folder by their names.

ghost use Rattle.std.specs.Prelude.{◌≡◌, ℕ, List, true, None, Some, OnOk, OnErr, slice_index, string_bytes};
ghost use Rattle.std.specs.FinMap as finmap;
ghost use Rattle.std.specs.Option.{ForSome, option_map};
ghost use Rattle.filenames.specs.Drives.{drive_number};
ghost use Rattle.filenames.specs.Names.{is_sayable};
ghost use Rattle.folders.specs.FolderNames.{key_in};
ghost use Rattle.folders.specs.Listings.{ListsAgain, ListsOnce, least};

use filenames::{Drive, Name};
use keymaps::KeyMap;
use std::alloc::{AllocError, Global};
use std::cmp::Ordering;

/// The host files in the folder of a drive, and whether two of them have the same name.
#[derive(Drop)]
pub struct Listing {
    /// The drive.
    pub drive: Drive,
    /// The name in the folder for each key: if two files have the same key, the name of the one listed first.
    pub files: KeyMap<String>,
    /// The first name, by its key, that two files have.
    pub duplicate: Option<Name>,
    /// Whether new names are in lower case, as most names of the folder are.
    pub lower: bool,
    /// The names in the folder under which a run that ended early left new contents.
    pub left: Vec<String>,
    ghost names: { (k : List ℕ) → finmap.contains_key files k ≡ true → is_sayable k ≡ true },
    ghost on_drive: { (k : List ℕ) → finmap.contains_key files k ≡ true
        → slice_index k 0 ≡ drive_number drive },
    ghost named: { (k name : List ℕ) → option_map string_bytes (finmap.get files k) ≡ Some name
        → key_in (slice_index k 0) name ≡ Some k },
    ghost duplicate_there: { ForSome duplicate (λ k. finmap.contains_key files k ≡ true) },
}

impl Listing {
    /// Returns a listing with no file. Allocates nothing.
    pub fn new(alloc: Global, drive: Drive, lower: bool, left: Vec<String>) -> Listing
        ensures drive { result.drive ≡ drive }
        ensures lower { result.lower ≡ lower }
        ensures left { result.left ≡ left }
        ensures files { result.files ≡ finmap.empty }
        ensures duplicate { result.duplicate ≡ None }
    {
        Listing {
            drive,
            files: KeyMap::new(alloc),
            duplicate: None,
            lower,
            left,
        }
    }

    /// Adds a file by its name on the listing's drive, and its name in the folder. An error changes nothing.
    pub fn add(&mut self, name: &Name, file: String) -> Result<(), AllocError>
        requires on_drive { slice_index name.now 0 ≡ drive_number self.old.drive }
        requires named { key_in (slice_index name.now 0) (string_bytes file) ≡ Some name.now }
        ensures drive { self.new.drive ≡ self.old.drive }
        ensures lower { self.new.lower ≡ self.old.lower }
        ensures left { self.new.left ≡ self.old.left }
        ensures once { OnOk result (ListsOnce name.now file
            self.old.files self.old.duplicate self.new.files self.new.duplicate) }
        ensures again { OnOk result (ListsAgain name.now
            self.old.files self.old.duplicate self.new.files self.new.duplicate) }
        ensures err { OnErr result (self.new ≡ self.old) }
    {
        let key = name.key();
        if self.files.contains_key(&key) {
            self.duplicate = Some(least(name, self.duplicate));
            return Ok(());
        }
        self.files.insert(key, file)
    }
}

// Returns the lesser of two names by their keys, or the first if there is no second.
fn least(name: &Name, other: Option<Name>) -> Name
    ensures { result ≡ least name.now other }
{
    let Some(other) = other else {
        return *name;
    };
    match other.key().cmp(&name.key()) {
        Ordering::Less => other,
        _ => *name,
    }
}
