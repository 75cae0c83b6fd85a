// Host files together with what a run did to them.

ghost use Rattle.std.specs.Prelude.{◌≡◌, ◌<◌, true, OnOk, OnErr, IfOk, IsOk, is_some, nat_lt, slice_index, unwrap_or};
ghost use Rattle.hostfiles.specs.Files.{has, records, length_at, record_if_there, shapes, after_make, after_rename, after_write};
ghost use Rattle.hostfiles.specs.declared.journal.Gap.TheVariants.{Holes, Zeros};
ghost use Rattle.hostfiles.specs.FileLooks.{look_has, look_records, look_read, look_directory};
ghost use Rattle.hostfiles.specs.Asking.{AsksFor, Inquires};
ghost use Rattle.cpmfiles.specs.Tables.{can_make, can_rename, extent_count, look_make, look_rename};
ghost use Rattle.hostfiles.specs.Names.{is_sayable};
ghost use Rattle.cpmfiles.specs.Renaming.{has_wildcard, is_rename};
ghost use Rattle.cpmfiles.specs.Tables.{count_deleted, look_delete, NamedAreGone, next_bytes};
ghost use Rattle.cpmfiles.specs.TableParts.{own_of_table, looks_of_table, StandsOver, DoesIf, NeedsMemory};

use crate::asking;
use hostfiles::changes::Changes;
use hostfiles::directory_view::delete_matches;
use hostfiles::host::HostFiles;
use hostfiles::journal::Gap;
use hostfiles::{Key, Record};
use std::alloc::AllocError;

/// Host files together with what a run did to them. Each call marks the questions that reach the host files.
///
/// `Err` means out of memory. It changes no file and nothing that the run did; the call may have marked some of its
/// own questions, but no others. A call is an `Err` only if it asks the host files something that was not asked before,
/// or changes a file; so `has`, `records`, `read` and `extent` never fail for a file that the run made.
#[derive(Drop)]
pub struct Table<'a> {
    /// The host files.
    pub host: &'a HostFiles,
    /// What the run did to them, and its looks at them.
    pub changes: &'a mut Changes,
}

impl<'a> Table<'a> {
    /// Creates a table of these host files with these changes.
    pub fn new(host: &'a HostFiles, changes: &'a mut Changes) -> Table<'a>
        ensures host { result.host ≡ host.entry }
        ensures changes { result.changes ≡ changes.entry }
    {
        Table { host, changes }
    }
}

impl Table<'_> {
    /// Returns whether there is a file with this key.
    #[tactic(auto, using(crate::proofs::LookLaws::extends_by_has, crate::proofs::LookLaws::extends_same))]
    pub fn has(&mut self, key: &Key) -> Result<bool, AllocError>
        ensures inquires { Inquires result (λ own. has self.old.host.now own key.now)
            (λ own. look_has own key.now) self.old.changes.now self.new.changes.now }
        ensures over { StandsOver self.old self.new }
    {
        asking::has(self.host, self.changes, key)
    }

    /// Returns the length of the file of the key in records, holes included; `None` if there is no file.
    #[tactic(auto, using(crate::proofs::LookLaws::asked_in_turn))]
    pub fn records(&mut self, key: &Key) -> Result<Option<u32>, AllocError>
        ensures inquires { Inquires result (λ own. records self.old.host.now own key.now)
            (λ own. look_records self.old.host.now own key.now) self.old.changes.now self.new.changes.now }
        ensures over { StandsOver self.old self.new }
    {
        asking::records(self.host, self.changes, key)
    }

    /// Reads record `k` of the file of the key into `bytes`. Returns `false` and leaves `bytes` unchanged if there is no
    /// file, if `k` is not below its length, or if record `k` is a hole. An `Err` leaves `bytes` unchanged, too.
    #[tactic(auto, using(crate::proofs::LookLaws::asked_in_turn))]
    pub fn read(&mut self, key: &Key, k: u32, bytes: &mut Record) -> Result<bool, AllocError>
        ensures inquires { Inquires result (λ own. is_some (record_if_there self.old.host.now own key.now k))
            (λ own. look_read self.old.host.now own key.now k) self.old.changes.now self.new.changes.now }
        ensures bytes { IfOk result (λ _. bytes.new ≡ unwrap_or
            (record_if_there self.old.host.now (own_of_table self.old) key.now k) bytes.old) }
        ensures err { OnErr result (bytes.new ≡ bytes.old) }
        ensures over { StandsOver self.old self.new }
    {
        let Some(record) = asking::read(self.host, self.changes, key, k)? else {
            return Ok(false);
        };
        *bytes = record;
        Ok(true)
    }

    /// Returns the record count of an extent of the file of the key, or `None` if there is no file. The count is the
    /// index within the extent of its last record, plus one; 0 if it has none.
    #[tactic(auto, using(crate::proofs::LookLaws::asked_in_turn))]
    pub fn extent(&mut self, key: &Key, e: u32) -> Result<Option<u8>, AllocError>
        ensures inquires { Inquires result (λ own. extent_count self.old.host.now own key.now e)
            (λ own. look_records self.old.host.now own key.now) self.old.changes.now self.new.changes.now }
        ensures over { StandsOver self.old self.new }
    {
        asking::extent(self.host, self.changes, key, e)
    }

    /// Writes record `k`, at most 65,535, of the file of the key and returns `true`, or returns `false` if there is no file.
    /// A write past the end leaves holes between the end and the record.
    pub fn write(&mut self, key: &Key, k: u32, bytes: &Record) -> Result<bool, AllocError>
        requires { k < 65536 }
        ensures { let host = self.old.host.now in let own = own_of_table self.old in
            DoesIf result (has host own key.now) (look_records host own key.now)
            (after_write Holes (length_at host own key.now) own key.now k bytes.now) self.old self.new }
    {
        self.store(key, k, bytes, Gap::Holes)
    }

    /// Writes record `k`, at most 65,535, of the file of the key and returns `true`, or returns `false` if there is no file.
    /// A write past the end writes zeros between the end and the record.
    pub fn write_filled(&mut self, key: &Key, k: u32, bytes: &Record) -> Result<bool, AllocError>
        requires { k < 65536 }
        ensures { let host = self.old.host.now in let own = own_of_table self.old in
            DoesIf result (has host own key.now) (look_records host own key.now)
            (after_write Zeros (length_at host own key.now) own key.now k bytes.now) self.old self.new }
    {
        self.store(key, k, bytes, Gap::Zeros)
    }

    // Writes a record, if there is a file, with this gap between the end and the record.
    fn store(&mut self, key: &Key, k: u32, bytes: &Record, gap: Gap) -> Result<bool, AllocError>
        requires { k < 65536 }
        ensures { let host = self.old.host.now in let own = own_of_table self.old in
            DoesIf result (has host own key.now) (look_records host own key.now)
            (after_write gap (length_at host own key.now) own key.now k bytes.now) self.old self.new }
    {
        let Some(n) = self.records(key)? else {
            return Ok(false);
        };
        self.changes.journal.write(key, n, k, bytes, gap)?;
        Ok(true)
    }

    /// Returns the first directory entry of the current files that matches a pattern, after the given entry if there
    /// is one. The pattern's drive is matched exactly; its name and its `ex` byte may contain `?`. Allocates nothing
    /// and is never an `Err`.
    pub fn next_entry(
        &mut self,
        pattern: &Key,
        ex: u8,
        after: Option<[u8; 32]>,
    ) -> Result<Option<[u8; 32]>, AllocError>
        ensures inquires { Inquires result
            (λ own. next_bytes pattern.now ex after (shapes self.old.host.now own))
            (λ own. look_directory (slice_index pattern.now 0)) self.old.changes.now self.new.changes.now }
        ensures ok { IsOk result }
        ensures over { StandsOver self.old self.new }
    {
        Ok(asking::search(self.host, self.changes, pattern, ex, after))
    }

    /// Makes an empty file and returns `true` if the key is valid and no file has it; else changes nothing and returns
    /// `false`. An invalid key is never an `Err`.
    #[tactic(auto, using(crate::proofs::LookLaws::extends_same))]
    pub fn make(&mut self, key: &Key) -> Result<bool, AllocError>
        ensures does { let host = self.old.host.now in let own = own_of_table self.old in
            DoesIf result (can_make host own key.now) (look_make own key.now) (after_make own key.now)
            self.old self.new }
        ensures grows { OnErr result (is_sayable key.now ≡ true) }
    {
        if !asking::can_make(self.host, self.changes, key)? {
            return Ok(false);
        }
        self.changes.journal.make(key)?;
        Ok(true)
    }

    /// Deletes each file whose key matches a pattern, and returns their number. The pattern's drive is matched exactly.
    #[tactic(auto, using(crate::proofs::LookLaws::extends_by_directory, crate::proofs::LookLaws::extends_same))]
    pub fn delete(&mut self, pattern: &Key) -> Result<u64, AllocError>
        ensures asks { let own = own_of_table self.old in
            AsksFor result (count_deleted self.old.host.now own pattern.now) (look_delete own pattern.now)
            (looks_of_table self.old) (looks_of_table self.new) }
        ensures done { OnOk result
            (NamedAreGone self.old.host.now (own_of_table self.old) pattern.now (own_of_table self.new)) }
        ensures err { OnErr result (own_of_table self.new ≡ own_of_table self.old) }
        ensures refused { let own = own_of_table self.old in OnErr result (NeedsMemory
            (looks_of_table self.old) (look_delete own pattern.now (looks_of_table self.old))
            (nat_lt 0 (count_deleted self.old.host.now own pattern.now))) }
        ensures over { StandsOver self.old self.new }
    {
        if has_wildcard(pattern) {
            self.changes.looks.mark_directory(pattern[0]);
            return delete_matches(self.host, &mut self.changes.journal, pattern);
        }
        if !self.has(pattern)? {
            return Ok(0);
        }
        self.changes.journal.delete(pattern)?;
        Ok(1)
    }

    /// Renames a file and returns `true` if the old key has no `?` and a file has it, and the new key is valid and no
    /// file has it; else changes nothing and returns `false`. An old key with a `?`, or an invalid new key, is never an
    /// `Err`.
    #[tactic(auto, using(crate::proofs::LookLaws::asked_in_turn))]
    pub fn rename(&mut self, old: &Key, new: &Key) -> Result<bool, AllocError>
        ensures does { let host = self.old.host.now in let own = own_of_table self.old in
            DoesIf result (can_rename host own old.now new.now) (look_rename own old.now new.now)
            (after_rename own old.now new.now) self.old self.new }
        ensures grows { OnErr result (is_rename old.now new.now ≡ true) }
    {
        if !asking::can_rename(self.host, self.changes, old, new)? {
            return Ok(false);
        }
        self.changes.journal.rename(old, new)?;
        Ok(true)
    }
}

/// Returns whether a key has a `?` among the bytes of its name.
pub fn has_wildcard(key: &Key) -> bool
    ensures { result ≡ has_wildcard key.now }
{
    key[1..].contains(&b'?')
}
