// The first step that the change of a host file touches.

ghost use Rattle.std.specs.Prelude.{◌≡◌, ◌↔◌, IsTrue, is_some, option_copied, if◌then◌else◌, max};
ghost use Rattle.first_looks.specs.FileSteps.{lesser_step};
ghost use Rattle.first_looks.specs.Touch.{IsFileTouch, IsRecordTouch, count_of, length_of, record_of};
ghost use Rattle.first_looks.specs.Setting.{with_file};

use crate::file_steps::FileSteps;
use hostfiles::{Ask, HostFile, HostFiles, Key, Record};

impl FileSteps {
    /// Returns the first noted step of a question whose answer changes when the host file of `key` is set to `new`, or is
    /// removed if `new` is `None`. Returns `least` if there is no such step below `least`. Answers are compared by value.
    pub fn touch_of_change(
        &self,
        least: u64,
        old: &HostFiles,
        key: &Key,
        new: Option<&HostFile>,
    ) -> u64
        ensures { IsFileTouch old.now (with_file old.now key.now (option_copied new.entry))
            self.now least result }
    {
        let before = old.file(key);
        let is_same = is_same_presence(before, new);
        let has = lesser_step_unless(is_same, self.get(&Ask::Has(*key)), least);
        let is_same = is_same_length(before, new);
        let length = lesser_step_unless(is_same, self.get(&Ask::Length(*key)), has);
        let directory = lesser_step_unless(is_same, self.get(&Ask::Directory(key[0])), length);
        self.touch_of_records(directory, key, before, new)
    }

    // Returns the first noted step of a record of `key` that is different in the two files, if it is below `least`, else `least`.
    fn touch_of_records(
        &self,
        least: u64,
        key: &Key,
        old: Option<&HostFile>,
        new: Option<&HostFile>,
    ) -> u64
        ensures { IsRecordTouch key.now (option_copied old.entry) (option_copied new.entry)
            self.now least result }
    {
        let Some(steps) = self.records.file(key) else {
            return least;
        };
        let end = longer_length(old, new);
        let noted = steps.end();
        let mut touch = least;
        let mut number = 0;
        while number < end && (number as usize) < noted {
            let is_same = is_same_record(old, new, number);
            touch = lesser_step_unless(is_same, steps.get(number as usize), touch);
            if !is_same && steps.is_earliest_from(number as usize) {
                return touch;
            }
            number += 1;
        }
        touch
    }
}

// Returns the length of the longer of two files, in records; a file that is not there has length 0.
fn longer_length(old: Option<&HostFile>, new: Option<&HostFile>) -> u32
    ensures { result ≡ max (count_of (option_copied old.entry)) (count_of (option_copied new.entry)) }
{
    count_of(old).max(count_of(new))
}

// Returns the length of a file, in records; 0 if it is not there.
fn count_of(file: Option<&HostFile>) -> u32
    ensures { result ≡ count_of (option_copied file.entry) }
{
    match file {
        Some(file) => file.len(),
        None => 0,
    }
}

// Returns whether two files are both there, or both not there.
fn is_same_presence(old: Option<&HostFile>, new: Option<&HostFile>) -> bool
    ensures { IsTrue result ↔ (is_some (option_copied old.entry) ≡ is_some (option_copied new.entry)) }
{
    old.is_some() == new.is_some()
}

// Returns whether two files have the same length, or are both not there.
fn is_same_length(old: Option<&HostFile>, new: Option<&HostFile>) -> bool
    ensures { IsTrue result
        ↔ (length_of (option_copied old.entry) ≡ length_of (option_copied new.entry)) }
{
    length_of(old) == length_of(new)
}

// Returns the length of a file in records, if it is there.
fn length_of(file: Option<&HostFile>) -> Option<u32>
    ensures { result ≡ length_of (option_copied file.entry) }
{
    match file {
        Some(file) => Some(file.len()),
        None => None,
    }
}

// Returns whether two files have the same record at a record number, or both have none.
fn is_same_record(old: Option<&HostFile>, new: Option<&HostFile>, number: u32) -> bool
    ensures { IsTrue result
        ↔ (record_of (option_copied old.entry) number ≡ record_of (option_copied new.entry) number) }
{
    record_of(old, number) == record_of(new, number)
}

// Returns the record of a file at a record number, if there is one.
fn record_of(file: Option<&HostFile>, number: u32) -> Option<&Record>
    ensures { option_copied result ≡ record_of (option_copied file.entry) number }
{
    match file {
        Some(file) => file.get(number),
        None => None,
    }
}

// Returns the lesser of `step` and `least`; `least` if there is no step or the answer is the same.
fn lesser_step_unless(is_same: bool, step: Option<u64>, least: u64) -> u64
    ensures { result ≡ (if is_same then least else lesser_step step least) }
{
    match step {
        Some(step) if !is_same && step < least => step,
        _ => least,
    }
}
