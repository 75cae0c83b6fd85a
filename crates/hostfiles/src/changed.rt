// Comparison of files with their host files.

ghost use Rattle.std.specs.Prelude.{◌≡◌, ◌<◌, true, Some, None, not, get_or, length, unwrap_or, option_copied};
ghost use Rattle.std.specs.FinMap as finmap;
ghost use Rattle.std.specs.Str.{bytes_eq};
ghost use Rattle.std.specs.Cmp.Lexicographic.{pointwise};
ghost use Rattle.records.specs.Records.{zeros};
ghost use Rattle.hostfiles.specs.Files.{file_of};
ghost use Rattle.hostfiles.specs.File.{contents_of};
ghost use Rattle.hostfiles.specs.FileView.{view_own, view_entry, view_length, view_record};
ghost use Rattle.hostfiles.specs.Changed.{is_changed, ChangedIsOther};

use crate::file_view::FileView;
use crate::host::HostFile;
use crate::journal::Base;

impl FileView<'_> {
    /// Returns whether the run left this file different from its host file: only one of them exists, their lengths differ, or
    /// some of their records differ, with zeros for a hole. The comparison ends at the first difference.
    pub fn is_changed(&self) -> bool
        ensures { result ≡ is_changed self.now.host.now (view_own self.now) self.now.key }
    {
        let Some(_) = self.entry else {
            return false;
        };
        let Some(file) = self.own_host_file() else {
            return self.is_there();
        };
        if !self.is_there() {
            return true;
        }
        if self.length() != file.len() {
            return true;
        }
        self.has_other_record(file)
    }

    // Returns the host file with the same key.
    fn own_host_file(&self) -> Option<&HostFile>
        ensures { option_copied result ≡ finmap.get self.now.host.now self.now.key }
    {
        match self.base() {
            Base::Same => self.beneath,
            _ => self.host.file(&self.key),
        }
    }

    // Returns whether a record differs, for a file as long as its host file.
    fn has_other_record(&self, file: &HostFile) -> bool
        requires file { finmap.get self.now.host.now self.now.key ≡ Some file.now }
        requires length { view_length self.now ≡ length file.now }
        ensures { result ≡ not (pointwise bytes_eq
            (contents_of (file_of self.now.host.now self.now.key (view_entry self.now))) file.now) }
    {
        for number in 0..file.len() {
            if self.is_other_record(file, number) {
                return true;
            }
        }
        false
    }

    // Returns whether the record with a number below the host file's length differs from the host file's. If the file comes
    // from this host file and has not grown, only written records are compared.
    fn is_other_record(&self, file: &HostFile, number: u32) -> bool
        requires file { finmap.get self.now.host.now self.now.key ≡ Some file.now }
        requires within { number < length file.now }
        ensures { result ≡ not (bytes_eq (unwrap_or (view_record self.now number) zeros)
            (get_or file.now number zeros)) }
    {
        if self.is_own_record(number) {
            return false;
        }
        match file.get(number) {
            Some(record) => *record != *self.content(number),
            None => true,
        }
    }

    // Returns `true` only if the record with this number comes unchanged from the host file with the same key.
    fn is_own_record(&self, number: u32) -> bool
        ensures base { result ≡ true → (view_entry self.now).base ≡ Base.Same }
        ensures grown { result ≡ true → (view_entry self.now).grown ≡ None }
        ensures records { result ≡ true → finmap.get (view_entry self.now).records number ≡ None }
    {
        self.grown().is_none()
            && self.written(number).is_none()
            && matches!(self.base(), Base::Same)
    }
}

/// A file is changed if and only if its contents differ from its host file's.
pub fn changed_is_other()
    ensures { ChangedIsOther }
{}
