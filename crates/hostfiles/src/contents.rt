// The contents of files, with zeros in their holes.

ghost use Rattle.std.specs.Prelude.{◌≡◌, option_copied, slice_get, unwrap_or};
ghost use Rattle.std.specs.Option.{option_and_then};
ghost use Rattle.records.specs.Records.{zeros};
ghost use Rattle.hostfiles.specs.FileView.{view_contents, view_record};

use crate::file_view::FileView;
use records::{RECORD_BYTES, Record};

/// The contents of a hole.
static ZEROS: Record = [0; RECORD_BYTES];

impl FileView<'_> {
    /// Returns a record of the file, with zeros in a hole, or `None` if there is no file or it is too short.
    pub fn contents_record(&self, number: u32) -> Option<&Record>
        ensures { option_copied result
            ≡ option_and_then (λ records. slice_get records number) (view_contents self.now) }
    {
        if !self.is_there() {
            return None;
        }
        if number >= self.length() {
            return None;
        }
        Some(self.content(number))
    }

    /// Returns the record with a number below the length, with zeros in a hole.
    pub(crate) fn content(&self, number: u32) -> &Record
        ensures { result.now ≡ unwrap_or (view_record self.now number) zeros }
    {
        match self.record(number) {
            Some(content) => content,
            None => &ZEROS,
        }
    }
}
