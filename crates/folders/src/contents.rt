// What is written into files.

ghost use Rattle.folders.specs.ChangedBytes.{file_bytes, written_bytes};

use crate::file_system::Contents;
use hostfiles::FileView;
use std::io;
use std::io::Write;

// A file as the run left it: its records, one after the other, with zeros for a hole; nothing if there is no file.
impl Contents for FileView<'_> {
    ghost bytes = { file_bytes };

    fn write_to<W: Write>(&self, writer: &mut W) -> io::Result<()> {
        let Some(count) = self.records() else {
            return Ok(());
        };
        for number in 0..count {
            if let Some(record) = self.contents_record(number) {
                writer.write_all(record.as_slice())?;
            }
        }
        Ok(())
    }
}

/// What is written: a file of a run, or a text.
#[derive(Clone, Copy)]
pub enum Written<'a> {
    /// The file, as the run left it.
    File(FileView<'a>),
    /// The text.
    Text(&'a [u8]),
}

impl Contents for Written<'_> {
    ghost bytes = { written_bytes };

    fn write_to<W: Write>(&self, writer: &mut W) -> io::Result<()> {
        match self {
            Written::File(file) => file.write_to(writer),
            Written::Text(text) => writer.write_all(text),
        }
    }
}
