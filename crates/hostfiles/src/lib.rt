//! Host files, what a run does to them and asks of them, the files that a program then sees, and which of them a run changed.
//!
//! - `host`, `journal`, `looks`, `changes`: host files; what a run did to files; its questions to the host files; both
//!   together
//! - `file_view`: `FileView`: the file with a key as a program sees it, found once, and the questions about it
//! - `contents`, `changed`: the contents of a file, with zeros in its holes; whether a file is changed
//! - `directory_view`, `names`: the directory; the changed files in the order of their names
//! - `laid`: the laws of what was done, laid over host files
#![tactic(auto)]

pub mod changed;
pub mod changes;
pub mod contents;
pub mod directory_view;
pub mod file_view;
pub mod host;
pub mod journal;
pub mod laid;
pub mod looks;
pub mod names;

pub use changed::changed_is_other;
pub use changes::Changes;
pub use directory::{Position, Search, next_entry};
pub use file_view::FileView;
pub use filenames::{Drive, Fcb, Key, Name, NameError, is_sayable};
pub use host::{FilesError, HostFile, HostFiles};
pub use journal::{Base, Entry, Gap, Growth, Journal};
pub use laid::{files_are_laid, no_record_past_end};
pub use looks::{Ask, FileLooks};
pub use names::{ChangedFile, changed_names_are_all, next_changed};
pub use records::{EXTENT_RECORDS, RECORD_BYTES, RECORD_LIMIT, Record, Records};
