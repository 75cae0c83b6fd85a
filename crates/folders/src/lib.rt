//! The folders of the host for the drives A to D: their files are read as host files, changed files are written into them, and on a disk
//! deleted ones are removed.
//!
//! - `folder_names`, `listing`: the names of files in a folder, and their paths; the files of a folder by their keys
//! - `file_system`, `system_output`: `FileSystem`, files by their paths as contracts see them, and `SystemFiles`, the files of the
//!   operating system; what these write piece by piece
//! - `letter_case`, `drive_folder`, `places`: the case of new names; the folder of a drive; where the changed files of a run are written, and
//!   from where deleted ones are removed
//! - `reading`, `contents`, `fault`: reading folders into host files; what is written; why files are not read or written, and the message
#![tactic(auto)]

mod contents;
mod drive_folder;
mod fault;
mod file_system;
mod folder_names;
mod letter_case;
mod listing;
mod places;
mod reading;
mod system_output;

pub use contents::Written;
pub use drive_folder::DriveFolder;
pub use fault::{Failure, Fault, read_failure, write_failure};
pub use file_system::{Contents, FileSystem, Id, Kind, SystemFiles};
pub use folder_names::{
    file_name, is_left_name, name_in_folder, path_in, temporary_names_are_left, temporary_path,
};
pub use listing::Listing;
pub use places::Places;
pub use reading::{MOST_READ, ReadFolders, host_file, names_in, read_folder, read_folders};
pub use system_output::SystemOutput;
