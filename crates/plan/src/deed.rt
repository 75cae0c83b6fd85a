// What is to be done to one file.

ghost use Rattle.std.specs.Prelude.{◌≡◌, option_map, string_bytes};
ghost use Rattle.std.specs.Option.{option_to_list};
ghost use Rattle.plan.specs.Plans as plans;

use hostfiles::HostFile;

/// What is expected at a path.
#[derive(Clone, Copy)]
pub enum Before<'a> {
    /// A regular file, or nothing.
    Any,
    /// Nothing.
    Nothing,
    /// A regular file from which this host file was loaded.
    Loaded(&'a HostFile),
}

/// What is to be done to the file of a path.
#[derive(Drop)]
pub enum Deed<'a, C> {
    /// A file with these contents is put there, and replaces the one that is there. It is first written at a temporary path.
    Put {
        path: String,
        temporary: String,
        before: Before<'a>,
        contents: C,
    },
    /// The file that is there is removed.
    Remove {
        path: String,
        before: Before<'a>,
    },
}

impl<'a, C> Deed<'a, C> {
    /// Returns the path.
    pub fn path(&self) -> &str
        ensures { result.now ≡ plans.path_of self.now }
    {
        match self {
            Deed::Put { path, .. } | Deed::Remove { path, .. } => path.as_str(),
        }
    }

    /// Returns the path alone.
    pub(crate) fn into_path(self) -> String
    where
        C: Drop,
        ensures { string_bytes result ≡ plans.path_of self.entry }
    {
        match self {
            Deed::Put {
                path,
                temporary: _temporary,
                contents: _contents,
                ..
            } => path,
            Deed::Remove { path, .. } => path,
        }
    }

    /// Returns the temporary path alone, if there is one.
    pub(crate) fn into_temporary(self) -> Option<String>
    where
        C: Drop,
        ensures { option_to_list (option_map string_bytes result) ≡ plans.temporary_of self.entry }
    {
        match self {
            Deed::Put {
                path: _path,
                temporary,
                contents: _contents,
                ..
            } => Some(temporary),
            Deed::Remove { path: _path, .. } => None,
        }
    }

    /// Returns whether the contents are first written at this path.
    pub fn is_first_at(&self, path: &str) -> bool
        ensures { result ≡ plans.is_first_at path.now self.now }
    {
        match self {
            Deed::Put { temporary, .. } => temporary.as_bytes() == path.as_bytes(),
            Deed::Remove { .. } => false,
        }
    }

    /// Returns what is expected at the path.
    pub fn before(&self) -> Before<'a>
        ensures { result ≡ plans.before_of self.now }
    {
        match self {
            Deed::Put { before, .. } | Deed::Remove { before, .. } => *before,
        }
    }
}
