// The law of deletion.

ghost use Rattle.std.specs.Prelude.{◌≡◌, ◌&&◌, List, ℕ, None, if◌then◌else◌};
ghost use Rattle.std.specs.FinMap as finmap;
ghost use Rattle.hostfiles.specs.Hosts.{Host};
ghost use Rattle.hostfiles.specs.Files.{OwnFiles, has, files};
ghost use Rattle.cpmfiles.specs.Tables.{NamedAreGone, is_named};

/// A deletion removes exactly the named files from the map of all files; the other files are unchanged.
pub fn named_files_are_gone()
    ensures { (host : Host) → (own after : OwnFiles)
        → (pattern : List ℕ) → NamedAreGone host own pattern after →
        (q : List ℕ) → finmap.get (files host after) q ≡
        (if is_named pattern q && has host own q then None else finmap.get (files host own) q) }
{}
