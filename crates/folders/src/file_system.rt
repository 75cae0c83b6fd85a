// The files of a machine, by their paths.

ghost use Rattle.std.specs.Prelude.{◌≡◌, ◌<◌, ◌∷◌, ℕ, List, [], None, false, true, IfErr, IfOk, OnOk, OnErr, IfSome, is_ok, map, string_bytes};
ghost use Rattle.std.specs.FinMap.{insert, remove};
ghost use Rattle.std.specs.Io.KnownBytes.{Appends};
ghost use Rattle.folders.specs.Failures.{AddsPaths, KeepsFiles, ReportsPaths, io_paths};
ghost use Rattle.folders.specs.FileSystem.{AddsOnly, Becomes, ChangesOnly, HasBytes, HasWritten, IsFree, IsKindAt, IsNewOutput};
ghost use Rattle.folders.specs.FileSystem.{Opens, ReadsFile, StoredFiles, files_after_rename};
ghost use Rattle.streams.specs.Trails.{paths};

use crate::system_output::{Destination, SystemOutput};
use std::alloc::Global;
use std::fs::{File, Metadata, OpenFile, OpenOptions, Permissions, TryLockError, read_dir};
use std::io::{BufWriter, ErrorKind, Read, Write};
use std::os::unix::fs::{FileTypeExt, MetadataExt, OpenOptionsExt};
use std::rt::{Files, Stderr, Stdout};
use std::{fs, io};
use streams::{Over, Reader, Trail, Writer};

/// Bytes that can be written, such as the bytes of a file that is kept in parts.
pub trait Contents {
    /// All of the bytes.
    ghost bytes: { Self → List ℕ };

    /// Writes all of the bytes. An error is the writer's; a part of them may then be written.
    fn write_to<W: Write>(&self, writer: &mut W) -> io::Result<()>
        ensures { OnOk result (Appends (W.contents writer.old) (W.contents writer.new) (bytes self.now)) };
}

/// What is at a path.
#[derive(Clone, Copy, Debug, PartialEq, Eq)]
pub enum Kind {
    /// Nothing.
    Absent,
    /// A regular file.
    Regular,
    /// Anything else, such as a folder, a link or a device.
    Other,
}

/// Which file or folder of a machine is meant, whatever its path: the numbers of its device and of its place there.
#[derive(Clone, Copy, Debug, PartialEq, Eq, PartialOrd, Ord)]
pub struct Id {
    /// The number of the device.
    pub device: u64,
    /// The number of the file or folder on the device.
    pub number: u64,
}

/// Files by their paths. A contract sees the bytes of each regular file, if the file system reports them (an operating system's
/// does not), and the paths at which it failed: an error adds the path of its call, unless an allocation failed. Different paths are
/// different files.
pub trait FileSystem {
    /// An open file that is read.
    type Input: Reader + Drop;

    /// An open file that is written piece by piece.
    type Output: Writer + Drop;

    /// A folder that is locked until this is dropped.
    type Lock: Drop;

    /// What it stores, if that is known, and the paths at which it failed.
    ghost files: { Self → StoredFiles };

    /// Returns the allocator for what it makes, and for what is made of its files.
    fn alloc(&self) -> Global;

    /// Opens a file to read it piece by piece.
    fn open(&mut self, path: &str) -> io::Result<Self::Input>
        ensures opens { IfOk result
            (λ input. Opens (files self.old).bytes path.now (Self.Input.input input).left) }
        ensures unfailed { IfOk result (λ input. (Self.Input.input input).failures ≡ 0) }
        ensures unchanged { KeepsFiles (io_paths path.now) result (files self.old) (files self.new) };

    /// Adds the path by which an open file was opened, of which a read failed.
    fn note_failed_read(&mut self, path: &str, input: &Self::Input)
        requires { 0 < (Self.Input.input input.now).failures }
        ensures bytes { (files self.new).bytes ≡ (files self.old).bytes }
        ensures names { (files self.new).names ≡ (files self.old).names }
        ensures special { (files self.new).special ≡ (files self.old).special }
        ensures failed { (files self.new).failed ≡ path.now ∷ (files self.old).failed };

    /// Opens what is at a path to write it piece by piece: a file, which is made or emptied, or what a link, a device or a pipe leads to. If
    /// that is standard output or standard error, what is written goes to this stream, and nothing is opened or emptied.
    fn create(&mut self, path: &str) -> io::Result<Self::Output>
        ensures opened { IfOk result
            (λ output. IsNewOutput (files self.old).bytes (Self.Output.output output)) }
        ensures made { OnOk result (HasBytes path.now [] (files self.old) (files self.new)) }
        ensures err { OnErr result ((files self.new).bytes ≡ (files self.old).bytes) }
        ensures special { (files self.new).special ≡ (files self.old).special }
        ensures failed { ReportsPaths (io_paths path.now) result (files self.old) (files self.new) };

    /// Closes what was opened to be written. It is an error if a write failed. A contract sees what was written from then on.
    fn close(&mut self, path: &str, output: Self::Output) -> io::Result<()>
        ensures whole { OnOk result ((Self.Output.output output).failures ≡ 0) }
        ensures written { HasWritten path.now (Self.Output.output output).holds
            (files self.old) (files self.new) }
        ensures special { (files self.new).special ≡ (files self.old).special }
        ensures failed { ReportsPaths (io_paths path.now) result (files self.old) (files self.new) };

    /// Reads what is at a path, which may be a pipe or a device: all of its bytes, or its first `most` if it has more.
    fn read(&mut self, path: &str, most: u64) -> io::Result<Vec<u8>>
        ensures reads { IfOk result (λ bytes. ReadsFile (files self.old).bytes path.now most bytes.items) }
        ensures unchanged { KeepsFiles (io_paths path.now) result (files self.old) (files self.new) };

    /// Reads what is at a path, as `read` does. A pipe is an error, since opening it could wait for ever.
    fn read_unless_pipe(&mut self, path: &str, most: u64) -> io::Result<Vec<u8>>
        ensures reads { IfOk result (λ bytes. ReadsFile (files self.old).bytes path.now most bytes.items) }
        ensures unchanged { KeepsFiles (io_paths path.now) result (files self.old) (files self.new) };

    /// Returns the names in a folder.
    fn list(&mut self, folder: &str) -> io::Result<Vec<String>>
        ensures lists { IfOk result (λ listed. IfSome (files self.old).bytes (λ _.
            map string_bytes listed.items ≡ (files self.old).names folder.now)) }
        ensures unchanged { KeepsFiles (io_paths folder.now) result (files self.old) (files self.new) };

    /// Returns what is at a path; a link is no regular file.
    fn kind(&mut self, path: &str) -> io::Result<Kind>
        ensures is { IfOk result (λ kind. IsKindAt (files self.old) path.now kind) }
        ensures unchanged { KeepsFiles (io_paths path.now) result (files self.old) (files self.new) };

    /// Returns whether a path leads to standard output or standard error: then what is written there goes to this stream. A contract sees
    /// such a path as one with no regular file.
    fn is_stream(&mut self, path: &str) -> io::Result<bool>
        ensures special { IfOk result (λ is. is ≡ true → IsKindAt (files self.old) path.now Kind.Other) }
        ensures unchanged { KeepsFiles (io_paths path.now) result (files self.old) (files self.new) };

    /// Returns which regular file or folder is at a path, or at the end of a link, or `None` if neither is there.
    fn id(&mut self, path: &str) -> io::Result<Option<Id>>
        ensures unchanged { KeepsFiles (io_paths path.now) result (files self.old) (files self.new) };

    /// Locks a folder. While another program has it locked, this waits. If the file system has no locks, the lock holds nothing.
    fn lock(&mut self, folder: &str) -> io::Result<Self::Lock>
        ensures unchanged { KeepsFiles (io_paths folder.now) result (files self.old) (files self.new) };

    /// Locks a folder, or returns `None` if another program has it locked.
    fn try_lock(&mut self, folder: &str) -> io::Result<Option<Self::Lock>>
        ensures unchanged { KeepsFiles (io_paths folder.now) result (files self.old) (files self.new) };

    /// Makes the names in a folder outlast a power failure, if its file system can do that. Returns false if it failed.
    fn sync(&mut self, folder: &str) -> bool
        ensures unchanged { files self.new ≡ files self.old };

    /// Returns whether nothing is at a path at which the file of a target is to be written first. The path that an error adds is the
    /// target, which is then not written.
    fn is_free(&mut self, path: &str, target: &str) -> io::Result<bool>
        ensures unchanged { KeepsFiles (io_paths target.now) result (files self.old) (files self.new) };

    /// Writes a new file, if nothing is at the path, that is then to be moved to a target, with the mode of the file that is there, if
    /// one is, and makes sure that its contents outlast a power failure, if this is wanted. An error may leave a part of the file, but never
    /// changes one that was there; the path that failed is the target, which is then not written.
    fn write_new<C: Contents>(
        &mut self,
        path: &str,
        target: &str,
        contents: &C,
        durable: bool,
    ) -> io::Result<()>
        ensures written { OnOk result (Becomes (files self.old).bytes (files self.new).bytes
            (λ stored. insert stored path.now (C.bytes contents.now))) }
        ensures free { OnOk result (IsFree path.now (files self.old).bytes) }
        ensures err { OnErr result
            (AddsOnly (path.now ∷ []) (files self.old).bytes (files self.new).bytes) }
        ensures failed { ReportsPaths (io_paths target.now) result (files self.old) (files self.new) };

    /// Moves the file of one path to another, replacing what is there. The path that an error adds is the second, as it is not
    /// written. No error says that an allocation failed.
    fn rename(&mut self, from: &str, to: &str) -> io::Result<()>
        ensures moved { OnOk result
            (Becomes (files self.old).bytes (files self.new).bytes (files_after_rename from.now to.now)) }
        ensures err { OnErr result ((files self.new).bytes ≡ (files self.old).bytes) }
        ensures named { IfErr result (λ error. io_paths to.now error ≡ to.now ∷ []) }
        ensures failed { ReportsPaths (io_paths to.now) result (files self.old) (files self.new) };

    /// Removes a file. No error says that an allocation failed.
    fn remove(&mut self, path: &str) -> io::Result<()>
        ensures removed { OnOk result (Becomes (files self.old).bytes (files self.new).bytes
            (λ stored. remove stored path.now)) }
        ensures err { OnErr result ((files self.new).bytes ≡ (files self.old).bytes) }
        ensures named { IfErr result (λ error. io_paths path.now error ≡ path.now ∷ []) }
        ensures failed { ReportsPaths (io_paths path.now) result (files self.old) (files self.new) };

    /// Removes a file if there is one and it can be removed. It is no failure if not.
    fn discard(&mut self, path: &str)
        ensures others { ChangesOnly (path.now ∷ []) (files self.old).bytes (files self.new).bytes }
        ensures failed { (files self.new).failed ≡ (files self.old).failed };
}

// Writes contents to a writer through a buffer, and returns the writer.
fn write_whole<W: Write + Drop, C: Contents>(
    alloc: Global,
    writer: W,
    contents: &C,
) -> io::Result<W>
    ensures { IfOk result (λ after. Appends (W.contents writer) (W.contents after) (C.bytes contents.now)) }
{
    let mut buffered = BufWriter::new(alloc, writer)?;
    contents.write_to(&mut buffered)?;
    match buffered.into_inner() {
        Ok(written) => Ok(written),
        Err(error) => Err(error.into_error()),
    }
}

// Reads the bytes of a file, or its first `most` if it has more.
fn read_first<T: Read + Drop>(alloc: Global, source: T, most: u64) -> io::Result<Vec<u8>> {
    let mut bytes = Vec::new(alloc);
    source.take(most).read_to_end(&mut bytes)?;
    Ok(bytes)
}

// Returns an answer with an error of another kind if an allocation failed.
fn without_memory(answer: io::Result<()>) -> io::Result<()>
    ensures same { is_ok result ≡ is_ok answer }
    ensures named { IfErr result (λ error. (path : List ℕ) → io_paths path error ≡ path ∷ []) }
{
    match answer {
        Err(error) if error.kind() == ErrorKind::OutOfMemory => {
            Err(io::Error::from(ErrorKind::Other))
        }
        answer => answer,
    }
}

// The number of ENOLCK, an error of a file system that has no locks.
const NO_LOCKS: i32 = 37;

// Returns whether an error says that a file system has no locks.
fn has_no_locks(error: &io::Error) -> bool {
    error.kind() == ErrorKind::Unsupported || error.raw_os_error() == Some(NO_LOCKS)
}

// Returns whether an error says that a file system cannot sync a folder.
fn has_no_sync(error: &io::Error) -> bool {
    matches!(
        error.kind(),
        ErrorKind::Unsupported | ErrorKind::InvalidInput
    )
}

// Returns which file, folder, device or pipe was found.
fn id_in(found: &Metadata) -> Id {
    Id {
        device: found.dev(),
        number: found.ino(),
    }
}

/// The files of the operating system. A contract knows only the paths at which they failed.
#[derive(Drop)]
pub struct SystemFiles<'a, R> {
    rt: &'a R,
    streams: Option<(Stdout, Stderr)>,
    failed: Trail,
}

impl<'a, R> SystemFiles<'a, R> {
    /// Returns the files that a runtime reaches, with no failure yet. A path that leads to standard output or standard error is opened as any
    /// other.
    pub fn new(rt: &'a R) -> SystemFiles<'a, R>
        ensures { paths result.failed ≡ [] }
    {
        SystemFiles {
            rt,
            streams: None,
            failed: Trail::new(),
        }
    }

    /// Returns the files that a runtime reaches, with no failure yet. If a path leads to standard output or standard error, `create` returns
    /// that stream.
    pub fn with_streams(rt: &'a R, out: Stdout, err: Stderr) -> SystemFiles<'a, R>
        ensures { paths result.failed ≡ [] }
    {
        SystemFiles {
            rt,
            streams: Some((out, err)),
            failed: Trail::new(),
        }
    }

    // Adds the path of a call, if the call failed.
    fn note<T>(&mut self, path: &str, answer: io::Result<T>) -> io::Result<T>
        ensures same { result ≡ answer }
        ensures failed { AddsPaths (io_paths path.now) result
            (paths self.old.failed) (paths self.new.failed) }
    {
        if let Err(error) = &answer
            && error.kind() != ErrorKind::OutOfMemory
        {
            self.failed = self.failed.and(path);
        }
        answer
    }
}

impl<R: Files<File = File> + AllocGlobal + Clone + Drop> SystemFiles<'_, R> {
    fn names_in(&self, folder: &str) -> io::Result<Vec<String>> {
        let mut names = Vec::new(self.rt.alloc());
        for entry in read_dir(self.rt, folder)? {
            names.push(String::from_str(self.rt.alloc(), entry?.file_name())?)?;
        }
        Ok(names)
    }

    fn kind_of(&self, path: &str) -> io::Result<Kind> {
        match fs::symlink_metadata(self.rt, path) {
            Ok(found) if found.is_file() => Ok(Kind::Regular),
            Ok(_) => Ok(Kind::Other),
            Err(error) if error.kind() == ErrorKind::NotFound => Ok(Kind::Absent),
            Err(error) => Err(error),
        }
    }

    fn id_of(&self, path: &str) -> io::Result<Option<Id>> {
        match fs::metadata(self.rt, path) {
            Ok(found) if found.is_file() || found.is_dir() => Ok(Some(id_in(&found))),
            Ok(_) => Ok(None),
            Err(error) => match error.kind() {
                ErrorKind::NotFound | ErrorKind::NotADirectory => Ok(None),
                _ => Err(error),
            },
        }
    }

    fn folder_at(&self, path: &str) -> io::Result<File> {
        if !fs::metadata(self.rt, path)?.is_dir() {
            return Err(io::Error::from(ErrorKind::NotADirectory));
        }
        fs::open(self.rt, path)
    }

    fn locked(&self, folder: &str) -> io::Result<Option<File>> {
        let opened = self.folder_at(folder)?;
        match opened.lock() {
            Ok(()) => Ok(Some(opened)),
            Err(error) if has_no_locks(&error) => Ok(None),
            Err(error) => Err(error),
        }
    }

    fn locked_at_once(&self, folder: &str) -> io::Result<Option<Option<File>>> {
        let opened = self.folder_at(folder)?;
        match opened.try_lock() {
            Ok(()) => Ok(Some(Some(opened))),
            Err(TryLockError::WouldBlock) => Ok(None),
            Err(TryLockError::Error(error)) if has_no_locks(&error) => Ok(Some(None)),
            Err(TryLockError::Error(error)) => Err(error),
        }
    }

    fn read_from(&self, path: &str, most: u64) -> io::Result<Vec<u8>> {
        read_first(self.rt.alloc(), fs::open(self.rt, path)?, most)
    }

    // Opening a pipe waits for its other end, so what is there is looked at first.
    fn read_if_no_pipe(&self, path: &str, most: u64) -> io::Result<Vec<u8>> {
        if fs::metadata(self.rt, path)?.file_type().is_fifo() {
            return Err(io::Error::from(ErrorKind::InvalidInput));
        }
        self.read_from(path, most)
    }

    fn synced(&self, folder: &str) -> io::Result<()> {
        match fs::open(self.rt, folder)?.sync_all() {
            Err(error) if has_no_sync(&error) => Ok(()),
            synced => synced,
        }
    }

    // Returns the permissions of the regular file at a path, if there is one.
    fn permissions_at(&self, path: &str) -> io::Result<Option<Permissions>> {
        match fs::symlink_metadata(self.rt, path) {
            Ok(found) if found.is_file() => Ok(Some(found.permissions())),
            Ok(_) => Ok(None),
            Err(error) if error.kind() == ErrorKind::NotFound => Ok(None),
            Err(error) => Err(error),
        }
    }

    // Writes a new file with the permissions of the file that it replaces. Until then nobody else can read it. A part is removed.
    fn write_at<C: Contents>(
        &self,
        path: &str,
        target: &str,
        contents: &C,
        durable: bool,
    ) -> io::Result<()> {
        let permissions = self.permissions_at(target)?;
        let mut options = OpenOptions::new();
        options.write(true).create_new(true);
        if permissions.is_some() {
            options.mode(0o600);
        }
        let file = options.open(self.rt, path)?;
        let filled = self.fill(file, permissions, contents, durable);
        if filled.is_err() {
            let _ = fs::remove_file(self.rt, path);
        }
        filled
    }

    // Writes contents to a new file, and gives it the permissions of the file that it replaces. Only a sync reports an error of closing it.
    fn fill<C: Contents>(
        &self,
        file: File,
        permissions: Option<Permissions>,
        contents: &C,
        durable: bool,
    ) -> io::Result<()> {
        let written = write_whole(self.rt.alloc(), file, contents)?;
        let replaces = permissions.is_some();
        if let Some(permissions) = permissions {
            written.set_permissions(permissions)?;
        }
        if durable || replaces {
            written.sync_all()?;
        }
        Ok(())
    }

    // Opens what is at a path, or at the end of a link, to write it. A file is made or emptied.
    fn open_to_write(&self, path: &str) -> io::Result<File> {
        let mut options = OpenOptions::new();
        options.write(true).create(true).truncate(true);
        options.open(self.rt, path)
    }

    // Returns which file, folder, device or pipe is at a path, or at the end of a link, or `None` if nothing is there.
    fn found_at(&self, path: &str) -> io::Result<Option<Id>> {
        match fs::metadata(self.rt, path) {
            Ok(found) => Ok(Some(id_in(&found))),
            Err(error) if error.kind() == ErrorKind::NotFound => Ok(None),
            Err(error) => Err(error),
        }
    }

    // Returns the stream to which a path leads, if it is standard output or standard error.
    fn stream_at(&self, path: &str) -> io::Result<Option<Destination>> {
        let (Some((out, err)), Some(id)) = (self.streams, self.found_at(path)?) else {
            return Ok(None);
        };
        if self.found_at("/dev/fd/1")? == Some(id) {
            return Ok(Some(Destination::Stdout(out)));
        }
        if self.found_at("/dev/fd/2")? == Some(id) {
            return Ok(Some(Destination::Stderr(err)));
        }
        Ok(None)
    }

    // Takes the numbers up to that of standard output, if this is closed: else the next file that is opened could get it, and what is written
    // to standard output. Nothing can be written to a folder.
    fn guards(&self) -> io::Result<Option<(File, File)>> {
        if self.found_at("/dev/fd/1")?.is_some() {
            return Ok(None);
        }
        Ok(Some((fs::open(self.rt, "/")?, fs::open(self.rt, "/")?)))
    }

    fn destination_at(&self, path: &str) -> io::Result<Destination> {
        if let Some(stream) = self.stream_at(path)? {
            return Ok(stream);
        }
        let guards = self.guards()?;
        Ok(Destination::File(self.open_to_write(path)?, guards))
    }
}

impl<R: Files<File = File> + AllocGlobal + Clone + Drop> FileSystem for SystemFiles<'_, R> {
    type Input = Over<File>;

    type Output = SystemOutput;

    type Lock = Option<File>;

    ghost files = { λ system.
        record { bytes = None; names = λ _. []; special = λ _. false; failed = paths system.failed } };

    fn alloc(&self) -> Global {
        self.rt.alloc()
    }

    fn open(&mut self, path: &str) -> io::Result<Over<File>> {
        let opened = fs::open(self.rt, path);
        Ok(Over::new(self.note(path, opened)?))
    }

    fn note_failed_read(&mut self, path: &str, _input: &Over<File>) {
        self.failed = self.failed.and(path);
    }

    fn create(&mut self, path: &str) -> io::Result<SystemOutput> {
        let opened = self.destination_at(path);
        Ok(SystemOutput::new(self.note(path, opened)?))
    }

    fn close(&mut self, path: &str, output: SystemOutput) -> io::Result<()> {
        self.note(path, output.close())
    }

    fn read(&mut self, path: &str, most: u64) -> io::Result<Vec<u8>> {
        let bytes = self.read_from(path, most);
        self.note(path, bytes)
    }

    fn read_unless_pipe(&mut self, path: &str, most: u64) -> io::Result<Vec<u8>> {
        let bytes = self.read_if_no_pipe(path, most);
        self.note(path, bytes)
    }

    fn list(&mut self, folder: &str) -> io::Result<Vec<String>> {
        let names = self.names_in(folder);
        self.note(folder, names)
    }

    fn kind(&mut self, path: &str) -> io::Result<Kind> {
        let kind = self.kind_of(path);
        self.note(path, kind)
    }

    fn is_free(&mut self, path: &str, target: &str) -> io::Result<bool> {
        let kind = self.kind_of(path);
        Ok(self.note(target, kind)? == Kind::Absent)
    }

    fn is_stream(&mut self, path: &str) -> io::Result<bool> {
        let stream = self.stream_at(path);
        Ok(self.note(path, stream)?.is_some())
    }

    fn id(&mut self, path: &str) -> io::Result<Option<Id>> {
        let id = self.id_of(path);
        self.note(path, id)
    }

    fn lock(&mut self, folder: &str) -> io::Result<Option<File>> {
        let locked = self.locked(folder);
        self.note(folder, locked)
    }

    fn try_lock(&mut self, folder: &str) -> io::Result<Option<Option<File>>> {
        let locked = self.locked_at_once(folder);
        self.note(folder, locked)
    }

    fn sync(&mut self, folder: &str) -> bool {
        self.synced(folder).is_ok()
    }

    fn write_new<C: Contents>(
        &mut self,
        path: &str,
        target: &str,
        contents: &C,
        durable: bool,
    ) -> io::Result<()> {
        let written = self.write_at(path, target, contents, durable);
        self.note(target, written)
    }

    fn rename(&mut self, from: &str, to: &str) -> io::Result<()> {
        let renamed = without_memory(fs::rename(self.rt, from, to));
        self.note(to, renamed)
    }

    fn remove(&mut self, path: &str) -> io::Result<()> {
        let removed = without_memory(fs::remove_file(self.rt, path));
        self.note(path, removed)
    }

    fn discard(&mut self, path: &str) {
        let _ = fs::remove_file(self.rt, path);
    }
}
