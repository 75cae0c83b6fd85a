// A text that grows, and that remembers a failure of its writer.

ghost use Rattle.std.specs.Prelude.{◌≡◌, ℕ, List, ◌+◌, ◌++◌, ◌≤◌, [], length, take, true, false, Bool, OnOk, OnErr};
ghost use Rattle.std.specs.Io.KnownBytes.{Appends};
ghost use Rattle.streams.specs.Streams.{WritesText};
ghost use Rattle.streams.specs.Pushing.{Wrote, Wrote-prop, Pushed, more, as_count};

use crate::streams::{Failed, Writer};
use arrayvec::ArrayVec;
use boxcar::tag::{Names, Tag};
use std::snapshot::Snapshot;

/// After this many steps of a run, the text that is there is sent.
pub const STEPS_UNTIL_TEXT: u64 = 1_000_000;

/// A text that grows by what is pushed onto it. If what it is sent to fails, it remembers that: nothing more is sent, and pushing goes
/// on as before.
pub trait Text {
    /// All that was pushed, and where it is sent.
    ghost pushed: { Self → Pushed };

    /// The end of it, which is not sent yet.
    ghost unsent: { Self → List ℕ };

    /// Whether sending failed.
    ghost failed: { Self → Bool };

    /// Appends a piece.
    fn push(&mut self, piece: &[u8])
        ensures piece { pushed self.new ≡ more (pushed self.old) piece.now }
        ensures remembers { failed self.old ≡ true → failed self.new ≡ true };

    /// Sends what was pushed and is not sent yet.
    fn flush(&mut self)
        ensures same { pushed self.new ≡ pushed self.old }
        ensures sent { unsent self.new ≡ [] }
        ensures remembers { failed self.old ≡ true → failed self.new ≡ true };

    /// Returns whether sending failed. Then nothing more is sent.
    fn has_failed(&self) -> bool
        ensures { result ≡ failed self.now };
}

// A list of bytes that only contracts see, and a piece after it.
#[derive(Drop)]
struct Longer<'a> {
    front: &'a Tag,
    piece: &'a [u8],
}

struct Bytes;

impl<'a> Names<Longer<'a>> for Bytes {
    ghost numbers = { λ l. l.front.now.numbers ++ l.piece.now };
}

// Returns a list of bytes with a piece after it.
fn with_piece(front: &Tag, piece: &[u8]) -> Tag
    ensures { result.numbers ≡ front.now.numbers ++ piece.now }
{
    Tag::of::<Longer<'_>, Bytes>(&Longer { front, piece })
}

// Writes a text. Returns how many of its bytes were written, and whether the writer failed. A failed write is not tried again.
fn write_counted<W: Writer>(writer: &mut W, text: &[u8]) -> (usize, bool)
    ensures count { result.0 ≤ length text.now }
    ensures bytes { Appends (W.output writer.old).holds (W.output writer.new).holds (take result.0 text.now) }
    ensures failures { (W.output writer.new).failures ≡ (W.output writer.old).failures + as_count result.1 }
    ensures all { result.1 ≡ false → result.0 ≡ length text.now }
{
    let mut done = 0;
    while done < text.len() {
        match writer.write(&text[done..]) {
            Ok(n) => done += n,
            Err(Failed) => return (done, true),
        }
    }
    (done, false)
}

/// A text that is written to a borrowed writer, up to its first failure. Up to 4,096 bytes are kept before they are written.
#[derive(Drop)]
pub struct TextOver<'w, W: Writer> {
    writer: &'w mut W,
    failed: bool,
    buffer: ArrayVec<u8, 4096>,
    start: Snapshot<W>,
    said: Tag,
    sent: Tag,
    ghost bytes: { Wrote (W.output start.value) (W.output writer.now) sent.numbers } by { Wrote-prop _ _ _ },
    ghost failures: { (W.output writer.now).failures ≡ (W.output start.value).failures + as_count failed },
    ghost prefix: { take (length sent.numbers) said.numbers ≡ sent.numbers },
    ghost all: { failed ≡ false → sent.numbers ++ buffer.items ≡ said.numbers },
}

impl<'w, W: Writer> TextOver<'w, W> {
    /// Begins a text.
    pub fn new(writer: &'w mut W) -> TextOver<'w, W>
        ensures writer { result.writer ≡ writer.entry }
        ensures start { result.start.value ≡ writer.old }
        ensures said { result.said.numbers ≡ [] }
    {
        let start = Snapshot::of(&*writer);
        TextOver {
            writer,
            failed: false,
            buffer: ArrayVec::new(),
            start,
            said: Tag::empty(),
            sent: Tag::empty(),
        }
    }

    // Appends a piece for which the buffer has no room. This is rare, so it is not inlined as `push` is.
    #[inline(never)]
    fn push_apart(&mut self, piece: &[u8])
        ensures same_reference { self.new.writer.ghost_name ≡ self.old.writer.ghost_name }
        ensures start { W.output self.new.start.value ≡ W.output self.old.start.value }
        ensures said { self.new.said.numbers ≡ self.old.said.numbers ++ piece.now }
        ensures remembers { self.old.failed ≡ true → self.new.failed ≡ true }
    {
        self.flush();
        self.said = with_piece(&self.said, piece);
        if self.failed || self.buffer.try_extend_from_slice(piece).is_ok() {
            return;
        }
        let (count, failed) = write_counted(self.writer, piece);
        self.sent = with_piece(&self.sent, &piece[..count]);
        self.failed = failed;
    }

    /// Ends a text that is flushed.
    ///
    /// # Errors
    ///
    /// The writer failed once: a prefix of the text was written.
    pub fn finish(self) -> Result<(), Failed>
        requires { self.buffer.items ≡ [] }
        ensures written { WritesText (W.output self.entry.start.value)
            (W.output self.exit.0.now) self.entry.said.numbers result }
        ensures ok { OnOk result (self.entry.failed ≡ false) }
        ensures err { OnErr result (self.entry.failed ≡ true) }
    {
        if self.failed {
            return Err(Failed);
        }
        Ok(())
    }
}

impl<W: Writer> Text for TextOver<'_, W> {
    ghost pushed = { λ t. record {
      text = t.said.numbers;
      start = W.output t.start.value;
      lender = t.writer.ghost_name;
    } };

    ghost unsent = { λ t. t.buffer.items };

    ghost failed = { λ t. t.failed };

    #[inline(always)]
    fn push(&mut self, piece: &[u8]) {
        if self.buffer.try_extend_from_slice(piece).is_ok() {
            self.said = with_piece(&self.said, piece);
            return;
        }
        self.push_apart(piece);
    }

    // What is kept after a failure is never sent.
    fn flush(&mut self) {
        if self.failed {
            self.buffer.clear();
            return;
        }
        let (count, failed) = write_counted(self.writer, self.buffer.as_slice());
        self.sent = with_piece(&self.sent, &self.buffer.as_slice()[..count]);
        self.buffer.clear();
        self.failed = failed;
    }

    fn has_failed(&self) -> bool {
        self.failed
    }
}

/// Writes a text.
///
/// # Errors
///
/// The writer failed: a prefix of the text was written. A failed write is not tried again.
pub fn write_all<W: Writer>(writer: &mut W, text: &[u8]) -> Result<(), Failed>
    ensures { WritesText (W.output writer.old) (W.output writer.new) text.now result }
{
    let mut whole = TextOver::new(writer);
    whole.push(text);
    whole.flush();
    whole.finish()
}
