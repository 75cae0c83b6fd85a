// `cpmrun`: edit lines over any reader and writer, and the command over any files.

use cpmrun::{
    Ending, Failed, FileSystem, Over, Reader, ReplayFault, Words, Writer, command, read_words,
    replay,
};
use machine::Meter;
use replay::Runner;
use std::alloc::Global;

/// Reads and writes a piece, and replays what is left.
pub fn lines<R: Reader, W: Writer>(
    alloc: Global,
    runner: &mut Runner,
    reader: &mut R,
    writer: &mut W,
) -> Result<u64, ReplayFault> {
    let mut piece = [0; 16];
    let _read: Result<usize, Failed> = reader.read(&mut piece);
    let _written: Result<usize, Failed> = writer.write(&piece);
    let mut meter = Meter::new();
    let Ending { lines } = replay(alloc, runner, &mut meter, reader, writer)?;
    Ok(lines)
}

/// Wraps a reader or writer of the standard library.
pub fn over<T>(inner: T) -> Over<T> {
    Over::new(inner)
}

/// Reads words.
pub fn words<'a>(alloc: Global, words: &'a [String]) -> Option<Words<'a>> {
    match read_words(alloc, words) {
        Ok(words) => Some(words),
        Err(_error) => None,
    }
}

/// Executes the command.
pub fn whole<S: FileSystem, O: Writer, E: Writer>(
    system: &mut S,
    words: &[String],
    out: &mut O,
    err: &mut E,
) -> u8 {
    command(system, words, out, err)
}
