// Reports and bytes, printed.

use crate::trouble::Trouble;
use replay::Report;
use report_lines::{FileFilter, push_changed_files, push_hex, push_text, report_head};
use std::io;
use streams::{Failed, Over, Text, TextOver, Writer};

/// Prints a line.
pub fn write_line(rt: &impl Print, text: &str) -> Result<(), Trouble> {
    println!(rt; "{text}")?;
    Ok(())
}

/// Prints a word, and bytes in hexadecimal digits, or `-` for none.
pub fn write_bytes(rt: &impl Print, word: &str, bytes: &[u8]) -> Result<(), Trouble> {
    if bytes.is_empty() {
        println!(rt; "{word} -")?;
        return Ok(());
    }
    print!(rt; "{word} ")?;
    let Ok(()) = write_hex(&mut Over::new(io::writer(rt)), bytes) else {
        return Err(Trouble::Device);
    };
    println!(rt)?;
    Ok(())
}

// Writes bytes in hexadecimal digits.
fn write_hex<W: Writer>(writer: &mut W, bytes: &[u8]) -> Result<(), Failed> {
    let mut text = TextOver::new(writer);
    push_hex(&mut text, bytes);
    text.flush();
    text.finish()
}

/// Prints the lines of a report, except the last.
pub fn write_report(rt: &impl Print, report: &Report<'_>) -> Result<(), Trouble> {
    let Ok(()) = write_lines(&mut Over::new(io::writer(rt)), report) else {
        return Err(Trouble::Device);
    };
    Ok(())
}

// Writes the lines of a report, except the last.
fn write_lines<W: Writer>(writer: &mut W, report: &Report<'_>) -> Result<(), Failed> {
    let head = report_head(report.cause(), report.steps(), report.regs());
    let mut text = TextOver::new(writer);
    text.push(head.as_bytes());
    push_text(&mut text, report.text());
    push_changed_files(&mut text, FileFilter::All, report.files(), report.journal());
    text.flush();
    text.finish()
}
