// The words of a command: numbers, addresses, names and bytes.

use crate::trouble::Trouble;
use hex::FromHexError;
use machine::Name;
use std::alloc::{AllocError, Global};

/// Splits a command into its words.
pub fn words_of(alloc: Global, command: &str) -> Result<Vec<&str>, AllocError> {
    let mut words = Vec::new(alloc);
    for word in command.split(' ') {
        words.push(word)?;
    }
    Ok(words)
}

/// Parses a decimal number.
pub fn number(word: &str) -> Result<u64, Trouble> {
    match word.parse::<u64>() {
        Ok(number) => Ok(number),
        Err(_) => Err(Trouble::Words),
    }
}

/// Parses an address in hexadecimal digits.
pub fn address(word: &str) -> Result<u16, Trouble> {
    match u16::from_str_radix(word, 16) {
        Ok(address) => Ok(address),
        Err(_) => Err(Trouble::Words),
    }
}

/// Parses the name of a file.
pub fn name(word: &str) -> Result<Name, Trouble> {
    match Name::parse(word) {
        Ok(name) => Ok(name),
        Err(_) => Err(Trouble::Words),
    }
}

/// Parses bytes: `-` for none, or two hexadecimal digits for each.
pub fn bytes(alloc: Global, word: &str) -> Result<Vec<u8>, Trouble> {
    if word == "-" {
        return Ok(Vec::new(alloc));
    }
    match hex::decode(alloc, word.as_bytes()) {
        Ok(bytes) => Ok(bytes),
        Err(FromHexError::OutOfMemory) => Err(Trouble::OutOfMemory),
        Err(_) => Err(Trouble::Words),
    }
}
