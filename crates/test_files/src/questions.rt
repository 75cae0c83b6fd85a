// The questions that were asked of host files.

use crate::keys::ANN;
use cpmfiles::Ask::{Directory, Length, Rec};
use cpmfiles::{Ask, Changes};
use std::alloc::AllocError;

/// Returns whether exactly these questions were asked. Each is listed once.
pub fn are_asked(changes: &Changes, asks: &[Ask]) -> Result<bool, AllocError> {
    let mut left = changes.snapshot()?;
    Ok(are_taken(changes, &mut left, asks))
}

// Returns whether these were asked, and exactly as many can be taken out of a copy.
fn are_taken(changes: &Changes, left: &mut Changes, asks: &[Ask]) -> bool {
    for ask in asks {
        if !changes.looked(ask) || left.looks.take().is_none() {
            return false;
        }
    }
    left.looks.take().is_none()
}

/// Takes out `count` questions, and returns the sum of their digits.
pub fn sum_taken(changes: &mut Changes, count: u32) -> u32 {
    let mut sum: u32 = 0;
    for _ in 0..count {
        sum = sum.wrapping_add(next_taken(changes));
    }
    sum
}

// Takes out a question, and returns its digit.
fn next_taken(changes: &mut Changes) -> u32 {
    match changes.looks.take() {
        Some(ask) => digit(!changes.looked(&ask), places(&ask)),
        None => 0,
    }
}

// Returns a digit at a place of its own for each of these four questions.
fn places(ask: &Ask) -> u32 {
    match *ask {
        Ask::Has(key) => digit(key == ANN, 1),
        Length(key) => digit(key == ANN, 10),
        Rec(key, place) => digit(key == ANN && place == 1, 100),
        Directory(drive) => digit(drive == 0, 1000),
    }
}

fn digit(is_asked: bool, value: u32) -> u32 {
    if is_asked { value } else { 0 }
}
