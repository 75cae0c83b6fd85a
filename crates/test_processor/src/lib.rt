//! The processor and its memory: the 8080's instructions by the manual's examples and by computing in a second way, and the pages
//! of memory that a run wrote and looked at.
//!
//! - `instructions`, `pages`: tests of instructions over a plain memory, and of pages and looks
//! - `fixtures`: a plain memory of zeros
#![tactic(auto)]

#[cfg(test)]
mod fixtures;
#[cfg(test)]
mod instructions;
#[cfg(test)]
mod pages;
