//! Interaction trees over any family of questions, and the theorem that what a run does not ask cannot influence it.
//!
//! This crate contains only definitions and proofs, which the crates above it use.
#![tactic(auto)]
