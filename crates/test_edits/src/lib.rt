//! Replays of edit texts over devices that fail, and the messages of refusals. Expected values are worked out by hand.
//!
//! - `texts`, `replaying`: tests of edit texts; their replays, with devices that fail
//! - `messages`: tests of the messages of refusals
#![tactic(auto)]

#[cfg(test)]
mod messages;
#[cfg(test)]
mod replaying;
#[cfg(test)]
mod texts;
