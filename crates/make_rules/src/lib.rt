//! The rule for make with the files on which the run of a session depends.
//!
//! - `carried`, `escapes`: the paths that a rule can have, and how it has them
//! - `files`, `missing`: the host files on which a run depends; the ones that are not there
//! - `rule`: the rule
//! - `refused_paths`: paths among the words of a command line that a rule cannot have
#![tactic(auto)]

mod carried;
mod escapes;
mod files;
mod missing;
mod refused_paths;
mod rule;

pub use refused_paths::check_paths;
pub use rule::rule_of_run;
