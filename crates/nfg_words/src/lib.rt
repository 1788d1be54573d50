//! A table of synthetics that callers on several threads share without locks.
#![tactic(auto)]

pub mod compare;
pub mod laws;
pub mod layout;
pub mod loads;
pub mod naming;
pub mod pass;
pub mod probe;
mod probe_error;
pub mod put;
pub mod read;
pub mod steps;
mod table;
#[cfg(test)]
mod tests;
#[cfg(test)]
mod tests_of_forks;
#[cfg(test)]
mod tests_of_tables;
#[cfg(test)]
mod tests_of_threads;
pub mod view;
pub mod visit;
pub mod walk;
pub mod words;
pub mod write;

pub use pass::WordPass;
pub use probe_error::ProbeError;
pub use steps::Steps;
pub use table::WordTable;
