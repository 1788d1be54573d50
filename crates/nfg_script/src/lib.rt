//! Scripts of string operations are read.
#![tactic(auto)]

mod code_points;
mod command;
mod error;
mod forms;
mod line;
mod line_read;
mod names;
mod reading;
mod script;
mod word;
mod words;

pub use command::Command;
pub use error::{Reason, ScriptError};
pub use reading::parse;
pub use script::Script;

#[cfg(test)]
mod tests;
