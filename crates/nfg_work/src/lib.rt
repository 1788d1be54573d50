//! Scripts are evaluated.
#![tactic(auto)]

mod affordable;
mod ahead;
mod alone;
mod answering;
mod body;
#[cfg(test)]
mod border_tests;
mod bounds;
mod comparing;
mod defining;
mod evaluation;
mod file_parts;
mod gate;
mod given;
mod given_answers;
mod given_strings;
mod hexadecimal;
mod in_order;
mod job;
#[cfg(test)]
mod job_tests;
#[cfg(test)]
mod join_tests;
mod joining;
mod large;
#[cfg(test)]
mod large_tests;
pub mod laws;
mod level;
mod level_jobs;
mod level_list;
mod loader;
mod loaders;
mod loading_parts;
mod making;
mod meeting;
mod naming;
mod outcome;
mod output;
mod part_joining;
mod plan;
mod printing;
mod progress;
mod put;
mod recording;
mod running;
mod shared;
mod shared_error;
mod spelling;
mod stepping;
mod stop;
#[cfg(test)]
mod tests;
mod work;
mod worker;
mod workers;

pub use alone::run_alone;
pub use gate::{Gate, OpenGate};
pub use level::levels;
pub use level_list::LevelList;
pub use loading_parts::load_parts;
pub use output::{Cause, FileRead, Output, RefusedLine};
pub use running::run_shared;
pub use shared_error::SharedError;
