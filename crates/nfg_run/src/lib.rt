//! A command line and a script are answered as if over plain lists of grapheme clusters.
#![tactic(auto)]

ghost use Rattle.std.specs.Prelude.{◌≡◌, ◌≢◌, IsNone};
ghost use Rattle.nfg_io.specs.Causes.{Rose};
ghost use Rattle.nfg_run.specs.CommandLine.{script_path};
ghost use Rattle.nfg_run.specs.Headline.{IsAnswered, IsDelivered, IsCutOff, IsFaultless};
ghost use Rattle.nfg_run.specs.declared.answer.Answer.{Answer};

mod answer;
#[cfg(test)]
mod cell_tests;
#[cfg(test)]
mod colliding_tests;
#[cfg(test)]
mod command_line_tests;
#[cfg(test)]
mod drawn_outside;
#[cfg(test)]
mod draws;
mod evaluated;
#[cfg(test)]
mod example_tests;
#[cfg(test)]
mod failing_tests;
mod generated_input;
mod generator;
#[cfg(test)]
mod generator_tests;
#[cfg(test)]
mod large_file_tests;
#[cfg(test)]
mod malformed_tests;
mod number;
#[cfg(test)]
mod one_hash_tests;
#[cfg(test)]
mod part_loads;
#[cfg(test)]
mod part_tests;
#[cfg(test)]
mod part_text_tests;
#[cfg(test)]
mod pieces_fed;
#[cfg(test)]
mod plain_decoding;
mod reading;
mod said;
mod status;
#[cfg(test)]
mod table_texts;
#[cfg(test)]
mod tests;
#[cfg(test)]
mod truncated_tests;
mod words;
#[cfg(test)]
mod worked_rows;
#[cfg(test)]
mod worked_strings;
#[cfg(test)]
mod worker_tests;
mod writing;

use crate::answer::answer_words;
pub use crate::generated_input::Generated;
pub use crate::generator::generated;
pub use crate::status::Status;
pub use crate::words::Words;
use crate::writing::write_all;
use nfg_io::{Files, Sink};
use nfg_work::laws::failed_read_is_cause;
pub use nfg_work::{Cause, FileRead, Gate, OpenGate, Output, RefusedLine};
use std::alloc::Global;
use std::marker::Sync;
use std::thread::Threads;

/// Does what the words of the command line ask: reads the script and its files, or generates them, and
/// writes the answer.
///
/// The commands of a script are done by workers over a table that they share. `gate` is told when a worker begins
/// a command and when it is done with it.
pub fn run<R: Threads + Sync, F: Files, S: Sink, G: Gate>(
    rt: &R,
    alloc: Global,
    words: &Words,
    files: &mut F,
    out: &mut S,
    gate: &G,
) -> Status
    // The status and the bytes written are those of the answer to what was read.
    ensures exact_output { result ≢ Status.OutOfMemory → result ≢ Status.WriteFault
        → (given : Answer) × IsAnswered words.now (F.state files.old) (F.state files.new) given
        × IsDelivered given result (S.state out.old) (S.state out.new) }

    // Where a write failed, its count rose, and a proper prefix of these bytes was written.
    ensures write_fault_leaves_prefix { result ≡ Status.WriteFault
        → (given : Answer) × IsAnswered words.now (F.state files.old) (F.state files.new) given
        × IsCutOff given (S.state out.old) (S.state out.new) }

    // A read fault has its cause in the files: their count rose.
    ensures read_fault_rose { result ≡ Status.ReadFault
        → Rose (F.state files.old).faults (F.state files.new).faults }

    // Where no count rose, a run is done unless it lacks memory, or the words, the script or a line are refused.
    ensures faultless { result ≢ Status.OutOfMemory
        → ¬ Rose (F.state files.old).faults (F.state files.new).faults
        → ¬ Rose (S.state out.old).faults (S.state out.new).faults
        → IsFaultless words.now (F.state files.old) result }

    // Without memory nothing was written.
    ensures nothing_written { result ≡ Status.OutOfMemory → out.new ≡ out.old }

    // No file is touched unless the words name a script.
    ensures files_untouched { IsNone (script_path words.now) → files.new ≡ files.old }
{
    failed_read_is_cause();
    let Ok(answer) = answer_words(rt, alloc, words, files, gate) else {
        return Status::OutOfMemory;
    };
    match write_all(out, answer.bytes.as_slice()) {
        Ok(()) => answer.status,
        Err(_) => Status::WriteFault,
    }
}
