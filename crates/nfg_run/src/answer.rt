//! The answer to the words and to what the files give.
ghost use Rattle.std.specs.Prelude.{◌≡◌, ◌≢◌, ◌≤◌, ◌<◌, ◌^◌, IfOk, IsNone, None, Some, Err, List, [], ℕ, string_bytes};
ghost use Rattle.nfg_syn.specs.Known.{IsRowSize};
ghost use Rattle.nfg_script.specs.Grammar.{parse};
ghost use Rattle.nfg_run.specs.CommandLine.{script_path, path_of, command_line, asked, run_of, gen_of, places_of, workers_of, IsWorkerCount, Run};
ghost use Rattle.nfg_run.specs.Generator.{script_text};
ghost use Rattle.nfg_run.specs.Answer.{answer_output, answer_script, answer_line, generated_reads, cause_text, cause_status};
ghost use Rattle.nfg_run.specs.Answer.{reason_text as reason_told, refusal_text as refusal_told};
ghost use Rattle.nfg_run.specs.Headline.{IsAnswered};

use crate::evaluated::{Means, evaluated};
use crate::generated_input::Generated;
use crate::generator::generated;
use crate::number::{read_count, read_seed};
use crate::reading::{Buffer, PIECE, ReadError, read_loads, read_up_to};
use crate::said::{Said, Unread, read_words};
use crate::{Cause, FileRead, Output, RefusedLine, Status, Words};
use nfg_io::Files;
use nfg_script::{Reason, ScriptError, parse};
use nfg_text::ByteList;
use nfg_work::Gate;
use std::alloc::{AllocError, Global};
use std::marker::Sync;
use std::thread::Threads;

/// What is printed where the words aren't lawful.
const USAGE: &str =
    "usage: nfg run [--workers W] [--table N] SCRIPT\n       nfg gen [--workers W] [--table N] SEED COUNT\n";

/// The most bytes of a script.
const SCRIPT_LIMIT: usize = 1 << 20;

/// The status of a run and the bytes that it writes.
#[derive(Drop)]
pub(crate) struct Answer {
    pub status: Status,
    pub bytes: ByteList,
}

/// The answer to the words.
pub(crate) fn answer_words<R: Threads + Sync, F: Files, G: Gate>(
    rt: &R,
    alloc: Global,
    words: &Words,
    files: &mut F,
    gate: &G,
) -> Result<Answer, AllocError>
    ensures answered { IfOk result
        (IsAnswered words.now (F.state files.old) (F.state files.new)) }
    ensures untouched { IsNone (script_path words.now) → files.new ≡ files.old }
{
    if words.len() == 0 {
        return text_answer(alloc, Status::Bad, USAGE);
    }
    match read_words(alloc, words) {
        Ok(said) => answer_said(rt, alloc, files, words.get(0), &said, gate),
        Err(Unread::Unlawful) => text_answer(alloc, Status::Bad, USAGE),
        Err(Unread::OutOfMemory) => Err(AllocError),
    }
}

/// The answer to the first word and to what the others say.
fn answer_said<R: Threads + Sync, F: Files, G: Gate>(
    rt: &R,
    alloc: Global,
    files: &mut F,
    command: &str,
    said: &Said,
    gate: &G,
) -> Result<Answer, AllocError>
    requires workers { IsWorkerCount (workers_of said.now) }
    requires places { IsRowSize (places_of said.now) }
    ensures answered { IfOk result (λ given. (words : List (List ℕ))
        → command_line words ≡ asked command.now (Some said.now)
        → IsAnswered words (F.state files.old) (F.state files.new) given) }
    ensures untouched { IsNone (path_of (asked command.now (Some said.now))) → files.new ≡ files.old }
{
    if command == "run" {
        return answer_run(rt, alloc, files, said, gate);
    }
    if command == "gen" {
        return answer_gen(rt, alloc, said, gate);
    }
    text_answer(alloc, Status::Bad, USAGE)
}

/// The answer to `run` with what is said.
fn answer_run<R: Threads + Sync, F: Files, G: Gate>(
    rt: &R,
    alloc: Global,
    files: &mut F,
    said: &Said,
    gate: &G,
) -> Result<Answer, AllocError>
    requires workers { IsWorkerCount (workers_of said.now) }
    requires places { IsRowSize (places_of said.now) }
    ensures answered { IfOk result (λ given. (words : List (List ℕ))
        → command_line words ≡ run_of said.now said.now.plain
        → IsAnswered words (F.state files.old) (F.state files.new) given) }
    ensures untouched { IsNone (path_of (run_of said.now said.now.plain)) → files.new ≡ files.old }
{
    if said.plain.len() != 1 {
        return text_answer(alloc, Status::Bad, USAGE);
    }
    answer_path(rt, alloc, files, said.plain.get(0), said.means(), gate)
}

/// The answer to `gen` with what is said.
fn answer_gen<R: Threads + Sync, G: Gate>(
    rt: &R,
    alloc: Global,
    said: &Said,
    gate: &G,
) -> Result<Answer, AllocError>
    requires workers { IsWorkerCount (workers_of said.now) }
    requires places { IsRowSize (places_of said.now) }
    ensures { IfOk result (λ given. given ≡ answer_line (gen_of said.now said.now.plain) None []) }
{
    if said.plain.len() != 2 {
        return text_answer(alloc, Status::Bad, USAGE);
    }
    let Some(seed) = read_seed(said.plain.get(0)) else {
        return text_answer(alloc, Status::Bad, USAGE);
    };
    let Some(count) = read_count(said.plain.get(1)) else {
        return text_answer(alloc, Status::Bad, USAGE);
    };
    answer_generated(rt, alloc, seed, count, said.means(), gate)
}

/// The answer to the script and the files that are generated.
fn answer_generated<R: Threads + Sync, G: Gate>(
    rt: &R,
    alloc: Global,
    seed: u32,
    count: u32,
    means: Means,
    gate: &G,
) -> Result<Answer, AllocError>
    requires seed { seed < 2 ^ 31 }
    requires at_least { 1 ≤ count }
    requires at_most { count ≤ 2 ^ 20 }
    requires workers { IsWorkerCount means.workers }
    requires places { IsRowSize means.places }
    ensures { IfOk result (λ given.
        given ≡ answer_script means.places (parse script_text) (generated_reads seed count)) }
{
    let Generated { script, a, b } = generated(alloc, seed, count)?;
    let mut reads = Vec::new(alloc);
    reads.push(FileRead::Bytes(a))?;
    reads.push(FileRead::Bytes(b))?;
    match parse(alloc, script.as_slice()) {
        Err(error) => refusal_answer(alloc, error),
        Ok(script) => {
            let output = evaluated(rt, alloc, &script, reads.as_slice(), means, gate)?;
            answer_to_output(alloc, output)
        }
    }
}

/// The answer where the words name this path.
fn answer_path<R: Threads + Sync, F: Files, G: Gate>(
    rt: &R,
    alloc: Global,
    files: &mut F,
    path: &str,
    means: Means,
    gate: &G,
) -> Result<Answer, AllocError>
    requires workers { IsWorkerCount means.workers }
    requires places { IsRowSize means.places }
    ensures { IfOk result (λ given. (words : List (List ℕ))
        → command_line words ≡ Some (Run means.workers means.places path.now)
        → IsAnswered words (F.state files.old) (F.state files.new) given) }
{
    let mut buffer: Buffer = [0; PIECE];
    let bytes = match read_up_to(alloc, files, &mut buffer, path, SCRIPT_LIMIT + 1) {
        Ok(bytes) => bytes,
        Err(ReadError::Failed) => {
            return text_answer(alloc, Status::ReadFault, "script: cannot read\n");
        }
        Err(ReadError::OutOfMemory) => return Err(AllocError),
    };
    match parse(alloc, bytes.as_slice()) {
        Err(error) => refusal_answer(alloc, error),
        Ok(script) => {
            let reads = read_loads(alloc, files, &mut buffer, &script)?;
            let output = evaluated(rt, alloc, &script, reads.as_slice(), means, gate)?;
            answer_to_output(alloc, output)
        }
    }
}

/// The answer to a script that is refused.
fn refusal_answer(alloc: Global, error: ScriptError) -> Result<Answer, AllocError>
    ensures told { IfOk result (λ given. given ≡ answer_script 0 (Err error) []) }
    ensures refused { IfOk result (λ _. error ≢ ScriptError.OutOfMemory) }
{
    let text = refusal_text(alloc, error)?;
    text_answer(alloc, Status::Bad, text.as_str())
}

/// The line that tells why a script is refused.
fn refusal_text(alloc: Global, error: ScriptError) -> Result<String, AllocError>
    ensures told { IfOk result (λ text. string_bytes text ≡ refusal_told error) }
    ensures refused { IfOk result (λ _. error ≢ ScriptError.OutOfMemory) }
{
    match error {
        ScriptError::TooLong => String::from_str(alloc, "script: too long\n"),
        ScriptError::Malformed { at } => format!(in alloc; "script: malformed at byte {at}\n"),
        ScriptError::Line { line, reason } => {
            let text = format!(in alloc; "script line {line}: {}\n", reason_text(reason))?;
            Ok(text)
        }
        ScriptError::OutOfMemory => Err(AllocError),
    }
}

/// The text that tells why a line of a script is refused.
fn reason_text(reason: Reason) -> &'static str
    ensures { result.now ≡ reason_told reason }
{
    match reason {
        Reason::BadCommand => "bad command",
        Reason::WordCount => "wrong count of words",
        Reason::BadName => "bad name",
        Reason::NameTaken => "name taken",
        Reason::UnknownName => "unknown name",
        Reason::BadNumber => "bad number",
        Reason::BadEncoding => "bad encoding",
        Reason::BadCodePoint => "bad code point",
    }
}

/// The answer to what a script gives: its bytes, and the refused line behind them.
fn answer_to_output(alloc: Global, output: Output) -> Result<Answer, AllocError>
    ensures { IfOk result (λ given. given ≡ answer_output output.bytes output.refused) }
{
    let Output { mut bytes, refused } = output;
    match refused {
        None => Ok(Answer {
            status: Status::Done,
            bytes,
        }),
        Some(RefusedLine { line, cause }) => {
            let cause_text = text_of(alloc, cause)?;
            let text = format!(in alloc; "line {line}: {}\n", cause_text.as_str())?;
            bytes.append(text.as_bytes())?;
            Ok(Answer {
                status: status_of(cause),
                bytes,
            })
        }
    }
}

/// The answer that is a status and a text.
fn text_answer(alloc: Global, status: Status, text: &str) -> Result<Answer, AllocError>
    ensures { IfOk result (λ given. given ≡ record { status = status; bytes = text.now }) }
{
    let bytes = ByteList::from_slice(alloc, text.as_bytes())?;
    Ok(Answer { status, bytes })
}

/// The text that tells a cause.
fn text_of(alloc: Global, cause: Cause) -> Result<String, AllocError>
    ensures { IfOk result (λ text. string_bytes text ≡ cause_text cause) }
{
    match cause {
        Cause::CannotRead => String::from_str(alloc, "cannot read"),
        Cause::FileTooLong => String::from_str(alloc, "file too long"),
        Cause::Malformed { at } => format!(in alloc; "malformed at byte {at}"),
        Cause::OutOfRange => String::from_str(alloc, "out of range"),
        Cause::NotEncodable { at } => format!(in alloc; "not encodable at grapheme {at}"),
        Cause::StringTooLong => String::from_str(alloc, "string too long"),
        Cause::AllTooLong => String::from_str(alloc, "all strings too long"),
        Cause::ClusterTooLong { at } => format!(in alloc; "cluster too long at grapheme {at}"),
        Cause::TableFull => String::from_str(alloc, "table full"),
        Cause::OutputTooLong => String::from_str(alloc, "output too long"),
    }
}

/// The status of a run that a line of this cause ends.
fn status_of(cause: Cause) -> Status
    ensures { result ≡ cause_status cause }
{
    match cause {
        Cause::CannotRead => Status::ReadFault,
        _ => Status::Refused,
    }
}
