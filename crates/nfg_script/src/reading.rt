//! A script is read.
ghost use Rattle.std.specs.Prelude.{◌≡◌, ◌≢◌, ◌≤◌, ◌<◌, ◌+◌, ◌^◌, [], Ok, Err, IfOk, IfErr, OnOk, length, map, count_by, ◌==◌};
ghost use Rattle.std.specs.List.{slice_split};
ghost use Rattle.std.specs.Str.Lines.{strip_carriage_return};
ghost use Rattle.nfg_script.specs.Answer.{texts, so_far, line_read, DefinesNew, Answers};
ghost use Rattle.nfg_script.specs.Words.{words_of};
ghost use Rattle.nfg_script.specs.Line.{is_skipped as skipped};
ghost use Rattle.nfg_script.specs.Grammar.{lines_of, and_command, and_line, commands_from, parse as parsed};

use crate::forms::read_form;
use crate::line::Line;
use crate::line_read::{LineError, LineRead};
use crate::names::Names;
use crate::words::words;
use crate::{Script, ScriptError};
use simdutf8::compat::from_utf8;
use std::alloc::{AllocError, Global};

/// The most bytes of a script.
const BYTE_LIMIT: usize = 1 << 20;

/// The most lines of a script.
const LINE_LIMIT: usize = 10_000;

/// How many line feeds the bytes have.
fn line_feeds(bytes: &[u8]) -> usize
    ensures { result ≡ count_by (λ b. b == 10) bytes.now }
{
    bytes.iter().filter(|byte| **byte == b'\n').count()
}

/// How many lines the bytes have.
fn line_count(bytes: &[u8]) -> usize
    requires { length bytes.now ≤ 1048576 }
    ensures { result ≡ length (lines_of bytes.now) }
{
    let feeds = line_feeds(bytes);
    match bytes.last() {
        None => 0,
        Some(b'\n') => feeds,
        Some(_) => feeds + 1,
    }
}

/// A line without a carriage return at its end.
fn without_carriage_return(line: &str) -> &str
    ensures { result.now ≡ strip_carriage_return line.now }
{
    match line.strip_suffix('\r') {
        Some(rest) => rest,
        None => line,
    }
}

/// Whether a line of these words is skipped.
fn is_skipped(words: &[&str]) -> bool
    ensures { result ≡ skipped (texts words.now) }
{
    if words.is_empty() {
        return true;
    }
    match words[0].as_bytes().first() {
        Some(byte) => *byte == b'#',
        None => false,
    }
}

/// Adds what a line gives. After an `Err` the names and the script are of no use.
fn add_command<'a>(
    alloc: Global,
    names: &mut Names<'a>,
    script: &mut Script,
    number: u32,
    read: LineRead<'a>,
) -> Result<(), AllocError>
    requires fits { length names.old < 2 ^ 32 }
    requires new { DefinesNew names.old read }
    ensures added { OnOk result (so_far names.new script.new
        ≡ and_command (so_far names.old script.old) number (line_read read.entry)) }
    ensures grown { OnOk result (length names.new ≤ length names.old + 1) }
{
    let path = String::from_str(alloc, read.path)?;
    script.push(Line {
        number,
        command: read.command,
        path,
        codes: read.codes,
    })?;
    if let Some(name) = read.defines {
        names.push(name)?;
    }
    Ok(())
}

/// Reads one line. After an `Err` the names and the script are of no use.
#[tactic(auto, unfolding(crate::specs::Grammar::and_line, crate::specs::Line::read_words))]
fn read_line<'a>(
    alloc: Global,
    names: &mut Names<'a>,
    script: &mut Script,
    number: u32,
    line: &'a str,
) -> Result<(), ScriptError>
    requires { length names.old < 2 ^ 32 }
    ensures read { OnOk result (and_line (so_far names.old script.old) number (words_of line.now)
        ≡ Ok (so_far names.new script.new)) }
    ensures refused { IfErr result (λ error. error ≢ ScriptError.OutOfMemory →
        and_line (so_far names.old script.old) number (words_of line.now) ≡ Err error) }
    ensures grown { OnOk result (length names.new ≤ length names.old + 1) }
{
    let words = words(alloc, line)?;
    let words = words.as_slice();
    if is_skipped(words) {
        return Ok(());
    }
    match read_form(alloc, names, words[0], &words[1..]) {
        Ok(read) => Ok(add_command(alloc, names, script, number, read)?),
        Err(LineError::Refused(reason)) => Err(ScriptError::Line {
            line: number,
            reason,
        }),
        Err(LineError::OutOfMemory) => Err(ScriptError::OutOfMemory),
    }
}

/// Reads the lines of a script in order.
fn read_lines(alloc: Global, lines: &[&str]) -> Result<Script, ScriptError>
    requires { length lines.now ≤ 10001 }
    ensures { Answers result
        (commands_from (so_far [] []) 1 (map strip_carriage_return (texts lines.now))) }
{
    let mut names = Names::new(alloc);
    let mut script = Script::new(alloc);
    for k in 0..lines.len() {
        let line = without_carriage_return(lines[k]);
        read_line(alloc, &mut names, &mut script, k as u32 + 1, line)?;
    }
    Ok(script)
}

/// The parts of a text between line feeds.
fn parts<'a>(alloc: Global, text: &'a str) -> Result<Vec<&'a str>, AllocError>
    ensures { IfOk result (λ parts. texts parts.items ≡ slice_split (λ b. b == 10) text.now) }
{
    text.split('\n').collect(alloc)
}

/// Reads the lines of a text.
fn read_text(alloc: Global, text: &str) -> Result<Script, ScriptError>
    requires { length (lines_of text.now) ≤ 10000 }
    ensures { Answers result (commands_from (so_far [] []) 1 (lines_of text.now)) }
{
    let parts = parts(alloc, text)?;
    read_lines(alloc, parts.as_slice())
}

/// The commands of a script.
///
/// Refuses with `TooLong` where the script has over 2^20 bytes or over 10,000 lines, with `Malformed`
/// where it isn't UTF-8, and with `Line` at the first line that is no command, for its first reason.
#[tactic(auto, unfolding(crate::specs::Grammar::parse))]
pub fn parse(alloc: Global, bytes: &[u8]) -> Result<Script, ScriptError>
    ensures parsed { IfOk result (λ script. parsed bytes.now ≡ Ok script) }
    ensures refused { IfErr result (λ error.
        error ≢ ScriptError.OutOfMemory → parsed bytes.now ≡ Err error) }
{
    if bytes.len() > BYTE_LIMIT {
        return Err(ScriptError::TooLong);
    }
    if line_count(bytes) > LINE_LIMIT {
        return Err(ScriptError::TooLong);
    }
    match from_utf8(bytes) {
        Ok(text) => read_text(alloc, text),
        Err(error) => Err(ScriptError::Malformed {
            at: error.valid_up_to() as u64,
        }),
    }
}
