//! The forms of the commands, of which each reads the words after the first.
ghost use Rattle.std.specs.Prelude.{◌≡◌, ◌<◌, ◌^◌, length, IfOk, OnOk, None};
ghost use Rattle.nfg_script.specs.Answer.{Gives, texts, line_read, DefinesNew};
ghost use Rattle.nfg_script.specs.Words.{place_of};
ghost use Rattle.nfg_script.specs.Line.{new_and_known as both_names, two_known as both_known};
ghost use Rattle.nfg_script.specs.Line.{two_numbers as both_numbers, command_alone, form_of};
ghost use Rattle.nfg_script.specs.Line.{load_form as load_read, text_form as text_read, cat_form as cat_read};
ghost use Rattle.nfg_script.specs.Line.{sub_form as sub_read, rep_form as rep_read, put_form as put_read};
ghost use Rattle.nfg_script.specs.Line.{search_form, two_names_form, one_name_form};
ghost use Rattle.nfg_script.specs.declared.command.Command.TheVariants.{Find, Rfind, Eq, Cmp, Len, Show, Shape};

use crate::code_points::read_code_points;
use crate::line_read::{LineError, LineRead};
use crate::names::{Names, read_known_name, read_new_name};
use crate::word::{read_encoding, read_number};
use crate::{Command, Reason};
use std::alloc::Global;

/// The number of the name that a line defines, and that of one that it uses.
#[tactic(auto, unfolding(crate::specs::Line::new_and_known))]
fn new_and_known(names: &Names, name: &str, operand: &str) -> Result<(u32, u32), Reason>
    requires { length names.now < 2 ^ 32 }
    ensures numbers { result ≡ both_names names.now name.now operand.now }
    ensures new { OnOk result (place_of names.now name.now ≡ None) }
{
    let n = read_new_name(names, name)?;
    let a = read_known_name(names, operand)?;
    Ok((n, a))
}

/// The numbers of two names that a line uses.
#[tactic(auto, unfolding(crate::specs::Line::two_known))]
fn two_known(names: &Names, first: &str, second: &str) -> Result<(u32, u32), Reason>
    ensures { result ≡ both_known names.now first.now second.now }
{
    let a = read_known_name(names, first)?;
    let b = read_known_name(names, second)?;
    Ok((a, b))
}

#[tactic(auto, unfolding(crate::specs::Line::two_numbers))]
fn two_numbers(first: &str, second: &str) -> Result<(u64, u64), Reason>
    ensures { result ≡ both_numbers first.now second.now }
{
    let m = read_number(first)?;
    let n = read_number(second)?;
    Ok((m, n))
}

/// `load N ENC PATH`
#[tactic(auto, unfolding(crate::specs::Line::load_form))]
fn load_form<'a>(alloc: Global, names: &Names, words: &[&'a str]) -> Result<LineRead<'a>, LineError>
    requires { length names.now < 2 ^ 32 }
    ensures read { Gives line_read result (load_read names.now (texts words.now)) }
    ensures new { IfOk result (λ read. DefinesNew names.now read) }
{
    if words.len() != 3 {
        return Err(LineError::Refused(Reason::WordCount));
    }
    let name = read_new_name(names, words[0])?;
    let enc = read_encoding(words[1])?;
    Ok(LineRead {
        command: Command::Load { name, enc },
        path: words[2],
        codes: Vec::new(alloc),
        defines: Some(words[0]),
    })
}

/// `text N HEX ...`
#[tactic(auto, unfolding(crate::specs::Line::text_form))]
fn text_form<'a>(alloc: Global, names: &Names, words: &[&'a str]) -> Result<LineRead<'a>, LineError>
    requires { length names.now < 2 ^ 32 }
    ensures read { Gives line_read result (text_read names.now (texts words.now)) }
    ensures new { IfOk result (λ read. DefinesNew names.now read) }
{
    if words.is_empty() {
        return Err(LineError::Refused(Reason::WordCount));
    }
    let name = read_new_name(names, words[0])?;
    let codes = read_code_points(alloc, &words[1..])?;
    Ok(LineRead {
        command: Command::Text { name },
        path: "",
        codes,
        defines: Some(words[0]),
    })
}

/// `cat N A B`
#[tactic(auto, unfolding(crate::specs::Line::cat_form))]
fn cat_form<'a>(alloc: Global, names: &Names, words: &[&'a str]) -> Result<LineRead<'a>, LineError>
    requires { length names.now < 2 ^ 32 }
    ensures read { Gives line_read result (cat_read names.now (texts words.now)) }
    ensures new { IfOk result (λ read. DefinesNew names.now read) }
{
    if words.len() != 3 {
        return Err(LineError::Refused(Reason::WordCount));
    }
    let name = read_new_name(names, words[0])?;
    let (a, b) = two_known(names, words[1], words[2])?;
    Ok(LineRead {
        command: Command::Cat { name, a, b },
        path: "",
        codes: Vec::new(alloc),
        defines: Some(words[0]),
    })
}

/// `sub N A START LEN`
#[tactic(auto, unfolding(crate::specs::Line::sub_form))]
fn sub_form<'a>(alloc: Global, names: &Names, words: &[&'a str]) -> Result<LineRead<'a>, LineError>
    requires { length names.now < 2 ^ 32 }
    ensures read { Gives line_read result (sub_read names.now (texts words.now)) }
    ensures new { IfOk result (λ read. DefinesNew names.now read) }
{
    if words.len() != 4 {
        return Err(LineError::Refused(Reason::WordCount));
    }
    let (name, a) = new_and_known(names, words[0], words[1])?;
    let (start, count) = two_numbers(words[2], words[3])?;
    Ok(LineRead {
        command: Command::Sub {
            name,
            a,
            start,
            count,
        },
        path: "",
        codes: Vec::new(alloc),
        defines: Some(words[0]),
    })
}

/// `rep N A COUNT`
#[tactic(auto, unfolding(crate::specs::Line::rep_form))]
fn rep_form<'a>(alloc: Global, names: &Names, words: &[&'a str]) -> Result<LineRead<'a>, LineError>
    requires { length names.now < 2 ^ 32 }
    ensures read { Gives line_read result (rep_read names.now (texts words.now)) }
    ensures new { IfOk result (λ read. DefinesNew names.now read) }
{
    if words.len() != 3 {
        return Err(LineError::Refused(Reason::WordCount));
    }
    let (name, a) = new_and_known(names, words[0], words[1])?;
    let count = read_number(words[2])?;
    Ok(LineRead {
        command: Command::Rep { name, a, count },
        path: "",
        codes: Vec::new(alloc),
        defines: Some(words[0]),
    })
}

/// A line that gives no more than its command.
fn alone<'a>(alloc: Global, command: Command) -> LineRead<'a>
    ensures { line_read result ≡ command_alone command }
{
    LineRead {
        command,
        path: "",
        codes: Vec::new(alloc),
        defines: None,
    }
}

/// `find A B FROM`
#[tactic(auto, unfolding(crate::specs::Line::search_form))]
fn find_form<'a>(alloc: Global, names: &Names, words: &[&str]) -> Result<LineRead<'a>, LineError>
    ensures read { Gives line_read result (search_form Find names.now (texts words.now)) }
    ensures new { IfOk result (λ read. DefinesNew names.now read) }
{
    if words.len() != 3 {
        return Err(LineError::Refused(Reason::WordCount));
    }
    let (a, b) = two_known(names, words[0], words[1])?;
    let at = read_number(words[2])?;
    Ok(alone(alloc, Command::Find { a, b, at }))
}

/// `rfind A B FROM`
#[tactic(auto, unfolding(crate::specs::Line::search_form))]
fn rfind_form<'a>(alloc: Global, names: &Names, words: &[&str]) -> Result<LineRead<'a>, LineError>
    ensures read { Gives line_read result (search_form Rfind names.now (texts words.now)) }
    ensures new { IfOk result (λ read. DefinesNew names.now read) }
{
    if words.len() != 3 {
        return Err(LineError::Refused(Reason::WordCount));
    }
    let (a, b) = two_known(names, words[0], words[1])?;
    let at = read_number(words[2])?;
    Ok(alone(alloc, Command::Rfind { a, b, at }))
}

/// `eq A B`
#[tactic(auto, unfolding(crate::specs::Line::two_names_form))]
fn eq_form<'a>(alloc: Global, names: &Names, words: &[&str]) -> Result<LineRead<'a>, LineError>
    ensures read { Gives line_read result (two_names_form Eq names.now (texts words.now)) }
    ensures new { IfOk result (λ read. DefinesNew names.now read) }
{
    if words.len() != 2 {
        return Err(LineError::Refused(Reason::WordCount));
    }
    let (a, b) = two_known(names, words[0], words[1])?;
    Ok(alone(alloc, Command::Eq { a, b }))
}

/// `cmp A B`
#[tactic(auto, unfolding(crate::specs::Line::two_names_form))]
fn cmp_form<'a>(alloc: Global, names: &Names, words: &[&str]) -> Result<LineRead<'a>, LineError>
    ensures read { Gives line_read result (two_names_form Cmp names.now (texts words.now)) }
    ensures new { IfOk result (λ read. DefinesNew names.now read) }
{
    if words.len() != 2 {
        return Err(LineError::Refused(Reason::WordCount));
    }
    let (a, b) = two_known(names, words[0], words[1])?;
    Ok(alone(alloc, Command::Cmp { a, b }))
}

/// `len A`
#[tactic(auto, unfolding(crate::specs::Line::one_name_form))]
fn len_form<'a>(alloc: Global, names: &Names, words: &[&str]) -> Result<LineRead<'a>, LineError>
    ensures read { Gives line_read result (one_name_form Len names.now (texts words.now)) }
    ensures new { IfOk result (λ read. DefinesNew names.now read) }
{
    if words.len() != 1 {
        return Err(LineError::Refused(Reason::WordCount));
    }
    let a = read_known_name(names, words[0])?;
    Ok(alone(alloc, Command::Len { a }))
}

/// `show A`
#[tactic(auto, unfolding(crate::specs::Line::one_name_form))]
fn show_form<'a>(alloc: Global, names: &Names, words: &[&str]) -> Result<LineRead<'a>, LineError>
    ensures read { Gives line_read result (one_name_form Show names.now (texts words.now)) }
    ensures new { IfOk result (λ read. DefinesNew names.now read) }
{
    if words.len() != 1 {
        return Err(LineError::Refused(Reason::WordCount));
    }
    let a = read_known_name(names, words[0])?;
    Ok(alone(alloc, Command::Show { a }))
}

/// `shape A`
#[tactic(auto, unfolding(crate::specs::Line::one_name_form))]
fn shape_form<'a>(alloc: Global, names: &Names, words: &[&str]) -> Result<LineRead<'a>, LineError>
    ensures read { Gives line_read result (one_name_form Shape names.now (texts words.now)) }
    ensures new { IfOk result (λ read. DefinesNew names.now read) }
{
    if words.len() != 1 {
        return Err(LineError::Refused(Reason::WordCount));
    }
    let a = read_known_name(names, words[0])?;
    Ok(alone(alloc, Command::Shape { a }))
}

/// `put A ENC`
#[tactic(auto, unfolding(crate::specs::Line::put_form))]
fn put_form<'a>(alloc: Global, names: &Names, words: &[&str]) -> Result<LineRead<'a>, LineError>
    ensures read { Gives line_read result (put_read names.now (texts words.now)) }
    ensures new { IfOk result (λ read. DefinesNew names.now read) }
{
    if words.len() != 2 {
        return Err(LineError::Refused(Reason::WordCount));
    }
    let a = read_known_name(names, words[0])?;
    let enc = read_encoding(words[1])?;
    Ok(alone(alloc, Command::Put { a, enc }))
}

/// What the words of a line give, of which the first names the form.
#[tactic(auto, unfolding(crate::specs::Line::form_of))]
pub(crate) fn read_form<'a>(
    alloc: Global,
    names: &Names,
    first: &str,
    words: &[&'a str],
) -> Result<LineRead<'a>, LineError>
    requires { length names.now < 2 ^ 32 }
    ensures read { Gives line_read result (form_of names.now (texts words.now) first.now) }
    ensures new { IfOk result (λ read. DefinesNew names.now read) }
{
    match first {
        "load" => load_form(alloc, names, words),
        "text" => text_form(alloc, names, words),
        "cat" => cat_form(alloc, names, words),
        "sub" => sub_form(alloc, names, words),
        "rep" => rep_form(alloc, names, words),
        "find" => find_form(alloc, names, words),
        "rfind" => rfind_form(alloc, names, words),
        "eq" => eq_form(alloc, names, words),
        "cmp" => cmp_form(alloc, names, words),
        "len" => len_form(alloc, names, words),
        "show" => show_form(alloc, names, words),
        "shape" => shape_form(alloc, names, words),
        "put" => put_form(alloc, names, words),
        _ => Err(LineError::Refused(Reason::BadCommand)),
    }
}
