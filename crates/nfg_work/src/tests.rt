//! Worked rows, and that the calls succeed where there is memory.
ghost use Rattle.std.specs.Prelude.{◌≤◌, length};
ghost use Rattle.nfg_work.specs.Evaluation.{AreWithinLimit};

use crate::level_jobs::jobs_by_level;
use crate::{
    Cause, FileRead, Gate, LevelList, OpenGate, Output, RefusedLine, SharedError, levels, run_alone,
};
use nfg_script::parse;
use nfg_text::{ByteList, CodeList};
use std::alloc::Global;
use std::marker::{Send, Sync};
use std::test::Fail;

/// What a script gives over a table of 16 places.
pub(crate) fn output_of(alloc: Global, script: &[u8], reads: &[FileRead]) -> Result<Output, Fail>
    requires { AreWithinLimit reads.now }
{
    match parse(alloc, script) {
        Ok(script) => Ok(run_alone(alloc, &script, reads, 16)?),
        Err(_) => Err("the script is refused")?,
    }
}

pub(crate) fn refused(line: u32, cause: Cause) -> Option<RefusedLine> {
    Some(RefusedLine { line, cause })
}

#[test]
fn commands_answer_in_order(rt: HostRuntime) -> Result<(), Fail> {
    let script =
        b"text a 65 301 D A 71 307 323 61\nlen a\nshow a\nshape a\nsub b a 1 2\nshow b\nshape b\ntext e\nshow e\nshape e\n";
    let output = output_of(rt.alloc(), script.as_slice(), &[])?;
    let wanted =
        b"4\nE9 D+A 71+323+307 61\nstrands 1 4x1/32\nD+A 71+323+307\nstrands 1 2x1/32\n\nstrands 0\n";
    assert!(rt; output.bytes.as_slice() == wanted.as_slice());
    assert!(rt; output.refused == None);
    Ok(())
}

#[test]
fn a_part_past_the_end_is_refused(rt: HostRuntime) -> Result<(), Fail> {
    let script = b"text a 61 62\nsub b a 2 9\nlen b\nsub c a 3 0\nlen c\n";
    let output = output_of(rt.alloc(), script.as_slice(), &[])?;
    assert!(rt; output.bytes.as_slice() == b"0\n".as_slice());
    assert!(rt; output.refused == refused(4, Cause::OutOfRange));
    Ok(())
}

#[test]
fn bytes_are_put_in_each_encoding(rt: HostRuntime) -> Result<(), Fail> {
    let script =
        b"text a E9 1F600\nput a utf8\nput a utf16\nput a utf16le\nput a utf16be\ntext b 61 E9\nput b latin1\nput a latin1\n";
    let output = output_of(rt.alloc(), script.as_slice(), &[])?;
    let wanted =
        b"\xC3\xA9\xF0\x9F\x98\x80\xFE\xFF\x00\xE9\xD8\x3D\xDE\x00\xE9\x00\x3D\xD8\x00\xDE\x00\xE9\xD8\x3D\xDE\x00a\xE9";
    assert!(rt; output.bytes.as_slice() == wanted.as_slice());
    assert!(rt; output.refused == refused(8, Cause::NotEncodable { at: 1 }));
    Ok(())
}

#[test]
fn the_seventeenth_cluster_finds_the_table_full(rt: HostRuntime) -> Result<(), Fail> {
    let script =
        b"text a 71 300\ntext b 71 301\ntext c 71 302\ntext d 71 303\ntext e 71 304\ntext f 71 306\ntext g 71 307\ntext h 71 308\ntext i 71 309\ntext j 71 30A\ntext k 71 30B\ntext l 71 30C\ntext m 71 30F\ntext n 71 311\ntext o 71 323\ntext p 71 324\ntext q D A 71 300\nlen q\ntext r 71 325\nlen r\n";
    let output = output_of(rt.alloc(), script.as_slice(), &[])?;
    assert!(rt; output.bytes.as_slice() == b"2\n".as_slice());
    assert!(rt; output.refused == refused(19, Cause::TableFull));
    Ok(())
}

#[test]
fn seventeen_accents_fill_a_table_of_16_places(rt: HostRuntime) -> Result<(), Fail> {
    let script =
        b"text t0 71 300\ntext t1 71 301\ntext t2 71 302\ntext t3 71 303\ntext t4 71 304\ntext t5 71 305\ntext t6 71 306\ntext t7 71 307\ntext t8 71 308\ntext t9 71 309\ntext t10 71 30A\ntext t11 71 30B\ntext t12 71 30C\ntext t13 71 30D\ntext t14 71 30E\ntext t15 71 30F\ntext t16 71 310\n";
    let output = output_of(rt.alloc(), script.as_slice(), &[])?;
    assert!(rt; output.bytes.as_slice().is_empty());
    assert!(rt; output.refused == refused(17, Cause::TableFull));
    Ok(())
}

/// What a script with one load gives.
fn output_over(alloc: Global, script: &[u8], file: &[u8]) -> Result<Output, Fail>
    requires { length file.now ≤ 67108864 }
{
    let bytes = ByteList::from_slice(alloc, file)?;
    output_of(alloc, script, &[FileRead::Bytes(bytes)])
}

#[test]
fn files_are_loaded_or_refused(rt: HostRuntime) -> Result<(), Fail> {
    let alloc = rt.alloc();
    let script = b"load a utf8 f\nshow a\nshape a\n";
    let output = output_over(alloc, script.as_slice(), b"e\xCC\x81\r\nq".as_slice())?;
    assert!(rt; output.bytes.as_slice() == b"E9 D+A 71\nstrands 1 3x1/32\n".as_slice());
    let ascii = output_over(alloc, script.as_slice(), b"a\r\n".as_slice())?;
    assert!(rt; ascii.bytes.as_slice() == b"61 D+A\nstrands 1 2x1/8\n".as_slice());
    let cut = output_over(alloc, script.as_slice(), b"a\xE2\x82".as_slice())?;
    assert!(rt; cut.refused == refused(1, Cause::Malformed { at: 1 }));
    let none = output_of(alloc, script.as_slice(), &[])?;
    assert!(rt; none.refused == refused(1, Cause::CannotRead));
    let failed = output_of(alloc, script.as_slice(), &[FileRead::Failed])?;
    assert!(rt; failed.refused == refused(1, Cause::CannotRead));
    let long = output_of(alloc, script.as_slice(), &[FileRead::TooLong])?;
    assert!(rt; long.refused == refused(1, Cause::FileTooLong));
    Ok(())
}

fn is_sent<T: Send>(_: &T) {}

fn is_shared<T: Sync>(_: &T) {}

#[test]
fn reads_go_between_threads_and_an_open_gate_opens() {
    let read = FileRead::Failed;
    is_sent(&read);
    is_shared(&read);
    OpenGate.enter(0);
    OpenGate.leave(0);
}

#[test]
fn a_refusal_of_a_shared_run_goes_between_threads(rt: HostRuntime) {
    let full = SharedError::RowFull {
        codes: CodeList::new(rt.alloc()),
    };
    is_sent(&full);
    is_shared(&full);
}

#[test]
fn a_command_stands_above_those_that_define_its_names(rt: HostRuntime) -> Result<(), Fail> {
    let script = b"text a 1100\ntext b 1161\ntext c 11A8\ncat d a b\nshow d\ncat e d c\nshow e\n";
    let list = match parse(rt.alloc(), script.as_slice()) {
        Ok(script) => levels(rt.alloc(), &script)?,
        Err(_) => Err("the script is refused")?,
    };
    assert!(rt; list.as_slice() == [0, 0, 0, 1, 2, 2, 3].as_slice());
    assert!(rt; list.len() == 7);
    Ok(())
}

#[test]
fn each_level_has_its_jobs_in_order(rt: HostRuntime) -> Result<(), Fail> {
    let script =
        b"text a 1100\ntext b 1161\ncat c a b\nshow c\nlen a\neq a b\nsub d c 0 1\nput d utf8\nfind d c 0\n";
    let lists = match parse(rt.alloc(), script.as_slice()) {
        Ok(script) => jobs_by_level(rt.alloc(), &script)?,
        Err(_) => Err("the script is refused")?,
    };
    assert!(rt; lists.len() == 4);
    let wanted: [&[u32]; 4] = [&[0, 1], &[2, 5], &[6], &[8]];
    for (list, jobs) in lists.iter().zip(wanted) {
        assert!(rt; list.as_slice() == jobs);
    }
    Ok(())
}

#[test]
fn levels_are_kept_in_order_and_go_between_threads(rt: HostRuntime) -> Result<(), Fail> {
    let mut list = LevelList::new(rt.alloc());
    is_sent(&list);
    is_shared(&list);
    assert!(rt; list.len() == 0);
    list.append([3, 1].as_slice())?;
    list.append([2].as_slice())?;
    let copy = LevelList::from_slice(rt.alloc(), list.as_slice())?;
    assert!(rt; copy.as_slice() == [3, 1, 2].as_slice());
    Ok(())
}
