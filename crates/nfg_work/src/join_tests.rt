//! Worked rows of the commands that join, search and compare.
ghost use Rattle.std.specs.Prelude.{◌<◌, ◌≤◌, length};
ghost use Rattle.nfg_work.specs.Evaluation.{AreWithinLimit};

use crate::tests::{output_of, refused};
use crate::{Cause, RefusedLine};
use nfg_text::ByteList;
use std::alloc::Global;
use std::process::Abort;
use std::test::Fail;

/// A script, and what it gives.
type Row = (&'static [u8], &'static [u8]);

static ROWS: [Row; 13] = [
    (
        b"text a 1F1E6 1F1E7 1F1E8\nrep b a 2\nshow b\nshape b\n",
        b"1F1E6+1F1E7 1F1E8+1F1E6 1F1E7+1F1E8\nstrands 1 3x1/32\n",
    ),
    (
        b"text a 1F600 200D 2194\ntext b 338\nlen a\ncat c a b\nshow c\nshape c\nput c utf8\n",
        b"1\n1F600+200D 21AE\nstrands 1 2x1/32\n\xF0\x9F\x98\x80\xE2\x80\x8D\xE2\x86\xAE",
    ),
    (
        b"text a 958\ntext b 915 93C\nshow a\nlen a\neq a b\n",
        b"915+93C\n1\ntrue\n",
    ),
    (
        b"text a 1100\ntext b 1161\ntext c 11A8\ncat d a b\nshow d\ncat e d c\nshow e\n",
        b"AC00\nAC01\n",
    ),
    (
        b"text a 71 307 323\ntext b 71 323 307\neq a b\nshow a\nshow b\n",
        b"true\n71+323+307\n71+323+307\n",
    ),
    (
        b"text a E9\ntext b 65\ntext c\ntext d 61 62\nfind a b 0\nfind d c 1\nfind d c 3\nrfind d c 9\n",
        b"none\n1\nnone\n2\n",
    ),
    (
        b"text a A\ntext b 301\ncat c a b\nshow c\nsub d c 1 1\ntext e 65\ncat f e d\nshow f\n",
        b"A 301\nE9\n",
    ),
    (
        b"text a D\ntext b A\ncat c a b\nshow c\nshape c\n",
        b"D+A\nstrands 1 1x1/8\n",
    ),
    (
        b"text a 1F1E6\ntext b 1F1E7 1F1E8 1F1E9 1F1EA 1F1EB\ncat c a b\nshow c\nshape c\n",
        b"1F1E6+1F1E7 1F1E8+1F1E9 1F1EA+1F1EB\nstrands 1 3x1/32\n",
    ),
    (
        b"text a 61 65\ntext b 301 62\ncat c a b\nshow c\nshape c\ntext d E9 62\nfind c d 0\nrfind c d 2\n",
        b"61 E9 62\nstrands 3 1x1/8 1x1/32 1x1/32\n1\n1\n",
    ),
    (
        b"text a 61 62 63\nrep b a 4\nshape b\nsub c b 1 10\nshape c\nsub d b 1 1\nshape d\n",
        b"strands 1 3x4/8\nstrands 3 2x1/8 3x2/8 2x1/8\nstrands 1 1x1/8\n",
    ),
    (
        b"text a 71 307\ntext b 61\ncmp a b\ncmp b a\ncmp a a\n",
        b"greater\nless\nequal\n",
    ),
    (
        b"text a 1F1E6\nrep b a 3\nshow b\nshape b\nrep c a 0\nshow c\nshape c\nrep d a 1\nshape d\n",
        b"1F1E6+1F1E6 1F1E6\nstrands 1 2x1/32\n\nstrands 0\nstrands 1 1x1/32\n",
    ),
];

#[test]
fn strings_are_joined_searched_and_compared(rt: HostRuntime) -> Result<(), Fail> {
    let alloc = rt.alloc();
    for (script, wanted) in ROWS {
        let output = output_of(alloc, script, &[])?;
        assert!(rt; output.bytes.as_slice() == wanted);
        assert!(rt; output.refused == None);
    }
    Ok(())
}

/// What a script prints before the line that is refused, and that line.
fn check_refused(
    rt: &impl Abort,
    alloc: Global,
    script: &[u8],
    wanted: &[u8],
    line: u32,
    cause: Cause,
) -> Result<(), Fail> {
    let output = output_of(alloc, script, &[])?;
    assert!(rt; output.bytes.as_slice() == wanted);
    assert!(rt; output.refused == refused(line, cause));
    Ok(())
}

#[test]
fn what_is_too_long_is_refused_in_its_order(rt: HostRuntime) -> Result<(), Fail> {
    let alloc = rt.alloc();
    let long = Cause::StringTooLong;
    check_refused(&rt, alloc, b"text a 61\nrep b a 67108865\n", b"", 2, long)?;
    check_refused(
        &rt,
        alloc,
        b"text a 61 61\nrep b a 18446744073709551615\n",
        b"",
        2,
        long,
    )?;
    check_refused(
        &rt,
        alloc,
        b"text a 61\nrep b a 67108864\ncat c b a\n",
        b"",
        3,
        long,
    )?;
    let all = Cause::AllTooLong;
    let script =
        b"text a 61\nrep b1 a 67108864\nrep b2 a 67108864\nrep b3 a 67108864\nrep b4 a 67108864\nrep b5 a 67108864\nrep b6 a 67108864\nrep b7 a 67108864\nrep b8 a 67108864\n";
    check_refused(&rt, alloc, script, b"", 9, all)
}

/// Adds a line that joins the string before it and `b`.
fn add_line(lines: &mut ByteList, alloc: Global, k: u32) -> Result<(), Fail>
    requires { k < 64 }
{
    let line = format!(in alloc; "cat s{} s{} b\n", k + 1, k)?;
    lines.append(line.as_bytes())?;
    Ok(())
}

#[test]
fn the_sixty_fifth_strand_makes_one(rt: HostRuntime) -> Result<(), Fail> {
    let alloc = rt.alloc();
    let mut script = ByteList::from_slice(alloc, b"text s0 61\ntext b 62\n")?;
    for k in 0..64u32 {
        add_line(&mut script, alloc, k)?;
    }
    script.append(b"shape s63\nshape s64\n")?;
    let output = output_of(alloc, script.as_slice(), &[])?;
    let mut wanted = ByteList::from_slice(alloc, b"strands 64")?;
    for _k in 0..64 {
        wanted.append(b" 1x1/8")?;
    }
    wanted.append(b"\nstrands 1 65x1/8\n")?;
    assert!(rt; output.bytes.as_slice() == wanted.as_slice());
    Ok(())
}

#[test]
fn a_shown_string_is_not_cut_off(rt: HostRuntime) -> Result<(), Fail> {
    let script = b"text a 1F600\nrep b a 67108864\nlen b\nshow b\n";
    let long = Cause::OutputTooLong;
    check_refused(&rt, rt.alloc(), script, b"67108864\n", 4, long)
}

/// Adds a `text` of q and so many acute accents.
fn add_marks(lines: &mut ByteList, start: &[u8], count: usize) -> Result<(), Fail> {
    lines.append(start)?;
    for _k in 0..count {
        lines.append(b" 301")?;
    }
    lines.append(b"\n")?;
    Ok(())
}

#[test]
fn a_cluster_that_grows_too_long_is_refused(rt: HostRuntime) -> Result<(), Fail> {
    let alloc = rt.alloc();
    let mut script = ByteList::new(alloc);
    add_marks(&mut script, b"text a 61 71", 1000)?;
    add_marks(&mut script, b"text b", 23)?;
    add_marks(&mut script, b"text c", 24)?;
    script.append(b"cat d a b\nlen d\ncat e a c\n")?;
    let output = output_of(alloc, script.as_slice(), &[])?;
    assert!(rt; output.bytes.as_slice() == b"2\n".as_slice());
    assert!(rt; output.refused == refused(6, Cause::ClusterTooLong { at: 1 }));
    Ok(())
}
