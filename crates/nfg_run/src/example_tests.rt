//! The scripts of `examples/`, over the files that stand beside them: each whole output. `examples/check` tries the files themselves.
use crate::{OpenGate, Status, Words, run};
use nfg_io::{MemoryFiles, MemorySink};
use std::alloc::{AllocError, Global};
use std::marker::Sync;
use std::process::Abort;
use std::test::Fail;
use std::thread::Threads;

/// `examples/reader.txt`.
const READER: &str =
    "A reader's characters, not the machine's.\ncafe\u{301}, na\u{ef}ve, A\u{30a}ngstro\u{308}m, Vi\u{ea}\u{323}t Nam\n\u{928}\u{92e}\u{938}\u{94d}\u{924}\u{947}, \u{915}\u{94d}\u{937}\u{924}\u{94d}\u{930}\u{93f}\u{92f}, \u{939}\u{93f}\u{928}\u{94d}\u{926}\u{940}\n\u{d55c}\u{ae00}, \u{1112}\u{1161}\u{11ab}\u{1100}\u{1173}\u{11af}\n\u{1f468}\u{200d}\u{1f469}\u{200d}\u{1f467} \u{1f469}\u{1f3fd}\u{200d}\u{1f680} \u{1f3f3}\u{fe0f}\u{200d}\u{1f308} \u{2764}\u{fe0f}\n\u{1f1e9}\u{1f1f0}\u{1f1ef}\u{1f1f5}\u{1f1e7}\u{1f1f7}\nq\u{307}\u{323} is q\u{323}\u{307}\r\n";

/// `examples/hello-utf8.txt`.
const HELLO: &str = "Gru\u{308}\u{df}e, \u{4e16}\u{754c} \u{1f44b}\u{1f3fd}\r\n";

/// `examples/hello-utf16.txt`.
const HELLO_UTF16: &[u8] =
    b"\xfe\xff\x00G\x00r\x00\xfc\x00\xdf\x00e\x00,\x00 N\x16uL\x00 \xd8=\xdcK\xd8<\xdf\xfd\x00\x0d\x00\n";

/// What a run of the words prints, where `s` is the script.
fn printed<R: Threads + Sync>(
    rt: &R,
    alloc: Global,
    line: &str,
    script: &str,
) -> Result<(Status, Vec<u8>), AllocError> {
    let mut words = Words::new(alloc);
    for word in line.split(' ') {
        words.push(word)?;
    }
    let mut files = MemoryFiles::new(alloc, 64);
    files.add("s", script.as_bytes())?;
    files.add("examples/reader.txt", READER.as_bytes())?;
    files.add("examples/hello-utf8.txt", HELLO.as_bytes())?;
    files.add("examples/hello-utf16.txt", HELLO_UTF16)?;
    let mut out = MemorySink::new(alloc, 64, 1 << 12)?;
    let status = run(rt, alloc, &words, &mut files, &mut out, &OpenGate);
    Ok((status, Vec::from_slice(alloc, out.taken())?))
}

/// A run of the words has this status and prints this.
fn check<R: Threads + Sync + Abort>(
    rt: &R,
    alloc: Global,
    line: &str,
    script: &str,
    wanted_status: Status,
    wanted: &[u8],
) -> Result<(), Fail> {
    let (status, taken) = printed(rt, alloc, line, script)?;
    assert!(rt; status == wanted_status);
    assert!(rt; taken.as_slice() == wanted);
    Ok(())
}

#[test]
fn bytes(rt: HostRuntime) -> Result<(), Fail> {
    check(
        &rt,
        rt.alloc(),
        "run s",
        "# The bytes of one string in each encoding, one after the other: an accented letter and the end of a line.
text a 65 301 D A
put a utf8
put a latin1
put a utf16
put a utf16be
put a utf16le
# A mark of UTF-16 at the start of a text in UTF-8 is a code point like any other, and is kept.
text mark FEFF 61
len mark
put mark utf8
",
        Status::Done,
        b"\xc3\xa9\x0d
\xe9\x0d
\xfe\xff\x00\xe9\x00\x0d\x00
\x00\xe9\x00\x0d\x00
\xe9\x00\x0d\x00
\x002
\xef\xbb\xbfa",
    )
}

#[test]
fn cutting(rt: HostRuntime) -> Result<(), Fail> {
    check(
        &rt,
        rt.alloc(),
        "run s",
        "# Parts of a string by place and length, in graphemes from 0.
load text utf8 examples/reader.txt
sub word text 48 5
show word
put word utf8
text newline A
put newline utf8
# No part begins or ends inside a grapheme.
text flags 1F1E9 1F1F0 1F1EF 1F1F5 1F1E7 1F1F7
sub middle flags 1 1
show middle
# A part that would go on past the end stops there; one that begins at the end is empty.
sub rest flags 1 18446744073709551615
len rest
sub none flags 3 5
len none
show none
# Past the end there is no place, so this line is refused, and the program ends with 1.
sub outside flags 4 0
len flags
",
        Status::Refused,
        b"6E 61 EF 76 65
na\xc3\xafve
1F1EF+1F1F5
2
0

line 19: out of range
",
    )
}

#[test]
fn encodings(rt: HostRuntime) -> Result<(), Fail> {
    check(
        &rt,
        rt.alloc(),
        "run s",
        "# A file in UTF-16: its length, its graphemes and the piece in which it is kept.
load hello utf16 examples/hello-utf16.txt
len hello
show hello
shape hello
# Its second word as UTF-8, and a line feed.
sub word hello 7 2
text newline A
put word utf8
put newline utf8
# A letter and an accent are one grapheme.
text letter 65 301
len letter
put letter utf8
put newline utf8
# Latin-1 has no place for the second word, so this line is refused, and the program ends with 1.
put hello latin1
",
        Status::Refused,
        b"12
47 72 FC DF 65 2C 20 4E16 754C 20 1F44B+1F3FD D+A
strands 1 12x1/32
\xe4\xb8\x96\xe7\x95\x8c
1
\xc3\xa9
line 17: not encodable at grapheme 7
",
    )
}

#[test]
fn first(rt: HostRuntime) -> Result<(), Fail> {
    check(
        &rt,
        rt.alloc(),
        "run s",
        "load t utf8 examples/reader.txt
len t
show t
",
        Status::Done,
        b"113
41 20 72 65 61 64 65 72 27 73 20 63 68 61 72 61 63 74 65 72 73 2C 20 6E 6F 74 20 74 68 65 20 6D 61 63 68 69 6E 65 27 73 2E A 63 61 66 E9 2C 20 6E 61 EF 76 65 2C 20 C5 6E 67 73 74 72 F6 6D 2C 20 56 69 1EC7 74 20 4E 61 6D A 928 92E 938+94D+924+947 2C 20 915+94D+937 924+94D+930+93F 92F 2C 20 939+93F 928+94D+926+940 A D55C AE00 2C 20 D55C AE00 A 1F468+200D+1F469+200D+1F467 20 1F469+1F3FD+200D+1F680 20 1F3F3+FE0F+200D+1F308 20 2764+FE0F A 1F1E9+1F1F0 1F1EF+1F1F5 1F1E7+1F1F7 A 71+323+307 20 69 73 20 71+323+307 D+A
",
    )
}

#[test]
fn generator(rt: HostRuntime) -> Result<(), Fail> {
    check(
        &rt,
        rt.alloc(),
        "gen 1 3",
        "",
        Status::Done,
        b"true
3
6
strands 2 3x1/32 3x1/32
true
none
none
less
",
    )
}

#[test]
fn generator_long(rt: HostRuntime) -> Result<(), Fail> {
    check(
        &rt,
        rt.alloc(),
        "gen 2026 500",
        "",
        Status::Done,
        b"true
620
1240
strands 2 620x1/32 620x1/32
true
28
1230
less
",
    )
}

#[test]
fn joining(rt: HostRuntime) -> Result<(), Fail> {
    check(
        &rt,
        rt.alloc(),
        "run s",
        "# Half a flag joined with five halves: all of them pair anew.
text half 1F1E9
text halves 1F1F0 1F1EF 1F1F5 1F1E7 1F1F7
cat flags half halves
show half
show halves
show flags
# A carriage return joined with a line feed is the end of a line, one grapheme; the other way round it stays two.
text return D
text feed A
cat end return feed
show end
cat parted feed return
show parted
# A consonant with a virama, joined with a consonant, is one conjunct.
text first 915 94D
text second 937
cat conjunct first second
show conjunct
len conjunct
# A mark goes to the letter before it, and composes with it.
text letter 65
text mark 301
cat composed letter mark
show composed
# A mark that belongs nearer to the letter moves before the one that is there.
text dotted 71 307
text below 323
cat both dotted below
show both
# An arrow is held by the joiner before it, and a struck arrow is not: what is joined on undoes a grapheme.
text held 1F600 200D 2194
text stroke 338
cat undone held stroke
show held
show undone
# Letters of a syllable, one by one.
text initial 1112
text vowel 1161
text final 11AB
cat open initial vowel
cat closed open final
show open
show closed
# Nothing changes a string that it is joined with.
text nothing
cat same flags nothing
eq same flags
# Three halves twice over are three flags, and not twice a flag and a half.
text three 1F1E9 1F1F0 1F1EF
rep six three 2
show six
",
        Status::Done,
        b"1F1E9
1F1F0+1F1EF 1F1F5+1F1E7 1F1F7
1F1E9+1F1F0 1F1EF+1F1F5 1F1E7+1F1F7
D+A
A D
915+94D+937
1
E9
71+323+307
1F600+200D+2194
1F600+200D 21AE
D558
D55C
true
1F1E9+1F1F0 1F1EF+1F1E9 1F1F0+1F1EF
",
    )
}

#[test]
fn lengths(rt: HostRuntime) -> Result<(), Fail> {
    check(
        &rt,
        rt.alloc(),
        "run s",
        "# How long is a text for its reader? The file has 274 bytes and 152 code points.
load text utf8 examples/reader.txt
len text
# The same text twice over, and no text at all.
rep twice text 2
len twice
rep nothing text 0
len nothing
# A family of three joined by joiners, a flag, and the end of a line: one grapheme each.
text family 1F468 200D 1F469 200D 1F467
len family
text flag 1F1E9 1F1F0
len flag
text end D A
len end
",
        Status::Done,
        b"113
226
0
1
1
1
",
    )
}

#[test]
fn refused(rt: HostRuntime) -> Result<(), Fail> {
    check(
        &rt,
        rt.alloc(),
        "run s",
        "# A script with a mistake does nothing of what it asks: the first refused line is told, and the program ends with 2.
text a 61 62 63
len a
rep b a -1
cat c a unknown
",
        Status::Bad,
        b"script line 4: bad number
",
    )
}

#[test]
fn searching(rt: HostRuntime) -> Result<(), Fail> {
    check(
        &rt,
        rt.alloc(),
        "run s",
        "# Where a string stands in another, in graphemes; the last number says from where on, or up to where.
load text utf8 examples/reader.txt
text s 73
find text s 0
find text s 10
rfind text s 18446744073709551615
rfind text s 10
# A letter isn't found inside a grapheme: no e stands in this word that is not accented.
text word 63 61 66 E9
text e 65
find word e 0
text accented 65 301
find word accented 0
# Nor a half of a flag in a flag, nor a flag across two.
text flags 1F1E9 1F1F0 1F1EF 1F1F5
text half 1F1EF
find flags half 0
text across 1F1F0 1F1EF
find flags across 0
text second 1F1EF 1F1F5
find flags second 0
# Nor a line feed in the end of a line.
text line 61 D A 62
text feed A
find line feed 0
text end D A
find line end 0
# The empty string stands everywhere, also at the end, and nowhere past it.
text nothing
find word nothing 2
find word nothing 4
find word nothing 5
rfind word nothing 9
",
        Status::Done,
        b"9
20
109
9
none
3
none
none
1
none
1
2
4
none
4
",
    )
}

#[test]
fn shapes(rt: HostRuntime) -> Result<(), Fail> {
    check(
        &rt,
        rt.alloc(),
        "run s",
        "# In which pieces a string is kept: LxT/8 is L graphemes, T times, of 8 bits each, and LxT/32 of 32 bits.
text nothing
shape nothing
text ascii 61 62 D A
shape ascii
text wide 61 E9
shape wide
# Repeating copies nothing: the piece comes more often.
rep often ascii 1000000
len often
shape often
# A part of it has a piece for what is left of a repetition at each end.
sub part often 1 10
shape part
# Joined strings keep their pieces, and only what the seam changed is new.
text left 61 65
text right 301 62
cat joined left right
show joined
shape joined
# Whatever else is joined on, at most 64 pieces are kept.
cat longer joined part
shape longer
",
        Status::Done,
        b"strands 0
strands 1 3x1/8
strands 1 2x1/32
3000000
strands 1 3x1000000/8
strands 3 2x1/8 3x2/8 2x1/8
61 E9 62
strands 3 1x1/8 1x1/32 1x1/32
strands 6 1x1/8 1x1/32 1x1/32 2x1/8 3x2/8 2x1/8
",
    )
}

#[test]
fn spellings(rt: HostRuntime) -> Result<(), Fail> {
    check(
        &rt,
        rt.alloc(),
        "run s",
        "# Two spellings of a text that look alike are the same string.
text short E9
text long 65 301
eq short long
cmp short long
# Two marks, in either order of typing.
text above_first 71 307 323
text below_first 71 323 307
eq above_first below_first
# A syllable and its three letters.
text syllable D55C
text letters 1112 1161 11AB
eq syllable letters
# One text in two files: in UTF-16, and in UTF-8 with the letter u and its two dots apart.
load one utf16 examples/hello-utf16.txt
load other utf8 examples/hello-utf8.txt
eq one other
# Strings that differ are ordered by their code points in NFC; a front of a string comes before it.
text plain 65
cmp plain short
cmp short plain
text nothing
cmp nothing plain
# A letter that only looks like another stays another: Latin A, Greek Alpha.
text latin 41
text greek 391
eq latin greek
cmp latin greek
",
        Status::Done,
        b"true
equal
true
true
true
less
greater
less
false
less
",
    )
}

#[test]
fn tour(rt: HostRuntime) -> Result<(), Fail> {
    check(
        &rt,
        rt.alloc(),
        "run s",
        "load reader utf8 examples/reader.txt
len reader
text half 1F1E9
text halves 1F1F0 1F1EF 1F1F5 1F1E7 1F1F7
cat flags half halves
show flags
",
        Status::Done,
        b"113
1F1E9+1F1F0 1F1EF+1F1F5 1F1E7+1F1F7
",
    )
}
