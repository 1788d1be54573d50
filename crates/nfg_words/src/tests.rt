//! Worked rows of the layout and of probe sequences.
ghost use Rattle.std.specs.Prelude.{◌≡◌, ◌<◌};

use crate::steps::Steps;
use crate::{layout, words};
use std::alloc::{AllocError, Global};
use std::marker::Brand;
use std::process::Abort;
use std::sync::ledger::{Blank, Ledger};

#[test]
fn hashes_are_those_of_the_worked_rows(rt: HostRuntime) {
    let home = layout::home_place([0x71, 0x323, 0x307].as_slice(), 16);
    assert_eq!(rt; layout::probe_hash([0x71].as_slice()), 113);
    assert_eq!(rt; layout::probe_hash([0x71, 0x323].as_slice()), 4306);
    assert_eq!(rt; layout::probe_hash([0x71, 0x323, 0x307].as_slice()), 134261);
    assert_eq!(rt; home, 5);
    assert_eq!(rt;
        layout::probed_place([0x71, 0x323, 0x307].as_slice(), home, 16, 0),
        5
    );
    assert_eq!(rt;
        layout::probed_place([0x71, 0x323, 0x307].as_slice(), home, 16, 11),
        0
    );
}

#[test]
fn words_of_sixteen_buckets(rt: HostRuntime) {
    assert_eq!(rt; layout::chunk_count(16), 64);
    assert_eq!(rt; layout::chunk_word(16, 3), 19);
    assert_eq!(rt; layout::code_word(16, 512), 592);
    assert_eq!(rt; layout::word_count(16), 32848);
    assert_eq!(rt; layout::word_count(1048576), 9486400);
}

#[test]
fn bucket_words_and_code_words_are_read_back(rt: HostRuntime) {
    let word = layout::bucket_word(512, 3);
    assert_eq!(rt; word, 33554435);
    assert_eq!(rt; layout::start_of(word), 512);
    assert_eq!(rt; layout::length_of(word), 3);
    assert_eq!(rt; layout::stop_of(word), 514);
    let codes = layout::code_pair(0x71, 0x323);
    assert_eq!(rt; codes, 3448858738801);
    assert_eq!(rt; layout::first_code(codes), 0x71);
    assert_eq!(rt; layout::second_code(codes), 0x323);
}

// One pass takes a chunk, and another finds it taken, also after they are joined.
fn take_twice<L: Ledger>(rt: &impl Abort, alloc: Global, blank: Blank) -> Result<(), AllocError>
    requires name { blank.name ≡ L.name }
    requires parts { blank.parts ≡ L.parts }
    requires some { 0 < blank.parts }
{
    let mut steps = Steps::<L>::new(blank);
    let (words, mut first) = words::new_words(alloc, 16)?;
    let mut second = words::split_view(&words, &mut first, 16);
    assert!(rt; words::take_chunk(&words, &mut first, 16, 3, &mut steps));
    assert!(rt; !words::take_chunk(&words, &mut second, 16, 3, &mut steps));
    let bucket = words::read_bucket(&words, &mut second, 16, 0, &mut steps);
    assert_eq!(rt; bucket, 0);
    words::join_views(&words, &mut first, second, 16);
    assert!(rt; !words::take_chunk(&words, &mut first, 16, 3, &mut steps));
    Ok(())
}

#[test]
fn one_pass_takes_a_chunk_and_another_finds_it(rt: HostRuntime) -> Result<(), AllocError> {
    take_twice::<Brand>(&rt, rt.alloc(), Blank::new(1))
}
