//! Rows of the generator.

use crate::generated;
use nfg_script::parse;
use std::process::Abort;
use std::test::Fail;

#[test]
fn three_spellings_of_seed_1(rt: HostRuntime) -> Result<(), Fail> {
    let made = generated(rt.alloc(), 1, 3)?;
    assert!(rt; made.a.as_slice() == "\u{1f1e6}\u{939}\u{93f}\u{e9}".as_bytes());
    let second = b"\xfe\xff\xd8\x3c\xdd\xe6\x09\x39\x09\x3f\x00\x65\x03\x01";
    assert!(rt; made.b.as_slice() == second.as_slice());
    Ok(())
}

#[test]
fn the_script_that_is_generated_is_accepted(rt: HostRuntime) -> Result<(), Fail> {
    let made = generated(rt.alloc(), 0, 1)?;
    let script = parse(rt.alloc(), made.script.as_slice())?;
    assert_eq!(rt; script.len(), 13);
    assert_eq!(rt; script.loads(), 2);
    Ok(())
}

#[test]
fn the_greatest_seed_and_many_spellings_succeed(rt: HostRuntime) -> Result<(), Fail> {
    let made = generated(rt.alloc(), (1 << 31) - 1, 10_000)?;
    assert!(rt; made.a.as_slice().len() > 10_000);
    assert!(rt; made.b.as_slice().len() > 20_000);
    Ok(())
}
