//! Clusters that a table may number, drawn with a fixed seed.
ghost use Rattle.std.specs.Prelude.{◌≤◌, IfOk};
ghost use Rattle.nfg_syn.specs.Known.{IsInternable};
ghost use Rattle.nfg_syn.specs.OwnTexts.{IsOwnPass};

use nfg_syn::{OwnPass, OwnTable, Synthetics};
use nfg_text::is_text;
use std::alloc::{AllocError, Global};

/// The places of the table that tells which clusters are new.
const PLACES: u32 = 1 << 20;

/// A cluster that a table may number.
#[derive(Drop)]
pub struct Sample {
    pub codes: Vec<u32>,
    ghost is: { IsInternable codes.items },
}

/// The number that is drawn after another.
fn next(number: u32) -> u32 {
    number.wrapping_mul(1_103_515_245).wrapping_add(12_345) & 0x7FFF_FFFF
}

/// One of so many code points from the first on, by a number that was drawn.
fn pick(number: u32, first: u32, many: u32) -> u32 {
    first.saturating_add((number >> 10) % many.max(1))
}

/// An ideograph and 1 to 4 marks, by numbers that are drawn.
fn drawn_codes(alloc: Global, number: &mut u32) -> Result<Vec<u32>, AllocError> {
    let mut codes = Vec::new(alloc);
    *number = next(*number);
    codes.push(pick(*number, 0x4E00, 0x51FF))?;
    *number = next(*number);
    for _k in 0..pick(*number, 1, 4) {
        *number = next(*number);
        codes.push(pick(*number, 0x300, 0x70))?;
    }
    Ok(codes)
}

/// The codes as a cluster, where a table may number them.
fn sample_of(codes: Vec<u32>) -> Option<Sample> {
    if codes.len() < 2 {
        return None;
    }
    if codes.len() > 1024 {
        return None;
    }
    if !is_text(codes.as_slice()) {
        return None;
    }
    Some(Sample { codes })
}

fn new_table(alloc: Global) -> Result<(OwnTable, OwnPass), AllocError>
    ensures { IfOk result (λ made. IsOwnPass made.0 made.1) }
{
    OwnTable::new(alloc, PLACES)
}

/// Whether this is the number of the next new text, behind so many.
fn is_next(n: i32, count: usize) -> bool
    requires { count ≤ 1048576 }
{
    -2 - n as i64 == count as i64
}

/// Keeps a cluster that the table did not know, up to so many.
fn keep_new(
    alloc: Global,
    table: &OwnTable,
    pass: &mut OwnPass,
    samples: &mut Vec<Sample>,
    most: usize,
    sample: Sample,
) -> Result<(), AllocError>
    requires most { most ≤ 1048576 }
    requires pass { IsOwnPass table.now pass.old }
    ensures pass { IsOwnPass table.now pass.new }
{
    let count = samples.len();
    if count >= most {
        return Ok(());
    }
    match table.intern(alloc, pass, sample.codes.as_slice()) {
        Ok(n) => {
            if is_next(n, count) {
                samples.push(sample)?;
            }
            Ok(())
        }
        Err(_) => Ok(()),
    }
}

/// Draws a cluster, and keeps it if it is new.
fn draw(
    alloc: Global,
    table: &OwnTable,
    pass: &mut OwnPass,
    samples: &mut Vec<Sample>,
    most: usize,
    number: &mut u32,
) -> Result<(), AllocError>
    requires most { most ≤ 1048576 }
    requires pass { IsOwnPass table.now pass.old }
    ensures pass { IsOwnPass table.now pass.new }
{
    match sample_of(drawn_codes(alloc, number)?) {
        Some(sample) => keep_new(alloc, table, pass, samples, most, sample),
        None => Ok(()),
    }
}

/// So many clusters of which no two are the same, always the same ones, unless too few are drawn.
pub fn samples(alloc: Global, most: usize) -> Result<Vec<Sample>, AllocError>
    requires { most ≤ 1048576 }
{
    let (table, mut pass) = new_table(alloc)?;
    let mut samples = Vec::new(alloc);
    let mut number: u32 = 1;
    for _k in 0..most + most / 20 {
        draw(alloc, &table, &mut pass, &mut samples, most, &mut number)?;
    }
    Ok(samples)
}
