//! Numbers in order, in 8 bits while each of them fits.
ghost use Rattle.std.specs.Prelude.{◌≡◌, ◌<◌, ◌≤◌, ℤ, List, pos, true, nat_lt, IsTrue, [], ◌∷◌, ◌++◌, length, map, take, OnOk, OnErr};
ghost use Rattle.std.specs.List.{list_all};
ghost use Rattle.nfg_lanes.specs.Lanes.{is_narrow_grapheme};
ghost use Rattle.nfg_text.specs.Text.{IsText};
ghost use Rattle.nfg_stream.specs.Numbers.{AreKept, is_ascii};

use nfg_lanes::widen;
use std::alloc::{AllocError, Global};
use std::marker::Model;

/// How many code points become numbers at once by way of a scratch, which is cleared at each call. A run of
/// fewer does without one.
const PART: usize = 256;

/// Where there are so many numbers, their room grows by a quarter at a time, and below by as much again. So a long
/// list has little room that it doesn't use, which need not be given back, and its last growth is a small step.
const MANY: usize = 1 << 18;

/// Numbers in order. All of them stand in `narrow` while each fits 8 bits, and all in `wide` from the
/// first on that does not.
#[derive(Drop)]
pub(crate) struct Numbers {
    narrow: Vec<i8>,
    wide: Vec<i32>,
}

impl Model for Numbers {
    ghost use Rattle.std.specs.Prelude.{ℤ, List, ◌++◌};
    ghost use Rattle.nfg_stream.specs.Numbers.{AreKept};

    ghost Value = { List ℤ };

    ghost view = { λ n. n.narrow.items ++ n.wide.items };

    ghost invariant = { λ n. AreKept n.narrow.items n.wide.items };
}

impl Numbers {
    /// No numbers.
    pub(crate) fn new(alloc: Global) -> Numbers
        ensures { result ≡ [] }
    {
        Numbers {
            narrow: Vec::new(alloc),
            wide: Vec::new(alloc),
        }
    }

    /// How many numbers there are.
    pub(crate) fn len(&self) -> usize
        ensures { result ≡ length self.now }
    {
        self.narrow.len() + self.wide.len()
    }

    /// Adds a number at the end. Where there are some in 32 bits the caller does so in place.
    #[inline(always)]
    pub(crate) fn push(&mut self, number: i32) -> Result<(), AllocError>
        ensures pushed { OnOk result (self.new ≡ self.old ++ number ∷ []) }
        ensures unchanged { OnErr result (self.new ≡ self.old) }
    {
        if self.wide.is_empty() {
            return self.push_early(number);
        }
        make_room(&mut self.wide, 1)?;
        self.wide.push(number)?;
        Ok(())
    }

    /// The same where there are none.
    #[inline(never)]
    fn push_early(&mut self, number: i32) -> Result<(), AllocError>
        ensures pushed { OnOk result (self.new ≡ self.old ++ number ∷ []) }
        ensures unchanged { OnErr result (self.new ≡ self.old) }
    {
        if self.wide.is_empty() {
            if fits(number) {
                make_room(&mut self.narrow, 1)?;
                self.narrow.push(number as i8)?;
                return Ok(());
            }
        }
        move_all(&mut self.narrow, &mut self.wide)?;
        make_room(&mut self.wide, 1)?;
        self.wide.push(number)?;
        Ok(())
    }

    /// Adds code points at the end.
    pub(crate) fn append_codes(&mut self, run: &[u32]) -> Result<(), AllocError>
        requires { IsText run.now }
        ensures appended { OnOk result (self.new ≡ self.old ++ map (λ c. pos c) run.now) }
        ensures unchanged { OnErr result (self.new ≡ self.old) }
    {
        if let [code] = run {
            return self.push(*code as i32);
        }
        if self.wide.is_empty() {
            if are_ascii(run) {
                append_narrow(&mut self.narrow, run)?;
                return Ok(());
            }
        }
        move_all(&mut self.narrow, &mut self.wide)?;
        append_wide(&mut self.wide, run)?;
        Ok(())
    }

    /// Keeps the first `len` numbers, or all where there are fewer.
    pub(crate) fn truncate(&mut self, len: usize)
        ensures { self.new ≡ take len self.old }
    {
        self.narrow.truncate(len);
        self.wide.truncate(len);
    }

    /// The numbers: those in 8 bits, and those in 32 bits. There are none of the one or none of the other.
    pub(crate) fn into_parts(self) -> (Vec<i8>, Vec<i32>)
        ensures all { result.0.items ++ result.1.items ≡ self }
        ensures kept { AreKept result.0.items result.1.items }
    {
        (self.narrow, self.wide)
    }
}

/// Whether 8 bits hold the number.
fn fits(number: i32) -> bool
    ensures { result ≡ is_narrow_grapheme number }
{
    number >= -1 && number <= 127
}

/// Moves all numbers to those in 32 bits. Mostly there are none to move, which the caller sees in place.
#[inline(always)]
fn move_all(narrow: &mut Vec<i8>, wide: &mut Vec<i32>) -> Result<(), AllocError>
    requires { AreKept narrow.old.items wide.old.items }
    ensures all { OnOk result (wide.new.items ≡ narrow.old.items ++ wide.old.items) }
    ensures moved { OnOk result (narrow.new.items ≡ []) }
    ensures stays { OnErr result (narrow.new.items ≡ narrow.old.items) }
    ensures stays_wide { OnErr result (wide.new.items ≡ wide.old.items) }
{
    if narrow.is_empty() {
        return Ok(());
    }
    move_some(narrow, wide)
}

/// The same where there are some.
#[inline(never)]
fn move_some(narrow: &mut Vec<i8>, wide: &mut Vec<i32>) -> Result<(), AllocError>
    requires kept { AreKept narrow.old.items wide.old.items }
    requires some { 0 < length narrow.old.items }
    ensures all { OnOk result (wide.new.items ≡ narrow.old.items ++ wide.old.items) }
    ensures moved { OnOk result (narrow.new.items ≡ []) }
    ensures stays { OnErr result (narrow.new.items ≡ narrow.old.items) }
    ensures stays_wide { OnErr result (wide.new.items ≡ wide.old.items) }
{
    wide.resize(narrow.len(), 0)?;
    widen(narrow.as_slice(), wide.as_mut_slice());
    narrow.truncate(0);
    narrow.shrink_to_fit();
    Ok(())
}

/// Makes room for so many more numbers. Mostly there is room, which the caller sees in place.
#[inline(always)]
fn make_room<T>(numbers: &mut Vec<T>, more: usize) -> Result<(), AllocError>
    ensures { numbers.new.items ≡ numbers.old.items }
{
    if more <= numbers.capacity() - numbers.len() {
        return Ok(());
    }
    grow(numbers, more)
}

/// The same where there is none.
#[inline(never)]
fn grow<T>(numbers: &mut Vec<T>, more: usize) -> Result<(), AllocError>
    ensures { numbers.new.items ≡ numbers.old.items }
{
    let len = numbers.len();
    let ahead = if len < MANY { len } else { len / 4 };
    numbers.reserve_exact(more.max(ahead))
}

/// Whether each code point is below 128. It looks at all of them, so that no branch stands in the loop.
fn are_ascii(codes: &[u32]) -> bool
    ensures { result ≡ list_all is_ascii codes.now }
{
    let mut greatest = 0;
    'codes: for code in codes {
        greatest = greatest.max(*code);
    }
    greatest < 128
}

/// Adds code points below 128 at the end.
fn append_narrow(numbers: &mut Vec<i8>, run: &[u32]) -> Result<(), AllocError>
    requires { list_all is_ascii run.now ≡ true }
    ensures appended { OnOk result (numbers.new.items ≡ numbers.old.items ++ map (λ c. pos c) run.now) }
    ensures unchanged { OnErr result (numbers.new.items ≡ numbers.old.items) }
{
    let start = numbers.len();
    if run.len() >= usize::MAX - start {
        return Err(AllocError);
    }
    make_room(numbers, run.len())?;
    numbers.resize(start + run.len(), 0)?;
    copy_narrow(run, &mut numbers[start..]);
    Ok(())
}

/// Copies each code point into 8 bits.
fn copy_narrow(codes: &[u32], into: &mut [i8])
    requires ascii { list_all is_ascii codes.now ≡ true }
    requires room { length codes.now ≡ length into.old }
    ensures { into.new ≡ map (λ c. pos c) codes.now }
{
    'codes: for k in 0..codes.len() {
        into[k] = codes[k] as i8;
    }
}

/// Adds code points at the end.
fn append_wide(numbers: &mut Vec<i32>, run: &[u32]) -> Result<(), AllocError>
    requires { IsText run.now }
    ensures appended { OnOk result (numbers.new.items ≡ numbers.old.items ++ map (λ c. pos c) run.now) }
    ensures unchanged { OnErr result (numbers.new.items ≡ numbers.old.items) }
{
    if run.len() <= PART {
        return append_few(numbers, run);
    }
    let start = numbers.len();
    make_room(numbers, run.len())?;
    match append_parts(numbers, run) {
        Ok(()) => Ok(()),
        Err(error) => {
            numbers.truncate(start);
            Err(error)
        }
    }
}

/// Adds code points at the end, of which there are few.
fn append_few(numbers: &mut Vec<i32>, run: &[u32]) -> Result<(), AllocError>
    requires { IsText run.now }
    ensures appended { OnOk result (numbers.new.items ≡ numbers.old.items ++ map (λ c. pos c) run.now) }
    ensures unchanged { OnErr result (numbers.new.items ≡ numbers.old.items) }
{
    let start = numbers.len();
    if run.len() >= usize::MAX - start {
        return Err(AllocError);
    }
    make_room(numbers, run.len())?;
    numbers.resize(start + run.len(), 0)?;
    copy_wide(run, &mut numbers[start..]);
    Ok(())
}

/// Adds code points at the end, or a front of them where memory is wanting. They go through a scratch,
/// so no room is cleared before it is written.
fn append_parts(numbers: &mut Vec<i32>, run: &[u32]) -> Result<(), AllocError>
    requires { IsText run.now }
    ensures appended { OnOk result (numbers.new.items ≡ numbers.old.items ++ map (λ c. pos c) run.now) }
    ensures grew { (more : List ℤ) × (numbers.new.items ≡ numbers.old.items ++ more) }
{
    let mut scratch = [0; PART];
    let mut rest = run;
    'parts: while rest.len() > PART {
        append_part(numbers, &rest[..PART], &mut scratch)?;
        rest = &rest[PART..];
    }
    append_part(numbers, rest, &mut scratch)
}

/// Adds as many code points at the end as the scratch has room for.
fn append_part(numbers: &mut Vec<i32>, part: &[u32], scratch: &mut [i32]) -> Result<(), AllocError>
    requires text { IsText part.now }
    requires room { length part.now ≤ length scratch.old }
    ensures appended { OnOk result (numbers.new.items ≡ numbers.old.items ++ map (λ c. pos c) part.now) }
    ensures unchanged { OnErr result (numbers.new.items ≡ numbers.old.items) }
{
    copy_wide(part, &mut scratch[..part.len()]);
    numbers.extend_from_slice(&scratch[..part.len()])?;
    Ok(())
}

/// Copies each code point into 32 bits.
fn copy_wide(codes: &[u32], into: &mut [i32])
    requires text { IsText codes.now }
    requires room { length codes.now ≡ length into.old }
    ensures { into.new ≡ map (λ c. pos c) codes.now }
{
    'codes: for k in 0..codes.len() {
        into[k] = codes[k] as i32;
    }
}
