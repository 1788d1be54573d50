//! Strings that commands define: those that a job has made, or else new ones.
ghost use Rattle.std.specs.Prelude.{◌≡◌, ℕ, ◌≤◌, length};
ghost use Rattle.nfg_text.specs.Text.{IsText};
ghost use Rattle.nfg_text.specs.Graphemes.{graphemes_of};
ghost use Rattle.nfg_decode.specs.Encoding.{decode};
ghost use Rattle.nfg_syn.specs.Known.{Texts, IsKnowledge};
ghost use Rattle.nfg_syn.specs.Seen.{Keeps, SameCounts};
ghost use Rattle.nfg_syn.specs.Represents.{AreGraphemes};
ghost use Rattle.nfg_work.specs.Values.{Value, flat};
ghost use Rattle.nfg_work.specs.Holding.{IsStringOf};
ghost use Rattle.nfg_work.specs.Making.{IsMadeOf, unless_long, file_value, cat_wanted, rep_wanted};
ghost use Rattle.nfg_work.specs.Given.{IsAlreadyMade, IsPartOf, part_wanted};

use crate::Cause;
use crate::making::{string_of_both, string_of_copies, string_of_file, string_of_text};
use crate::stop::Stop;
use nfg_decode::Encoding;
use nfg_ops::{SubError, substring};
use nfg_strand::NString;
use nfg_syn::Synthetics;
use std::alloc::Global;

/// The string of a text.
pub(crate) fn text_given<T: Synthetics>(
    alloc: Global,
    table: &T,
    pass: &mut T::Pass,
    codes: &[u32],
    given: Option<NString>,
) -> Result<NString, Stop>
    requires text { IsText codes.now }
    requires table { T.is_of table.now pass.old }
    ensures table { T.is_of table.now pass.new }
    ensures keeps { Keeps (T.seen pass.old) (T.seen pass.new) }
    ensures counts { SameCounts (T.seen pass.old) (T.seen pass.new) }
    ensures made { let wanted = unless_long (flat (graphemes_of codes.now)) in
        IsAlreadyMade wanted (T.seen pass.old).known given
        → IsMadeOf wanted (T.seen pass.old) (T.seen pass.new) result }
{
    match given {
        Some(string) => Ok(string),
        None => string_of_text(alloc, table, pass, codes),
    }
}

/// The string of a file's bytes.
pub(crate) fn file_given<T: Synthetics>(
    alloc: Global,
    table: &T,
    pass: &mut T::Pass,
    e: Encoding,
    bytes: &[u8],
    given: Option<NString>,
) -> Result<NString, Stop>
    requires table { T.is_of table.now pass.old }
    requires limit { length bytes.now ≤ 67108864 }
    ensures table { T.is_of table.now pass.new }
    ensures keeps { Keeps (T.seen pass.old) (T.seen pass.new) }
    ensures counts { SameCounts (T.seen pass.old) (T.seen pass.new) }
    ensures made { let wanted = file_value (decode e bytes.now) in
        IsAlreadyMade wanted (T.seen pass.old).known given
        → IsMadeOf wanted (T.seen pass.old) (T.seen pass.new) result }
{
    match given {
        Some(string) => Ok(string),
        None => string_of_file(alloc, table, pass, e, bytes),
    }
}

/// The string of two strings, joined.
pub(crate) fn both_given<T: Synthetics>(
    alloc: Global,
    table: &T,
    pass: &mut T::Pass,
    left: &NString,
    right: &NString,
    given: Option<NString>,
) -> Result<NString, Stop>
    requires table { T.is_of table.now pass.old }
    requires left { AreGraphemes (T.seen pass.old).known left.now.graphemes }
    requires right { AreGraphemes (T.seen pass.old).known right.now.graphemes }
    ensures table { T.is_of table.now pass.new }
    ensures keeps { Keeps (T.seen pass.old) (T.seen pass.new) }
    ensures counts { SameCounts (T.seen pass.old) (T.seen pass.new) }
    ensures made { (a b : Value) → IsStringOf (T.seen pass.old).known left.now a
        → IsStringOf (T.seen pass.old).known right.now b
        → IsAlreadyMade (cat_wanted a b) (T.seen pass.old).known given
        → IsMadeOf (cat_wanted a b) (T.seen pass.old) (T.seen pass.new) result }
{
    match given {
        Some(string) => Ok(string),
        None => string_of_both(alloc, table, pass, left, right),
    }
}

/// The string of so many times a string.
pub(crate) fn copies_given<T: Synthetics>(
    alloc: Global,
    table: &T,
    pass: &mut T::Pass,
    string: &NString,
    times: u64,
    given: Option<NString>,
) -> Result<NString, Stop>
    requires table { T.is_of table.now pass.old }
    requires graphemes { AreGraphemes (T.seen pass.old).known string.now.graphemes }
    ensures table { T.is_of table.now pass.new }
    ensures keeps { Keeps (T.seen pass.old) (T.seen pass.new) }
    ensures counts { SameCounts (T.seen pass.old) (T.seen pass.new) }
    ensures made { (a : Value) → IsStringOf (T.seen pass.old).known string.now a
        → IsAlreadyMade (rep_wanted a times) (T.seen pass.old).known given
        → IsMadeOf (rep_wanted a times) (T.seen pass.old) (T.seen pass.new) result }
{
    match given {
        Some(string) => Ok(string),
        None => string_of_copies(alloc, table, pass, string, times),
    }
}

/// A new string of a part of a string.
fn string_of_part(alloc: Global, string: &NString, start: u64, count: u64) -> Result<NString, Stop>
    ensures { (size : ℕ) (known places : Texts) (value : Value) → IsKnowledge size known places
        → IsStringOf known string.now value → IsPartOf known string.now value start count result }
{
    match substring(alloc, string, start, count) {
        Ok(part) => Ok(part),
        Err(SubError::OutOfRange) => Err(Stop::Refused(Cause::OutOfRange)),
        Err(SubError::OutOfMemory) => Err(Stop::OutOfMemory),
    }
}

/// The string of a part of a string.
pub(crate) fn part_given(
    alloc: Global,
    string: &NString,
    start: u64,
    count: u64,
    given: Option<NString>,
) -> Result<NString, Stop>
    ensures { (size : ℕ) (known places : Texts) (value : Value) → IsKnowledge size known places
        → IsStringOf known string.now value → IsAlreadyMade (part_wanted value start count) known given
        → IsPartOf known string.now value start count result }
{
    match given {
        Some(part) => Ok(part),
        None => string_of_part(alloc, string, start, count),
    }
}
