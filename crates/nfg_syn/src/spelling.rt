//! The code points of the cluster that a number stands for.
ghost use Rattle.std.specs.Prelude.{◌≡◌, ◌++◌, ℕ, List, Some, length, take, OnOk, OnErr};
ghost use Rattle.nfg_syn.specs.Known.{IsSame, text_at};
ghost use Rattle.nfg_syn.specs.Represents.{spelling};
ghost use Rattle.nfg_syn.specs.Seen.{Keeps, SameCounts};

use crate::Synthetics;
use nfg_text::CodeList;
use std::alloc::AllocError;

/// Adds the code points of the cluster that a number stands for at the end of a list. The table is
/// asked for negative numbers alone.
pub fn append_cluster<T: Synthetics>(
    table: &T,
    pass: &mut T::Pass,
    n: i32,
    into: &mut CodeList,
) -> Result<(), AllocError>
    requires known { (cluster : List ℕ) × (spelling (T.seen pass.old).known n ≡ Some cluster) }
    requires table { T.is_of table.now pass.old }
    ensures table { T.is_of table.now pass.new }
    ensures keeps { Keeps (T.seen pass.old) (T.seen pass.new) }
    ensures counts { SameCounts (T.seen pass.old) (T.seen pass.new) }
    ensures known { IsSame (T.seen pass.old).known (T.seen pass.new).known }
    ensures added { (cluster : List ℕ) → spelling (T.seen pass.old).known n ≡ Some cluster
        → OnOk result (into.new ≡ into.old ++ cluster) }
    ensures unchanged { OnErr result (into.new ≡ into.old) }
{
    if n >= 0 {
        return into.push(n as u32);
    }
    append_synthetic(table, pass, n, into)
}

/// The same of a negative number.
fn append_synthetic<T: Synthetics>(
    table: &T,
    pass: &mut T::Pass,
    n: i32,
    into: &mut CodeList,
) -> Result<(), AllocError>
    requires known { (cluster : List ℕ) × (text_at (T.seen pass.old).known n ≡ Some cluster) }
    requires table { T.is_of table.now pass.old }
    ensures table { T.is_of table.now pass.new }
    ensures keeps { Keeps (T.seen pass.old) (T.seen pass.new) }
    ensures counts { SameCounts (T.seen pass.old) (T.seen pass.new) }
    ensures known { IsSame (T.seen pass.old).known (T.seen pass.new).known }
    ensures added { (cluster : List ℕ) → text_at (T.seen pass.old).known n ≡ Some cluster
        → OnOk result (into.new ≡ into.old ++ cluster) }
    ensures unchanged { OnErr result (into.new ≡ into.old) }
{
    let start = into.len();
    let count = table.count(pass, n);
    for k in 0..count {
        let code = table.code(pass, n, k);
        match into.push(code) {
            Ok(()) => {}
            Err(error) => {
                into.truncate(start);
                return Err(error);
            }
        }
    }
    Ok(())
}
