//! The code points of the cluster that a number stands for.
ghost use Rattle.std.specs.Prelude.{◌≡◌, ◌≤◌, ◌<◌, ℕ, List, Some, length, take};
ghost use Rattle.nfg_syn.specs.Known.{text_at};
ghost use Rattle.nfg_ops.specs.Reads.{HasAsked};
ghost use Rattle.nfg_syn.specs.Represents.{spelling};

use nfg_syn::Synthetics;

/// The most code points of a cluster.
pub(crate) const CLUSTER_LIMIT: usize = 1024;

/// Puts the code points of a synthetic or of CR LF at the front of the buffer: how many.
fn spell_synthetic<T: Synthetics>(
    table: &T,
    pass: &mut T::Pass,
    n: i32,
    buffer: &mut [u32],
) -> usize
    requires table { T.is_of table.now pass.old }
    requires known { (cluster : List ℕ) × (text_at (T.seen pass.old).known n ≡ Some cluster) }
    requires room { length buffer.old ≡ 1024 }
    ensures table { T.is_of table.now pass.new }
    ensures asked { HasAsked (T.seen pass.old) (T.seen pass.new) }
    ensures room { length buffer.new ≡ 1024 }
    ensures some { 0 < result }
    ensures inside { result ≤ 1024 }
    ensures spelled { (cluster : List ℕ) → text_at (T.seen pass.old).known n ≡ Some cluster
        → take result buffer.new ≡ cluster }
{
    let count = table.count(pass, n);
    'spelling: for k in 0..count {
        buffer[k] = table.code(pass, n, k);
    }
    count
}

/// Puts the code points of the cluster that the number stands for at the front of the buffer: how
/// many.
pub(crate) fn spell<T: Synthetics>(
    table: &T,
    pass: &mut T::Pass,
    n: i32,
    buffer: &mut [u32],
) -> usize
    requires table { T.is_of table.now pass.old }
    requires known { (cluster : List ℕ) × (spelling (T.seen pass.old).known n ≡ Some cluster) }
    requires room { length buffer.old ≡ 1024 }
    ensures table { T.is_of table.now pass.new }
    ensures asked { HasAsked (T.seen pass.old) (T.seen pass.new) }
    ensures room { length buffer.new ≡ 1024 }
    ensures some { 0 < result }
    ensures inside { result ≤ 1024 }
    ensures spelled { (cluster : List ℕ) → spelling (T.seen pass.old).known n ≡ Some cluster
        → take result buffer.new ≡ cluster }
{
    if n >= 0 {
        buffer[0] = n as u32;
        return 1;
    }
    spell_synthetic(table, pass, n, buffer)
}
