//! Jobs give what commands want, where there is memory.
ghost use Rattle.std.specs.Prelude.{◌≡◌, ℕ, length, slice_get, Some, IfOk};
ghost use Rattle.nfg_work.specs.declared.outcome.Outcome.{Outcome};
ghost use Rattle.nfg_work.specs.declared.outcome.Outcome.TheVariants.{Nothing};
ghost use Rattle.nfg_work.specs.Evaluation.{AreWithinLimit};

use crate::FileRead;
use crate::job::do_job;
use crate::outcome::Outcome;
use crate::plan::Plan;
use crate::work::Work;
use nfg_script::{Script, parse};
use nfg_syn::OwnTable;
use nfg_text::ByteList;
use std::alloc::{AllocError, Global};
use std::cmp::Ordering;
use std::test::Fail;

/// What nothing has given yet.
fn nothing_given(alloc: Global, count: usize) -> Result<Vec<Outcome>, AllocError>
    ensures many { IfOk result (λ outcomes. length outcomes.items ≡ count) }
    ensures nothing { IfOk result (λ outcomes. (k : ℕ) (outcome : Outcome)
        → slice_get outcomes.items k ≡ Some outcome → outcome ≡ Nothing) }
{
    let mut outcomes = Vec::new(alloc);
    'filling: for _k in 0..count {
        outcomes.push(Outcome::Nothing)?;
    }
    Ok(outcomes)
}

/// What the jobs of a script give, done one after the other over a table of 16 places.
fn outcomes_of(
    alloc: Global,
    script: &Script,
    reads: &[FileRead],
) -> Result<Vec<Outcome>, AllocError>
    requires { AreWithinLimit reads.now }
{
    let plan = Plan::new(alloc, script)?;
    let (table, mut pass) = OwnTable::new(alloc, 16)?;
    let mut outcomes = nothing_given(alloc, script.len())?;
    'jobs: for k in 0..script.len() {
        let work = Work {
            script,
            plan: &plan,
            reads,
            outcomes: outcomes.as_slice(),
        };
        let outcome = do_job(alloc, &table, &mut pass, work, k)?;
        outcomes[k] = outcome;
    }
    Ok(outcomes)
}

/// The length of the string that a job has made.
fn made(outcomes: &[Outcome], k: usize) -> Option<u64> {
    match outcomes.get(k) {
        Some(Outcome::Made(string)) => Some(string.len()),
        _ => None,
    }
}

/// The place that a job has looked for.
fn found(outcomes: &[Outcome], k: usize) -> Option<Option<u64>> {
    match outcomes.get(k) {
        Some(Outcome::Found(place)) => Some(*place),
        _ => None,
    }
}

#[test]
fn jobs_make_search_and_compare(rt: HostRuntime) -> Result<(), Fail> {
    let text =
        b"load a utf8 f\ntext b 301\ncat c a b\nrep d a 2\nsub e d 1 2\nfind d a 1\nrfind d a 9\neq a e\ncmp a c\nlen a\nsub g a 3 1\n";
    let bytes = ByteList::from_slice(rt.alloc(), b"ab".as_slice())?;
    let script = match parse(rt.alloc(), text.as_slice()) {
        Ok(script) => script,
        Err(_) => Err("the script is refused")?,
    };
    let outcomes = outcomes_of(rt.alloc(), &script, &[FileRead::Bytes(bytes)])?;
    let all = outcomes.as_slice();
    assert!(rt; all.len() == 11);
    assert!(rt; made(all, 0) == Some(2));
    assert!(rt; made(all, 1) == Some(1));
    assert!(rt; made(all, 2) == Some(2));
    assert!(rt; made(all, 3) == Some(4));
    assert!(rt; made(all, 4) == Some(2));
    assert!(rt; found(all, 5) == Some(Some(2)));
    assert!(rt; found(all, 6) == Some(Some(2)));
    assert!(rt; matches!(all.get(7), Some(Outcome::Compared(false))));
    assert!(rt; matches!(all.get(8), Some(Outcome::Ordered(Ordering::Less))));
    assert!(rt; matches!(all.get(9), Some(Outcome::Nothing)));
    assert!(rt; matches!(all.get(10), Some(Outcome::Nothing)));
    Ok(())
}
