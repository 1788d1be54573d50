//! Which jobs are done with their level.
use crate::affordable::affordable;
use crate::large::least_of_large;
use crate::level_jobs::jobs_by_level;
use crate::outcome::Outcome;
use crate::plan::Plan;
use crate::progress::{Progress, note_done};
use crate::work::Work;
use crate::{FileRead, OpenGate};
use nfg_script::{Script, parse};
use nfg_text::ByteList;
use std::alloc::{AllocError, Global};
use std::test::Fail;

fn script_of(alloc: Global, text: &str) -> Result<Script, Fail> {
    match parse(alloc, text.as_bytes()) {
        Ok(script) => Ok(script),
        Err(_) => Err("the script is refused")?,
    }
}

/// A file of 2^20 bytes.
fn large(alloc: Global) -> Result<FileRead, AllocError> {
    let mut bytes = ByteList::from_slice(alloc, b"a".as_slice())?;
    for _k in 0..20 {
        let copy = ByteList::from_slice(alloc, bytes.as_slice())?;
        bytes.append(copy.as_slice())?;
    }
    Ok(FileRead::Bytes(bytes))
}

/// The jobs that are done with this level, where nothing has given anything yet.
fn kept_at(
    alloc: Global,
    script: &Script,
    reads: &[FileRead],
    level: usize,
    large: usize,
    end: usize,
) -> Result<Vec<u32>, AllocError> {
    let plan = Plan::new(alloc, script)?;
    let lists = jobs_by_level(alloc, script)?;
    if level >= lists.len() {
        return Ok(Vec::new(alloc));
    }
    let work = Work {
        script,
        plan: &plan,
        reads,
        outcomes: &[],
    };
    let mut progress = Progress {
        spent: 0,
        end,
        large,
    };
    let jobs = lists[level].as_slice();
    affordable(alloc, work, jobs, &mut progress, &OpenGate)
}

/// The first command that is refused, where the jobs of this level are done and nothing has given anything.
fn end_at(alloc: Global, script: &Script, level: usize) -> Result<usize, AllocError> {
    let plan = Plan::new(alloc, script)?;
    let lists = jobs_by_level(alloc, script)?;
    let mut progress = Progress {
        spent: 0,
        end: script.len(),
        large: usize::MAX,
    };
    if level >= lists.len() {
        return Ok(progress.end);
    }
    let mut outcomes = Vec::new(alloc);
    for _k in 0..script.len() {
        outcomes.push(Outcome::Nothing)?;
    }
    let work = Work {
        script,
        plan: &plan,
        reads: &[],
        outcomes: outcomes.as_slice(),
    };
    note_done(work, lists[level].as_slice(), &mut progress);
    Ok(progress.end)
}

#[test]
fn large_files_are_loaded_before_the_levels(rt: HostRuntime) -> Result<(), Fail> {
    let alloc = rt.alloc();
    let script = script_of(alloc, "load a utf8 f\ntext b 61\nload c utf8 g\n")?;
    let reads = [large(alloc)?, FileRead::Failed];
    let kept = kept_at(alloc, &script, &reads, 0, 1 << 20, 3)?;
    assert!(rt; kept.as_slice() == [1, 2].as_slice());
    let all = kept_at(alloc, &script, &reads, 0, usize::MAX, 3)?;
    assert!(rt; all.as_slice() == [0, 1, 2].as_slice());
    Ok(())
}

#[test]
fn what_stands_behind_a_refused_command_is_left_out(rt: HostRuntime) -> Result<(), Fail> {
    let alloc = rt.alloc();
    let script = script_of(alloc, "text a 61\nload b utf8 f\nrep c a 2\ntext d 62\n")?;
    let kept = kept_at(alloc, &script, &[], 0, usize::MAX, 1)?;
    assert!(rt; kept.as_slice() == [0].as_slice());
    // a string that waits for another is not refused
    let waiting = end_at(alloc, &script, 1)?;
    assert!(rt; waiting == 4);
    let refused = end_at(alloc, &script, 0)?;
    assert!(rt; refused == 0);
    Ok(())
}

#[test]
fn files_are_large_beside_few_others(rt: HostRuntime) -> Result<(), Fail> {
    let alloc = rt.alloc();
    // of so many files of 2^20 bytes none is large where so many workers would take two rounds or more
    for (files, workers, least) in [
        (0, 4, 1 << 20),
        (1, 4, 1 << 20),
        (7, 4, 1 << 20),
        (8, 4, (1 << 20) + 1),
        (16, 4, (1 << 21) + 1),
        (16, 64, 1 << 20),
        (16, 1, usize::MAX),
    ] {
        let mut reads = Vec::new(alloc);
        for _k in 0..files {
            reads.push(large(alloc)?)?;
        }
        let given = least_of_large(reads.as_slice(), workers);
        assert_eq!(rt; given, least, "{files} files, {workers} workers");
    }
    Ok(())
}
