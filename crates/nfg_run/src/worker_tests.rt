//! Scripts that several workers evaluate: two do commands at once, and their number changes nothing.
ghost use Rattle.std.specs.Prelude.{◌≤◌};

use crate::tests::{Found, SOUND, outcome, outcome_at};
use crate::{Gate, Status};
use std::alloc::{AllocError, Global};
use std::marker::Sync;
use std::process::Abort;
use std::sync::atomic::{AtomicBool, Ordering};
use std::test::Fail;
use std::thread::Threads;

/// So many turns a worker waits for the other.
const TURNS: u32 = 1 << 30;

/// What is known of one job.
#[derive(Drop)]
struct Job {
    entered: AtomicBool,
    left: AtomicBool,
}

impl Job {
    fn new() -> Job {
        Job {
            entered: AtomicBool::new(false),
            left: AtomicBool::new(false),
        }
    }
}

/// A gate at which jobs 0 and 1 wait for one another, so that one worker alone runs out of turns.
#[derive(Drop)]
pub(crate) struct MeetingGate {
    first: Job,
    second: Job,
    missed: AtomicBool,
}

impl MeetingGate {
    pub(crate) fn new() -> MeetingGate {
        MeetingGate {
            first: Job::new(),
            second: Job::new(),
            missed: AtomicBool::new(false),
        }
    }

    /// Marks that a job is entered, and waits until the other one is.
    fn meet(&self, job: &Job, other: &Job) {
        job.entered.store(true, Ordering::SeqCst);
        for _turn in 0..TURNS {
            if other.entered.load(Ordering::SeqCst) {
                return;
            }
        }
        self.missed.store(true, Ordering::SeqCst);
    }

    /// Whether both jobs were entered and left, and none waited in vain.
    pub(crate) fn passes(&self) -> bool {
        let entered = self.first.entered.load(Ordering::SeqCst)
            & self.second.entered.load(Ordering::SeqCst);
        let left = self.first.left.load(Ordering::SeqCst) & self.second.left.load(Ordering::SeqCst);
        entered & left & !self.missed.load(Ordering::SeqCst)
    }
}

impl Gate for MeetingGate {
    fn enter(&self, job: u32) {
        match job {
            0 => self.meet(&self.first, &self.second),
            1 => self.meet(&self.second, &self.first),
            _ => {}
        }
    }

    fn leave(&self, job: u32) {
        match job {
            0 => self.first.left.store(true, Ordering::SeqCst),
            1 => self.second.left.store(true, Ordering::SeqCst),
            _ => {}
        }
    }
}

/// What a run finds for this command line.
fn found<'a>(line: &'a str, script: &'a str) -> Found<'a> {
    Found {
        line,
        script: script.as_bytes(),
        f: b"a\xcc\x81\xf0\x9f\x87\xa9\xf0\x9f\x87\xb0\r\nq\xcc\xa3\xcc\x87",
        g: b"\x61\xe2\x82",
    }
}

/// The run says this with 1, 2, 3, 8 and 64 workers, each time.
fn check_workers<R: Threads + Sync + Abort>(
    rt: &R,
    alloc: Global,
    script: &str,
    status: Status,
    wanted: &str,
) -> Result<(), Fail> {
    for line in [
        "run --workers 1 --table 16 s",
        "run --workers 2 --table 16 s",
        "run --workers 3 --table 16 s",
        "run --workers 8 --table 16 s",
        "run --workers 64 --table 16 s",
    ] {
        for _time in 0..20 {
            let (given, taken) = outcome(rt, alloc, found(line, script), SOUND)?;
            assert!(rt; given == status);
            assert!(rt; taken.as_slice() == wanted.as_bytes());
        }
    }
    Ok(())
}

#[test]
fn two_workers_meet(rt: HostRuntime) -> Result<(), Fail> {
    let gate = MeetingGate::new();
    let asked = found("run --workers 2 s", "text a 71 307\ntext b 71 323\n");
    let (status, taken) = outcome_at(&rt, rt.alloc(), asked, SOUND, &gate)?;
    assert!(rt; status == Status::Done);
    assert!(rt; taken.as_slice().is_empty());
    assert!(rt; gate.passes());
    Ok(())
}

#[test]
fn workers_change_nothing(rt: HostRuntime) -> Result<(), Fail> {
    for (script, status, wanted) in [
        (
            "load a utf8 f\ntext b 71 307 323\nshow a\nlen a\nfind a b 0\nrfind a b 9\ncmp a b\neq a b\n",
            Status::Done,
            "E1 1F1E9+1F1F0 D+A 71+323+307\n4\n3\n3\ngreater\nfalse\n",
        ),
        (
            "text a 1F1E6 1F1E7 1F1E8\nrep b a 2\nshow b\nshape b\ncat c a a\neq b c\ncmp a b\n",
            Status::Done,
            "1F1E6+1F1E7 1F1E8+1F1E6 1F1E7+1F1E8\nstrands 1 3x1/32\ntrue\nless\n",
        ),
        (
            "text a 1100\ntext b 1161\ntext c 11A8\ncat d a b\nshow d\ncat e d c\nshow e\n",
            Status::Done,
            "AC00\nAC01\n",
        ),
        (
            "text a 61 62 63\nrep b a 4\nshape b\nsub c b 1 10\nshape c\nsub d b 1 1\nshape d\nput d utf8\n",
            Status::Done,
            "strands 1 3x4/8\nstrands 3 2x1/8 3x2/8 2x1/8\nstrands 1 1x1/8\nb",
        ),
        (
            "text a A\ntext b 301\ncat c a b\nshow c\nsub d c 1 1\ntext e 65\ncat f e d\nshow f\n",
            Status::Done,
            "A 301\nE9\n",
        ),
        (
            "text a 61\nload b utf8 g\nlen a\n",
            Status::Refused,
            "line 2: malformed at byte 1\n",
        ),
        (
            "text a 61 62\nlen a\nsub d a 3 0\ncat e d d\nlen e\n",
            Status::Refused,
            "2\nline 3: out of range\n",
        ),
        (
            "text b 100\nput b utf8\nput b latin1\n",
            Status::Refused,
            "\u{100}line 3: not encodable at grapheme 0\n",
        ),
        (
            "text a 61\nrep b a 67108865\ncat c b a\n",
            Status::Refused,
            "line 2: string too long\n",
        ),
        (
            "text a 61\nrep b a 67108864\nrep c a 67108864\nrep d a 67108864\nrep e a 67108864\nrep f a 67108864\nrep g a 67108864\nrep h a 67108864\nrep i a 67108864\nlen a\n",
            Status::Refused,
            "line 9: all strings too long\n",
        ),
        (
            "text a 61\nlen a\nload b utf8 none\ncat c a b\n",
            Status::ReadFault,
            "1\nline 3: cannot read\n",
        ),
        (
            "text a 301\nrep b a 1024\nlen b\nrep c a 1025\nlen a\n",
            Status::Refused,
            "1\nline 4: cluster too long at grapheme 0\n",
        ),
        (
            "text a 71\ntext b 301\nrep c b 1024\nlen c\ncat d a c\n",
            Status::Refused,
            "1\nline 5: cluster too long at grapheme 0\n",
        ),
        ("", Status::Done, ""),
    ] {
        check_workers(&rt, rt.alloc(), script, status, wanted)?;
    }
    Ok(())
}

/// Texts of this many clusters of two code points, no two the same, a line each.
fn texts(alloc: Global, count: u32) -> Result<String, AllocError>
    requires { count ≤ 100 }
{
    let mut script = String::new(alloc);
    for k in 0..count {
        let line = format!(in alloc; "text t{k} 71 {:X}\n", 0x300 + k)?;
        script.push_str(line.as_str())?;
    }
    Ok(script)
}

#[test]
fn a_full_table_is_told_at_its_line(rt: HostRuntime) -> Result<(), Fail> {
    let script = texts(rt.alloc(), 17)?;
    check_workers(
        &rt,
        rt.alloc(),
        script.as_str(),
        Status::Refused,
        "line 17: table full\n",
    )?;
    let script = texts(rt.alloc(), 16)?;
    check_workers(&rt, rt.alloc(), script.as_str(), Status::Done, "")
}
