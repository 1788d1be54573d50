//! Scripts that join, repeat, search and compare, and command lines without a script, with what a run of each says, worked by hand.

use crate::Status;
use crate::worked_rows::{NONE, WorkedRow};

/// Scripts over strings; one loads a file that is not there, and its call on that file fails in any case.
pub(crate) static STRINGS: [WorkedRow<'static>; 15] = [
    WorkedRow {
        script: b"text a 1F1E6 1F1E7 1F1E8\nrep b a 2\nshow b\nshape b\n",
        wanted: b"1F1E6+1F1E7 1F1E8+1F1E6 1F1E7+1F1E8\nstrands 1 3x1/32\n",
        ..NONE
    },
    WorkedRow {
        script: b"text a 1F600 200D 2194\ntext b 338\nlen a\ncat c a b\nshow c\nshape c\n",
        wanted: b"1\n1F600+200D 21AE\nstrands 1 2x1/32\n",
        ..NONE
    },
    WorkedRow {
        script: b"text a 958\ntext b 915 93C\nshow a\nlen a\neq a b\n",
        wanted: b"915+93C\n1\ntrue\n",
        ..NONE
    },
    WorkedRow {
        script: b"text a 1100\ntext b 1161\ntext c 11A8\ncat d a b\nshow d\ncat e d c\nshow e\n",
        wanted: b"AC00\nAC01\n",
        ..NONE
    },
    WorkedRow {
        line: "run --workers 2 s",
        script: b"text a 71 307 323\ntext b 71 323 307\neq a b\nshow a\nshow b\n",
        wanted: b"true\n71+323+307\n71+323+307\n",
        ..NONE
    },
    WorkedRow {
        script: b"text a E9\ntext b 65\ntext c\ntext d 61 62\nfind a b 0\nfind d c 1\nfind d c 3\n\
              rfind d c 9\n",
        wanted: b"none\n1\nnone\n2\n",
        ..NONE
    },
    WorkedRow {
        script: b"text a A\ntext b 301\ncat c a b\nshow c\nsub d c 1 1\ntext e 65\ncat f e d\nshow f\n",
        wanted: b"A 301\nE9\n",
        ..NONE
    },
    WorkedRow {
        script: b"text a D\ntext b A\ncat c a b\nshow c\nshape c\n",
        wanted: b"D+A\nstrands 1 1x1/8\n",
        ..NONE
    },
    WorkedRow {
        script: b"text a 1F1E6\ntext b 1F1E7 1F1E8 1F1E9 1F1EA 1F1EB\ncat c a b\nshow c\nshape c\n",
        wanted: b"1F1E6+1F1E7 1F1E8+1F1E9 1F1EA+1F1EB\nstrands 1 3x1/32\n",
        ..NONE
    },
    WorkedRow {
        script: b"text a 61 65\ntext b 301 62\ncat c a b\nshow c\nshape c\n",
        wanted: b"61 E9 62\nstrands 3 1x1/8 1x1/32 1x1/32\n",
        ..NONE
    },
    WorkedRow {
        script: b"text a 61 62 63\nrep b a 4\nshape b\nsub c b 1 10\nshape c\nsub d b 1 1\nshape d\n",
        wanted: b"strands 1 3x4/8\nstrands 3 2x1/8 3x2/8 2x1/8\nstrands 1 1x1/8\n",
        ..NONE
    },
    WorkedRow {
        script: b"text a 71 307\ntext b 61\ncmp a b\ncmp b a\ncmp a a\n",
        wanted: b"greater\nless\nequal\n",
        ..NONE
    },
    WorkedRow {
        script: b"text a 61\nlen a\nload b utf8 none\n",
        status: Status::ReadFault,
        wanted: b"1\nline 3: cannot read\n",
        ..NONE
    },
    WorkedRow {
        script: b"text a 61\nrep b a 67108865\n",
        status: Status::Refused,
        wanted: b"line 2: string too long\n",
        ..NONE
    },
    WorkedRow {
        script: b"text a 61\nrep b1 a 67108864\nrep b2 a 67108864\nrep b3 a 67108864\n\
              rep b4 a 67108864\nrep b5 a 67108864\nrep b6 a 67108864\nrep b7 a 67108864\n\
              rep b8 a 67108864\n",
        status: Status::Refused,
        wanted: b"line 9: all strings too long\n",
        ..NONE
    },
];

const USAGE: &[u8] =
    b"usage: nfg run [--workers W] [--table N] SCRIPT\n       nfg gen [--workers W] [--table N] SEED COUNT\n";

/// Command lines that read no file.
pub(crate) static WORDS: [WorkedRow<'static>; 5] = [
    WorkedRow {
        line: "run",
        status: Status::Bad,
        wanted: USAGE,
        ..NONE
    },
    WorkedRow {
        line: "run --workers 0 s",
        status: Status::Bad,
        wanted: USAGE,
        ..NONE
    },
    WorkedRow {
        line: "run --table 17 s",
        status: Status::Bad,
        wanted: USAGE,
        ..NONE
    },
    WorkedRow {
        line: "run none",
        status: Status::ReadFault,
        wanted: b"script: cannot read\n",
        ..NONE
    },
    WorkedRow {
        line: "gen 1 3",
        wanted: b"true\n3\n6\nstrands 2 3x1/32 3x1/32\ntrue\nnone\nnone\nless\n",
        ..NONE
    },
];

/// A long generated input, of which the files are decoded in parts.
pub(crate) const LONG: WorkedRow<'static> = WorkedRow {
    line: "gen 1 300000 --workers 8",
    wanted: b"true\n351077\n702154\nstrands 2 351077x1/32 351077x1/32\ntrue\n25\n702148\nless\n",
    ..NONE
};
