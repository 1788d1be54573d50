//! Scripts over two short files, and what a run of each says, worked by hand.

use crate::Status;

/// A load of a script: its line, whether it reads `g` and not `f`, and what the lines before it print.
#[derive(Clone, Copy)]
pub(crate) struct Load {
    pub line: usize,
    pub is_of_g: bool,
    pub before: &'static str,
}

/// The words of the command line, the script, the files `f` and `g`, what a run says, and the loads that it does.
#[derive(Clone, Copy)]
pub(crate) struct WorkedRow<'a> {
    pub line: &'a str,
    pub script: &'a [u8],
    pub f: &'a [u8],
    pub g: &'a [u8],
    pub status: Status,
    pub wanted: &'a [u8],
    pub loads: &'a [Load],
}

/// An empty script, by one worker over few places.
pub(crate) const NONE: WorkedRow<'static> = WorkedRow {
    line: "run --workers 1 --table 16 s",
    script: b"",
    f: b"",
    g: b"",
    status: Status::Done,
    wanted: b"",
    loads: &[],
};

/// The load of `f` on the first line.
const LOAD_F: Load = Load {
    line: 1,
    is_of_g: false,
    before: "",
};

const SHOWN: WorkedRow<'static> = WorkedRow {
    script: b"load a utf8 f\nlen a\nshow a\n",
    loads: &[LOAD_F],
    ..NONE
};

/// The row of which each call is told by its number.
pub(crate) const FIRST: WorkedRow<'static> = WorkedRow {
    f: b"e\xcc\x81\r\nq",
    wanted: b"3\nE9 D+A 71\n",
    ..SHOWN
};

/// Files and the clusters that a reader sees.
pub(crate) static CLUSTERS: [WorkedRow<'static>; 6] = [
    FIRST,
    WorkedRow {
        f: b"Ze\xcc\x81 \xe0\xa4\xa8\xe0\xa4\xae\xe0\xa4\xb8\xe0\xa5\x8d\xe0\xa4\xa4\xe0\xa5\x87\r\n",
        wanted: b"7\n5A E9 20 928 92E 938+94D+924+947 D+A\n",
        ..SHOWN
    },
    WorkedRow {
        wanted: b"0\n\n",
        ..SHOWN
    },
    WorkedRow {
        f: b"\xe1\x84\x80\xe1\x85\xa1\xe1\x86\xa8",
        wanted: b"1\nAC01\n",
        ..SHOWN
    },
    WorkedRow {
        f: b"\xf0\x9f\x87\xa6\xf0\x9f\x87\xa7\xf0\x9f\x87\xa8",
        wanted: b"2\n1F1E6+1F1E7 1F1E8\n",
        ..SHOWN
    },
    WorkedRow {
        f: b"q\xcc\x87\xcc\xa3 q\xcc\xa3\xcc\x87",
        wanted: b"3\n71+323+307 20 71+323+307\n",
        ..SHOWN
    },
];

/// Files of several encodings.
pub(crate) static ENCODED: [WorkedRow<'static>; 4] = [
    WorkedRow {
        script: b"load a utf16 f\nload b utf16 g\nshow a\nshow b\n",
        f: b"\xff\xfe\x41\x00",
        g: b"\x00\x41",
        wanted: b"41\n41\n",
        loads: &[
            LOAD_F,
            Load {
                line: 2,
                is_of_g: true,
                before: "",
            },
        ],
        ..NONE
    },
    WorkedRow {
        script: b"load a utf16be f\nload b latin1 g\nshow b\nshow a\nlen b\n",
        f: b"\xd8\x3d\xde\x00",
        g: b"\xe9\r\n",
        wanted: b"E9 D+A\n1F600\n2\n",
        loads: &[
            LOAD_F,
            Load {
                line: 2,
                is_of_g: true,
                before: "",
            },
        ],
        ..NONE
    },
    WorkedRow {
        script: b"load a utf8 f\nload b utf8 f\nload c utf8 g\nlen b\nlen c\n",
        f: b"ab",
        wanted: b"2\n0\n",
        loads: &[
            LOAD_F,
            Load {
                line: 2,
                is_of_g: false,
                before: "",
            },
            Load {
                line: 3,
                is_of_g: true,
                before: "",
            },
        ],
        ..NONE
    },
    WorkedRow {
        script: b"load a utf8 f\nlen a\nshow a\nshape a\n",
        wanted: b"0\n\nstrands 0\n",
        loads: &[LOAD_F],
        ..NONE
    },
];

/// Lines that are refused.
pub(crate) static REFUSED: [WorkedRow<'static>; 5] = [
    WorkedRow {
        script: b"load a utf8 f\n",
        f: b"a\xe2\x82",
        status: Status::Refused,
        wanted: b"line 1: malformed at byte 1\n",
        loads: &[LOAD_F],
        ..NONE
    },
    WorkedRow {
        script: b"load a utf8 f\n",
        f: b"\xed\xa0\x80",
        status: Status::Refused,
        wanted: b"line 1: malformed at byte 0\n",
        loads: &[LOAD_F],
        ..NONE
    },
    WorkedRow {
        script: b"load a utf16le f\nshow a\nload b utf16le g\n",
        f: b"\x3d\xd8\x00\xde",
        g: b"\x3d\xd8\x00",
        status: Status::Refused,
        wanted: b"1F600\nline 3: malformed at byte 0\n",
        loads: &[
            LOAD_F,
            Load {
                line: 3,
                is_of_g: true,
                before: "1F600\n",
            },
        ],
        ..NONE
    },
    WorkedRow {
        script: b"load a latin1 f\nshow a\ntext b 100\nput b latin1\n",
        f: b"\r\n\xe9",
        status: Status::Refused,
        wanted: b"D+A E9\nline 4: not encodable at grapheme 0\n",
        loads: &[LOAD_F],
        ..NONE
    },
    WorkedRow {
        script: b"text a 61 62\nsub b a 2 5\nlen b\nsub c a 1 9223372036854775808\nshow c\nsub d a 3 0\n",
        status: Status::Refused,
        wanted: b"0\n62\nline 6: out of range\n",
        ..NONE
    },
];

/// A string in three encodings.
pub(crate) static PUT: [WorkedRow<'static>; 1] = [WorkedRow {
    script: b"text a E9 D A\nput a utf8\nput a utf16\nput a latin1\n",
    wanted: b"\xc3\xa9\r\n\xfe\xff\x00\xe9\x00\r\x00\n\xe9\r\n",
    ..NONE
}];

/// Scripts that print nothing.
pub(crate) static SILENT: [WorkedRow<'static>; 4] = [
    WorkedRow {
        script: b"",
        ..NONE
    },
    WorkedRow {
        script: b"\n",
        ..NONE
    },
    WorkedRow {
        script: b"# a comment\r\n\t \n",
        ..NONE
    },
    WorkedRow {
        script: b"text a",
        ..NONE
    },
];

/// Scripts that are refused.
pub(crate) static BAD: [WorkedRow<'static>; 9] = [
    WorkedRow {
        script: b"cat x a b\n",
        status: Status::Bad,
        wanted: b"script line 1: unknown name\n",
        ..NONE
    },
    WorkedRow {
        script: b"text a D800\n",
        status: Status::Bad,
        wanted: b"script line 1: bad code point\n",
        ..NONE
    },
    WorkedRow {
        script: b"frob\n",
        status: Status::Bad,
        wanted: b"script line 1: bad command\n",
        ..NONE
    },
    WorkedRow {
        script: b"text a 61\nrep b a -1\n",
        status: Status::Bad,
        wanted: b"script line 2: bad number\n",
        ..NONE
    },
    WorkedRow {
        script: b"text a 61\ntext a 62\n",
        status: Status::Bad,
        wanted: b"script line 2: name taken\n",
        ..NONE
    },
    WorkedRow {
        script: b"# one\n\nlen\n",
        status: Status::Bad,
        wanted: b"script line 3: wrong count of words\n",
        ..NONE
    },
    WorkedRow {
        script: b"text a-b",
        status: Status::Bad,
        wanted: b"script line 1: bad name\n",
        ..NONE
    },
    WorkedRow {
        script: b"load a utf9 f",
        status: Status::Bad,
        wanted: b"script line 1: bad encoding\n",
        ..NONE
    },
    WorkedRow {
        script: b"a\xff",
        status: Status::Bad,
        wanted: b"script: malformed at byte 1\n",
        ..NONE
    },
];
