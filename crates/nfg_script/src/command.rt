//! The commands of a script.
ghost use Rattle.std.specs.Prelude.{◌≡◌, if◌then◌else◌};
ghost use Rattle.nfg_script.specs.Script.{is_load};

use nfg_decode::Encoding;

/// A command. A name is a number: its place in the order in which the script defines names, from 0.
#[derive(Clone, Copy, Debug, PartialEq, Eq)]
pub enum Command {
    /// The name gets the graphemes of a file in this encoding.
    Load {
        name: u32,
        enc: Encoding,
    },
    /// The name gets the graphemes of the code points that the line gives.
    Text {
        name: u32,
    },
    /// The name gets the graphemes of the text of `a` and that of `b` in one.
    Cat {
        name: u32,
        a: u32,
        b: u32,
    },
    /// The name gets at most `count` graphemes of `a` from place `start` on, counted from 0.
    Sub {
        name: u32,
        a: u32,
        start: u64,
        count: u64,
    },
    /// The name gets the graphemes of `count` times the text of `a` in one.
    Rep {
        name: u32,
        a: u32,
        count: u64,
    },
    /// Prints the first place from `at` on at which the graphemes of `b` stand in `a`.
    Find {
        a: u32,
        b: u32,
        at: u64,
    },
    /// Prints the last place up to `at` at which the graphemes of `b` stand in `a`.
    Rfind {
        a: u32,
        b: u32,
        at: u64,
    },
    /// Prints whether `a` and `b` are the same.
    Eq {
        a: u32,
        b: u32,
    },
    /// Prints how `a` and `b` are ordered.
    Cmp {
        a: u32,
        b: u32,
    },
    /// Prints how many graphemes `a` has.
    Len {
        a: u32,
    },
    /// Prints the code points of each grapheme of `a`.
    Show {
        a: u32,
    },
    /// Prints the pieces of `a`.
    Shape {
        a: u32,
    },
    /// Writes the bytes of `a` in this encoding.
    Put {
        a: u32,
        enc: Encoding,
    },
}

impl Command {
    /// How many files it loads.
    pub(crate) fn loads(self) -> usize
        ensures { result ≡ (if is_load self then 1 else 0) }
    {
        match self {
            Command::Load { .. } => 1,
            _ => 0,
        }
    }
}
