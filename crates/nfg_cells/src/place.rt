//! A text that stands in a cell, and what a pass knows of one place.
ghost use Rattle.std.specs.Prelude.{◌≡◌, ◌≢◌};
ghost use Rattle.nfg_syn.specs.Known.{IsInternable, crlf};

use once_cell::race::Note;

/// A text of 2 to 1,024 code points that is not CR LF.
#[derive(Drop)]
pub struct Cluster {
    pub codes: Vec<u32>,
    ghost is: { IsInternable codes.items },
    ghost other: { codes.items ≢ crlf },
}

/// What a pass knows of one place.
#[derive(Drop)]
pub struct Place {
    pub note: Note<Cluster>,
    /// The pass has seen the text of this place.
    pub seen: bool,
    /// The number of this place is known.
    pub named: bool,
}
