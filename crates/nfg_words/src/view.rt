//! What a pass knows of a table.

/// What a pass knows, which contracts and proofs alone speak of: no value of it is ever made. A clause reads an array as
/// a list of any length.
pub struct View {
    /// The number of the table's buckets, or 0 where the pass was joined away.
    pub size: u64,
    /// The bucket words that the pass has found or made, none of them 0, each with its place.
    pub buckets: [(u64, u64); 0],
    /// The code words of published texts that it has read or written, each with its index.
    pub codes: [(u64, u64); 0],
    /// The chunks that it has found taken, or has taken.
    pub chunks: [u64; 0],
    /// Its own unspent code words: those from `unspent` to before `end`.
    pub unspent: u64,
    pub end: u64,
    /// Those of them that it has written, each with its index.
    pub written: [(u64, u64); 0],
    /// The places into which it has put a text.
    pub inserted: [u64; 0],
    /// The places whose numbers it knows.
    pub numbered: [u64; 0],
    /// How many chunks it has taken.
    pub taken: u64,
    /// How many steps it has made, but for splits and joins.
    pub steps: u64,
    /// The pass came with the table.
    pub root: bool,
    /// How many passes were split from it.
    pub forks: u64,
    /// How many passes were joined to it, with those that were joined to these.
    pub meets: u64,
}
