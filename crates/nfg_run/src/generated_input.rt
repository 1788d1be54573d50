//! What the generator makes.

use nfg_text::ByteList;

/// A script, and the two files that it loads.
#[derive(Drop)]
pub struct Generated {
    pub script: ByteList,
    pub a: ByteList,
    pub b: ByteList,
}
