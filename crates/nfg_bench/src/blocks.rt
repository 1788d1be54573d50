//! Common fronts of blocks of nfg_block, beside a walk by `get`. Both answer the same.
ghost use Rattle.std.specs.Prelude.{◌≡◌, ◌%◌, drop};
ghost use Rattle.std.specs.List.{common_prefix_len};
ghost use Rattle.std.specs.Ordering.{int_eq};

use crate::timing::{Comparison, compare};
use nfg_block::Block;
use std::alloc::Global;
use std::io;
use std::rt::Clock;

/// How many graphemes are compared.
const COUNT: usize = 64 * 1024;

#[derive(Drop)]
struct CommonFront<'a> {
    a: &'a Block,
    b: &'a Block,
}

impl Comparison for CommonFront<'_> {
    fn fast(&self, run: usize) -> usize
        ensures { result ≡ common_prefix_len int_eq
            (drop (run % 32) self.now.a.now.list) (drop (run % 32) self.now.b.now.list) }
    {
        let len = self.a.len().min(self.b.len());
        let start = (run % 32).min(len);
        self.a.common_front(start, self.b, start, len - start)
    }

    fn plain(&self, run: usize) -> usize
        ensures { result ≡ common_prefix_len int_eq
            (drop (run % 32) self.now.a.now.list) (drop (run % 32) self.now.b.now.list) }
    {
        let len = self.a.len().min(self.b.len());
        let start = (run % 32).min(len);
        for at in start..len {
            if self.a.get(at) != self.b.get(at) {
                return at - start;
            }
        }
        len - start
    }
}

pub fn report(rt: &(impl Print + Clock), alloc: Global) -> io::Result<()> {
    let mut graphemes = vec![in alloc; 97; COUNT]?;
    let narrow = Block::from_graphemes(alloc, graphemes.as_slice())?;
    graphemes.push(233)?;
    let wide = Block::from_graphemes(alloc, graphemes.as_slice())?;
    let (n, w) = (&narrow, &wide);
    compare(rt, "two narrow blocks", COUNT, &CommonFront { a: n, b: n })?;
    compare(rt, "two wide blocks", COUNT, &CommonFront { a: w, b: w })?;
    compare(
        rt,
        "a narrow and a wide block",
        COUNT,
        &CommonFront { a: n, b: w },
    )
}
