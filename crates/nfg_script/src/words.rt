//! A line is cut into words.
ghost use Rattle.std.specs.Prelude.{◌≡◌, IfOk, map};
ghost use Rattle.nfg_script.specs.Words.{words_of};

use std::alloc::{AllocError, Global};

/// What stands between spaces and tabs, where it isn't empty.
pub(crate) fn words<'a>(alloc: Global, line: &'a str) -> Result<Vec<&'a str>, AllocError>
    ensures { IfOk result (λ words. map (λ word. word.now) words.items ≡ words_of line.now) }
{
    line.split(' ')
        .flat_map(|part| part.split('\t'))
        .filter(|word| !word.is_empty())
        .collect(alloc)
}
