//! The code points of a text are read.
ghost use Rattle.std.specs.Prelude.{IfOk};
ghost use Rattle.nfg_decode.specs.Text.{IsText};
ghost use Rattle.nfg_script.specs.Answer.{Gives, texts};
ghost use Rattle.nfg_script.specs.Words.{code_points_of};

use crate::line_read::LineError;
use crate::word::read_code_point;
use std::alloc::Global;

/// The code points that words spell, up to the first word that spells none.
pub(crate) fn read_code_points(alloc: Global, words: &[&str]) -> Result<Vec<u32>, LineError>
    ensures codes { Gives (λ codes. codes.items) result (code_points_of (texts words.now)) }
    ensures text { IfOk result (λ codes. IsText codes.items) }
{
    let mut codes = Vec::new(alloc);
    codes.reserve(words.len())?;
    for word in words {
        codes.push(read_code_point(word)?)?;
    }
    Ok(codes)
}
