//! The string of a text that stands in memory.
ghost use Rattle.std.specs.Prelude.{◌≡◌};
ghost use Rattle.nfg_text.specs.Text.{IsText};
ghost use Rattle.nfg_text.specs.Graphemes.{graphemes_of};
ghost use Rattle.nfg_syn.specs.Seen.{Keeps, SameCounts};
ghost use Rattle.nfg_stream.specs.Load.{HasMade};

use crate::LoadError;
use crate::collected::Collected;
use crate::numbering::string_from;
use nfg_segment::Segmenter;
use nfg_strand::NString;
use nfg_syn::Synthetics;
use std::alloc::Global;

/// The graphemes of a text as a string, over numbers of the table.
///
/// Refuses with `ClusterLong` at the first cluster of more than 1,024 code points, and with `RowFull`
/// and `NoPortion` where the table does. It never answers `Malformed`.
pub fn string_of<T: Synthetics>(
    alloc: Global,
    table: &T,
    pass: &mut T::Pass,
    text: &[u32],
) -> Result<NString, LoadError>
    requires text { IsText text.now }
    requires table { T.is_of table.now pass.old }
    ensures table { T.is_of table.now pass.new }
    ensures keeps { Keeps (T.seen pass.old) (T.seen pass.new) }
    ensures counts { SameCounts (T.seen pass.old) (T.seen pass.new) }
    ensures made { HasMade (graphemes_of text.now) (T.seen pass.old) (T.seen pass.new) result }
{
    let mut segmenter = Segmenter::new(alloc);
    let mut clusters = Collected::new(alloc);
    segmenter.feed(alloc, text, &mut clusters)?;
    segmenter.finish(alloc, &mut clusters)?;
    string_from(alloc, table, pass, clusters)
}
