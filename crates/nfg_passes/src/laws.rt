//! What ids tell, and what follows of texts. Each function does nothing: its clauses are what holds.
ghost use Rattle.nfg_passes.specs.Ids.{IdsTell, MarksRise};
ghost use Rattle.nfg_passes.specs.Marks.{MarksTellEnds};
ghost use Rattle.nfg_passes.specs.Unsettled.{SettledTextsStay, SettledTextsStayBehind};

/// An id tells what the rules of clusters and the normal form read of a code point.
pub fn ids_tell()
    ensures tell { IdsTell }
    ensures rise { MarksRise }
{}

/// A text without an unsettled place is its own NFC, and stays so behind another where it begins with a safe start.
pub fn settled_texts_stay()
    ensures alone { SettledTextsStay }
    ensures behind { SettledTextsStayBehind }
{}

/// The marks of a text tell where its clusters end.
pub fn marks_tell_ends()
    ensures { MarksTellEnds }
{}
