//! The facts on the tables of Unicode and the laws of clusters and normal forms. Each function does nothing: its
//! clauses are what holds.
ghost use Rattle.nfg_text.specs.Facts.{ConjunctExtendersExtend, LinkersExtend, LinkersAreNoControls, PictographsAreNoControls, ConsonantsAreNoControls, MarksExtend, ControlsStandAlone, CompositesStartWithStarters, StartersStartWithStarters, CompositesKeepBreaks, AsciiStandsAlone, AsciiPairsBreak, AsciiCompositesAreOrdinary, PlainStandsApart, PrintableAsciiIsPlain, ArePlainFrom};
ghost use Rattle.nfg_text.specs.Laws.{ClustersAtBreak, ClustersWhereBroken, BrokenWhereParted, ClustersAtLineFeed, NfcAtLineFeed, NfcAtBreak, NfdOfParts, GraphemesDecideEquivalence, GraphemesSpellNfc, ClustersSpellText, GraphemesAtStable, StableLenIsGreatest, GraphemesAtStableLen, ClustersOfParts, GraphemesAreInNfg, PartsAreInNfg, NfcAtSafeStart, SafeStartsStay, ClustersAtSafeStart, GraphemesAtSafeStart, SafeStartsDecide, AllSafeStartsDecide, MemoriesCutAlike, ClustersOfUtf8, GraphemesAtPlain, PlainRunsAreSingles, PlainPairsBreak, PlainBreaksBeforeLineFeed, NfcOfText, PartsOfText};

/// Where a text is cut at the end of a cluster, its clusters are those of both parts (UAX #29), and nowhere else.
pub fn clusters_at_break()
    ensures at_ends { ClustersAtBreak }
    ensures by_rules { ClustersWhereBroken }
    ensures nowhere_else { BrokenWhereParted }
{}

/// Where a text in NFC is cut at the end of a cluster, both parts are in NFC.
pub fn nfc_at_break()
    ensures { NfcAtBreak }
{}

/// There the NFD of the text is those of the parts, joined.
pub fn nfd_of_parts()
    ensures { NfdOfParts }
{}

/// Graphemes tell texts apart exactly up to canonical equivalence.
pub fn graphemes_decide_equivalence()
    ensures decide { GraphemesDecideEquivalence }
    ensures spell { GraphemesSpellNfc }
    ensures clusters { ClustersSpellText }
{}

/// The graphemes before a stable place stay, whatever follows.
pub fn graphemes_at_stable()
    ensures between { GraphemesAtStable }
    ensures greatest { StableLenIsGreatest }
    ensures stay { GraphemesAtStableLen }
{}

/// The NFC of a text is a text, and so is what is joined of texts, or is a part of one.
pub fn nfc_of_text()
    ensures form { NfcOfText }
    ensures parts { PartsOfText }
{}

/// A cluster ends after every line feed, and nothing composes with one.
pub fn line_feeds_stand_alone()
    ensures clusters { ClustersAtLineFeed }
    ensures form { NfcAtLineFeed }
{}

/// The graphemes of a text are a list of graphemes, and so is what stands at the front or at the back of such a list.
pub fn parts_are_in_nfg()
    ensures of_text { GraphemesAreInNfg }
    ensures clusters { ClustersOfParts }
    ensures graphemes { PartsAreInNfg }
{}

/// NFC may be taken in two parts before a code point that starts safely.
pub fn nfc_at_safe_start()
    ensures parts { NfcAtSafeStart }
    ensures alone { SafeStartsStay }
{}

/// Graphemes may be taken in two parts before a code point that starts safely where the rules put a boundary before
/// it, and nowhere else, but for U+2194.
pub fn graphemes_at_safe_start()
    ensures clusters { ClustersAtSafeStart }
    ensures graphemes { GraphemesAtSafeStart }
    ensures nowhere_else { SafeStartsDecide }
    ensures not_at_the_arrow { ¬ AllSafeStartsDecide }
{}

/// Two texts of which one memory is true are gone on from alike.
pub fn memories_cut_alike()
    ensures { MemoriesCutAlike }
{}

/// The clusters of code points are those of the text in UTF-8.
pub fn clusters_of_utf8()
    ensures { ClustersOfUtf8 }
{}

/// Between two plain code points a text is settled, and each but the last of a row is a cluster of its own.
pub fn graphemes_at_plain()
    ensures settled { GraphemesAtPlain }
    ensures singles { PlainRunsAreSingles }
    ensures breaks { PlainPairsBreak }
    ensures before_line_feed { PlainBreaksBeforeLineFeed }
{}

/// An Indic extender has the break class Extend or ZWJ; a linker is no control, but may have the class Other.
pub fn conjunct_extenders_extend()
    ensures extenders { ConjunctExtendersExtend }
    ensures linkers { LinkersAreNoControls }
    ensures not_all_linkers { ¬ LinkersExtend }
{}

/// No pictograph and no Indic consonant is CR, LF or Control.
pub fn bases_are_no_controls()
    ensures pictographs { PictographsAreNoControls }
    ensures consonants { ConsonantsAreNoControls }
{}

/// A combining class other than 0 gives the break class Extend, SpacingMark or ZWJ.
pub fn marks_extend()
    ensures { MarksExtend }
{}

/// Normalization leaves CR, LF and Control alone, and nothing composes with them from behind.
pub fn controls_stand_alone()
    ensures { ControlsStandAlone }
{}

/// What a starter decomposes to begins with a starter, and a composite breaks as that one does.
pub fn composites_start_with_starters()
    ensures composites { CompositesStartWithStarters }
    ensures starters { StartersStartWithStarters }
    ensures breaks { CompositesKeepBreaks }
{}

/// Code points below 80 (hexadecimal) stand alone, and a cluster ends between any two but CR LF.
pub fn ascii_stands_alone()
    ensures alone { AsciiStandsAlone }
    ensures pairs { AsciiPairsBreak }
    ensures composites { AsciiCompositesAreOrdinary }
{}

/// Plain code points start safely, and no rule joins two of them. Printable ASCII is plain,
/// and so are the ranges of the other clauses: letters of Latin, dashes and quotation marks, kana, ideographs and
/// their punctuation, syllables of Hangul, and full-width forms.
pub fn plain_stands_apart()
    ensures apart { PlainStandsApart }
    ensures printable { PrintableAsciiIsPlain }
    ensures latin { ArePlainFrom 0xC0 0x2FF }
    ensures punctuation { ArePlainFrom 0x2010 0x2027 }
    ensures radicals { ArePlainFrom 0x2E00 0x3029 }
    ensures hiragana { ArePlainFrom 0x303E 0x3098 }
    ensures katakana { ArePlainFrom 0x309B 0x3296 }
    ensures ideographs { ArePlainFrom 0x329A 0xA66E }
    ensures syllables { ArePlainFrom 0xAC00 0xD7A3 }
    ensures full_width { ArePlainFrom 0xFF00 0xFF9D }
{}
