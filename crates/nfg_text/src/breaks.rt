//! Boundaries of extended grapheme clusters, found from a memory of a few fields (UAX #29).
ghost use Rattle.std.specs.Prelude.{◌≡◌, ◌<◌, ℕ, true, List, [], ◌∷◌, ◌++◌, length, if◌then◌else◌, IfOk, OnOk};
ghost use Rattle.ucd_breaks.specs.GraphemeClusterBreak.{grapheme_cluster_break, grapheme_cluster_break_number};
ghost use Rattle.ucd_derived.specs.IndicConjunctBreak.{indic_conjunct_break};
ghost use Rattle.ucd_emoji.specs.Binary.{is_extended_pictographic};
ghost use Rattle.unicode_segmentation.specs.Grapheme.{is_consonant, is_extend, is_zwj, is_regional, is_grapheme_break};
ghost use Rattle.nfg_text.specs.Breaks.{IsKindOf, Remembers, is_linked_after, joins_by_memory};
ghost use Rattle.nfg_text.specs.Graphemes.{cluster_ends, starts_safely};
ghost use Rattle.nfg_text.specs.Plain.{is_plain};
ghost use Rattle.nfg_text.specs.Text.{IsText};

use crate::EndList;
use crate::neighbors::{PARTS, SILENT, rule_between};
use crate::properties::{is_plain_number, properties_of};
use std::alloc::{AllocError, Global};

/// What the rules read of a code point, and whether it starts safely.
#[derive(Clone, Copy)]
pub struct Kind {
    number: u32,
}

impl Kind {
    /// The kind of a code point: its Grapheme_Cluster_Break, its Indic_Conjunct_Break, whether it is
    /// Extended_Pictographic, and whether it starts safely.
    #[inline]
    pub fn of(c: char) -> Kind
        ensures { IsKindOf result c }
    {
        Kind::of_number(c as u32)
    }

    /// The same of the number of a code point.
    #[inline(always)]
    pub fn of_number(c: u32) -> Kind
        requires { c < 0x11_0000 }
        ensures { IsKindOf result c }
    {
        Kind {
            number: properties_of(c),
        }
    }

    /// Whether the code point starts safely.
    #[inline(always)]
    pub fn starts_safely(self) -> bool
        ensures { (c : ℕ) → IsKindOf self c → result ≡ starts_safely c }
    {
        self.number < 128
    }

    /// Whether the code point is plain.
    #[inline(always)]
    pub fn is_plain(self) -> bool
        ensures { (c : ℕ) → c < 0x11_0000 → IsKindOf self c → result ≡ is_plain c }
    {
        is_plain_number(self.number)
    }

    /// The number of the break class.
    #[inline(always)]
    fn class(self) -> u8
        ensures { (c : ℕ) → IsKindOf self c
            → result ≡ grapheme_cluster_break_number (grapheme_cluster_break c) }
    {
        (self.number % 16) as u8
    }

    #[inline(always)]
    fn is_extend(self) -> bool
        ensures { (c : ℕ) → IsKindOf self c → result ≡ is_extend (grapheme_cluster_break c) }
    {
        self.class() == 2
    }

    #[inline(always)]
    fn is_regional(self) -> bool
        ensures { (c : ℕ) → IsKindOf self c → result ≡ is_regional (grapheme_cluster_break c) }
    {
        self.class() == 8
    }

    #[inline(always)]
    fn is_zwj(self) -> bool
        ensures { (c : ℕ) → IsKindOf self c → result ≡ is_zwj (grapheme_cluster_break c) }
    {
        self.class() == 13
    }

    #[inline(always)]
    fn is_pictograph(self) -> bool
        ensures { (c : ℕ) → IsKindOf self c → result ≡ is_extended_pictographic c }
    {
        self.number / 64 % 2 == 1
    }

    #[inline(always)]
    fn is_consonant(self) -> bool
        ensures { (c : ℕ) → IsKindOf self c → result ≡ is_consonant (indic_conjunct_break c) }
    {
        self.number / 16 % 4 == 0
    }

    /// Whether a text ends in a linker and what may follow one in a conjunct, once the code point does.
    #[inline(always)]
    fn is_linked_after(self, before: bool) -> bool
        ensures { (c : ℕ) → IsKindOf self c → result ≡ is_linked_after (indic_conjunct_break c) before }
    {
        let conjunct = self.number / 16 % 4;
        (conjunct == 2) | ((conjunct == 1) & before)
    }
}

/// What the rules need to know of the text before a place.
#[derive(Clone, Copy)]
pub struct Memory {
    class: u8,
    after_linker: bool,
    after_pictograph: bool,
    after_joiner: bool,
    half_flag: bool,
}

impl Memory {
    /// The memory of the empty text.
    #[inline]
    pub fn new() -> Memory
        ensures { Remembers result [] }
    {
        Memory {
            class: 0,
            after_linker: false,
            after_pictograph: false,
            after_joiner: false,
            half_flag: false,
        }
    }

    /// Whether a cluster ends between the text, which is not empty, and a next code point.
    #[inline(always)]
    pub fn breaks_before(self, next: Kind) -> bool
        ensures { (before after : List ℕ) (c : ℕ) → Remembers self before → IsKindOf next c
            → 0 < length before → result ≡ is_grapheme_break true before (c ∷ after) }
    {
        let rule = rule_between(self.class, next.class());
        (rule == PARTS) | ((rule == SILENT) & !self.joins(next))
    }

    /// Whether a rule that looks back holds a next code point to the text.
    #[inline(always)]
    fn joins(self, next: Kind) -> bool
        ensures { (c : ℕ) → IsKindOf next c → result ≡ joins_by_memory self c }
    {
        let joins_conjunct = self.after_linker & next.is_consonant();
        let joins_emoji = self.after_joiner & next.is_pictograph();
        let joins_flag = self.half_flag & next.is_regional();
        joins_conjunct | joins_emoji | joins_flag
    }

    /// The memory of the text with a next code point.
    #[inline(always)]
    pub fn then(self, next: Kind) -> Memory
        ensures { (before : List ℕ) (c : ℕ) → Remembers self before → IsKindOf next c
            → Remembers result (c ∷ before) }
    {
        Memory {
            class: next.class(),
            after_linker: next.is_linked_after(self.after_linker),
            after_pictograph: next.is_pictograph() | (next.is_extend() & self.after_pictograph),
            after_joiner: next.is_zwj() & self.after_pictograph,
            half_flag: next.is_regional() & !self.half_flag,
        }
    }
}

/// Where each cluster of the text ends, counted in code points. The empty text has no cluster.
pub fn cluster_ends(alloc: Global, t: &[u32]) -> Result<EndList, AllocError>
    requires { IsText t.now }
    ensures { IfOk result (λ ends. ends ≡ cluster_ends t.now) }
{
    let mut ends = Vec::new(alloc);
    let mut memory = Memory::new();
    for i in 0..t.len() {
        let next = Kind::of_number(t[i]);
        push_if(&mut ends, (i > 0) & memory.breaks_before(next), i)?;
        memory = memory.then(next);
    }
    push_if(&mut ends, !t.is_empty(), t.len())?;
    Ok(EndList::from_vec(ends))
}

#[inline]
fn push_if(ends: &mut Vec<usize>, is_end: bool, at: usize) -> Result<(), AllocError>
    ensures { OnOk result (ends.new.items ≡ (if is_end then ends.old.items ++ at ∷ [] else ends.old.items)) }
{
    if is_end {
        ends.push(at)?;
    }
    Ok(())
}
