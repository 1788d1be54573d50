//! What the tables hold of a code point.
ghost use Rattle.std.specs.Prelude.{◌≡◌};
ghost use Rattle.std.specs.Char.{IsScalar};
ghost use Rattle.nfg_text.specs.Graphemes.{starts_safely};
ghost use Rattle.nfg_text.specs.Plain.{is_none, is_ordinary, is_plain, stands_apart};
ghost use Rattle.nfg_text.specs.Properties.{bit, properties_number};

use ucd_breaks::GraphemeClusterBreak;
use ucd_derived::IndicConjunctBreak;
use ucd_emoji::is_extended_pictographic;
use ucd_normal::{Form, QuickCheck, class_and_quick_check};

/// How many code points there are.
pub const CODE_POINTS: u32 = 0x11_0000;

/// The number of a surrogate, which is no `char`: each property has its default.
const SURROGATE: u8 = 60;

fn bit(is_so: bool) -> u8
    ensures { result ≡ bit is_so }
{
    if is_so { 1 } else { 0 }
}

/// Whether its combining class is 0 and its NFC quick check Yes.
fn starts_safely(c: char) -> bool
    ensures { result ≡ starts_safely c }
{
    let (class, answer) = class_and_quick_check(c, Form::Nfc);
    class == 0 && answer == QuickCheck::Yes
}

/// The break class, 16 times the conjunct value, 64 for a pictograph, and 128 where it does not start safely.
#[tactic(auto, unfolding(nfg_text::specs::Properties::properties_number))]
fn number_of_char(c: char) -> u8
    ensures { result ≡ properties_number c }
{
    let class = GraphemeClusterBreak::for_char(c).number() as u8;
    let conjunct = IndicConjunctBreak::for_char(c).number() as u8;
    class + 16 * conjunct + 64 * bit(is_extended_pictographic(c)) + 128 * bit(!starts_safely(c))
}

/// The same of any code point.
pub fn property_number(c: u32) -> u8
    ensures { IsScalar c → result ≡ properties_number c }
{
    match char::from_u32(c) {
        Some(c) => number_of_char(c),
        None => SURROGATE,
    }
}

fn stands_apart(class: GraphemeClusterBreak) -> bool
    ensures { result ≡ stands_apart class }
{
    matches!(
        class,
        GraphemeClusterBreak::Other | GraphemeClusterBreak::Lv | GraphemeClusterBreak::Lvt
    )
}

fn is_none(conjunct: IndicConjunctBreak) -> bool
    ensures { result ≡ is_none conjunct }
{
    matches!(conjunct, IndicConjunctBreak::None)
}

/// Whether it has the break class Other, LV or LVT, takes no part in conjuncts, and is no pictograph.
#[tactic(auto, unfolding(nfg_text::specs::Plain::is_ordinary))]
fn is_ordinary(c: char) -> bool
    ensures { result ≡ is_ordinary c }
{
    stands_apart(GraphemeClusterBreak::for_char(c))
        && (is_none(IndicConjunctBreak::for_char(c)) && !is_extended_pictographic(c))
}

/// Whether a code point starts safely and is ordinary, as a surrogate is.
#[tactic(auto, unfolding(nfg_text::specs::Plain::is_plain))]
pub fn is_plain(c: u32) -> bool
    ensures { IsScalar c → result ≡ is_plain c }
{
    match char::from_u32(c) {
        Some(c) => starts_safely(c) & is_ordinary(c),
        None => true,
    }
}
