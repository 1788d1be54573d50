//! Laws of the table of texts as a machine, and of the words that keep it. Each function does nothing: its clauses are
//! what holds.
ghost use Rattle.std.specs.Prelude.{◌≡◌, ◌≢◌, ℕ, ◌<◌, ◌⊎◌, List, slice_get, Some};
ghost use mathlib.Core.Option as maybe;
ghost use Rattle.nfg_syn.specs.Known.{Texts, IsOneToOne, IsWithin, nothing};
ghost use Rattle.nfg_words.specs.Kinds.{Step};
ghost use Rattle.nfg_words.specs.ProbeTable.{Insert, IsAllowed, AreAllowed, IsRun, IsStorable, after, after_all, probe_sequence};
ghost use Rattle.nfg_words.specs.Rule.{Rule, Views, texts_now};
ghost use Rattle.nfg_words.specs.View.{fresh_view, places_of};
ghost use Rattle.nfg_words.specs.declared.view.View.{View};

/// After every run the texts of two places differ, and each place that holds one is a place of the table.
pub fn texts_differ()
    ensures distinct { (size : ℕ) (events : List Insert) → IsRun size events → IsOneToOne (after_all nothing events) }
    ensures storable { (size : ℕ) (events : List Insert) → IsRun size events
        → (place : ℕ) (text : List ℕ) → after_all nothing events place ≡ Some text → (place < size) × IsStorable text }
{}

/// A place that holds a text keeps it, whatever events follow.
pub fn texts_stay()
    ensures { (size : ℕ) (texts : Texts) (events : List Insert) → AreAllowed size texts events
        → IsWithin texts (after_all texts events) }
{}

/// No event fills a place that an earlier one has filled.
pub fn places_are_filled_once()
    ensures { (size : ℕ) (texts : Texts) (events : List Insert) → AreAllowed size texts events
        → (i j : ℕ) (earlier later : Insert) → i < j
        → slice_get events i ≡ Some earlier → slice_get events j ≡ Some later
        → earlier.place ≢ later.place }
{}

/// A probe sequence goes once through each place.
pub fn sequences_go_everywhere()
    ensures everywhere { (size : ℕ) (text : List ℕ) (place : ℕ) → place < size
        → (index : ℕ) × (index < size) × (probe_sequence size text index ≡ place) }
    ensures once { (size : ℕ) (text : List ℕ) (i j : ℕ) → i < size → j < size
        → probe_sequence size text i ≡ probe_sequence size text j → i ≡ j }
{}

/// Words that are all 0 keep the rule, beside views of passes that know nothing, and show a table whose places are all
/// empty.
pub fn new_words_keep_the_rule()
    ensures rule { (n : ℕ) (word : ℕ → ℕ) (views : Views) → ((index : ℕ) → word index ≡ 0)
        → ((pass : ℕ) (view : View) → views pass ≡ maybe.some view → view ≡ fresh_view n) → Rule n word views }
    ensures empty { (n : ℕ) (word : ℕ → ℕ) → ((index : ℕ) → word index ≡ 0) → texts_now n word ≡ nothing }
{}

/// Each kind of step keeps the rule.
pub fn steps_keep_the_rule()
    ensures { (n : ℕ) (word : ℕ → ℕ) (views : Views) (next : ℕ → ℕ) (later : Views) → Rule n word views
        → Step n word views next later → Rule n next later }
{}

/// A step leaves the texts that the words show, or is an event of the machine that is allowed.
pub fn steps_are_events()
    ensures { (n : ℕ) (word : ℕ → ℕ) (views : Views) (next : ℕ → ℕ) (later : Views) → Rule n word views
        → Step n word views next later
        → (texts_now n next ≡ texts_now n word)
        ⊎ ((event : Insert) × IsAllowed n (texts_now n word) event
        × (texts_now n next ≡ after (texts_now n word) event)) }
{}

/// What passes have read stands in the table, so they agree on each place, and no text has two places among them.
pub fn passes_agree()
    ensures stands { (n : ℕ) (word : ℕ → ℕ) (views : Views) → Rule n word views
        → (pass : ℕ) (view : View) → views pass ≡ maybe.some view
        → (place : ℕ) (text : List ℕ) → places_of view place ≡ Some text → texts_now n word place ≡ Some text }
    ensures one_text { (n : ℕ) (word : ℕ → ℕ) (views : Views) → Rule n word views
        → (pass other : ℕ) (view its : View) → views pass ≡ maybe.some view → views other ≡ maybe.some its
        → (place : ℕ) (text its_text : List ℕ) → places_of view place ≡ Some text → places_of its place ≡ Some its_text
        → text ≡ its_text }
    ensures one_place { (n : ℕ) (word : ℕ → ℕ) (views : Views) → Rule n word views
        → (pass other : ℕ) (view its : View) → views pass ≡ maybe.some view → views other ≡ maybe.some its
        → (place its_place : ℕ) (text : List ℕ) → places_of view place ≡ Some text → places_of its its_place ≡ Some text
        → place ≡ its_place }
{}
