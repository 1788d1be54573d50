//! Laws of what passes know and lists stand for, each the contract of a function that does nothing.
ghost use Rattle.std.specs.Prelude.{◌≡◌, ◌↔◌, ◌++◌, ℕ, ℤ, List, All, Some};
ghost use Rattle.nfg_syn.specs.Known.{Texts, IsKnowledge, IsWithin};
ghost use Rattle.nfg_syn.specs.Learned.{HasLearned};
ghost use Rattle.nfg_syn.specs.Represents.{Represents};

/// A list stands for the same clusters under more knowledge.
pub fn represents_more()
    ensures { (old new : Texts) → IsWithin old new → (numbers : List ℤ) (clusters : List (List ℕ))
        → Represents old numbers clusters → Represents new numbers clusters }
{}

/// Joined lists stand for the joined clusters.
pub fn represents_joined()
    ensures { (known : Texts) (front back : List ℤ) (before after : List (List ℕ))
        → Represents known front before → Represents known back after
        → Represents known (front ++ back) (before ++ after) }
{}

/// Under one knowledge two lists are equal exactly where the clusters are that they stand for.
pub fn represents_one_to_one()
    ensures { (size : ℕ) (known places : Texts) → IsKnowledge size known places
        → (numbers others : List ℤ) (clusters other_clusters : List (List ℕ))
        → Represents known numbers clusters → Represents known others other_clusters
        → (numbers ≡ others) ↔ (clusters ≡ other_clusters) }
{}

/// Each text that a pass has learned is known, and what it knew before is not lost.
pub fn learned_stays()
    ensures known { (old new : Texts) → (texts : List (List ℕ)) → HasLearned old texts new
        → All (λ t. (m : ℕ) × (new m ≡ Some t)) texts }
    ensures kept { (old new : Texts) → (texts : List (List ℕ)) → HasLearned old texts new
        → IsWithin old new }
{}
