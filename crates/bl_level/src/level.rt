// A level: the label of a subject or a document, and what it means that one label dominates another.
//
// A label is a classification and a set of categories (Bell and La Padula 1976). The classification is
// kept as a rank and the set as a mask: category `k` is a member where bit `k` is set.
ghost use Rattle.std.specs.Prelude.{◌≡◌, ℕ, ◌<◌, ◌≤◌, ◌⊎◌, IsTrue, ◌↔◌};
ghost use Rattle.bl_level.specs.Level.{SecurityLevel, HasCategory, dominates, Dominates, join_of};

use std::marker::Model;

/// How many ranks there are at most: a rank is below it.
pub const RANK_LIMIT: u8 = 16;

/// A rank and a set of categories.
#[derive(Clone, Copy, PartialEq, Eq, Debug)]
pub struct Level {
    rank: u8,
    categories: u32,
}

impl Model for Level {
    ghost use Rattle.std.specs.Prelude.{◌<◌};
    ghost use Rattle.bl_level.specs.Level.{SecurityLevel};

    ghost Value = { SecurityLevel };

    ghost view = { λ l. record { rank = l.rank; categories = l.categories } };

    ghost invariant = { λ l. l.rank < 16 };

    ghost inverse = { λ l. record { rank = l.rank; categories = l.categories } };
}

impl Level {
    /// The level of this rank whose categories are those of the bits set, from bit 0 on.
    /// None exactly where the rank is 16 or more.
    pub fn new(rank: u8, categories: u32) -> Option<Level>
        ensures level { rank < 16 → result ≡ Some (record { rank = rank; categories = categories }) }
        ensures none { 16 ≤ rank → result ≡ None }
    {
        if rank < RANK_LIMIT {
            Some(Level { rank, categories })
        } else {
            None
        }
    }

    /// The rank, below 16: a greater one is a higher classification.
    pub fn rank(&self) -> u8
        ensures value { result ≡ self.now.rank }
        ensures within { result < 16 }
    {
        self.rank
    }

    /// The categories: bit `k` is set where category `k` is a member.
    pub fn categories(&self) -> u32
        ensures { result ≡ self.now.categories }
    {
        self.categories
    }

    /// Whether category `k`, below 32, is a member.
    pub fn has_category(&self, k: u32) -> bool
        requires { k < 32 }
        ensures { IsTrue result ↔ HasCategory self.now k }
    {
        (self.categories >> k) & 1 == 1
    }

    /// The level of the same rank with the same categories and category `k`, below 32.
    pub fn with_category(&self, k: u32) -> Level
        requires { k < 32 }
        ensures rank { result.rank ≡ self.now.rank }
        ensures categories { (j : ℕ) → HasCategory result j ↔ (HasCategory self.now j ⊎ (j ≡ k)) }
    {
        Level {
            rank: self.rank,
            categories: self.categories | 1 << k,
        }
    }

    /// Whether this level dominates the other: its rank is at least the other's, and it has each of the
    /// other's categories (Bell and La Padula 1976, dominance).
    pub fn dominates(&self, other: &Level) -> bool
        ensures test { result ≡ dominates self.now other.now }
        ensures sets { IsTrue result ↔ Dominates self.now other.now }
    {
        other.rank <= self.rank && self.categories & other.categories == other.categories
    }

    /// The least level that dominates both: the greater rank, and the categories of either.
    pub fn join(&self, other: &Level) -> Level
        ensures value { result ≡ join_of self.now other.now }
        ensures above_self { Dominates result self.now }
        ensures above_other { Dominates result other.now }
        ensures least { (above : SecurityLevel) → Dominates above self.now → Dominates above other.now → Dominates above result }
        ensures union { (k : ℕ) → HasCategory result k ↔ (HasCategory self.now k ⊎ HasCategory other.now k) }
    {
        Level {
            rank: self.rank.max(other.rank),
            categories: self.categories | other.categories,
        }
    }
}

/// The test of dominance says dominance, at any ranks and masks.
pub fn dominates_means_dominance()
    ensures { (a b : SecurityLevel) → IsTrue (dominates a b) ↔ Dominates a b }
{}

/// Levels that dominate each other are one: so a mask is no more than the set of its categories.
pub fn dominance_is_antisymmetric()
    ensures { (a b : SecurityLevel) → Dominates a b → Dominates b a → a ≡ b }
{}
