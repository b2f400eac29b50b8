//! Sets of contexts.
ghost use Rattle.std.specs.Prelude.{◌≡◌, ℕ, Bool, ◌<◌, ◌≤◌, true, false, not, ◌&&◌, ◌||◌, ◌==◌, MatchOption};
ghost use Rattle.access.specs.Operations.{has as has_bit, without};
ghost use Rattle.access.specs.Contexts.{inside, member, marked, has_above, empty, meet, FirstAbove};

use crate::numbers::index_in;
use std::array;

/// A mark for each context from 1 to 256. Context c is bit (c - 1) % 64 of word (c - 1) / 64.
#[derive(Clone, Copy, Debug, PartialEq, Eq)]
pub struct ContextSet {
    words: [u64; 4],
}

/// The lowest bit at `k` or above that is set.
fn lowest_from(word: u64, k: usize) -> Option<usize>
    ensures { MatchOption result ((j : ℕ) → k ≤ j → has_bit word j ≡ false) (λ i. (k ≤ i) × (i < 64) × (has_bit word i ≡ true) × ((j : ℕ) → k ≤ j → j < i → has_bit word j ≡ false)) }
{
    if k >= 64 {
        return None;
    }
    let rest = word >> k;
    if rest == 0 {
        None
    } else {
        Some(k + rest.trailing_zeros() as usize)
    }
}

/// The bits of a word that the other lacks.
fn lacking(word: u64, other: u64) -> u64
    ensures { result ≡ without word other }
{
    word - (word & other)
}

impl ContextSet {
    pub fn none() -> ContextSet
        ensures { (d : ℕ) → member result d ≡ false }
    {
        ContextSet { words: [0; 4] }
    }

    pub fn has(self, context: u16) -> bool
        ensures { result ≡ member self context }
    {
        let Some(i) = index_in(256, context) else {
            return false;
        };
        (self.words[i / 64] >> (i % 64)) & 1 == 1
    }

    /// The set with one context more; a number outside 1 to 256 is no context and adds none.
    pub fn with(self, context: u16) -> ContextSet
        ensures { (d : ℕ) → member result d ≡ ((inside 256 context && d == context) || member self d) }
    {
        let Some(i) = index_in(256, context) else {
            return self;
        };
        let mut words = self.words;
        words[i / 64] |= 1 << (i % 64);
        ContextSet { words }
    }

    /// A set is told by its members: where these are the contexts that pass a test, it is the set that the test gives.
    pub fn is_its_members(self)
        ensures { (test : ℕ → Bool) → ((c : ℕ) → member self c ≡ (inside 256 c && test c)) → self ≡ marked test }
    {
        // To read the words is to learn that each has 64 bits.
        let [_first, _second, _third, _fourth] = self.words;
    }

    /// The members of both.
    pub fn and(self, other: ContextSet) -> ContextSet
        ensures { (d : ℕ) → member result d ≡ (member self d && member other d) }
    {
        ContextSet {
            words: array::from_fn(|i| self.words[i] & other.words[i]),
        }
    }

    /// The members that the other set lacks.
    pub fn without(self, other: ContextSet) -> ContextSet
        ensures { (d : ℕ) → member result d ≡ (member self d && not (member other d)) }
    {
        ContextSet {
            words: array::from_fn(|i| lacking(self.words[i], other.words[i])),
        }
    }

    /// The lowest member that is greater than `n`.
    pub fn first_above(self, n: u16) -> Option<u16>
        ensures { FirstAbove n self result }
    {
        let n = usize::from(n);
        for i in n / 64..4 {
            if let Some(j) = lowest_from(self.words[i], n.saturating_sub(64 * i)) {
                // A bit's context is at most 256.
                return Some((64 * i + j) as u16 + 1);
            }
        }
        None
    }

    /// Whether a member is greater than `n`.
    pub fn has_above(self, n: u16) -> bool
        ensures { result ≡ has_above n self }
    {
        self.first_above(n).is_some()
    }

    pub fn is_empty(self) -> bool
        ensures { result ≡ empty self }
    {
        !self.has_above(0)
    }

    /// Whether a context is a member of both.
    pub fn shares(self, other: ContextSet) -> bool
        ensures { result ≡ meet self other }
    {
        self.and(other).has_above(0)
    }
}
