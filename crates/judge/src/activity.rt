//! Kinds of activity.
ghost use Rattle.std.specs.Prelude.{◌≡◌, ℕ, Bool, List};
ghost use Rattle.verdicts.specs.Activities.{Move as Moving};
ghost use Rattle.verdicts.specs.Searches.{Search};
ghost use Rattle.judge.specs.Moved.{linked};
ghost use Rattle.judge.specs.Kinds.{KindLaws};

use crate::movement::Link;

/// A kind of activity. It goes from context to context in phases, of which the number never falls.
pub trait Activity {
    /// How many phases there are.
    const PHASES: usize;

    /// Whether the moves of the last phase are made in reverse, since information comes back by them.
    const BACKWARDS: bool;

    ghost PHASES: { ℕ };

    ghost BACKWARDS: { Bool };

    ghost kind: { Search };

    /// The activities of this kind from one context to another.
    ghost activities: { ℕ → ℕ → List Moving → Type 0 };

    /// How an activity goes on from one context to another in a phase.
    // Each kind writes its links out: one function over the two constants would hide which moves a kind has.
    fn link(phase: usize) -> Link
        ensures { (c d : ℕ) → linked result c d ≡ kind.move phase c d };

    ghost counted: { PHASES ≡ kind.phases };

    ghost lawful: { KindLaws kind BACKWARDS activities };
}
