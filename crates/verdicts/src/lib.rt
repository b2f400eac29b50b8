//! What legal runs of a policy can do, and when a property of it is guaranteed or broken: definitions and their laws.

#![tactic(auto)]

ghost use Rattle.verdicts.specs.Laws.{VerdictLaws};

/// The laws of the verdicts hold of the definitions.
pub fn verdict_laws_stand()
    ensures { VerdictLaws }
{}
