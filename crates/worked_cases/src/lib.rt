//! The worked cases of the time lock's controller, as one theorem on the definitions of the verdicts and of the book of calls.

#![tactic(auto)]

ghost use Rattle.worked_cases.specs.Controller.{WorkedCases};

/// The worked cases hold of the definitions.
pub fn worked_cases_stand()
    ensures { WorkedCases }
{}
