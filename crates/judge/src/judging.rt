//! Judging: the one call.
ghost use Rattle.std.specs.Prelude.{◌≡◌, length, replicate};
ghost use Rattle.access.specs.Refusals.{answer};
ghost use Rattle.verdicts.specs.Laws.{OfContexts};
ghost use Rattle.judge.specs.Regimes.{meaning_of, grants_of};
ghost use Rattle.judge.specs.Sought.{Suffices};
ghost use Rattle.judge.specs.Judged.{property_of, Judged, judging_refusal, Answered};

use crate::contact::Domain;
use crate::moves::Moves;
use crate::nearest::Flows;
use crate::pull::Pull;
use crate::push::Push;
use crate::searched::by_search;
use crate::seek::is_short;
use crate::step::Step;
use crate::verdict::Verdict;
use access::policy::Policy;
use access::property::{Property, Template};
use access::refusal::Refusal;
use search::breadth_first::Place;
use search::lent::Cleared;

/// The verdict on a property, by its template.
fn decide<'a, P: Policy>(
    moves: &'a Moves<'a, P>,
    property: Property,
    ticks: &mut [u8],
    places: &mut [Place],
    steps: &mut [Step],
) -> Verdict
    requires fits { Suffices 2 (meaning_of P.Policy.meaning moves.now.regime).contexts ticks.old places.old steps.old }
    requires inside { OfContexts (meaning_of P.Policy.meaning moves.now.regime).contexts (property_of property) }
    ensures judged { Judged (meaning_of P.Policy.meaning moves.now.regime) (grants_of moves.now.regime) (property_of property) steps.old steps.new result }
    ensures ticks { ticks.new ≡ replicate (length ticks.old) 0 }
{
    let from = property.first;
    let to = property.second;
    // A match on a closed list: as values, the four ways would need one signature, and they differ in what they take.
    match property.template {
        Template::Integrity => { by_search::<Push, P>(moves, from, to, ticks, places, steps) }
        Template::Confidentiality => { by_search::<Pull, P>(moves, from, to, ticks, places, steps) }
        Template::Domain => {
            let _cleared = Cleared::over(ticks);
            Domain { moves, set: from }.judge(steps)
        }
        Template::Consistency => Flows { moves, from, to }.judge(ticks, places, steps),
    }
}

/// Checks that a property is fit for so many contexts, and then that the lent memory is long enough to judge it.
fn check(
    contexts: u16,
    property: Property,
    ticks: &[u8],
    places: &[Place],
    steps: &[Step],
) -> Result<(), Refusal>
    ensures { result ≡ answer (judging_refusal contexts property (length ticks.now) (length places.now) (length steps.now)) }
{
    property.check(contexts)?;
    if is_short(2, contexts, ticks, places, steps) {
        return Err(Refusal::ShortMemory);
    }
    Ok(())
}

/// Judges a property under a policy with standing grants: guaranteed, or broken in so many steps, which then stand in front
/// of `steps` in working order. Refused where the property is not fit, or else where a lent slice is too short; the ticks are
/// handed back all zero in any case.
// Lent memory as three slices (two where no steps are written), and so in `seek`, `measure`, `decide`, `by_search` and `Flows`, with
// what each asks or promises of them: of a struct of them each contract would owe that it still lends the same three.
pub fn judge<'a, P: Policy>(
    moves: &'a Moves<'a, P>,
    property: Property,
    ticks: &mut [u8],
    places: &mut [Place],
    steps: &mut [Step],
) -> Result<Verdict, Refusal>
    ensures answer { Answered (meaning_of P.Policy.meaning moves.now.regime) (grants_of moves.now.regime) property ticks.old places.old places.new steps.old steps.new result }
    ensures ticks { ticks.new ≡ replicate (length ticks.old) 0 }
{
    if let Err(why) = check(moves.contexts(), property, ticks, places, steps) {
        let _cleared = Cleared::over(ticks);
        return Err(why);
    }
    Ok(decide(moves, property, ticks, places, steps))
}
