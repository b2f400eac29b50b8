//! Integrity and confidentiality: one search.
ghost use Rattle.std.specs.Prelude.{◌≡◌, length, replicate};
ghost use Rattle.access.specs.Contexts.{member};
ghost use Rattle.judge.specs.Regimes.{meaning_of, grants_of};
ghost use Rattle.judge.specs.Found.{Leads};
ghost use Rattle.judge.specs.Plan.{among};
ghost use Rattle.judge.specs.Sought.{Suffices};
ghost use Rattle.judge.specs.Judged.{Tells};

use crate::activity::Activity;
use crate::moves::Moves;
use crate::seek::seek;
use crate::step::Step;
use crate::verdict::Verdict;
use access::context_set::ContextSet;
use access::policy::Policy;
use search::breadth_first::Place;

/// Judges that no activity of a kind leads from one set to another.
// Unlike `Flows`, this calls one function with the three, so a struct of them would be built and taken apart once.
pub(crate) fn by_search<'a, A: Activity, P: Policy>(
    moves: &'a Moves<'a, P>,
    from: ContextSet,
    to: ContextSet,
    ticks: &mut [u8],
    places: &mut [Place],
    steps: &mut [Step],
) -> Verdict
    requires { Suffices 2 (meaning_of P.Policy.meaning moves.now.regime).contexts ticks.old places.old steps.old }
    ensures told { Tells (meaning_of P.Policy.meaning moves.now.regime) (grants_of moves.now.regime) (Leads A.Activity.activities (among (meaning_of P.Policy.meaning moves.now.regime).contexts (member from)) (member to)) A.Activity.BACKWARDS steps.old steps.new result }
    ensures ticks { ticks.new ≡ replicate (length ticks.old) 0 }
{
    match seek::<A, P>(moves, from, to, ticks, places, steps).unwrap() {
        None => Verdict::Guaranteed,
        Some(steps) => Verdict::Broken { steps },
    }
}
