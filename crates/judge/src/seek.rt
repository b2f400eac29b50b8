//! Seeking: a search over the graph of an activity, and the steps that show what was found.
ghost use Rattle.std.specs.Prelude.{◌≡◌, length, replicate};
ghost use Rattle.access.specs.Contexts.{member};
ghost use Rattle.judge.specs.Regimes.{meaning_of, grants_of};
ghost use Rattle.judge.specs.Sought.{Answered, short};

use crate::activity::Activity;
use crate::chart::Chart;
use crate::moves::Moves;
use crate::step::Step;
use crate::way::Way;
use access::context_set::ContextSet;
use access::policy::Policy;
use access::refusal::Refusal;
use search::breadth_first::{Place, search};
use search::lent::Cleared;

/// Whether lent memory is too short for seeking: a tick and a place for each context in each phase, and a step for each context.
pub fn is_short(phases: u16, contexts: u16, ticks: &[u8], places: &[Place], steps: &[Step]) -> bool
    ensures { result ≡ short phases contexts (length ticks.now) (length places.now) (length steps.now) }
{
    let n = usize::from(contexts);
    let nodes = usize::from(phases) * n;
    ticks.len() < nodes || places.len() < nodes || steps.len() < n
}

/// Seeks a shortest activity of a kind from a context of one set to a context of another, over the moves that some legal run
/// of the policy with the standing grants makes. It answers how many steps the activity has, which then stand in front of
/// `steps`, or `None` where there is no such activity of any length. Of `places` no more than one for each context in each phase is
/// written.
///
/// The lent memory comes as three slices: of a struct that holds them, each contract would owe that it still lends the same three.
// Two sets side by side, from and to, and so in `measure`: a struct of them would only name them once more at each call.
pub fn seek<'a, A: Activity, P: Policy>(
    moves: &'a Moves<'a, P>,
    from: ContextSet,
    to: ContextSet,
    ticks: &mut [u8],
    places: &mut [Place],
    steps: &mut [Step],
) -> Result<Option<usize>, Refusal>
    ensures answer { Answered A.Activity.kind.phases (meaning_of P.Policy.meaning moves.now.regime) (grants_of moves.now.regime) A.Activity.activities A.Activity.BACKWARDS (member from) (member to) ticks.old places.old places.new steps.old steps.new result }
    ensures ticks { ticks.new ≡ replicate (length ticks.old) 0 }
{
    if is_short(A::PHASES as u16, moves.contexts(), ticks, places, steps) {
        let _cleared = Cleared::over(ticks);
        return Err(Refusal::ShortMemory);
    }
    let chart: Chart<'_, A, P> = Chart::between(moves, from, to);
    // There is memory, by the test above.
    let Some(last) = search(&chart, ticks, places).unwrap() else {
        return Ok(None);
    };
    let way = Way {
        chart: &chart,
        places,
        last,
    };
    Ok(Some(way.write(steps)))
}
