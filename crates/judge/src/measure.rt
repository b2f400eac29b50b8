//! Measuring: a search over the graph of an activity that writes no steps.
ghost use Rattle.std.specs.Prelude.{◌≡◌, length, replicate};
ghost use Rattle.access.specs.Contexts.{member};
ghost use Rattle.judge.specs.Regimes.{meaning_of, grants_of};
ghost use Rattle.judge.specs.Sought.{ToldLength};

use crate::activity::Activity;
use crate::chart::Chart;
use crate::moves::Moves;
use access::context_set::ContextSet;
use access::policy::Policy;
use access::refusal::Refusal;
use search::breadth_first::{Place, search};

/// How many moves a shortest activity of a kind has from a context of one set to a context of another, or `None` where there
/// is no such activity of any length. Of `places` no more is written than by `seek`.
pub fn measure<'a, A: Activity, P: Policy>(
    moves: &'a Moves<'a, P>,
    from: ContextSet,
    to: ContextSet,
    ticks: &mut [u8],
    places: &mut [Place],
) -> Result<Option<usize>, Refusal>
    ensures answer { ToldLength A.Activity.kind.phases (meaning_of P.Policy.meaning moves.now.regime) (grants_of moves.now.regime) A.Activity.activities (member from) (member to) ticks.old places.old places.new result }
    ensures ticks { ticks.new ≡ replicate (length ticks.old) 0 }
{
    let chart: Chart<'_, A, P> = Chart::between(moves, from, to);
    let found = search(&chart, ticks, places).map_err(|_| Refusal::ShortMemory)?;
    let Some(last) = found else {
        return Ok(None);
    };
    Ok(Some(usize::from(places[last].depth)))
}
