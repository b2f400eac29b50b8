//! A property is judged over lent memory of given lengths.
ghost use Rattle.std.specs.Prelude.{◌≡◌};
ghost use Rattle.sheet.specs.Shown.{shown};
ghost use Rattle.sheet.specs.declared.request.Request.TheVariants.{Judge};
ghost use Rattle.replay.specs.Replies.{reply_of, Right};
ghost use Rattle.replay.specs.Calls.{FitsSteps, judgingly};

use crate::answer::{Answer, MOST_STEPS, ShownSteps};
use access::operation::Operation;
use access::policy::Policy;
use access::refusal::Refusal;
use judge::step::Step;
use judge::verdict::Verdict;
use search::breadth_first::Place;
use sheet::sheet::Sheet;

/// As many ticks and places as 256 contexts take.
const MOST_NODES: usize = 512;

/// What a judging is answered that wrote these steps.
fn shown_by(verdict: Result<Verdict, Refusal>, steps: [Step; MOST_STEPS]) -> Answer
    requires { FitsSteps verdict }
    ensures { reply_of result ≡ judgingly verdict steps }
{
    match verdict {
        Ok(Verdict::Guaranteed) => Answer::Guaranteed,
        Ok(Verdict::Broken { steps: count }) => Answer::Broken(ShownSteps { steps, count }),
        Err(why) => Answer::Refused(why),
    }
}

/// Judges a property, as with memory of these lengths lent for it: what is beyond the most that a judging takes is left out.
pub(crate) fn judge<P: Policy>(
    sheet: &Sheet<P>,
    number: u16,
    ticks: usize,
    places: usize,
    steps: usize,
) -> Answer
    ensures { Right (shown sheet.now) (Judge number ticks places steps) (reply_of result) }
{
    let unwritten = Step {
        subject: 0,
        target: 0,
        operation: Operation::Read,
        origin: 0,
    };
    let mut all_ticks = [0u8; MOST_NODES];
    let mut all_places = [Place::default(); MOST_NODES];
    let mut all_steps = [unwritten; MOST_STEPS];
    let verdict = sheet.judge(
        number,
        &mut all_ticks[..ticks.min(MOST_NODES)],
        &mut all_places[..places.min(MOST_NODES)],
        &mut all_steps[..steps.min(MOST_STEPS)],
    );
    shown_by(verdict, all_steps)
}
