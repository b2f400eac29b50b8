//! A property of a sheet is judged and reported.
ghost use Rattle.std.specs.Prelude.{◌≡◌, ℕ, ◌&&◌, length, replicate, is_some, Some, MatchOption};
ghost use Rattle.access.specs.Contexts.{inside};
ghost use Rattle.sheet.specs.Shown.{shown};
ghost use Rattle.report.specs.Reporting.{reporting_refusal, Reports, NoneAbove, IsNext};

use crate::part::{REPORT_MEMORY, write_part};
use access::policy::Policy;
use access::refusal::Refusal;
use judge::step::Step;
use search::breadth_first::Place;
use sheet::judging::Judging;
use words::names::Names;

/// How many properties a sheet has at most.
const MOST_PROPERTIES: u16 = 64;

/// Why a property is not reported where report memory is too short.
fn refusal_without_memory<P: Policy>(
    judging: &Judging<'_, P>,
    number: u16,
    ticks: &mut [u8],
) -> Refusal
    ensures answer { (places steps : ℕ) → reporting_refusal (shown judging.now.sheet.now) number (length ticks.old) places steps 0 ≡ Some result }
    ensures ticks { ticks.new ≡ replicate (length ticks.old) 0 }
{
    // Over no places and no steps, which are too few for any policy: so a refusal that comes first is answered.
    judging
        .judge(number, ticks, &mut [], &mut [])
        .err()
        .unwrap_or(Refusal::ShortMemory)
}

/// Judges a property and writes its part of a report in front of `memory`: its number and `guaranteed`, or its number, `broken`
/// and how many steps break it, and then a line for each of these. Says how many bytes that is. What is lent besides is as for
/// judging.
pub fn report_property<P: Policy>(
    judging: &Judging<'_, P>,
    names: &Names,
    number: u16,
    ticks: &mut [u8],
    places: &mut [Place],
    steps: &mut [Step],
    memory: &mut [u8],
) -> Result<usize, Refusal>
    ensures answer { Reports (shown judging.now.sheet.now) number names.now (length ticks.old) places.old places.new steps.old steps.new memory.old memory.new result }
    ensures ticks { ticks.new ≡ replicate (length ticks.old) 0 }
{
    if memory.len() < REPORT_MEMORY {
        return Err(refusal_without_memory(judging, number, ticks));
    }
    let verdict = judging.judge(number, ticks, places, steps)?;
    write_part(number, verdict, steps, names, memory)
}

/// Whether a property stands.
// A sheet is not asked that, but its refusals tell: only the judging of a property that stands gets as far as the memory.
fn stands<P: Policy>(judging: &Judging<'_, P>, number: u16) -> bool
    ensures { result ≡ (inside 64 number && is_some ((shown judging.now.sheet.now).properties number)) }
{
    matches!(
        refusal_without_memory(judging, number, &mut []),
        Refusal::ShortMemory
    )
}

/// The first property above a number that stands. A whole report has the parts of its properties by rising number: of the one
/// above 0 and then each time of the one above the last.
pub fn next_property<P: Policy>(judging: &Judging<'_, P>, after: u16) -> Option<u16>
    ensures { MatchOption result (NoneAbove (shown judging.now.sheet.now) after) (IsNext (shown judging.now.sheet.now) after) }
{
    for number in after.saturating_add(1)..=MOST_PROPERTIES {
        if stands(judging, number) {
            return Some(number);
        }
    }
    None
}
