//! A property's part of a report.
ghost use Rattle.std.specs.Prelude.{◌≡◌, ◌+◌, ◌*◌, ◌≤◌, true, length};
ghost use Rattle.report.specs.Written.{Room, Wrote};
ghost use Rattle.report.specs.Parts.{step_line, step_lines, broken, said, has_room_for, WritesPart};

use crate::writing::{write, write_number, write_word};
use access::refusal::Refusal;
use judge::step::Step;
use judge::verdict::Verdict;
use search::lent::List;
use words::names::Names;

/// How many bytes report memory has at least.
pub const REPORT_MEMORY: usize = 16_384;

/// How many steps a report has room for: as many as there are contexts at most.
const MOST_STEPS: usize = 256;

/// Writes the line of a step, which has at most 49 bytes.
fn write_step(report: &mut List<'_, u8>, names: &Names, step: Step)
    requires { Room 49 report.old }
    ensures wrote { Wrote report.old (step_line names.now step) report.new }
    ensures short { report.new.len ≤ report.old.len + 49 }
{
    write_word(report, names.name(step.subject));
    write_word(report, step.operation.name().as_bytes());
    write_word(report, names.name(step.target));
    write(report, b" ");
    write_number(report, step.origin as u16);
    write(report, b"\n");
}

/// Writes the lines of steps.
fn write_steps(report: &mut List<'_, u8>, names: &Names, steps: &[Step])
    requires { Room (49 * length steps.now) report.old }
    ensures { Wrote report.old (step_lines names.now steps.now) report.new }
{
    for step in steps {
        write_step(report, names, *step);
    }
}

/// Writes how many steps break a property, and these.
fn write_broken(report: &mut List<'_, u8>, names: &Names, steps: &[Step])
    requires few { length steps.now ≤ 256 }
    requires room { Room (14 + 49 * length steps.now) report.old }
    ensures { Wrote report.old (broken steps.now names.now) report.new }
{
    write(report, b" broken ");
    write_number(report, steps.len() as u16);
    write(report, b"\n");
    write_steps(report, names, steps);
}

/// Whether the steps of a verdict stand among those given, and are no more than a report has room for.
fn has_room(verdict: Verdict, steps: &[Step]) -> bool
    ensures { result ≡ has_room_for verdict (length steps.now) }
{
    match verdict {
        Verdict::Guaranteed => true,
        Verdict::Broken { steps: count } => count <= steps.len() && count <= MOST_STEPS,
    }
}

/// Writes a verdict, with the steps of a broken property.
fn write_verdict(report: &mut List<'_, u8>, names: &Names, verdict: Verdict, steps: &[Step])
    requires stand { has_room_for verdict (length steps.now) ≡ true }
    requires room { Room (14 + 49 * 256) report.old }
    ensures { Wrote report.old (said verdict steps.now names.now) report.new }
{
    match verdict {
        Verdict::Guaranteed => write(report, b" guaranteed\n"),
        Verdict::Broken { steps: count } => write_broken(report, names, &steps[..count]),
    }
}

/// Writes what a verdict says of a property in front of report memory, the steps of a broken one among it, and says how many
/// bytes that is. Refused where the memory is shorter than every report asks for, or where the verdict has more steps than are
/// given or than a report has room for.
pub fn write_part(
    number: u16,
    verdict: Verdict,
    steps: &[Step],
    names: &Names,
    memory: &mut [u8],
) -> Result<usize, Refusal>
    ensures { WritesPart number verdict steps.now names.now memory.old memory.new result }
{
    if memory.len() < REPORT_MEMORY || !has_room(verdict, steps) {
        return Err(Refusal::ShortMemory);
    }
    let mut report = List::over(memory);
    write_number(&mut report, number);
    write_verdict(&mut report, names, verdict, steps);
    Ok(report.len())
}
