//! The job: from a policy text to its report.
ghost use Rattle.std.specs.Prelude.{◌≡◌, ℕ, true, List, length, is_some, is_ok, OnOk, IfOk};
ghost use Rattle.access.specs.Contexts.{inside};
ghost use Rattle.std.specs.Io.KnownBytes.{Appends};
ghost use Rattle.sheet.specs.Shown.{shown};
ghost use Rattle.policy_text.specs.Texts.{text_read};
ghost use Rattle.report.specs.Output.{IsPart, Written, Prints};
ghost use Rattle.report.specs.Lent.{Lent};
ghost use Rattle.report.specs.OneReport.{OneReport};

use crate::part::REPORT_MEMORY;
use crate::reporting::{next_property, report_property};
use access::operation::Operation;
use access::policy::Policy;
use judge::step::Step;
use policy_text::read::read;
use search::breadth_first::Place;
use sheet::judging::Judging;
use sheet::sheet::Sheet;
use std::io;
use std::io::Write;
use words::names::Names;

/// How many contexts a text has at most; the working memory is what judging asks for so many.
const MOST_CONTEXTS: usize = 256;

/// Writes the part of one property that stands.
fn write_part<P: Policy, W: Write>(
    judging: &Judging<'_, P>,
    names: &Names,
    number: u16,
    ticks: &mut [u8],
    places: &mut [Place],
    steps: &mut [Step],
    memory: &mut [u8],
    out: &mut W,
) -> io::Result<()>
    requires lent { Lent (length ticks.old) (length places.old) (length steps.old) (length memory.old) }
    requires property { (inside 64 number ≡ true) × (is_some ((shown judging.now.sheet.now).properties number) ≡ true) }
    ensures { OnOk result ((bytes : List ℕ) × Appends (W.contents out.old) (W.contents out.new) bytes × IsPart (shown judging.now.sheet.now) names.now number bytes) }
{
    let len = report_property(judging, names, number, ticks, places, steps, memory).unwrap();
    out.write_all(&memory[..len])
}

/// Writes the parts of the properties that stand, by rising number.
fn write_parts<P: Policy, W: Write>(
    judging: &Judging<'_, P>,
    names: &Names,
    ticks: &mut [u8],
    places: &mut [Place],
    steps: &mut [Step],
    memory: &mut [u8],
    out: &mut W,
) -> io::Result<()>
    requires { Lent (length ticks.old) (length places.old) (length steps.old) (length memory.old) }
    ensures { OnOk result (Written (shown judging.now.sheet.now) names.now (W.contents out.old) (W.contents out.new)) }
{
    let mut after = 0;
    while let Some(number) = next_property(judging, after) {
        write_part(judging, names, number, ticks, places, steps, memory, out)?;
        after = number;
    }
    Ok(())
}

/// Writes the report of a sheet, one part at a time.
fn write_report<P: Policy, W: Write>(sheet: &Sheet<P>, names: &Names, out: &mut W) -> io::Result<()>
    ensures { OnOk result (Written (shown sheet.now) names.now (W.contents out.old) (W.contents out.new)) }
{
    let unwritten = Step {
        subject: 0,
        target: 0,
        operation: Operation::Read,
        origin: 0,
    };
    let mut ticks = [0; 2 * MOST_CONTEXTS];
    let mut places = [Place::default(); 2 * MOST_CONTEXTS];
    let mut steps = [unwritten; MOST_CONTEXTS];
    let mut memory = [0; REPORT_MEMORY];
    write_parts(
        &Judging::of(sheet),
        names,
        &mut ticks,
        &mut places,
        &mut steps,
        &mut memory,
        out,
    )
}

/// Judges the controller that a text describes and writes the report, or writes the text's fault; says whether there was a report.
pub fn judge_text<W: Write>(text: &[u8], out: &mut W) -> io::Result<bool>
    ensures printed { OnOk result ((bytes : List ℕ) × Appends (W.contents out.old) (W.contents out.new) bytes × Prints (text_read text.now) bytes) }
    ensures told { IfOk result (λ reported. reported ≡ is_ok (text_read text.now)) }
{
    match read(text) {
        Ok(controller) => {
            write_report(&controller.sheet, &controller.names, out)?;
            Ok(true)
        }
        Err(fault) => {
            writeln!(out, "{fault}")?;
            Ok(false)
        }
    }
}

/// A text has one report: whoever prints it prints the same bytes.
pub fn one_report_stands()
    ensures { OneReport }
{}
