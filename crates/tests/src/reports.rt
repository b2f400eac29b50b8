//! Reports on the sample controller: every part, in order, and what they are refused for.
use access::context_set::ContextSet;
use access::operation::Operation;
use access::operation_set::OperationSet;
use access::property::{Property, Template};
use access::refusal::Refusal;
use judge::grant::Grant;
use judge::step::Step;
use record_table::table::RecordTable;
use report::reporting::{next_property, report_property};
use search::breadth_first::Place;
use sheet::judging::Judging;
use sheet::sheet::Sheet;
use std::test::Fail;
use words::name::Name;
use words::names::Names;

const KEYPAD: u16 = 2;

const MAINT: u16 = 3;

const OPENING: u16 = 4;

const LOG: u16 = 5;

const STEP: Step = Step {
    subject: 0,
    target: 0,
    operation: Operation::Lock,
    origin: 9,
};

fn one(context: u16) -> ContextSet {
    ContextSet::none().with(context)
}

/// The names of the contexts, from number 1.
fn names() -> Option<Names> {
    let mut names = Names::new();
    names.declare(Name::read(b"clock")?).ok()?;
    names.declare(Name::read(b"keypad")?).ok()?;
    names.declare(Name::read(b"maint")?).ok()?;
    names.declare(Name::read(b"opening")?).ok()?;
    names.declare(Name::read(b"log")?).ok()?;
    Some(names)
}

/// The sample controller, with a grant and a property of each template, but none under 3.
fn sheet() -> Result<Sheet<RecordTable>, Refusal> {
    let mut sheet = Sheet::lay_out(RecordTable::new(5));
    sheet.set(1, OPENING, OperationSet::from(Operation::Update))?;
    sheet.set(KEYPAD, LOG, OperationSet::from(Operation::Append))?;
    sheet.set(MAINT, LOG, OperationSet::from(Operation::Read))?;
    let grant = Grant {
        subjects: one(MAINT),
        targets: one(OPENING),
        operations: OperationSet::from(Operation::Write),
    };
    sheet.enter_grant(1, grant)?;
    enter(
        &mut sheet,
        1,
        Template::Integrity,
        one(KEYPAD),
        one(OPENING),
    )?;
    enter(
        &mut sheet,
        2,
        Template::Confidentiality,
        one(KEYPAD),
        one(OPENING),
    )?;
    enter(
        &mut sheet,
        40,
        Template::Domain,
        one(1).with(OPENING),
        ContextSet::none(),
    )?;
    enter(
        &mut sheet,
        64,
        Template::Consistency,
        one(MAINT),
        one(KEYPAD),
    )?;
    Ok(sheet)
}

fn enter(
    sheet: &mut Sheet<RecordTable>,
    number: u16,
    template: Template,
    first: ContextSet,
    second: ContextSet,
) -> Result<(), Refusal> {
    sheet.enter_property(
        number,
        Property {
            template,
            first,
            second,
        },
    )
}

#[test]
fn the_sample_controller_is_reported(rt: HostRuntime) -> Result<(), Fail> {
    let names = names().ok_or("a name is refused")?;
    let Ok(sheet) = sheet() else {
        return Err(Fail::new("the sheet is refused"));
    };
    let parts: [&[u8]; 4] = [
        b"1 broken 3\n keypad append log 0\n maint read log 0\n maint write opening 1\n",
        b"2 guaranteed\n",
        b"40 broken 1\n maint write opening 1\n",
        b"64 broken 2\n keypad append log 0\n maint read log 0\n",
    ];
    let judging = Judging::of(&sheet);
    let mut ticks = [7; 10];
    let mut places = [Place::default(); 10];
    let mut steps = [STEP; 5];
    let mut memory = vec![in rt.alloc(); 7; 16_384]?;
    let mut after = 0;
    for part in parts {
        let number = next_property(&judging, after).ok_or("a property is left out")?;
        let told = report_property(
            &judging,
            &names,
            number,
            &mut ticks,
            &mut places,
            &mut steps,
            &mut memory,
        );
        assert_eq!(rt; told, Ok(part.len()));
        assert!(rt; memory.starts_with(part));
        after = number;
    }
    assert_eq!(rt; next_property(&judging, after), None);
    assert_eq!(rt; memory.get(16_383).copied(), Some(7));
    Ok(())
}

#[test]
fn a_short_report_memory_is_refused_last(rt: HostRuntime) -> Result<(), Fail> {
    let names = names().ok_or("a name is refused")?;
    let Ok(sheet) = sheet() else {
        return Err(Fail::new("the sheet is refused"));
    };
    let numbers = [
        (0, Refusal::NumberOutside),
        (3, Refusal::StandsNot),
        (1, Refusal::ShortMemory),
    ];
    let judging = Judging::of(&sheet);
    let mut ticks = [7; 10];
    let mut places = [Place::default(); 10];
    let mut steps = [STEP; 5];
    let mut memory = vec![in rt.alloc(); 7; 16_383]?;
    for (number, refusal) in numbers {
        let told = report_property(
            &judging,
            &names,
            number,
            &mut ticks,
            &mut places,
            &mut steps,
            &mut memory,
        );
        assert_eq!(rt; told, Err(refusal));
    }
    assert_eq!(rt; steps[0], STEP);
    assert_eq!(rt; memory.first().copied(), Some(7));
    Ok(())
}
