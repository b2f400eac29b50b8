//! A tour of the library: lays out the sample controller, prints who may do what to whom, before and after changes, seeks chains of
//! steps by which one context reaches another, and serves every kind of request on a sheet. Then the worked cases are run and printed.

#![tactic(auto)]

mod cases;
mod full_table;
mod reports;
mod requests;
mod served;
mod texts;

use access::context_set::ContextSet;
use access::numbers::index_in;
use access::operation::Operation;
use access::operation_set::OperationSet;
use access::policy::Policy;
use access::refusal::Refusal;
use judge::activity::Activity;
use judge::grant::Grant;
use judge::moves::Moves;
use judge::pull::Pull;
use judge::push::Push;
use judge::regime::Regime;
use judge::seek::seek;
use judge::step::Step;
use layers::labels::Labels;
use layers::level::LevelLayer;
use layers::owner::OwnerLayer;
use policy_text::pile::Pile;
use record_table::table::RecordTable;
use search::breadth_first::Place;
use std::alloc::Global;
use std::io;

/// The contexts of the sample controller, from number 1.
const NAMES: [&str; 5] = ["clock", "keypad", "maint", "opening", "log"];

const CLOCK: u16 = 1;

const KEYPAD: u16 = 2;

const MAINT: u16 = 3;

const OPENING: u16 = 4;

const LOG: u16 = 5;

/// What the memory that a search is lent holds before.
const NO_STEP: Step = Step {
    subject: 0,
    target: 0,
    operation: Operation::Read,
    origin: 0,
};

/// The sample controller: the clock updates the opening times, the keypad appends to the log, maintenance reads the log.
/// Appending is constrained to one owner.
fn lay_out(levels: Labels, owners: Labels) -> Result<Pile, Refusal> {
    let table = RecordTable::new(NAMES.len() as u16);
    let owned = OwnerLayer::new(table, owners, OperationSet::from(Operation::Append));
    let mut controller = LevelLayer::new(owned, levels);
    controller.set(CLOCK, OPENING, OperationSet::from(Operation::Update))?;
    controller.set(KEYPAD, LOG, OperationSet::from(Operation::Append))?;
    controller.set(MAINT, LOG, OperationSet::from(Operation::Read))?;
    Ok(controller)
}

// A context is a plain number, so it cannot have a `Display` of its own.
fn name(context: u16) -> &'static str {
    index_in(NAMES.len(), context).map_or("nobody", |index| NAMES[index])
}

/// Prints the operations that a policy allows on one pair: those that are both written and permitted.
fn print_pair<P: Policy>(rt: &impl Print, policy: &P, subject: u16, target: u16) -> io::Result<()> {
    let allowed = policy
        .written(subject, target)
        .and(policy.permitted(subject, target));
    for operation in (0..12).filter_map(|number| Operation::try_from(number).ok()) {
        if allowed.has(operation) {
            println!(rt; "  {} may {operation} {}", name(subject), name(target))?;
        }
    }
    Ok(())
}

fn print_allowed<P: Policy>(rt: &impl Print, policy: &P) -> io::Result<()> {
    for s in 1..=5 {
        for t in 1..=5 {
            print_pair(rt, policy, s, t)?;
        }
    }
    Ok(())
}

fn print_answer(rt: &impl Print, call: &str, answer: Result<(), Refusal>) -> io::Result<()> {
    match answer {
        Ok(()) => println!(rt; "{call}: accepted"),
        Err(refusal) => println!(rt; "{call}: refused, number {}", u8::from(refusal)),
    }
}

/// Settings, accepted and refused.
fn change<P: Policy>(rt: &impl Print, controller: &mut P) -> io::Result<()> {
    let given = controller.set(MAINT, OPENING, OperationSet::from(Operation::Write));
    print_answer(rt, "giving maint write on opening", given)?;
    print_allowed(rt, controller)?;
    let emptied = controller.set(MAINT, OPENING, OperationSet::none());
    print_answer(rt, "emptying maint on opening", emptied)?;
    print_allowed(rt, controller)?;
    let unknown = controller.set(MAINT, OPENING, OperationSet { bits: 4096 });
    print_answer(rt, "giving maint an operation 12 on opening", unknown)?;
    let nobody = controller.set(6, OPENING, OperationSet::from(Operation::Write));
    print_answer(rt, "giving a context 6 write on opening", nobody)
}

/// Prints a step with the number of the grant that it needs, or 0.
fn print_step(rt: &impl Print, step: Step) -> io::Result<()> {
    let subject = name(step.subject);
    let operation = step.operation;
    let target = name(step.target);
    let origin = step.origin;
    println!(rt; "    {subject} {operation} {target} {origin}")
}

/// Prints the steps that a search found, in working order.
fn print_found(
    rt: &impl Print,
    found: Result<Option<usize>, Refusal>,
    steps: &[Step],
) -> io::Result<()> {
    match found {
        Err(refusal) => println!(rt; "  refused, number {}", u8::from(refusal)),
        Ok(None) => println!(rt; "  in no way, however many steps there are"),
        Ok(Some(count)) => {
            println!(rt; "  in {count} steps:")?;
            for step in steps.iter().take(count) {
                print_step(rt, *step)?;
            }
            Ok(())
        }
    }
}

/// Seeks a shortest activity of a kind from the keypad to the opening, and prints it.
fn ask<A: Activity, P: Policy>(
    rt: &impl Print,
    moves: &Moves<'_, P>,
    question: &str,
) -> io::Result<()> {
    println!(rt; "  {question}")?;
    let mut ticks = [0; 10];
    let mut places = [Place::default(); 10];
    let mut steps = [NO_STEP; 5];
    let keypad = ContextSet::none().with(KEYPAD);
    let opening = ContextSet::none().with(OPENING);
    let found = seek::<A, P>(moves, keypad, opening, &mut ticks, &mut places, &mut steps);
    print_found(rt, found, &steps)
}

fn ask_both<P: Policy>(rt: &impl Print, regime: Regime<'_, P>) -> io::Result<()> {
    let moves = Moves::of(regime);
    ask::<Push, P>(rt, &moves, "can the keypad get something to the opening?")?;
    ask::<Pull, P>(rt, &moves, "can the keypad get something from the opening?")
}

/// Lays out the sample controller, or prints why it cannot be.
fn show(rt: &impl Print, levels: Labels, owners: Labels) -> io::Result<()> {
    match lay_out(levels, owners) {
        Ok(controller) => print_allowed(rt, &controller),
        Err(refusal) => print_answer(rt, "laying out", Err(refusal)),
    }
}

fn tour(rt: &impl Print, alloc: Global) -> io::Result<()> {
    let zero = Labels::zero();
    println!(rt; "The sample controller, all of level 0 and owner 0:")?;
    show(rt, zero, zero)?;
    println!(rt; "With opening at level 1, where no lower level may write:")?;
    show(rt, zero.with(OPENING, 1), zero)?;
    println!(rt; "With log of owner 1, where no other owner may append:")?;
    show(rt, zero, zero.with(LOG, 1))?;
    match lay_out(zero, zero) {
        Ok(mut controller) => {
            println!(rt; "Changes to the sample controller:")?;
            change(rt, &mut controller)?;
            println!(rt; "With no grant:")?;
            let none = [None; 32];
            let regime = Regime {
                policy: &controller,
                grants: &none,
            };
            ask_both(rt, regime)?;
            println!(rt; "With grant 1, by which maint may be given write on opening:")?;
            let mut grants = none;
            grants[0] = Some(Grant {
                subjects: ContextSet::none().with(MAINT),
                targets: ContextSet::none().with(OPENING),
                operations: OperationSet::from(Operation::Write),
            });
            let regime = Regime {
                policy: &controller,
                grants: &grants,
            };
            ask_both(rt, regime)?;
            println!(rt; "Requests to a sheet over it:")?;
            requests::show(rt, alloc, controller)
        }
        Err(refusal) => print_answer(rt, "laying out", Err(refusal)),
    }
}

fn main(rt: HostRuntime) -> io::Result<()> {
    let alloc = rt.alloc();
    tour(&rt, alloc)?;
    cases::show(&rt, alloc)
}
