//! How often a policy is asked.
use access::context_set::ContextSet;
use access::operation::Operation;
use access::operation_set::OperationSet;
use access::policy::Policy;
use access::property::{Property, Template};
use access::refusal::Refusal;
use judge::activity::Activity;
use judge::moves::Moves;
use judge::pull::Pull;
use judge::push::Push;
use judge::regime::Regime;
use judge::seek::seek;
use judge::step::Step;
use judge::verdict::Verdict;
use record_table::table::RecordTable;
use search::breadth_first::Place;
use sheet::sheet::Sheet;
use std::cell::Cell;
use std::test::Fail;

const CONTEXTS: u16 = 64;

/// What stands in lent memory before.
const UNWRITTEN: Step = Step {
    subject: 0,
    target: 0,
    operation: Operation::Read,
    origin: 0,
};

/// A policy that counts what it is asked.
#[derive(Drop)]
struct Counting<'a, P> {
    below: P,
    asked: &'a Cell<u32>,
}

impl<P: Policy> Counting<'_, P> {
    fn count(&self) {
        self.asked.set(self.asked.get().wrapping_add(1));
    }
}

impl<P: Policy> Policy for Counting<'_, P> {
    ghost meaning = { λ c. P.meaning c.below };

    ghost sound = { λ c. P.sound c.below };

    fn contexts(&self) -> u16 {
        self.count();
        self.below.contexts()
    }

    fn capacity(&self) -> u32 {
        self.count();
        self.below.capacity()
    }

    fn written(&self, subject: u16, target: u16) -> OperationSet {
        self.count();
        self.below.written(subject, target)
    }

    fn permitted(&self, subject: u16, target: u16) -> OperationSet {
        self.count();
        self.below.permitted(subject, target)
    }

    fn set(&mut self, subject: u16, target: u16, operations: OperationSet) -> Result<(), Refusal> {
        self.below.set(subject, target, operations)
    }
}

/// A ring in which each context but the last becomes the next, reads it and writes to it. Nothing leads to the last.
fn ring() -> Result<RecordTable, Refusal> {
    let step = OperationSet::from(Operation::Become)
        .with(Operation::Write)
        .with(Operation::Read);
    let mut table = RecordTable::new(CONTEXTS);
    for context in 1..CONTEXTS - 1 {
        table.set(context, context + 1, step)?;
    }
    table.set(CONTEXTS - 1, 1, step)?;
    Ok(table)
}

/// How often the policy is asked until an activity from context 1 to another is found, or none.
fn questions<A: Activity>(table: RecordTable, to: u16) -> u32 {
    let asked = Cell::new(0);
    let policy = Counting {
        below: table,
        asked: &asked,
    };
    let regime = Regime {
        policy: &policy,
        grants: &[None; 32],
    };
    let _ = seek::<A, Counting<'_, RecordTable>>(
        &Moves::of(regime),
        ContextSet::none().with(1),
        ContextSet::none().with(to),
        &mut [0; 128],
        &mut [Place::default(); 128],
        &mut [UNWRITTEN; 64],
    );
    asked.get()
}

#[test]
fn each_pair_is_asked_once(rt: HostRuntime) -> Result<(), Fail> {
    let pairs = u32::from(CONTEXTS) * u32::from(CONTEXTS);
    for to in [CONTEXTS, CONTEXTS - 1] {
        let Ok(for_push) = ring() else {
            return Err(Fail::new("the ring is not accepted"));
        };
        let Ok(for_pull) = ring() else {
            return Err(Fail::new("the ring is not accepted"));
        };
        let push = questions::<Push>(for_push, to);
        let pull = questions::<Pull>(for_pull, to);
        // Besides there are the contexts, and a few questions for each shown step.
        let most = 2 * pairs + 8 * u32::from(CONTEXTS);
        assert!(rt; push >= 2 * pairs && push <= most);
        assert!(rt; pull >= 2 * pairs && pull <= most);
    }
    Ok(())
}

/// Judges a property over enough places and steps.
fn judge<P: Policy>(sheet: &Sheet<P>, number: u16, ticks: &mut [u8]) -> Result<Verdict, Refusal> {
    sheet.judge(
        number,
        ticks,
        &mut [Place::default(); 128],
        &mut [UNWRITTEN; 64],
    )
}

#[test]
fn a_refused_judging_asks_of_no_pair(rt: HostRuntime) -> Result<(), Fail> {
    let Ok(below) = ring() else {
        return Err(Fail::new("the ring is not accepted"));
    };
    let asked = Cell::new(0);
    let mut sheet = Sheet::lay_out(Counting {
        below,
        asked: &asked,
    });
    let property = Property {
        template: Template::Domain,
        first: ContextSet::none().with(1),
        second: ContextSet::none(),
    };
    assert!(rt; sheet.enter_property(1, property).is_ok());
    let before = asked.get();
    assert!(rt; judge(&sheet, 0, &mut [0; 128]) == Err(Refusal::NumberOutside));
    assert!(rt; judge(&sheet, 65, &mut [0; 128]) == Err(Refusal::NumberOutside));
    assert!(rt; judge(&sheet, 2, &mut [0; 128]) == Err(Refusal::StandsNot));
    assert!(rt; asked.get() == before, "by the number alone");
    assert!(rt; judge(&sheet, 1, &mut [0; 127]) == Err(Refusal::ShortMemory));
    assert!(rt;
        asked.get() == before.wrapping_add(1),
        "for the number of contexts"
    );
    assert!(rt; judge(&sheet, 1, &mut [0; 128]).is_ok());
    Ok(())
}
