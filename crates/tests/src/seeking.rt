//! Seeking on small policies: the detour, the sample controller, ties between giver and taker, short memory, and how often a policy
//! is asked.
use access::context_set::ContextSet;
use access::operation::Operation;
use access::operation_set::OperationSet;
use access::policy::Policy;
use access::refusal::Refusal;
use judge::flow::Flow;
use judge::grant::Grant;
use judge::moves::Moves;
use judge::pull::Pull;
use judge::push::Push;
use judge::regime::Regime;
use judge::seek::seek;
use judge::step::Step;
use record_table::table::RecordTable;
use search::breadth_first::Place;
use std::test::Fail;

const NO_GRANT: [Option<Grant>; 32] = [None; 32];

const STEP: Step = Step {
    subject: 0,
    target: 0,
    operation: Operation::Lock,
    origin: 9,
};

fn one(context: u16) -> ContextSet {
    ContextSet::none().with(context)
}

fn step(subject: u16, operation: Operation, target: u16, origin: u8) -> Step {
    Step {
        subject,
        target,
        operation,
        origin,
    }
}

// Context 1 writes 2 and becomes 3, 3 becomes 2, 2 becomes 4.
fn detour() -> Result<RecordTable, Refusal> {
    let mut table = RecordTable::new(4);
    table.set(1, 2, OperationSet::from(Operation::Write))?;
    table.set(1, 3, OperationSet::from(Operation::Become))?;
    table.set(3, 2, OperationSet::from(Operation::Become))?;
    table.set(2, 4, OperationSet::from(Operation::Become))?;
    Ok(table)
}

#[test]
fn no_transition_follows_a_transfer(rt: HostRuntime) -> Result<(), Fail> {
    let mut ticks = [7; 8];
    let mut places = [Place::default(); 8];
    let mut steps = [STEP; 4];
    let Ok(table) = detour() else {
        return Err(Fail::new("the detour is not accepted"));
    };
    let found = seek::<Push, RecordTable>(
        &Moves::of(Regime {
            policy: &table,
            grants: &NO_GRANT,
        }),
        one(1),
        one(4),
        &mut ticks,
        &mut places,
        &mut steps,
    );
    assert_eq!(rt; found, Ok(Some(3)));
    assert_eq!(rt; steps[0], step(1, Operation::Become, 3, 0));
    assert_eq!(rt; steps[1], step(3, Operation::Become, 2, 0));
    assert_eq!(rt; steps[2], step(2, Operation::Become, 4, 0));
    assert_eq!(rt; steps[3], STEP, "behind the steps all is as before");
    assert!(rt; ticks[0] == 0 && ticks[7] == 0);
    Ok(())
}

#[test]
fn a_flow_is_shown_as_the_information_goes(rt: HostRuntime) {
    let mut ticks = [0; 6];
    let mut places = [Place::default(); 6];
    let mut steps = [STEP; 3];
    let mut table = RecordTable::new(3);
    assert!(rt;
        table
            .set(
                1,
                2,
                OperationSet::from(Operation::Read).with(Operation::Stat)
            )
            .is_ok()
    );
    assert!(rt;
        table
            .set(3, 2, OperationSet::from(Operation::Append))
            .is_ok()
    );
    let found = seek::<Flow, RecordTable>(
        &Moves::of(Regime {
            policy: &table,
            grants: &NO_GRANT,
        }),
        one(1),
        one(3),
        &mut ticks,
        &mut places,
        &mut steps,
    );
    assert_eq!(rt; found, Ok(Some(2)));
    assert_eq!(rt; steps[0], step(3, Operation::Append, 2, 0));
    assert_eq!(rt; steps[1], step(1, Operation::Read, 2, 0));
}

#[test]
fn the_giver_is_shown_and_the_lowest_grant(rt: HostRuntime) {
    let mut ticks = [0; 4];
    let mut places = [Place::default(); 4];
    let mut steps = [STEP; 2];
    let mut table = RecordTable::new(2);
    assert!(rt; table.set(2, 1, OperationSet::from(Operation::Read)).is_ok());
    let mut grants = NO_GRANT;
    let grant = Grant {
        subjects: one(1),
        targets: one(2),
        operations: OperationSet::from(Operation::Send).with(Operation::Signal),
    };
    grants[4] = Some(grant);
    grants[30] = Some(grant);
    let found = seek::<Push, RecordTable>(
        &Moves::of(Regime {
            policy: &table,
            grants: &grants,
        }),
        one(1),
        one(2),
        &mut ticks,
        &mut places,
        &mut steps,
    );
    assert_eq!(rt; found, Ok(Some(1)));
    assert_eq!(rt; steps[0], step(1, Operation::Signal, 2, 5));
}

#[test]
fn short_memory_is_refused(rt: HostRuntime) {
    let mut ticks = [3; 3];
    let mut places = [Place::default(); 4];
    let mut steps = [STEP; 2];
    let table = RecordTable::new(2);
    let found = seek::<Pull, RecordTable>(
        &Moves::of(Regime {
            policy: &table,
            grants: &NO_GRANT,
        }),
        one(1),
        one(2),
        &mut ticks,
        &mut places,
        &mut steps,
    );
    assert_eq!(rt; found, Err(Refusal::ShortMemory));
    assert!(rt; ticks[0] == 0 && ticks[2] == 0);
}
