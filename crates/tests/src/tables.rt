//! What a record table does on examples: a full table, and records that are used again.
use access::operation_set::OperationSet;
use access::policy::Policy;
use access::refusal::Refusal;
use record_table::table::RecordTable;

const READ: OperationSet = OperationSet { bits: 1 };

const NONE: OperationSet = OperationSet { bits: 0 };

// Sets the subjects 1 to 4 on all 256 targets: 1,024 pairs.
fn set_all(table: &mut RecordTable, operations: OperationSet) -> Result<(), Refusal> {
    for s in 1..=4 {
        for t in 1..=256 {
            table.set(s, t, operations)?;
        }
    }
    Ok(())
}

#[test]
fn a_full_table_takes_a_new_pair_after_one_is_emptied(rt: HostRuntime) {
    let mut table = RecordTable::new(256);
    assert_eq!(rt; set_all(&mut table, READ), Ok(()));
    assert_eq!(rt; table.set(5, 1, READ), Err(Refusal::PolicyFull));
    assert!(rt; table.written(5, 1).is_empty());
    assert!(rt; table.set(2, 7, OperationSet { bits: 9 }).is_ok());
    assert!(rt; table.set(2, 8, NONE).is_ok());
    assert!(rt; table.set(5, 1, READ).is_ok());
    assert_eq!(rt; table.written(5, 1).bits, 1);
    assert_eq!(rt; table.written(2, 7).bits, 9);
    assert_eq!(rt; table.written(2, 8).bits, 0);
    assert_eq!(rt; table.set(2, 8, READ), Err(Refusal::PolicyFull));
}

#[test]
fn emptied_records_are_used_again(rt: HostRuntime) {
    let mut table = RecordTable::new(256);
    for _ in 0..3 {
        assert_eq!(rt; set_all(&mut table, READ), Ok(()));
        assert_eq!(rt; table.set(5, 1, READ), Err(Refusal::PolicyFull));
        assert_eq!(rt; set_all(&mut table, NONE), Ok(()));
    }
    assert_eq!(rt; table.written(4, 256).bits, 0);
}

#[test]
fn the_nearest_number_of_contexts(rt: HostRuntime) {
    assert_eq!(rt; RecordTable::new(0).contexts(), 1);
    assert_eq!(rt; RecordTable::new(200).contexts(), 200);
    assert_eq!(rt; RecordTable::new(1000).contexts(), 256);
}
