//! The policy of a text: levels over owners over a record table.
use layers::level::LevelLayer;
use layers::owner::OwnerLayer;
use record_table::table::RecordTable;

pub type Pile = LevelLayer<OwnerLayer<RecordTable>>;
