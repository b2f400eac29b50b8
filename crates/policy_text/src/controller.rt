//! A controller as a policy text describes it.
use crate::pile::Pile;
use sheet::sheet::Sheet;
use words::names::Names;

/// The names of a controller's contexts, and a sheet with its policy, grants and properties.
#[derive(Drop)]
pub struct Controller {
    pub names: Names,
    pub sheet: Sheet<Pile>,
}
