//! A folder of a walk that has a list.

/// What its entries are visited with, and their names.
#[derive(Drop)]
pub(crate) struct Opened<F: Drop> {
    pub(crate) entered: F,
    pub(crate) names: Vec<String>,
}
