//! A rule of a table.

/// The limit of each daughter, 1 to 4 of them, and the mother.
#[derive(Drop)]
pub struct TableRule {
    pub limits: Vec<u32>,
    pub mother: u32,
}
