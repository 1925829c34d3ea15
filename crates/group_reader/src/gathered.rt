use crate::budget::TextBudget;
use crate::link::FoundLink;

/// What was read of a group so far.
#[derive(Drop)]
pub(crate) struct Gathered {
    /// Its links from left to right.
    pub(crate) links: Vec<FoundLink>,
    /// What is left of the budget of its file.
    pub(crate) texts: TextBudget,
}
