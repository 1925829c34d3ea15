use crate::node::{ChildLink, Node};

/// A node, and where it is a group its links in name order.
#[derive(Debug, Drop)]
pub(crate) struct Entry {
    pub(crate) node: Node,
    pub(crate) links: Vec<ChildLink>,
}
