ghost use Rattle.std.specs.Prelude.{◌≡◌};
ghost use Rattle.tree_nodes.specs.Nodes.{is_object, with_layout, with_dims};

use dtype::{Dims, ElemType, Shape};
use h5_base::{Bytes, LinkName};
use header_codec::{Fill, Layout};

/// What the file holds at a node, with its addresses in bytes from the file's start.
#[derive(Debug, Drop)]
pub enum Node {
    /// A group: its object header, its B-tree and its local heap.
    Group {
        header_at: u64,
        tree_at: u64,
        heap_at: u64,
    },
    /// A dataset; `filtered` where its chunks pass through filters.
    Dataset {
        header_at: u64,
        shape: Shape,
        elem: ElemType,
        fill: Fill,
        layout: Layout,
        filtered: bool,
    },
    /// A soft link: the text of its target.
    Soft {
        text: Bytes,
    },
    /// An object that is neither a group nor a dataset that is known.
    Other {
        header_at: u64,
    },
}

/// A node of the tree that gave it.
#[derive(Clone, Copy, Debug, PartialEq, Eq)]
pub struct NodeId {
    pub key: usize,
}

/// A link of a group, and the node that it leads to.
#[derive(Debug, Drop)]
pub struct ChildLink {
    pub name: LinkName,
    pub node: NodeId,
}

impl Node {
    /// Whether it is an object: a soft link is none.
    pub(crate) fn is_object(&self) -> bool
        ensures { result ≡ is_object self.now }
    {
        match self {
            Node::Group { .. } | Node::Dataset { .. } | Node::Other { .. } => true,
            Node::Soft { .. } => false,
        }
    }

    /// Another layout for a dataset.
    pub(crate) fn set_layout(&mut self, new: Layout)
        ensures { self.new ≡ with_layout new self.old }
    {
        if let Node::Dataset { layout, .. } = self {
            *layout = new;
        }
    }

    /// Other sizes for a dataset.
    pub(crate) fn set_dims(&mut self, dims: Dims)
        ensures { self.new ≡ with_dims dims self.old }
    {
        if let Node::Dataset { shape, .. } = self {
            shape.dims = dims;
        }
    }
}
