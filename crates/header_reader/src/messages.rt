ghost use Rattle.std.specs.Prelude.{◌≡◌, ◌≤◌, ◌++◌, ◌∷◌, ◌↔◌, [], IfOk, IsTrue, List, OnErr, OnOk, length};
ghost use Rattle.h5_base.specs.Fields.{u64_at};
ghost use Rattle.dtype.specs.declared.types.ElemType.{ElemType};
ghost use Rattle.dtype.specs.declared.types.Shape.{Shape};
ghost use Rattle.header_codec.specs.declared.types.Fill.{Fill};
ghost use Rattle.header_codec.specs.declared.types.Layout.{Layout};
ghost use Rattle.file_model.specs.Headers.{AreWhole, Met};
ghost use Rattle.header_reader.specs.Gathered.{Gathers, MakesNode};
ghost use Rattle.header_reader.specs.Told.{AreParts, Fit, IsSoundNode, TellsData};

use crate::kept::{Kept, keep, read_elem, read_filling, read_space, read_storage};
use dtype::{ElemType, PartStop, Shape};
use h5_base::{NoMemory, get_u64};
use header_codec::{Fill, Layout};
use std::alloc::Global;
use std::marker::Model;
use tree_nodes::Node;

// The types of the messages that decide (IV.A.2.b, d, e, f, h, i, l and r).
const DATASPACE: u16 = 0x1;

const DATATYPE: u16 = 0x3;

const OLD_FILL_VALUE: u16 = 0x4;

const FILL_VALUE: u16 = 0x5;

const EXTERNAL_FILES: u16 = 0x7;

const LAYOUT: u16 = 0x8;

const FILTER_PIPELINE: u16 = 0xB;

const SYMBOL_TABLE: u16 = 0x11;

/// The messages of one object header as far as they decide what the object is: of each type the first one met.
#[derive(Debug, Drop)]
pub(crate) struct Messages {
    space: Option<Kept>,
    elem: Option<Kept>,
    fill: Option<Kept>,
    layout: Option<Kept>,
    table: Option<Kept>,
    old_fill: bool,
    files: bool,
    filters: bool,
}

impl Model for Messages {
    ghost use Rattle.header_reader.specs.Firsts.{Firsts};

    ghost Value = { Firsts };

    ghost use Rattle.header_reader.specs.Seen.{firsts_of};

    ghost view = { firsts_of };
}

impl Messages {
    /// Of a header of which no message was met yet. It takes no memory.
    pub fn new() -> Messages
        ensures { Gathers result [] }
    {
        Messages {
            space: None,
            elem: None,
            fill: None,
            layout: None,
            table: None,
            old_fill: false,
            files: false,
            filters: false,
        }
    }

    /// Takes in the next message of the header: its type, its flags, the address of its data, and these. The data are
    /// copied where they may count, and then only of the first message of their type.
    pub fn meet(
        &mut self,
        alloc: Global,
        kind: u16,
        flags: u8,
        at: u64,
        body: &[u8],
    ) -> Result<(), NoMemory>
        // It is one message more.
        ensures ok { OnOk result ((ms : List Met) → Gathers self.old ms
            → Gathers self.new (ms ++ record { kind = kind; flags = flags; at = at; body = body.now } ∷ [])) }
        // Without memory the message isn't met.
        ensures same { OnErr result ((ms : List Met) → Gathers self.old ms → Gathers self.new ms) }
    {
        match kind {
            DATASPACE => keep(alloc, &mut self.space, flags, at, body),
            DATATYPE => keep(alloc, &mut self.elem, flags, at, body),
            FILL_VALUE => keep(alloc, &mut self.fill, flags, at, body),
            LAYOUT => keep(alloc, &mut self.layout, flags, at, body),
            SYMBOL_TABLE => keep(alloc, &mut self.table, flags, at, body),
            OLD_FILL_VALUE => {
                self.old_fill = true;
                Ok(())
            }
            EXTERNAL_FILES => {
                self.files = true;
                Ok(())
            }
            FILTER_PIPELINE => {
                self.filters = true;
                Ok(())
            }
            _ => Ok(()),
        }
    }

    /// The object at an address that the messages make, once all of its header are met. A header whose symbol table
    /// message has fewer than 16 bytes, which isn't whole, makes no group.
    pub fn node(&self, alloc: Global, header_at: u64) -> Result<Node, NoMemory>
        ensures made { IfOk result (λ n. (ms : List Met) → Gathers self.now ms → AreWhole ms
            → MakesNode ms header_at n) }
        // Whatever was met, the parts of a dataset fit one another.
        ensures sound { IfOk result IsSoundNode }
    {
        if let Some(table) = &self.table {
            return Ok(group(table.body.as_slice(), header_at));
        }
        match self.dataset(alloc, header_at) {
            Ok(node) => Ok(node),
            Err(PartStop::Other) => Ok(Node::Other { header_at }),
            Err(PartStop::NoMemory) => Err(NoMemory),
        }
    }

    // The dataset that the messages make; `Other` where they make none.
    fn dataset(&self, alloc: Global, header_at: u64) -> Result<Node, PartStop>
        ensures found { IfOk result (λ n. TellsData self.now header_at n) }
        ensures other { result ≡ Err PartStop.Other → (shape : Shape) → (elem : ElemType) → (fill : Fill)
            → (layout : Layout) → AreParts self.now shape elem fill layout → ⊥ }
    {
        if self.files {
            return Err(PartStop::Other);
        }
        let shape = read_space(alloc, &self.space)?;
        let elem = read_elem(&self.elem)?;
        let layout = read_storage(alloc, &self.layout)?;
        let fill = read_filling(alloc, &self.fill, self.old_fill, elem.size())?;
        if !fit(&shape, elem, &layout) {
            return Err(PartStop::Other);
        }
        Ok(Node::Dataset {
            header_at,
            shape,
            elem,
            fill,
            layout,
            filtered: self.filters,
        })
    }
}

// The group of a whole symbol table message.
fn group(table: &[u8], header_at: u64) -> Node
    ensures made { 16 ≤ length table.now
        → result ≡ Node.Group header_at (u64_at table.now 0) (u64_at table.now 8) }
    ensures sound { IsSoundNode result }
{
    match (get_u64(table, 0), get_u64(table, 8)) {
        (Some(tree_at), Some(heap_at)) => Node::Group {
            header_at,
            tree_at,
            heap_at,
        },
        _ => Node::Other { header_at },
    }
}

// Whether all elements have few enough bytes together, and can be stored so.
fn fit(shape: &Shape, elem: ElemType, layout: &Layout) -> bool
    ensures { IsTrue result ↔ Fit shape.now elem layout.now }
{
    shape.dims.byte_len(elem.size()).is_some() && layout.is_of_shape(shape.dims.len(), elem.size())
}
