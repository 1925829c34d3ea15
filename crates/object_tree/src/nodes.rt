ghost use Rattle.std.specs.Prelude.{◌≡◌, ◌<◌, ◌++◌, ℕ, List, Option, false, IsTrue, IfOk, IfErr, IfSome, IfNone, OnOk};
ghost use Rattle.std.specs.Prelude.{IsErrOf};
ghost use Rattle.outside.specs.Blocks.{Block};
ghost use Rattle.outside.specs.Causes.{OneRose};
ghost use Rattle.outside.specs.Space.{bounds_of};
ghost use Rattle.block_space.specs.Blocks.{Keeps, Takes, Refuses, array_of, space_of};
ghost use Rattle.h5_base.specs.Refusals.{refusal_of};
ghost use Rattle.file_model.specs.Limits.{most_objects};
ghost use Rattle.file_model.specs.RefusedTree.{IsRefusedWith, IsObjectRefused};
ghost use Rattle.header_reader.specs.Found.{IsFound};
ghost use Rattle.header_reader.specs.Told.{IsSoundNode};
ghost use Rattle.header_reader.specs.declared.reading.Header.TheVariants as Header;
ghost use Rattle.tree_nodes.specs.Nodes.{is_dataset};
ghost use Rattle.object_tree.specs.Grown.{IsNodeFound, HasParts};

use block_space::Blocks;
use h5_base::{Refusal, Stop};
use header_reader::{Header, read_header};
use outside::Space;
use std::alloc::Global;
use storage_reader::{Elements, adopt_storage};
use super_codec::KValues;
use tree_nodes::Node;

// So many objects a file has at most.
const MOST_OBJECTS: u64 = 65_536;

// Reads the object at an address as far as it is its own: of a group the header, of a dataset also what is stored.
// There are so many objects already.
pub(crate) fn read_node<V: Space>(
    alloc: Global,
    blocks: &mut Blocks<V>,
    ks: KValues,
    at: u64,
    objects: u64,
) -> Result<Node, Stop>
    requires stands { V.Stands (space_of blocks.old) }
    requires listed { (met : List Block) × Keeps V.view blocks.old met }
    ensures found { IsTrue V.tells → IfOk result
        (λ n. Takes V.view blocks.old blocks.new (IsNodeFound (array_of V.view blocks.old) ks at n)) }
    ensures few { OnOk result (objects < most_objects) }
    ensures sound { IfOk result IsSoundNode }
    ensures refused { IsTrue V.tells → IfErr result (λ stop. (levels : ℕ) → Refuses V.view blocks.old (λ e met.
        IsRefusedWith (IsObjectRefused (array_of V.view blocks.old) e ks levels) (array_of V.view blocks.old) e ks
        levels objects met at) stop) }
    ensures alike { V.Alike (space_of blocks.old) (space_of blocks.new) }
    ensures listed { OnOk result ((met : List Block) × Keeps V.view blocks.new met) }
    ensures failed { IsErrOf result Stop.Failed
        → OneRose (V.faults (space_of blocks.old)) (V.faults (space_of blocks.new)) }
    ensures calm { ¬ IsErrOf result Stop.Failed
        → V.faults (space_of blocks.new) ≡ V.faults (space_of blocks.old) }
{
    if objects >= MOST_OBJECTS {
        return Err(Stop::Refused {
            why: Refusal::TooMany,
        });
    }
    match read_header(alloc, blocks, at) {
        Ok(Header::Later) => Ok(Node::Other { header_at: at }),
        Ok(Header::Known { node }) => match adopt_data(alloc, blocks, ks, &node) {
            Ok(()) => Ok(node),
            Err(stop) => Err(stop),
        },
        Err(stop) => Err(stop),
    }
}

// Takes what is stored of a dataset into the catalogue, after its header; another object has nothing more.
fn adopt_data<V: Space>(
    alloc: Global,
    blocks: &mut Blocks<V>,
    ks: KValues,
    node: &Node,
) -> Result<(), Stop>
    requires stands { V.Stands (space_of blocks.old) }
    requires listed { (met : List Block) × Keeps V.view blocks.old met }
    requires sound { IsSoundNode node.now }
    ensures found { IsTrue V.tells → OnOk result ((at : ℕ) (met bs : List Block)
        → IsFound (array_of V.view blocks.old) at (Header.Known node.now) bs → Keeps V.view blocks.old (met ++ bs)
        → (own : List Block) × IsNodeFound (array_of V.view blocks.old) ks at node.now own
        × Keeps V.view blocks.new (met ++ own)) }
    ensures refused { IsTrue V.tells → IfErr result
        (λ stop. (at levels objects : ℕ) (met bs : List Block) (own : Option (List ℕ)) → objects < most_objects
        → IsFound (array_of V.view blocks.old) at (Header.Known node.now) bs → Keeps V.view blocks.old (met ++ bs)
        → IfSome (refusal_of stop) (IsRefusedWith
        (IsObjectRefused (array_of V.view blocks.old) (bounds_of (V.view (space_of blocks.old)) own) ks levels)
        (array_of V.view blocks.old) (bounds_of (V.view (space_of blocks.old)) own) ks levels objects met at)) }
    ensures alike { V.Alike (space_of blocks.old) (space_of blocks.new) }
    ensures listed { OnOk result ((met : List Block) × Keeps V.view blocks.new met) }
    ensures failed { IsErrOf result Stop.Failed
        → OneRose (V.faults (space_of blocks.old)) (V.faults (space_of blocks.new)) }
    ensures calm { ¬ IsErrOf result Stop.Failed
        → V.faults (space_of blocks.new) ≡ V.faults (space_of blocks.old) }
{
    match elements_of(node) {
        Some(elements) => adopt_storage(alloc, blocks, elements, ks.chunk),
        None => Ok(()),
    }
}

// The elements of a dataset; nothing of another object.
fn elements_of(node: &Node) -> Option<Elements<'_>>
    ensures parts { IfSome result (HasParts node.now) }
    ensures none { IfNone result (is_dataset node.now ≡ false) }
{
    match node {
        Node::Dataset {
            shape,
            elem,
            layout,
            filtered,
            ..
        } => Some(Elements {
            shape,
            elem: *elem,
            layout,
            filtered: *filtered,
        }),
        _ => None,
    }
}
