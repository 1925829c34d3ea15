ghost use Rattle.std.specs.Prelude.{◌≡◌, Ok, Err, IfOk, MatchResult};
ghost use Rattle.object_model.specs.Tree.{Group};
ghost use Rattle.object_model.specs.Step.{Plain, PlainLinks};
ghost use Rattle.tree_nodes.specs.Entries.{Has};
ghost use Rattle.object_tree.specs.Sound.{IsSoundTree};
ghost use Rattle.tree_answers.specs.Kept.{IsAt, links_behind};
ghost use Rattle.tree_answers.specs.Shown.{IsTreeOf};

use h5_base::LinkName;
use object_model::Code;
use tree_nodes::{Node, NodeId, ObjectTree};
use tree_places::find_node;

/// The group that a path leads to: `NotGroup` where it leads to something else.
pub(crate) fn find_group(tree: &ObjectTree, path: &[LinkName]) -> Result<NodeId, Code>
    requires { IsSoundTree tree.now }
    ensures has { IfOk result (Has tree.now) }
    ensures found { (t : Plain) → IsTreeOf tree.now t
        → MatchResult result (λ id. (ls : PlainLinks) × (links_behind t path.now ≡ Ok ls)
        × IsAt tree.now id (Group tt ls))
        (λ code. links_behind t path.now ≡ Err code) }
{
    let id = find_node(tree, path)?;
    match tree.node(id) {
        Node::Group { .. } => Ok(id),
        _ => Err(Code::NotGroup),
    }
}
