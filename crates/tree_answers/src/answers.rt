ghost use Rattle.std.specs.Prelude.{◌≡◌, ◌<◌, Some, IfOk, length, map, slice_get};
ghost use Rattle.object_model.specs.declared.command.Command.TheVariants as command;
ghost use Rattle.object_model.specs.Step.{Plain};
ghost use Rattle.script.specs.Print.{HasText};
ghost use Rattle.tree_nodes.specs.Nodes.{Kept};
ghost use Rattle.tree_nodes.specs.Entries.{entry_of, Has};
ghost use Rattle.object_tree.specs.Sound.{IsSoundTree};
ghost use Rattle.tree_answers.specs.Answers.{answer_to};
ghost use Rattle.tree_answers.specs.Kept.{line_by};
ghost use Rattle.tree_answers.specs.Shown.{IsTreeOf};

use crate::nodes::{shown_of, stat_of};
use crate::paths::find_group;
use h5_base::{LinkName, List, NoMemory};
use object_model::{Answer, Code, Command, LinkLine};
use std::alloc::Global;
use tree_nodes::{ChildLink, NodeId, ObjectTree};
use tree_places::find_node;

/// The line of a link.
fn line_of(alloc: Global, tree: &ObjectTree, link: &ChildLink) -> Result<LinkLine, NoMemory>
    requires { Has tree.now link.now.node }
    ensures { IfOk result (λ line. line ≡ line_by tree.now link.now) }
{
    Ok(LinkLine {
        name: LinkName::from_slice(alloc, link.name.as_slice())?,
        shown: shown_of(alloc, tree.node(link.node))?,
    })
}

/// The line of a node's link at a place in name order.
fn line_at(alloc: Global, tree: &ObjectTree, id: NodeId, k: u64) -> Result<LinkLine, NoMemory>
    requires sound { IsSoundTree tree.now }
    requires has { Has tree.now id }
    requires inside { (e : Kept) → entry_of tree.now id.key ≡ Some e → k < length e.links }
    ensures { (e : Kept) → entry_of tree.now id.key ≡ Some e
        → IfOk result (λ line. slice_get (map (line_by tree.now) e.links) k ≡ Some line) }
{
    match tree.child_at(id, k) {
        Some(link) => line_of(alloc, tree, link),
        None => unreachable!(),
    }
}

/// The line of each link of a node, in the order of their names.
fn lines_of(alloc: Global, tree: &ObjectTree, id: NodeId) -> Result<List<LinkLine>, NoMemory>
    requires sound { IsSoundTree tree.now }
    requires has { Has tree.now id }
    ensures { (e : Kept) → entry_of tree.now id.key ≡ Some e
        → IfOk result (λ lines. lines ≡ map (line_by tree.now) e.links) }
{
    let mut lines = Vec::new(alloc);
    for k in 0..tree.links(id) {
        let line = line_at(alloc, tree, id, k)?;
        if lines.push(line).is_err() {
            return Err(NoMemory);
        }
    }
    Ok(List::from_vec(lines))
}

/// What `ls` of a path is answered.
fn ls(alloc: Global, tree: &ObjectTree, path: &[LinkName]) -> Result<Answer, NoMemory>
    requires { IsSoundTree tree.now }
    ensures answered { IfOk result (λ a. (t : Plain) → IsTreeOf tree.now t
        → a ≡ answer_to t (Some (command.Ls path.now))) }
    ensures text { IfOk result HasText }
{
    match find_group(tree, path) {
        Ok(id) => Ok(Answer::Links {
            items: lines_of(alloc, tree, id)?,
        }),
        Err(code) => Ok(Answer::No { code }),
    }
}

/// What `stat` of a path is answered.
fn stat(alloc: Global, tree: &ObjectTree, path: &[LinkName]) -> Result<Answer, NoMemory>
    requires { IsSoundTree tree.now }
    ensures answered { IfOk result (λ a. (t : Plain) → IsTreeOf tree.now t
        → a ≡ answer_to t (Some (command.Stat path.now))) }
    ensures text { IfOk result HasText }
{
    match find_node(tree, path) {
        Ok(id) => stat_of(alloc, tree.node(id), tree.links(id)),
        Err(code) => Ok(Answer::No { code }),
    }
}

/// What a command is answered from the tree of an opened file: the reply of its step, or `NotBuilt` where it isn't
/// given yet. It takes memory for the answer alone, and fails only for want of it.
pub fn answer(alloc: Global, tree: &ObjectTree, command: &Command) -> Result<Answer, NoMemory>
    // Each node can be shown, as it is of each tree that `open_tree` answers, whatever the space tells.
    requires { IsSoundTree tree.now }
    ensures answered { IfOk result (λ a. (t : Plain) → IsTreeOf tree.now t → a ≡ answer_to t (Some command.now)) }
    // It can be printed.
    ensures text { IfOk result HasText }
{
    match command {
        Command::Ls { path } => ls(alloc, tree, path.as_slice()),
        Command::Stat { path } => stat(alloc, tree, path.as_slice()),
        _ => Ok(Answer::No {
            code: Code::NotBuilt,
        }),
    }
}
