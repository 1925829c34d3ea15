ghost use Rattle.std.specs.Prelude.{◌≡◌, ◌<◌, ℤ, List, IfErr, IfOk, IsTrue, length, true};
ghost use Rattle.outside.specs.Blocks.{Block};
ghost use Rattle.block_space.specs.Blocks.{Keeps};
ghost use Rattle.block_space.specs.Plans.{FitsCatalogue};
ghost use Rattle.object_model.specs.Tree.{last_of};
ghost use Rattle.object_model.specs.declared.command.Command.TheVariants as command;
ghost use Rattle.group_edit.specs.Links.{IsNewName};
ghost use Rattle.group_lines.specs.Lines.{place_of};
ghost use Rattle.object_edit.specs.Making.{MakesGroup};
ghost use Rattle.tree_nodes.specs.Entries.{HasRoom};
ghost use Rattle.tree_places.specs.Kept.{CanAdd};
ghost use Rattle.session_model.specs.State.{State, full_of};
ghost use Rattle.session_model.specs.TooLarge.{IsObjectOver};
ghost use Rattle.h5_session.specs.Making.{CanMake, IsAdmitted, node_at};
ghost use Rattle.h5_session.specs.Session.{IsIn, IsSound, space_in};
ghost use Rattle.h5_session.specs.Steps.{IsRefusedAs, Leaves, StepsFrom};
ghost use Rattle.h5_session.specs.Stops.{IsMalformed};
ghost use Rattle.h5_session.specs.Waits.{Waits};

use crate::doing::{Outcome, do_plan};
use crate::session::Session;
use crate::stop::{StepStop, of_plan};
use group_rows::GroupAt;
use h5_base::LinkName;
use object_edit::{GroupPlan, plan_mkgroup};
use object_model::{Answer, Code};
use outside::Space;
use std::alloc::Global;
use tree_nodes::{Node, NodeId};
use tree_places::{group_to_add, insert_node, last_of, reserve_link};

/// An object lies at most so many links below the root.
const MOST_DEPTH: usize = 32;

/// So many groups, datasets and other objects a file has at most.
const MOST_OBJECTS: u64 = 65_536;

/// The node of a group.
fn node_at(at: &GroupAt) -> Node
    ensures { result ≡ node_at at.now }
{
    Node::Group {
        header_at: at.header_at,
        tree_at: at.tree_at,
        heap_at: at.heap_at,
    }
}

/// A new group that is planned, and the name of the link to it, for which there is room in the tree that is kept.
#[derive(Drop)]
struct NewGroup {
    made: GroupPlan,
    name: LinkName,
}

impl<V: Space> Session<V> {
    // Whether one object more at the end of a path is within the limits of a file's tree.
    fn admits(&self, path: &[LinkName]) -> bool
        ensures within { IsTrue result → IsAdmitted self.now path.now }
        ensures over { ¬ IsTrue result → (s : State) → IsIn V.view self.now s → IsObjectOver (full_of s) path.now }
    {
        path.len() <= MOST_DEPTH && self.tree.objects() < MOST_OBJECTS
    }

    // The group to which `mkgroup` adds the last name of a path, or why it doesn't: the space can't be written to, what
    // the tree refuses, or a limit of the tree.
    fn parent_to_add(&self, path: &[LinkName]) -> Result<NodeId, Code>
        requires sound { IsSound V.view self.now }
        requires named { 0 < length path.now }
        ensures refused { IfErr result (λ why. (s : State) → IsIn V.view self.now s
            → IsRefusedAs V.view self.now s (command.Mkgroup path.now) why) }
        ensures can { IfOk result (λ id. (s : State) → IsIn V.view self.now s → CanMake self.now s path.now id) }
        ensures adds { IfOk result (CanAdd self.now.tree path.now) }
        ensures writable { IfOk result (λ id. (V.view (space_in self.now)).writable ≡ true) }
    {
        if !self.blocks.space().writable() {
            return Err(Code::ReadOnly);
        }
        match group_to_add(&self.tree, path) {
            Ok(parent) if self.admits(path) => Ok(parent),
            Ok(_) => Err(Code::Limit),
            Err(code) => Err(code),
        }
    }

    // Plans a group behind a new name of a group.
    fn plan_group(
        &mut self,
        alloc: Global,
        parent: NodeId,
        path: &[LinkName],
    ) -> Result<NewGroup, StepStop>
        requires stands { V.Stands (space_in self.old) }
        requires sound { IsSound V.view self.old }
        requires named { 0 < length path.now }
        requires name { IsNewName (last_of path.now) }
        requires adds { CanAdd self.old.tree path.now parent }
        requires held { IsTrue V.tells → (s : State) × IsIn V.view self.old s × CanMake self.old s path.now parent }
        ensures planned { IsTrue V.tells → (s : State) (can : CanMake self.old s path.now parent) → IsIn V.view self.old s
            → IfOk result (λ new. MakesGroup (V.view (space_in self.old)) (place_of s.super can.parent)
            (last_of path.now) new.made) }
        ensures fits { IfOk result (λ new. (met : List Block) → Keeps V.view self.old.blocks met
            → FitsCatalogue met new.made.plan) }
        ensures name { IfOk result (λ new. new.name ≡ last_of path.now) }
        ensures room { IfOk result (λ new. HasRoom self.new.tree parent) }
        ensures well { IsTrue V.tells → (s : State) → IsIn V.view self.old s → CanMake self.old s path.now parent
            → IfErr result (λ stop. ¬ IsMalformed stop) }
        ensures waits { Waits V.view V.Alike V.faults self.old self.new result }
    {
        let group = self.place_of(parent);
        let made = match plan_mkgroup(alloc, &mut self.blocks, &group, last_of(path).as_slice()) {
            Ok(made) => made,
            Err(stop) => return Err(of_plan(stop)),
        };
        match reserve_link(alloc, &mut self.tree, parent, last_of(path)) {
            Ok(name) => Ok(NewGroup { made, name }),
            Err(_) => Err(StepStop::NoMemory),
        }
    }

    // Makes a group behind a new name of a group.
    fn make_group(
        &mut self,
        alloc: Global,
        parent: NodeId,
        path: &[LinkName],
    ) -> Result<Answer, StepStop>
        requires stands { V.Stands (space_in self.old) }
        requires sound { IsSound V.view self.old }
        requires named { 0 < length path.now }
        requires name { IsNewName (last_of path.now) }
        requires writable { (V.view (space_in self.old)).writable ≡ true }
        requires adds { CanAdd self.old.tree path.now parent }
        requires held { IsTrue V.tells → (s : State) × IsIn V.view self.old s × CanMake self.old s path.now parent }
        ensures steps { IsTrue V.tells → (s : State) (secs : ℤ) → IsIn V.view self.old s
            → CanMake self.old s path.now parent
            → StepsFrom V.view self.old self.new s (command.Mkgroup path.now) secs result }
        ensures leaves { Leaves V.view V.Stands V.GoesOn V.faults V.copy_faults self.old self.new result }
    {
        let NewGroup { made, name } = match self.plan_group(alloc, parent, path) {
            Ok(new) => new,
            Err(stop) => return Err(stop),
        };
        let closing = self.closing();
        match do_plan(alloc, &mut self.blocks, &made.plan, closing) {
            Ok(Outcome::Done) => {
                insert_node(&mut self.tree, parent, name, node_at(&made.at));
                self.edited = true;
                Ok(Answer::Done)
            }
            Ok(Outcome::Limit) => Ok(Answer::No { code: Code::Limit }),
            Ok(Outcome::Full { end, need }) => Ok(Answer::Full { end, need }),
            Err(stop) => Err(stop),
        }
    }

    /// A new group behind a path: the line `mkgroup`.
    pub(crate) fn mkgroup(&mut self, alloc: Global, path: &[LinkName]) -> Result<Answer, StepStop>
        requires stands { V.Stands (space_in self.old) }
        requires sound { IsSound V.view self.old }
        requires named { 0 < length path.now }
        requires name { IsNewName (last_of path.now) }
        requires held { IsTrue V.tells → (s : State) × IsIn V.view self.old s }
        ensures steps { IsTrue V.tells → (s : State) (secs : ℤ) → IsIn V.view self.old s
            → StepsFrom V.view self.old self.new s (command.Mkgroup path.now) secs result }
        ensures leaves { Leaves V.view V.Stands V.GoesOn V.faults V.copy_faults self.old self.new result }
    {
        match self.parent_to_add(path) {
            Ok(parent) => self.make_group(alloc, parent, path),
            Err(code) => Ok(Answer::No { code }),
        }
    }
}
