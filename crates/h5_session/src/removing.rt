ghost use Rattle.std.specs.Prelude.{◌≡◌, ◌<◌, List, IfErr, IfOk, IsTrue, length, true};
ghost use Rattle.outside.specs.Blocks.{Block};
ghost use Rattle.block_space.specs.Blocks.{Keeps};
ghost use Rattle.block_space.specs.Plans.{FitsCatalogue};
ghost use Rattle.object_model.specs.Tree.{last_of};
ghost use Rattle.object_model.specs.declared.command.Command.TheVariants as command;
ghost use Rattle.group_edit.specs.Edited.{Removes};
ghost use Rattle.group_lines.specs.Lines.{place_of};
ghost use Rattle.tree_places.specs.Kept.{CanRemove};
ghost use Rattle.session_model.specs.State.{State};
ghost use Rattle.h5_session.specs.Making.{CanDrop};
ghost use Rattle.h5_session.specs.Session.{IsIn, IsSound, space_in};
ghost use Rattle.h5_session.specs.Steps.{IsRefusedAs};
ghost use Rattle.h5_session.specs.Stops.{IsMalformed};
ghost use Rattle.h5_session.specs.Waits.{Waits};

use crate::session::Session;
use crate::stop::{StepStop, of_plan};
use block_space::EditPlan;
use group_edit::plan_remove;
use h5_base::LinkName;
use object_model::Code;
use outside::Space;
use std::alloc::Global;
use tree_nodes::NodeId;
use tree_places::{group_to_remove, last_of};

impl<V: Space> Session<V> {
    // The group from which `rm` removes the last name of a path, or why it doesn't: the space can't be written to, or
    // what the tree refuses.
    fn parent_to_drop(&self, path: &[LinkName]) -> Result<NodeId, Code>
        requires sound { IsSound V.view self.now }
        requires named { 0 < length path.now }
        ensures refused { IfErr result (λ why. (s : State) → IsIn V.view self.now s
            → IsRefusedAs V.view self.now s (command.Rm path.now) why) }
        ensures can { IfOk result (λ id. (s : State) → IsIn V.view self.now s → CanDrop self.now s path.now id) }
        ensures removes { IfOk result (CanRemove self.now.tree path.now) }
        ensures writable { IfOk result (λ id. (V.view (space_in self.now)).writable ≡ true) }
    {
        if !self.blocks.space().writable() {
            return Err(Code::ReadOnly);
        }
        match group_to_remove(&self.tree, path) {
            Ok(parent) => Ok(parent),
            Err(code) => Err(code),
        }
    }

    // Plans one link fewer in a group.
    fn plan_drop(
        &mut self,
        alloc: Global,
        parent: NodeId,
        path: &[LinkName],
    ) -> Result<EditPlan, StepStop>
        requires stands { V.Stands (space_in self.old) }
        requires sound { IsSound V.view self.old }
        requires named { 0 < length path.now }
        requires removes { CanRemove self.old.tree path.now parent }
        requires held { IsTrue V.tells → (s : State) × IsIn V.view self.old s × CanDrop self.old s path.now parent }
        ensures planned { IsTrue V.tells → (s : State) (can : CanDrop self.old s path.now parent) → IsIn V.view self.old s
            → IfOk result (Removes (V.view (space_in self.old)) (place_of s.super can.parent) (last_of path.now)) }
        ensures fits { IfOk result (λ plan. (met : List Block) → Keeps V.view self.old.blocks met
            → FitsCatalogue met plan) }
        ensures well { IsTrue V.tells → (s : State) → IsIn V.view self.old s → CanDrop self.old s path.now parent
            → IfErr result (λ stop. ¬ IsMalformed stop) }
        ensures waits { Waits V.view V.Alike V.faults self.old self.new result }
    {
        let group = self.place_of(parent);
        match plan_remove(alloc, &mut self.blocks, &group, last_of(path).as_slice()) {
            Ok(plan) => Ok(plan),
            Err(stop) => Err(of_plan(stop)),
        }
    }
}
