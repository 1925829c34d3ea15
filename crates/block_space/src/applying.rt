ghost use Rattle.std.specs.Prelude.{◌≡◌, ◌+◌, ◌<◌, ◌≤◌, ◌++◌, ◌∷◌, [], ℕ, List, length, drop, IsTrue, OnOk, OnErr};
ghost use Rattle.std.specs.List.{Contains};
ghost use Rattle.outside.specs.Array.{SameOutside, over};
ghost use Rattle.outside.specs.Blocks.{Block, most_blocks};
ghost use Rattle.outside.specs.Space.{HasCauses, IsReady, RaisedInPart, raised};
ghost use Rattle.block_space.specs.Applied.{Applies};
ghost use Rattle.block_space.specs.Blocks.{HasRoomNow, Keeps, spare_of, space_of};
ghost use Rattle.block_space.specs.Catalogue.{blocks_of};
ghost use Rattle.block_space.specs.Plans.{AreAsLong, EndsBehindNeeds, FitsCatalogue, LiesBeside, LiesBesideTake};
ghost use Rattle.block_space.specs.Plans.{LiesBesideWrites, LiesInOne, PlannedStays, RisenInPart, ends_after};
ghost use Rattle.block_space.specs.Plans.{padded_to, planned, rounded, taken_blocks, with_takes, with_writes};
ghost use Rattle.block_space.specs.Reserved.{IsReserved};
ghost use Rattle.block_space.specs.Written.{TellsAllWritten, planned_blocks, raised_blocks};
ghost use Rattle.h5_base.specs.declared.extent.Extent.{Extent};
ghost use Rattle.h5_base.specs.declared.extent.MemClass.{MemClass};

use crate::blocks::Blocks;
use crate::plan::{EditPlan, Take};
use outside::{Space, WriteStop};

impl<V: Space> Blocks<V> {
    // Takes a block with the bytes that it begins with; its others are 0.
    fn take_with(&mut self, take: Take, image: &[u8]) -> Result<(), WriteStop>
        requires stands { V.Stands (space_of self.old) }
        requires some { 0 < take.len }
        requires short { length image.now ≤ take.len }
        requires below { (V.view (space_of self.old)).ends take.class + rounded take.len
            ≤ ((V.view (space_of self.old)).regions take.class).limit }
        requires ready { IsReady (V.view (space_of self.old)) ((V.view (space_of self.old)).ends take.class)
            (rounded take.len) }
        requires spare { 0 < spare_of self.old }
        requires kept { (met : List Block) × Keeps V.view self.old met × (length met < most_blocks) }
        ensures array { IsTrue V.tells → OnOk result ((V.view (space_of self.new)).array
            ≡ over (V.view (space_of self.old)).array ((V.view (space_of self.old)).ends take.class)
            (padded_to (rounded take.len) image.now)) }
        ensures ends { OnOk result ((V.view (space_of self.new)).ends ≡ raised (V.view (space_of self.old)).regions
            (V.view (space_of self.old)).ends take.class
            ((V.view (space_of self.old)).ends take.class + rounded take.len)) }
        ensures prepared { OnOk result ((V.view (space_of self.new)).prepared ≡ (V.view (space_of self.old)).prepared) }
        ensures found { OnOk result ((met : List Block) → Keeps V.view self.old met → length met < most_blocks
            → Keeps V.view self.new (met
            ++ record { start = (V.view (space_of self.old)).ends take.class; len = take.len } ∷ [])) }
        ensures in_part { IsTrue V.tells → OnErr result (SameOutside ((V.view (space_of self.old)).ends take.class)
            (rounded take.len) (V.view (space_of self.old)).array (V.view (space_of self.new)).array) }
        ensures ends_in_part { RaisedInPart (V.view (space_of self.old)).regions (V.view (space_of self.old)).ends
            take.class ((V.view (space_of self.old)).ends take.class + rounded take.len)
            (V.view (space_of self.new)).ends }
        ensures history { IsTrue V.tells
            → OnOk result ((V.view (space_of self.new)).history ≡ (V.view (space_of self.old)).history) }
        ensures pages { OnOk result (TellsAllWritten
            (record { start = (V.view (space_of self.old)).ends take.class; len = rounded take.len } ∷ [])
            (V.view (space_of self.old)).committed (V.view (space_of self.new)).committed) }
        ensures spare { spare_of self.old ≤ spare_of self.new + 1 }
        ensures room { OnOk result (HasRoomNow V.view self.new) }
        ensures stands { OnOk result (V.Stands (space_of self.new)) }
        ensures cause { HasCauses (V.faults (space_of self.old)) (V.faults (space_of self.new))
            (V.copy_faults (space_of self.old)) (V.copy_faults (space_of self.new)) result }
        ensures steady { IsTrue V.tells_stops → V.Steady (space_of self.old)
            → OnOk result (V.Steady (space_of self.new)) }
        ensures edited { V.Edited (space_of self.old) (space_of self.new) }
    {
        let at = self.take(take.class, take.len, take.kind)?;
        if image.is_empty() {
            return Ok(());
        }
        self.patch(at, image)
    }

    // Takes the blocks of a plan.
    fn take_all(&mut self, plan: &EditPlan) -> Result<(), WriteStop>
        requires stands { V.Stands (space_of self.old) }
        requires reserved { (met : List Block) × Keeps V.view self.old met × FitsCatalogue met plan.now
            × IsReserved (V.view (space_of self.old)) (spare_of self.old) (length met) plan.now }
        ensures array { IsTrue V.tells → OnOk result ((V.view (space_of self.new)).array
            ≡ with_takes (V.view (space_of self.old)).regions (V.view (space_of self.old)).ends plan.now.takes
            (drop (length plan.now.writes) plan.now.images) (V.view (space_of self.old)).array) }
        ensures ends { OnOk result ((V.view (space_of self.new)).ends
            ≡ ends_after (V.view (space_of self.old)).regions (V.view (space_of self.old)).ends plan.now.takes) }
        ensures prepared { OnOk result ((V.view (space_of self.new)).prepared ≡ (V.view (space_of self.old)).prepared) }
        ensures found { OnOk result ((met : List Block) → Keeps V.view self.old met
            → Keeps V.view self.new (met ++ taken_blocks (V.view (space_of self.old)).regions
            (V.view (space_of self.old)).ends plan.now.takes)) }
        ensures in_part { IsTrue V.tells → OnErr result ((a : ℕ) → ((c : MemClass) → LiesBesideTake
            (V.view (space_of self.old)).regions (V.view (space_of self.old)).ends plan.now.takes a c)
            → (V.view (space_of self.new)).array a ≡ (V.view (space_of self.old)).array a) }
        ensures ends_in_part { RisenInPart (V.view (space_of self.old)).regions (V.view (space_of self.old)).ends
            plan.now.takes (V.view (space_of self.new)).ends }
        ensures history { IsTrue V.tells
            → OnOk result ((V.view (space_of self.new)).history ≡ (V.view (space_of self.old)).history) }
        ensures pages { OnOk result (TellsAllWritten
            (raised_blocks (V.view (space_of self.old)).regions (V.view (space_of self.old)).ends plan.now.takes)
            (V.view (space_of self.old)).committed (V.view (space_of self.new)).committed) }
        ensures spare { spare_of self.old ≤ spare_of self.new + length plan.now.takes }
        ensures room { OnOk result (HasRoomNow V.view self.new) }
        ensures stands { OnOk result (V.Stands (space_of self.new)) }
        ensures cause { HasCauses (V.faults (space_of self.old)) (V.faults (space_of self.new))
            (V.copy_faults (space_of self.old)) (V.copy_faults (space_of self.new)) result }
        ensures steady { IsTrue V.tells_stops → V.Steady (space_of self.old)
            → OnOk result (V.Steady (space_of self.new)) }
        ensures edited { V.Edited (space_of self.old) (space_of self.new) }
    {
        let (takes, images) = (plan.takes.as_slice(), plan.images.as_slice());
        let first = plan.writes.len();
        for i in 0..takes.len() {
            self.take_with(takes[i], images[first + i].as_slice())?;
        }
        Ok(())
    }

    // Writes the ranges of a plan, each of which lies within a block.
    fn write_all(&mut self, plan: &EditPlan) -> Result<(), WriteStop>
        requires stands { V.Stands (space_of self.old) }
        requires block { (met : List Block) × Keeps V.view self.old met
            × ((w : Extent) → Contains plan.now.writes w → LiesInOne met w.start w.len) }
        requires long { AreAsLong plan.now.writes plan.now.images }
        requires ready { (w : Extent) → Contains plan.now.writes w
            → IsReady (V.view (space_of self.old)) w.start w.len }
        requires room { HasRoomNow V.view self.old }
        ensures array { IsTrue V.tells → OnOk result ((V.view (space_of self.new)).array
            ≡ with_writes plan.now.writes plan.now.images (V.view (space_of self.old)).array) }
        ensures ends { (V.view (space_of self.new)).ends ≡ (V.view (space_of self.old)).ends }
        ensures prepared { OnOk result ((V.view (space_of self.new)).prepared ≡ (V.view (space_of self.old)).prepared) }
        ensures kept { (met : List Block) → Keeps V.view self.old met → Keeps V.view self.new met }
        ensures in_part { IsTrue V.tells → OnErr result ((a : ℕ) → LiesBesideWrites plan.now.writes a
            → (V.view (space_of self.new)).array a ≡ (V.view (space_of self.old)).array a) }
        ensures history { IsTrue V.tells
            → OnOk result ((V.view (space_of self.new)).history ≡ (V.view (space_of self.old)).history) }
        ensures pages { OnOk result (TellsAllWritten
            (blocks_of plan.now.writes)
            (V.view (space_of self.old)).committed (V.view (space_of self.new)).committed) }
        ensures spare { spare_of self.new ≡ spare_of self.old }
        ensures room { OnOk result (HasRoomNow V.view self.new) }
        ensures stands { OnOk result (V.Stands (space_of self.new)) }
        ensures cause { HasCauses (V.faults (space_of self.old)) (V.faults (space_of self.new))
            (V.copy_faults (space_of self.old)) (V.copy_faults (space_of self.new)) result }
        ensures steady { IsTrue V.tells_stops → V.Steady (space_of self.old)
            → OnOk result (V.Steady (space_of self.new)) }
        ensures edited { V.Edited (space_of self.old) (space_of self.new) }
    {
        let (writes, images) = (plan.writes.as_slice(), plan.images.as_slice());
        for i in 0..writes.len() {
            self.patch(writes[i].start, images[i].as_slice())?;
        }
        Ok(())
    }

    /// Does what a plan says that was reserved: takes its blocks in their order, each with its image, and writes its
    /// ranges. It takes no memory.
    pub fn apply(&mut self, plan: &EditPlan) -> Result<(), WriteStop>
        requires stands { V.Stands (space_of self.old) }
        requires reserved { (met : List Block) × Keeps V.view self.old met × FitsCatalogue met plan.now
            × IsReserved (V.view (space_of self.old)) (spare_of self.old) (length met) plan.now }
        ensures applies { Applies V.view V.tells self.old self.new plan.now result }
        ensures stands { OnOk result (V.Stands (space_of self.new)) }
        ensures cause { HasCauses (V.faults (space_of self.old)) (V.faults (space_of self.new))
            (V.copy_faults (space_of self.old)) (V.copy_faults (space_of self.new)) result }
        ensures steady { IsTrue V.tells_stops → V.Steady (space_of self.old)
            → OnOk result (V.Steady (space_of self.new)) }
        ensures edited { V.Edited (space_of self.old) (space_of self.new) }
    {
        self.take_all(plan)?;
        self.write_all(plan)
    }
}

/// What lies beside what a plan writes and takes stays.
pub fn planned_stays()
    ensures { PlannedStays }
{}

/// The ends behind the takes of a plan are those behind its needs.
pub fn ends_behind_needs()
    ensures { EndsBehindNeeds }
{}
