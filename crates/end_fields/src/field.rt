ghost use Rattle.std.specs.Prelude.{◌≡◌, ◌↔◌, ◌+◌, ◌≤◌, ◌∷◌, ◌<◌, ◌^◌, ℕ, [], List, IsTrue, IfOk, OnOk, OnErr};
ghost use Rattle.std.specs.Prelude.{IsErrOf};
ghost use Rattle.std.specs.Int.{w64, to_le_bytes};
ghost use Rattle.h5_base.specs.Fields.{u64_at};
ghost use Rattle.outside.specs.Array.{SameOutside, bytes_of};
ghost use Rattle.outside.specs.Blocks.{Block};
ghost use Rattle.outside.specs.Causes.{OneRose};
ghost use Rattle.outside.specs.Space.{HasCauses, IsReady};
ghost use Rattle.block_space.specs.Blocks.{HasRoomNow, Keeps, spare_of, space_of};
ghost use Rattle.block_space.specs.Plans.{LiesInOne};
ghost use Rattle.block_space.specs.Written.{TellsAllWritten};
ghost use Rattle.file_model.specs.EditLaws.{end_place};
ghost use Rattle.session_model.specs.EndFields.{number_at};
ghost use Rattle.end_fields.specs.Field.{IsNumber, IsTold, MayWrite, PutsEnd, ReadThenEdited, TellsEnd, field_of};

use crate::ends::logical_end;
use block_space::Blocks;
use h5_base::Extent;
use outside::{Failed, Space, WriteStop};

/// Where a superblock of a version tells the end of the file: 8 bytes.
pub fn end_range(version: u8) -> Extent
    ensures start { result.start ≡ end_place version }
    ensures len { result.len ≡ 8 }
{
    let base = if version == 1 { 28 } else { 24 };
    Extent {
        start: base + 16,
        len: 8,
    }
}

// The number that 8 bytes spell, the low byte first.
#[tactic(auto, unfolding(h5_base::specs::Fields::u64_at))]
fn number_of(bytes: [u8; 8]) -> u64
    ensures number { result ≡ u64_at bytes 0 }
    ensures spelled { to_le_bytes w64 result ≡ bytes }
{
    u64::from_le_bytes(bytes)
}

// The number that the field tells.
fn told_end<V: Space>(blocks: &mut Blocks<V>, version: u8) -> Result<u64, Failed>
    requires stands { V.Stands (space_of blocks.old) }
    ensures told { IsTrue V.tells → IfOk result (λ n. n
        ≡ number_at (V.view (space_of blocks.old)).array (end_place version)) }
    ensures spelled { IsTrue V.tells → OnOk result (IsNumber (V.view (space_of blocks.old)).array
        (end_place version)) }
    ensures kept { (met : List Block) → Keeps V.view blocks.old met → Keeps V.view blocks.new met }
    ensures spare { spare_of blocks.new ≡ spare_of blocks.old }
    ensures alike { V.Alike (space_of blocks.old) (space_of blocks.new) }
    ensures failed { OnErr result (OneRose (V.faults (space_of blocks.old)) (V.faults (space_of blocks.new))) }
    ensures calm { OnOk result (V.faults (space_of blocks.new) ≡ V.faults (space_of blocks.old)) }
{
    let mut bytes = [0u8; 8];
    blocks.read(end_range(version).start, &mut bytes)?;
    Ok(number_of(bytes))
}

/// Whether the end field tells the end. It takes no memory.
pub fn tells_end<V: Space>(blocks: &mut Blocks<V>, version: u8) -> Result<bool, Failed>
    requires stands { V.Stands (space_of blocks.old) }
    ensures told { IsTrue V.tells → IfOk result (λ right. IsTrue right ↔ IsTold version
        (V.view (space_of blocks.old)) (V.view (space_of blocks.old)).array) }
    ensures spelled { IsTrue V.tells → OnOk result (IsNumber (V.view (space_of blocks.old)).array
        (end_place version)) }
    ensures kept { (met : List Block) → Keeps V.view blocks.old met → Keeps V.view blocks.new met }
    ensures spare { spare_of blocks.new ≡ spare_of blocks.old }
    ensures alike { V.Alike (space_of blocks.old) (space_of blocks.new) }
    ensures failed { OnErr result (OneRose (V.faults (space_of blocks.old)) (V.faults (space_of blocks.new))) }
    ensures calm { OnOk result (V.faults (space_of blocks.new) ≡ V.faults (space_of blocks.old)) }
{
    let end = logical_end(blocks.space());
    Ok(told_end(blocks, version)? == end)
}

/// Writes the end into the end field, whatever it tells. It takes no memory.
pub fn write_end<V: Space>(blocks: &mut Blocks<V>, version: u8) -> Result<(), WriteStop>
    requires stands { V.Stands (space_of blocks.old) }
    requires block { (met : List Block) × Keeps V.view blocks.old met × LiesInOne met (end_place version) 8 }
    requires ready { IsReady (V.view (space_of blocks.old)) (end_place version) 8 }
    ensures tells { IsTrue V.tells → OnOk result (TellsEnd version (V.view (space_of blocks.old))
        (V.view (space_of blocks.new))) }
    ensures told_main { IsTrue V.tells → IsErrOf result WriteStop.WoFailed
        → IsTold version (V.view (space_of blocks.old)) (V.view (space_of blocks.new)).array }
    ensures in_part { IsTrue V.tells → OnErr result (SameOutside (end_place version) 8
        (V.view (space_of blocks.old)).array (V.view (space_of blocks.new)).array) }
    ensures ends { (V.view (space_of blocks.new)).ends ≡ (V.view (space_of blocks.old)).ends }
    ensures prepared { OnOk result
        ((V.view (space_of blocks.new)).prepared ≡ (V.view (space_of blocks.old)).prepared) }
    ensures pages { OnOk result (TellsAllWritten (field_of version ∷ [])
        (V.view (space_of blocks.old)).committed (V.view (space_of blocks.new)).committed) }
    ensures kept { (met : List Block) → Keeps V.view blocks.old met → Keeps V.view blocks.new met }
    ensures spare { spare_of blocks.new ≡ spare_of blocks.old }
    ensures room { OnOk result (HasRoomNow V.view blocks.new) }
    ensures stands { OnOk result (V.Stands (space_of blocks.new)) }
    ensures cause { HasCauses (V.faults (space_of blocks.old)) (V.faults (space_of blocks.new))
        (V.copy_faults (space_of blocks.old)) (V.copy_faults (space_of blocks.new)) result }
    ensures steady { IsTrue V.tells_stops → V.Steady (space_of blocks.old)
        → OnOk result (V.Steady (space_of blocks.new)) }
    ensures edited { V.Edited (space_of blocks.old) (space_of blocks.new) }
{
    let end = logical_end(blocks.space());
    blocks.patch(end_range(version).start, &end.to_le_bytes())
}

/// Writes the end field where it doesn't tell the end. It takes no memory.
pub fn put_end<V: Space>(blocks: &mut Blocks<V>, version: u8) -> Result<(), WriteStop>
    requires stands { V.Stands (space_of blocks.old) }
    requires block { (met : List Block) × Keeps V.view blocks.old met × LiesInOne met (end_place version) 8 }
    requires ready { IsReady (V.view (space_of blocks.old)) (end_place version) 8 }
    ensures puts { IsTrue V.tells → OnOk result (PutsEnd version (V.view (space_of blocks.old))
        (V.view (space_of blocks.new))) }
    ensures told_main { IsTrue V.tells → IsErrOf result WriteStop.WoFailed
        → IsTold version (V.view (space_of blocks.old)) (V.view (space_of blocks.new)).array }
    ensures in_part { IsTrue V.tells → OnErr result (SameOutside (end_place version) 8
        (V.view (space_of blocks.old)).array (V.view (space_of blocks.new)).array) }
    ensures ends { (V.view (space_of blocks.new)).ends ≡ (V.view (space_of blocks.old)).ends }
    ensures prepared { OnOk result
        ((V.view (space_of blocks.new)).prepared ≡ (V.view (space_of blocks.old)).prepared) }
    ensures pages { OnOk result (MayWrite version
        (V.view (space_of blocks.old)).committed (V.view (space_of blocks.new)).committed) }
    ensures kept { (met : List Block) → Keeps V.view blocks.old met → Keeps V.view blocks.new met }
    ensures spare { spare_of blocks.new ≡ spare_of blocks.old }
    ensures room { OnOk result (HasRoomNow V.view blocks.new) }
    ensures stands { OnOk result (V.Stands (space_of blocks.new)) }
    ensures cause { HasCauses (V.faults (space_of blocks.old)) (V.faults (space_of blocks.new))
        (V.copy_faults (space_of blocks.old)) (V.copy_faults (space_of blocks.new)) result }
    ensures steady { IsTrue V.tells_stops → V.Steady (space_of blocks.old)
        → OnOk result (V.Steady (space_of blocks.new)) }
    ensures edited { ReadThenEdited V.Alike V.Edited (space_of blocks.old) (space_of blocks.new) }
{
    match tells_end(blocks, version) {
        Ok(true) => Ok(()),
        Ok(false) => write_end(blocks, version),
        Err(Failed) => Err(WriteStop::Failed),
    }
}
