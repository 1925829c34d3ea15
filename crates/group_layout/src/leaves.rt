ghost use Rattle.std.specs.Prelude.{◌≡◌, ◌≤◌, length, map, All, IfOk};
ghost use Rattle.outside.specs.Array.{Array};
ghost use Rattle.node_codec.specs.Snod.{FitsSnod, IsCache};
ghost use Rattle.file_model.specs.Groups.{leaf_block};
ghost use Rattle.plan_pieces.specs.Images.{HaveImages, image_blocks};
ghost use Rattle.group_layout.specs.Leaves.{AreLeavesSpelled};
ghost use Rattle.group_layout.specs.Placing.{IsLeafImage};

use crate::keys::part_end;
use h5_base::{Bytes, NoMemory};
use node_codec::{SnodEntry, snod_size, write_snod};
use plan_pieces::Image;
use std::alloc::Global;
use super_codec::KValues;

/// So many bytes.
pub fn blank(alloc: Global, len: usize) -> Result<Vec<u8>, NoMemory>
    ensures { IfOk result (λ v. length v.items ≡ len) }
{
    match vec![in alloc; 0u8; len] {
        Ok(bytes) => Ok(bytes),
        Err(_) => Err(NoMemory),
    }
}

/// The block of a symbol table node.
fn leaf_image(alloc: Global, k: u16, at: u64, entries: &[SnodEntry]) -> Result<Image, NoMemory>
    requires k { k ≤ 1024 }
    requires fits { FitsSnod k entries.now }
    ensures { IfOk result (λ image. IsLeafImage k at entries.now image) }
{
    let Ok(entries) = Vec::from_slice(alloc, entries) else {
        return Err(NoMemory);
    };
    let mut bytes = blank(alloc, snod_size(k))?;
    write_snod(&entries, k, bytes.as_mut_slice());
    Ok(Image {
        at,
        bytes: Bytes::from_vec(bytes),
    })
}

/// The blocks of symbol table nodes at these addresses, filled with the entries from the left.
pub fn leaf_images(
    alloc: Global,
    ks: KValues,
    ats: &[u64],
    entries: &[SnodEntry],
) -> Result<Vec<Image>, NoMemory>
    requires k { ks.leaf ≤ 1024 }
    requires caches { All IsCache entries.now }
    ensures blocks { IfOk result (λ v. image_blocks v.items ≡ map (leaf_block ks) ats.now) }
    ensures spelled { IfOk result (λ v. (b : Array) → HaveImages b v.items
        → AreLeavesSpelled b ks ats.now entries.now) }
{
    let room = 2 * ks.leaf as usize;
    let mut images = Vec::new(alloc);
    let mut from = 0;
    for at in ats {
        let to = part_end(from, room, entries.len());
        let image = leaf_image(alloc, ks.leaf, *at, &entries[from..to])?;
        let Ok(()) = images.push(image) else {
            return Err(NoMemory);
        };
        from = to;
    }
    Ok(images)
}
