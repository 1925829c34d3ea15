ghost use Rattle.std.specs.Prelude.{◌≡◌, ◌/◌, ◌%◌, ◌==◌, ℕ, IfOk, OnErr, OnOk};
ghost use Rattle.dtype.specs.Shapes.{SpellsShape};
ghost use Rattle.dtype.specs.Types.{SpellsType};
ghost use Rattle.dtype.specs.declared.types.ElemType.{ElemType};
ghost use Rattle.dtype.specs.declared.types.Shape.{Shape};
ghost use Rattle.header_codec.specs.Fills.{IsOfSize, SpellsFill};
ghost use Rattle.header_codec.specs.Layouts.{SpellsLayout};
ghost use Rattle.header_codec.specs.declared.types.Fill.{Fill};
ghost use Rattle.header_codec.specs.declared.types.Layout.{Layout};
ghost use Rattle.header_reader.specs.Seen.{met_of, or_first};
ghost use Rattle.header_reader.specs.Told.{Tells, TellsFill};

use dtype::{ElemType, PartStop, Shape, read_shape, read_type};
use h5_base::{Bytes, NoMemory};
use header_codec::{Fill, Layout, read_fill, read_layout};
use std::alloc::Global;

/// The first message of its type: its flags, its data, and the address at which these stand.
#[derive(Debug, Drop)]
pub(crate) struct Kept {
    pub(crate) flags: u8,
    pub(crate) at: u64,
    pub(crate) body: Bytes,
}

impl Kept {
    // Bit 1 of the flags: the data stand elsewhere.
    fn is_shared(&self) -> bool
        ensures { result ≡ (self.now.flags / 2 % 2 == 1) }
    {
        self.flags / 2 % 2 == 1
    }
}

// Keeps the message where it is the first for this place.
pub(crate) fn keep(
    alloc: Global,
    place: &mut Option<Kept>,
    flags: u8,
    at: u64,
    body: &[u8],
) -> Result<(), NoMemory>
    ensures kept { OnOk result ((kind : ℕ) → met_of kind place.new ≡ or_first (met_of kind place.old)
        (record { kind = kind; flags = flags; at = at; body = body.now })) }
    ensures same { OnErr result (place.new ≡ place.old) }
{
    if place.is_none() {
        *place = Some(Kept {
            flags,
            at,
            body: Bytes::from_slice(alloc, body)?,
        });
    }
    Ok(())
}

// The shape that the dataspace message tells; `Other` where it tells none.
pub(crate) fn read_space(alloc: Global, place: &Option<Kept>) -> Result<Shape, PartStop>
    ensures found { IfOk result (λ s. Tells SpellsShape (met_of 0x1 place.now) s) }
    ensures other { result ≡ Err PartStop.Other → (s : Shape) → Tells SpellsShape (met_of 0x1 place.now) s → ⊥ }
{
    match place {
        Some(message) if !message.is_shared() => read_shape(alloc, message.body.as_slice()),
        _ => Err(PartStop::Other),
    }
}

// The type of the elements that the datatype message tells.
pub(crate) fn read_elem(place: &Option<Kept>) -> Result<ElemType, PartStop>
    ensures found { IfOk result (λ t. Tells SpellsType (met_of 0x3 place.now) t) }
    ensures other { result ≡ Err PartStop.Other → (t : ElemType) → Tells SpellsType (met_of 0x3 place.now) t → ⊥ }
{
    match place {
        Some(message) if !message.is_shared() => {
            read_type(message.body.as_slice()).ok_or(PartStop::Other)
        }
        _ => Err(PartStop::Other),
    }
}

// The layout that the layout message tells.
pub(crate) fn read_storage(alloc: Global, place: &Option<Kept>) -> Result<Layout, PartStop>
    ensures found { IfOk result (λ l. Tells SpellsLayout (met_of 0x8 place.now) l) }
    ensures other { result ≡ Err PartStop.Other → (l : Layout) → Tells SpellsLayout (met_of 0x8 place.now) l → ⊥ }
{
    match place {
        Some(message) if !message.is_shared() => read_layout(alloc, message.body.as_slice()),
        _ => Err(PartStop::Other),
    }
}

// The fill value of elements of so many bytes.
pub(crate) fn read_filling(
    alloc: Global,
    place: &Option<Kept>,
    old_fill: bool,
    size: u32,
) -> Result<Fill, PartStop>
    ensures found { IfOk result (λ f. TellsFill old_fill size (met_of 0x5 place.now) f) }
    ensures other { result ≡ Err PartStop.Other → (f : Fill) → TellsFill old_fill size (met_of 0x5 place.now) f → ⊥ }
{
    match place {
        None if old_fill => Err(PartStop::Other),
        None => Ok(Fill::Zeros),
        Some(message) if message.is_shared() => Err(PartStop::Other),
        Some(message) => read_sized_fill(alloc, message.body.as_slice(), size),
    }
}

// The fill value that begins the bytes, where elements of so many bytes can have it.
fn read_sized_fill(alloc: Global, bytes: &[u8], size: u32) -> Result<Fill, PartStop>
    ensures found { IfOk result (λ f. SpellsFill f bytes.now × IsOfSize size f) }
    ensures other { result ≡ Err PartStop.Other → (f : Fill) → SpellsFill f bytes.now → IsOfSize size f → ⊥ }
{
    match read_fill(alloc, bytes) {
        Ok(fill) if fill.is_of_size(size) => Ok(fill),
        Ok(_) => Err(PartStop::Other),
        Err(stop) => Err(stop),
    }
}
