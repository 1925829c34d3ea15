ghost use Rattle.std.specs.Prelude.{◌≡◌, ◌+◌, ◌^◌, ◌<◌, ◌≤◌, ◌++◌, ◌∷◌, ◌↔◌, ◌⊎◌, [], List, IsTrue, IfOk};
ghost use Rattle.std.specs.Prelude.{IfErr, IfSome, IfNone, OnOk, IsErrOf, length};
ghost use Rattle.std.specs.List.{flat_map};
ghost use Rattle.h5_base.specs.Fields.{u64_at};
ghost use Rattle.header_codec.specs.Headers.{SpellsMessage};
ghost use Rattle.header_codec.specs.declared.types.Message.{Message};
ghost use Rattle.outside.specs.Array.{bytes_of};
ghost use Rattle.outside.specs.Blocks.{Block, placed};
ghost use Rattle.outside.specs.Causes.{OneRose};
ghost use Rattle.block_space.specs.Blocks.{Keeps, Refuses, array_of, space_of};
ghost use Rattle.file_model.specs.Headers.{Met, AreWhole, continued, first_block};
ghost use Rattle.file_model.specs.Limits.{most_header};
ghost use Rattle.file_model.specs.Refusals.{met_bytes};
ghost use Rattle.header_reader.specs.Gathered.{Gathers};
ghost use Rattle.header_reader.specs.Walks.{Meets, IsMessageAt, AreMessages, IsNameRefused, IsStepRefused, IsBlockStop};
ghost use Rattle.header_reader.specs.Walks.{waiting_of, named_by};

use crate::messages::Messages;
use block_space::Blocks;
use h5_base::{BlockKind, Extent, Stop, What, u64_of};
use header_codec::{Message, Prefix, read_message};
use outside::Space;
use std::alloc::Global;
use std::collections::VecDeque;

/// So many bytes a header has at most, its continuations included.
pub(crate) const MOST_BYTES: u64 = 1_048_576;

// The types of messages with two numbers (IV.A.2.q and r).
const CONTINUATION: u16 = 0x10;

const SYMBOL_TABLE: u16 = 0x11;

/// How far the messages of a header were met.
#[derive(Drop)]
pub(crate) struct Walk {
    /// What the messages make.
    pub messages: Messages,
    /// The blocks of messages that wait to be read, the next one first.
    pub waiting: VecDeque<Extent>,
    /// So many messages are still wanted.
    pub wanted: u16,
    /// The bytes of all blocks of the header that were met.
    pub total: u64,
}

// Whether messages of this type have two numbers.
fn has_numbers(kind: u16) -> bool
    ensures { IsTrue result ↔ (kind ≡ 0x10) ⊎ (kind ≡ 0x11) }
{
    kind == CONTINUATION || kind == SYMBOL_TABLE
}

// The message at a place, where it is whole: a continuation and a symbol table have two numbers of 8 bytes.
fn whole_message(bytes: &[u8], place: usize) -> Option<Message>
    ensures found { IfSome result (λ m. SpellsMessage m bytes.now place) }
    ensures whole { IfSome result (λ m. (m.kind ≡ 0x10) ⊎ (m.kind ≡ 0x11) → 16 ≤ m.len) }
    ensures only { IfNone result ((m : Message) → SpellsMessage m bytes.now place
        → ((m.kind ≡ 0x10) ⊎ (m.kind ≡ 0x11) → 16 ≤ m.len) → ⊥) }
{
    let message = read_message(bytes, place)?;
    if has_numbers(message.kind) && message.len < 16 {
        return None;
    }
    Some(message)
}

impl Walk {
    /// Of a header of which nothing was met but its prefix, at an address.
    pub fn begin(alloc: Global, at: u64, prefix: Prefix) -> Result<Walk, Stop>
        requires short { 16 + prefix.size ≤ most_header }
        requires fits { at + 16 + prefix.size < 2 ^ 64 }
        ensures gathered { IfOk result (λ walk. Gathers walk.messages []) }
        ensures waiting { IfOk result (λ walk. waiting_of walk ≡ first_block at prefix ∷ []) }
        ensures wanted { IfOk result (λ walk. walk.wanted ≡ prefix.messages) }
        ensures total { IfOk result (λ walk. walk.total ≡ 16 + prefix.size) }
        ensures memory { IfErr result (λ stop. stop ≡ Stop.NoMemory) }
    {
        let len = u64::from(prefix.size);
        let mut waiting = VecDeque::new(alloc);
        waiting.push_back(Extent {
            start: at + 16,
            len,
        })?;
        Ok(Walk {
            messages: Messages::new(),
            waiting,
            wanted: prefix.messages,
            total: 16 + len,
        })
    }

    // Takes the block of a continuation into the catalogue, where it isn't empty: then it waits.
    fn name_block<V: Space>(
        &mut self,
        blocks: &mut Blocks<V>,
        start: u64,
        len: u64,
    ) -> Result<(), Stop>
        requires stands { V.Stands (space_of blocks.old) }
        requires short { self.old.total ≤ most_header }
        ensures kept { OnOk result ((met : List Block) → Keeps V.view blocks.old met
            → Keeps V.view blocks.new (met ++ placed start len)) }
        ensures waiting { OnOk result (waiting_of self.new ≡ waiting_of self.old ++ placed start len) }
        ensures total { OnOk result (self.new.total ≡ self.old.total + len) }
        ensures short { OnOk result (self.new.total ≤ most_header) }
        ensures messages { self.new.messages ≡ self.old.messages }
        ensures wanted { self.new.wanted ≡ self.old.wanted }
        ensures refused { IfErr result (Refuses V.view blocks.old
            (λ e met r. IsNameRefused e met self.old.total start len r)) }
        ensures no_fault { ¬ IsErrOf result Stop.Failed }
        ensures space { space_of blocks.new ≡ space_of blocks.old }
    {
        if len > MOST_BYTES - self.total {
            return Err(Stop::unsupported(What::Header));
        }
        blocks.adopt_placed(start, len, BlockKind::Header)?;
        if len > 0 {
            self.waiting.push_back(Extent { start, len })?;
        }
        self.total += len;
        Ok(())
    }

    // Takes the block that a message names, where it is a continuation.
    fn follow<V: Space>(
        &mut self,
        blocks: &mut Blocks<V>,
        kind: u16,
        body: &[u8],
    ) -> Result<(), Stop>
        requires stands { V.Stands (space_of blocks.old) }
        requires short { self.old.total ≤ most_header }
        requires whole { kind ≡ 0x10 → 16 ≤ length body.now }
        ensures kept { OnOk result ((met : List Block) → Keeps V.view blocks.old met
            → Keeps V.view blocks.new (met ++ named_by kind body.now)) }
        ensures waiting { OnOk result (waiting_of self.new ≡ waiting_of self.old ++ named_by kind body.now) }
        ensures total { OnOk result (self.new.total ≡ self.old.total + met_bytes (named_by kind body.now)) }
        ensures short { OnOk result (self.new.total ≤ most_header) }
        ensures messages { self.new.messages ≡ self.old.messages }
        ensures wanted { self.new.wanted ≡ self.old.wanted }
        ensures refused { IfErr result (Refuses V.view blocks.old (λ e met r. (kind ≡ 0x10)
            × IsNameRefused e met self.old.total (u64_at body.now 0) (u64_at body.now 8) r)) }
        ensures no_fault { ¬ IsErrOf result Stop.Failed }
        ensures space { space_of blocks.new ≡ space_of blocks.old }
    {
        if kind != CONTINUATION {
            return Ok(());
        }
        self.name_block(blocks, u64_of(body, 0), u64_of(body, 8))
    }

    // Meets the message at a place of a block that begins at `start`, and says where the next one stands.
    fn meet_at<V: Space>(
        &mut self,
        alloc: Global,
        blocks: &mut Blocks<V>,
        start: u64,
        bytes: &[u8],
        place: usize,
    ) -> Result<usize, Stop>
        requires stands { V.Stands (space_of blocks.old) }
        requires short { self.old.total ≤ most_header }
        requires wanted { 0 < self.old.wanted }
        requires fits { start + length bytes.now < 2 ^ 64 }
        requires room { place + 8 ≤ length bytes.now }
        ensures found { IfOk result (λ next. (m : Met) × IsMessageAt start bytes.now place m
            × (next ≡ place + 8 + length m.body) × Meets self.old self.new (m ∷ [])
            × ((met : List Block) → Keeps V.view blocks.old met → Keeps V.view blocks.new (met ++ continued m))) }
        ensures within { IfOk result (λ next. next ≤ length bytes.now) }
        ensures refused { IfErr result (Refuses V.view blocks.old
            (λ e met r. IsStepRefused e met self.old.total start bytes.now place r)) }
        ensures no_fault { ¬ IsErrOf result Stop.Failed }
        ensures space { space_of blocks.new ≡ space_of blocks.old }
    {
        let Some(message) = whole_message(bytes, place) else {
            return Err(Stop::malformed(start + place as u64, BlockKind::Message));
        };
        let body = &bytes[message.at..message.at + message.len];
        self.follow(blocks, message.kind, body)?;
        let at = start + message.at as u64;
        self.messages
            .meet(alloc, message.kind, message.flags, at, body)?;
        self.wanted -= 1;
        Ok(message.at + message.len)
    }

    // Meets the messages of a block that begins at `start`: as many as fit or are wanted.
    fn meet_all<V: Space>(
        &mut self,
        alloc: Global,
        blocks: &mut Blocks<V>,
        start: u64,
        bytes: &[u8],
    ) -> Result<(), Stop>
        requires stands { V.Stands (space_of blocks.old) }
        requires short { self.old.total ≤ most_header }
        requires fits { start + length bytes.now < 2 ^ 64 }
        ensures found { OnOk result ((ms : List Met) × AreMessages start bytes.now self.old.wanted ms
            × Meets self.old self.new ms
            × ((met : List Block) → Keeps V.view blocks.old met
            → Keeps V.view blocks.new (met ++ flat_map continued ms))) }
        ensures refused { IfErr result (Refuses V.view blocks.old
            (λ e met r. IsBlockStop e met self.old.total start bytes.now self.old.wanted r)) }
        ensures no_fault { ¬ IsErrOf result Stop.Failed }
        ensures space { space_of blocks.new ≡ space_of blocks.old }
    {
        let mut place = 0;
        'messages: while self.wanted > 0 && bytes.len() - place >= 8 {
            place = self.meet_at(alloc, blocks, start, bytes, place)?;
        }
        Ok(())
    }

    // Reads a block, and meets its messages.
    pub fn read_part<V: Space>(
        &mut self,
        alloc: Global,
        blocks: &mut Blocks<V>,
        part: Extent,
    ) -> Result<(), Stop>
        requires stands { V.Stands (space_of blocks.old) }
        requires short { self.old.total ≤ most_header }
        ensures found { OnOk result ((ms : List Met)
            × (IsTrue V.tells → AreMessages part.start (bytes_of (array_of V.view blocks.old) part.start part.len)
            self.old.wanted ms)
            × AreWhole ms × Meets self.old self.new ms
            × ((met : List Block) → Keeps V.view blocks.old met
            → Keeps V.view blocks.new (met ++ flat_map continued ms))) }
        ensures refused { IsTrue V.tells → IfErr result (Refuses V.view blocks.old (λ e met r. IsBlockStop e met
            self.old.total part.start (bytes_of (array_of V.view blocks.old) part.start part.len) self.old.wanted r)) }
        ensures alike { V.Alike (space_of blocks.old) (space_of blocks.new) }
        ensures failed { IsErrOf result Stop.Failed
            → OneRose (V.faults (space_of blocks.old)) (V.faults (space_of blocks.new)) }
        ensures calm { ¬ IsErrOf result Stop.Failed
            → V.faults (space_of blocks.new) ≡ V.faults (space_of blocks.old) }
    {
        let bytes = blocks.read_bytes(alloc, part.start, part.len as usize)?;
        self.meet_all(alloc, blocks, part.start, bytes.as_slice())
    }
}
