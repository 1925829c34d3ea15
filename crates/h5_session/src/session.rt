ghost use Rattle.std.specs.Prelude.{◌≡◌, List, None, IfErr, IfOk, IfSome, IsTrue, false};
ghost use Rattle.std.specs.List.{Contains};
ghost use Rattle.outside.specs.Blocks.{Block};
ghost use Rattle.block_space.specs.Blocks.{Keeps, space_of};
ghost use Rattle.h5_base.specs.declared.extent.MemClass.TheVariants as class;
ghost use Rattle.h5_base.specs.Refusals.{refusal_of};
ghost use Rattle.h5_base.specs.declared.refusal.Stop.TheVariants as stop;
ghost use Rattle.outside.specs.Causes.{OneRose};
ghost use Rattle.outside.specs.Space.{bounds_of};
ghost use Rattle.session_model.specs.Runs.{IsFresh};
ghost use Rattle.h5_session.specs.Session.{IsBegun, IsSound, space_in};
ghost use Rattle.file_model.specs.RefusedTree.{IsFileRefused, super_block};
ghost use Rattle.object_tree.specs.Sound.{IsSoundTree};
ghost use Rattle.tree_nodes.specs.Entries.{superblock_of};

use block_space::Blocks;
use h5_base::{BlockKind, NoMemory, Stop};
use object_tree::{ObjectTree, TreeStop, open_tree};
use outside::Space;
use std::alloc::Global;

/// An opened file over a space, and the tree of its objects, which is kept beside it.
#[derive(Drop)]
pub struct Session<V: Space> {
    pub(crate) blocks: Blocks<V>,
    pub(crate) tree: ObjectTree,
    /// Whether a line that edits was done.
    pub(crate) edited: bool,
}

/// A space over which no session begins, and why.
#[derive(Drop)]
pub struct ResumeRefused<V> {
    pub space: V,
    pub why: TreeStop,
}

impl<V: Space> Session<V> {
    /// Opens the file of a space, whose first region begins at address 0: its tree is read, each block once. A refusal
    /// names what the bytes show; `Failed` comes only from a fault of the space. The space is handed back with it.
    pub fn resume(alloc: Global, space: V) -> Result<Session<V>, ResumeRefused<V>>
        requires stands { V.Stands space }
        requires first { ((V.view space).regions class.Super).start ≡ 0 }
        requires fresh { IsFresh (V.view space).committed }
        ensures begins { IsTrue V.tells → IfOk result (IsBegun V.view (V.view space)) }
        ensures sound { IfOk result (IsSound V.view) }
        ensures alike { IfOk result (λ session. V.Alike space (space_in session)) }
        ensures refused { IsTrue V.tells → IfErr result (λ refused. IfSome (refusal_of refused.why)
            (IsFileRefused (V.view space).array (bounds_of (V.view space) None))) }
        ensures back { IfErr result (λ refused. V.Alike space refused.space) }
        ensures failed { IfErr result (λ refused. refused.why ≡ stop.Failed
            → OneRose (V.faults space) (V.faults refused.space)) }
        ensures calm { IfOk result (λ session. V.faults (space_in session) ≡ V.faults space) }
    {
        let mut blocks = Blocks::new(alloc, space);
        match open_tree(alloc, &mut blocks) {
            Ok(tree) => Session::begin(blocks, tree),
            Err(why) => Err(ResumeRefused {
                space: blocks.finish(),
                why,
            }),
        }
    }

    // A session over an opened tree. The superblock's block is in the catalogue of each file that was opened; so that it
    // is there too where a space doesn't tell its bytes, it is looked for.
    fn begin(blocks: Blocks<V>, tree: ObjectTree) -> Result<Session<V>, ResumeRefused<V>>
        requires tree { IsSoundTree tree }
        requires listed { (met : List Block) × Keeps V.view blocks met }
        ensures begun { IfOk result (λ session. (session.tree ≡ tree) × (session.edited ≡ false)
            × (space_in session ≡ space_of blocks)) }
        ensures kept { IfOk result (λ session. (met : List Block) → Keeps V.view blocks met
            → Keeps V.view session.blocks met) }
        ensures sound { IfOk result (IsSound V.view) }
        ensures back { IfErr result (λ refused. refused.space ≡ space_of blocks) }
        ensures no_fault { IfErr result (λ refused. ¬ (refused.why ≡ stop.Failed)) }
        ensures told { (met : List Block) → Keeps V.view blocks met
            → Contains met (super_block (superblock_of tree)) → IfErr result (λ refused. refused.why ≡ stop.NoMemory) }
    {
        let mut blocks = blocks;
        match blocks.holds(0, tree.superblock().byte_len()) {
            Ok(true) => Ok(Session {
                blocks,
                tree,
                edited: false,
            }),
            Ok(false) => Err(ResumeRefused {
                space: blocks.finish(),
                why: Stop::malformed(0, BlockKind::Super),
            }),
            Err(NoMemory) => Err(ResumeRefused {
                space: blocks.finish(),
                why: Stop::NoMemory,
            }),
        }
    }

    /// The space.
    pub fn space(&self) -> &V
        ensures { result.now ≡ space_in self.now }
    {
        self.blocks.space()
    }

    /// Hands the space back as it is. No call is made of it, and no memory is taken.
    pub fn quit(self) -> V
        ensures { result ≡ space_in self }
    {
        let Session {
            blocks,
            tree: _,
            edited: _,
        } = self;
        blocks.finish()
    }
}
