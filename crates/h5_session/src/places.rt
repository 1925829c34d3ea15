ghost use Rattle.std.specs.Prelude.{◌≡◌, IfNone, IfSome, None, Some, true};
ghost use Rattle.object_model.specs.Tree.{Group};
ghost use Rattle.file_model.specs.EditLaws.{end_place};
ghost use Rattle.file_model.specs.Holds.{FullLinks, GroupAt as HeldGroup, ks_of};
ghost use Rattle.group_lines.specs.Lines.{place_of};
ghost use Rattle.tree_nodes.specs.Entries.{entry_of, superblock_of};
ghost use Rattle.tree_nodes.specs.Nodes.{Kept, is_group};
ghost use Rattle.tree_places.specs.Kept.{IsPlaceAt};
ghost use Rattle.h5_session.specs.Session.{space_in};

use crate::session::Session;
use end_fields::end_range;
use group_rows::GroupAt;
use h5_base::Extent;
use outside::Space;
use tree_nodes::{Node, NodeId};

impl<V: Space> Session<V> {
    // Where a group of the tree stands.
    pub(crate) fn place_of(&self, id: NodeId) -> GroupAt
        requires { (e : Kept) × (entry_of self.now.tree id.key ≡ Some e) × (is_group e.node ≡ true) }
        ensures place { (group : HeldGroup) (links : FullLinks) → IsPlaceAt self.now.tree id (Group group links)
            → result ≡ place_of (superblock_of self.now.tree) group }
        ensures ks { result.ks ≡ ks_of (superblock_of self.now.tree) }
    {
        match self.tree.node(id) {
            Node::Group {
                header_at,
                tree_at,
                heap_at,
            } => GroupAt {
                header_at: *header_at,
                tree_at: *tree_at,
                heap_at: *heap_at,
                ks: self.tree.superblock().k_values(),
            },
            _ => unreachable!(),
        }
    }

    // The end field, where the space has no revisions: a list that is prepared holds it, so that `close` can write it
    // without memory.
    pub(crate) fn closing(&self) -> Option<Extent>
        ensures without { IfSome result (λ range. ((V.view (space_in self.now)).committed ≡ None)
            × (range.start ≡ end_place (superblock_of self.now.tree).version) × (range.len ≡ 8)) }
        ensures with { IfNone result (¬ (V.view (space_in self.now)).committed ≡ None) }
    {
        if self.blocks.space().has_onion() {
            None
        } else {
            Some(end_range(self.tree.superblock().version))
        }
    }
}
