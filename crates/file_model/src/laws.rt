//! Laws of what the bytes of a file hold. Each function does nothing: its clause is the law.

ghost use Rattle.file_model.specs.Bites.{DisorderInNode, DisorderInGroup, NameBelowKey, NameAboveKey, KeyOutside};
ghost use Rattle.file_model.specs.Bites.{SharedByte, PastEnd, OwnContinuation, LooseChunk, HugeSpace, PlaceInChunk};
ghost use Rattle.file_model.specs.Laws.{OneObject, OneFull, OneTree, FrameLaw, EmptyFile, EmptyKept, EditLaw};
ghost use Rattle.file_model.specs.Laws.{FileFrame};
ghost use Rattle.file_model.specs.Laws.{InsertLaw, RemoveLaw, ReplaceLaw, PlainEdit, RiseLaw, NotRefused, OneRefusal};

/// What a link leads to is one object: of one kind, with one list of links or elements, and one list of blocks.
pub fn one_object()
    ensures { OneObject }
{}

/// An array and ends hold at most one tree with its places.
pub fn one_full()
    ensures { OneFull }
{}

/// An array and ends hold at most one tree.
pub fn one_tree()
    ensures { OneTree }
{}

/// What is held depends on the bytes of its own blocks alone.
pub fn frame()
    ensures { FrameLaw }
{}

/// Another object in the place of one, and the bytes beside it as before: the edited tree is held.
pub fn edit_held()
    ensures { EditLaw }
{}

/// Links that are held stay so with one more.
pub fn insert_held()
    ensures { InsertLaw }
{}

/// Links that are held stay so with one fewer.
pub fn remove_held()
    ensures { RemoveLaw }
{}

/// Links that are held stay so with another object behind a name.
pub fn replace_held()
    ensures { ReplaceLaw }
{}

/// An edit of the tree with places is the same edit of the plain tree.
pub fn plain_edit()
    ensures { PlainEdit }
{}

/// Where ends rise and the bytes of all blocks stay, a file's tree stays held, each object in its place.
pub fn file_frame()
    ensures { FileFrame }
{}

/// Where ends rise, what is held stays held.
pub fn rises()
    ensures { RiseLaw }
{}

/// The bytes of an empty file hold the tree of one group without links.
pub fn empty_file()
    ensures holds { EmptyFile }
    ensures kept { EmptyKept }
{}

/// No line of the refusals says that a file is refused whose tree is held within the limits.
pub fn not_refused()
    ensures { NotRefused }
{}

/// What no bytes hold.
pub fn bites()
    ensures disorder_in_node { DisorderInNode }
    ensures disorder_in_group { DisorderInGroup }
    ensures name_below_key { NameBelowKey }
    ensures name_above_key { NameAboveKey }
    ensures key_outside { KeyOutside }
    ensures shared_byte { SharedByte }
    ensures past_end { PastEnd }
    ensures own_continuation { OwnContinuation }
    ensures loose_chunk { LooseChunk }
    ensures huge_space { HugeSpace }
    ensures place_in_chunk { PlaceInChunk }
{}

/// A file is refused for one reason: the first that the reading meets.
pub fn one_refusal()
    ensures { OneRefusal }
{}
