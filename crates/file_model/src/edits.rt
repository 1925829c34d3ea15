//! Laws of edits. Each function does nothing: its clause is the law.

ghost use Rattle.file_model.specs.EditLaws.{HeldOrder, PathBlocks, FileBlocks, BesideEdit, PathApart, ApartOrder};
ghost use Rattle.file_model.specs.EditLaws.{KeptOrder, KeptTogether, ApartFromOrder, ApartFromParts, AgreeOrder};
ghost use Rattle.file_model.specs.EditLaws.{AgreeThrough, AgreeApart, EditFull, EditHolds, DriverStays, EndFull};
ghost use Rattle.file_model.specs.EditLaws.{EndWritten, InsertOne, InsertOrder, RemoveOne, RemoveOrder, FoundNames};
ghost use Rattle.file_model.specs.EditLaws.{EditThere, PlainFind, PlainInsert, PlainRemove, PlainWalk, PlainChange};
ghost use Rattle.file_model.specs.EditLaws.{NewGroup, NewData, NewGroupHeld, NewDataHeld, OtherBody, BesideWrite};
ghost use Rattle.file_model.specs.EditLaws.{OtherFirst, OtherTable, OtherShape, OtherLayout};
ghost use Rattle.file_model.specs.WellKept.{OtherSegment, OtherHeap};

/// The names of each group of a tree that is held ascend.
pub fn held_order()
    ensures { HeldOrder }
{}

/// The blocks of a tree are those beside a path and those of what the path leads to. An edit leaves the first.
pub fn path_blocks()
    ensures blocks { PathBlocks }
    ensures file { FileBlocks }
    ensures edit { BesideEdit }
    ensures apart { PathApart }
{}

/// Blocks are apart, and kept, in any order; two lists are kept together where each is kept, and the one apart from
/// the other.
pub fn block_order()
    ensures apart { ApartOrder }
    ensures kept { KeptOrder }
    ensures together { KeptTogether }
    ensures apart_from { ApartFromOrder }
    ensures parts { ApartFromParts }
{}

/// Bytes that stay: in any order of blocks, through one change and the next, and in blocks apart from that of a write.
pub fn bytes_stay()
    ensures order { AgreeOrder }
    ensures through { AgreeThrough }
    ensures apart { AgreeApart }
{}

/// The whole file with the edited tree is held, and the block of driver information is where it was.
pub fn edit_full()
    ensures full { EditFull }
    ensures holds { EditHolds }
    ensures driver { DriverStays }
{}

/// The file with another end told in its superblock is held. The end is written as 8 bytes.
pub fn end_full()
    ensures held { EndFull }
    ensures written { EndWritten }
{}

/// A new name adds one link in its place in the order, and the blocks behind it.
pub fn insert_one()
    ensures one { InsertOne }
    ensures order { InsertOrder }
{}

/// A name that is removed takes one link away, and the blocks behind it.
pub fn remove_one()
    ensures one { RemoveOne }
    ensures order { RemoveOrder }
{}

/// The links that are told have the names of the tree's links.
pub fn found_names()
    ensures { FoundNames }
{}

/// An edit at a path is the edit by what stands there.
pub fn edit_there()
    ensures { EditThere }
{}

/// What names and paths lead to, and links with one more and one fewer, are the same with and without places.
pub fn plain_links()
    ensures find { PlainFind }
    ensures insert { PlainInsert }
    ensures remove { PlainRemove }
    ensures walk { PlainWalk }
    ensures change { PlainChange }
{}

/// What is written as the header of a new object is the header of that object, its messages those that were written.
/// The object is held where its links or elements are.
pub fn new_header()
    ensures group { NewGroup }
    ensures data { NewData }
    ensures group_held { NewGroupHeld }
    ensures data_held { NewDataHeld }
{}

/// Other data of the same length in one message of a header: the header has the same messages with these data.
pub fn other_body()
    ensures header { OtherBody }
    ensures write { BesideWrite }
{}

/// What the object of such a header is: a group with another B-tree and heap, a dataset with another shape or layout.
pub fn other_object()
    ensures first { OtherFirst }
    ensures table { OtherTable }
    ensures shape { OtherShape }
    ensures layout { OtherLayout }
{}

/// A local heap whose segment grows, or is cut behind the bytes in use: the group has the same links in the same nodes.
pub fn other_segment()
    ensures segment { OtherSegment }
    ensures heap { OtherHeap }
{}
