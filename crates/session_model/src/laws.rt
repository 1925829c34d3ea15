//! Laws of what a line takes, is answered and leaves. Each function does nothing: its clause is the law.

ghost use Rattle.session_model.specs.Examples.{GroupTakes, GroupEnds, GroupFull, RawFull, DataTakes, DataEnds};
ghost use Rattle.session_model.specs.Examples.{GroupLengths};
ghost use Rattle.session_model.specs.Examples.{WriteTakes, WriteEnds, EmptyBoxTakes, ChunkTakes, UsedLengths, Segments};
ghost use Rattle.session_model.specs.Examples.{TwoAnswers, GroupLine, FlushLine, CommitLine, FullAnswer, DepthLimit};
ghost use Rattle.session_model.specs.Examples.{FillLimit, ContiguousLimit, ChunkedLimit, ChunkLimit, RankLimit};
ghost use Rattle.session_model.specs.Examples.{BoxLimit, ExtendLimit, TwoMembers, SixMembers, RightEnd};
ghost use Rattle.session_model.specs.RunExamples.{EmptyBegins, WholeRun, StoppedRun, CutRun, FaultRun};
ghost use Rattle.session_model.specs.Laws.{KeepsState, TreeRefuses, TreeSteps, AnswersJoin, HoldsOn, OneState};
ghost use Rattle.session_model.specs.Laws.{EndsRise, EndsFit, NameTakesFew, NameTakesNone, NameTakesLeaf};
ghost use Rattle.session_model.specs.Laws.{ChunksTakeNoNode, TakesNothing, NeverFull, BytesStay, PagesReached};
ghost use Rattle.session_model.specs.Laws.{PagesCover, RunsNothing};

/// A refused line keeps the state. What the tree refuses is answered by that refusal, and else the tree is the step's.
pub fn answers()
    ensures keeps { KeepsState }
    ensures refuses { TreeRefuses }
    ensures steps { TreeSteps }
{}

/// Lines behind one another are answered as all of them.
pub fn answers_join()
    ensures { AnswersJoin }
{}

/// After each line the bytes hold the tree, and they hold one.
pub fn holds_on()
    ensures held { HoldsOn }
    ensures one { OneState }
{}

/// No region ends earlier after a line, and none behind its limit.
pub fn ends()
    ensures rise { EndsRise }
    ensures fit { EndsFit }
{}

/// A name takes few blocks, and none where all has room.
pub fn names_take()
    ensures few { NameTakesFew }
    ensures none { NameTakesNone }
    ensures leaf { NameTakesLeaf }
{}

/// Chunks take no node where each has room.
pub fn chunks_take()
    ensures { ChunksTakeNoNode }
{}

/// A command takes nothing but one that makes an object or writes, and is never answered `full`.
pub fn takes_nothing()
    ensures nothing { TakesNothing }
    ensures full { NeverFull }
{}

/// A done line leaves each byte outside its reach and the blocks that it takes. The pages that it writes meet these,
/// and are all that change or are taken.
pub fn bytes_stay()
    ensures bytes { BytesStay }
    ensures pages { PagesReached }
    ensures cover { PagesCover }
{}

/// A run over an empty script leaves the file.
pub fn runs_nothing()
    ensures { RunsNothing }
{}

/// A first group takes five blocks, of these lengths, a first dataset two.
pub fn object_takes()
    ensures group { GroupTakes }
    ensures lengths { GroupLengths }
    ensures data { DataTakes }
{}

/// The first write of a byte takes the whole dataset, and one of none nothing.
pub fn write_takes()
    ensures some { WriteTakes }
    ensures none { EmptyBoxTakes }
{}

/// The first write to one chunk takes it and a node.
pub fn chunk_takes()
    ensures { ChunkTakes }
{}

/// Where the region ends after these, and where it is too short.
pub fn example_ends()
    ensures group { GroupEnds }
    ensures full { GroupFull }
    ensures raw { RawFull }
    ensures data { DataEnds }
    ensures write { WriteEnds }
{}

/// The answers to two lines over an empty file.
pub fn two_answers()
    ensures { TwoAnswers }
{}

/// The answer where the region is full.
pub fn full_answer()
    ensures { FullAnswer }
{}

/// The line that makes a first group is done.
pub fn group_line()
    ensures { GroupLine }
{}

/// A flush behind it is done.
pub fn flush_line()
    ensures { FlushLine }
{}

/// A commit behind it is done.
pub fn commit_line()
    ensures { CommitLine }
{}

/// What passes a limit.
pub fn limits()
    ensures depth { DepthLimit }
    ensures fill { FillLimit }
    ensures contiguous { ContiguousLimit }
    ensures chunked { ChunkedLimit }
    ensures chunk { ChunkLimit }
    ensures rank { RankLimit }
    ensures box_size { BoxLimit }
    ensures extended { ExtendLimit }
{}

/// Where the end fields stand, and when they are right.
pub fn end_fields()
    ensures two { TwoMembers }
    ensures six { SixMembers }
    ensures right { RightEnd }
{}

/// What the texts of a group use of its segment, and when a new segment is taken.
pub fn segments()
    ensures used { UsedLengths }
    ensures taken { Segments }
{}

/// A run over the empty file, of a script that makes a group: how it begins, and the four ways in which it ends.
pub fn runs()
    ensures begins { EmptyBegins }
    ensures whole { WholeRun }
    ensures stopped { StoppedRun }
    ensures cut { CutRun }
    ensures fault { FaultRun }
{}
