ghost use Rattle.edit_room.specs.Touched.{LimitOfAny, NeedsAreTaken, PagesAreTouched, StaysBeside, TouchedInReach};

use block_space::{ends_behind_needs, planned_stays};

/// Laws of the ranges that a plan touches. The function does nothing: its clauses are the laws.
///
/// They are the ranges of a line of a session, where all that the plan writes is within the line's reach. What the plan
/// needs of a region is what its takes need of it. Where there is room for it, the pages that it writes are those of the
/// ranges, and the bytes beside them stay. Whether it passes a limit doesn't depend on which ranges with its addresses
/// are asked about.
pub fn touched_laws()
    ensures reach { TouchedInReach }
    ensures needs { NeedsAreTaken }
    ensures pages { PagesAreTouched }
    ensures stays { StaysBeside }
    ensures limits { LimitOfAny }
{
    planned_stays();
    ends_behind_needs();
}
