//! Laws of a plan that is put together from images. Each function does nothing: its clause is the law.

ghost use Rattle.plan_pieces.specs.Plan.{PlanFits, PlanHas, PlanStays};

/// Once a plan is done, all its images stand.
pub fn plan_has()
    ensures { PlanHas }
{}

/// What is apart from the images of a plan stays.
pub fn plan_stays()
    ensures { PlanStays }
{}

/// A plan fits a catalogue whose blocks hold all that it writes.
pub fn plan_fits()
    ensures { PlanFits }
{}
