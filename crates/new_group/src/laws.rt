ghost use Rattle.new_group.specs.Group.{EmptyStays};

/// An empty group stays where the bytes of its blocks stay. The function does nothing: its clause is the law.
pub fn empty_stays()
    ensures { EmptyStays }
{}
