//! Laws of lines that edit a group. Each function does nothing: its clause is the law.

ghost use Rattle.group_lines.specs.Lines.{MkgroupLine, RemoveLine};

/// Where the plan of one link fewer was done, the line `rm` is done.
pub fn remove_line()
    ensures { RemoveLine }
{}

/// Where the plan of a new group and of the link to it was done, the line `mkgroup` is done.
pub fn mkgroup_line()
    ensures { MkgroupLine }
{}
