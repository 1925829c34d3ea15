use dtype::{Dims, ElemType};
use h5_base::{Bytes, LinkName, List};

/// What a line of a script is answered.
#[derive(Debug, Drop)]
pub enum Answer {
    /// It is done.
    Done,
    /// The bytes of elements, one after another.
    Values {
        elem: ElemType,
        bytes: Bytes,
    },
    /// The links of a group, in the order of their names.
    Links {
        items: List<LinkLine>,
    },
    /// A group with so many links.
    Group {
        links: u64,
    },
    /// A dataset. Without maximum sizes these are the sizes, and without chunk sizes it is contiguous; `fill` is
    /// the element that was never written.
    Dataset {
        elem: ElemType,
        dims: Dims,
        max: Dims,
        chunk: Option<Dims>,
        fill: Bytes,
        filtered: bool,
    },
    /// A soft link with this target.
    Soft {
        target: Bytes,
    },
    /// An object that isn't supported.
    Other,
    /// A revision of this number, with so many pages.
    Committed {
        rev: u32,
        pages: u64,
    },
    /// A region that ends there has no room for so many bytes.
    Full {
        end: u64,
        need: u64,
    },
    /// It is refused, and nothing changed.
    No {
        code: Code,
    },
}

/// A link of a group: its name, and what it leads to.
#[derive(Debug, Drop)]
pub struct LinkLine {
    pub name: LinkName,
    pub shown: Shown,
}

/// What a link leads to.
#[derive(Debug, Drop)]
pub enum Shown {
    Group,
    Dataset,
    /// Another path, which isn't followed.
    Soft(Bytes),
    /// An object that isn't supported.
    Other,
}

/// Why a line is refused.
#[derive(Clone, Copy, Debug, PartialEq, Eq)]
pub enum Code {
    /// The line isn't spelled as the language has it.
    BadLine,
    /// The command isn't built yet on this stack.
    NotBuilt,
    /// The stack is read-only.
    ReadOnly,
    /// A name of the path isn't in its group.
    Absent,
    /// A name that more names follow, or whose links are asked for, leads to no group.
    NotGroup,
    /// The new name is there.
    Exists,
    /// The path leads to a group or a soft link.
    NotData,
    /// The path leads to an object that isn't supported.
    Unsupported,
    /// The dataset's elements are filtered.
    Filtered,
    /// Numbers of another rank than the dataset's, outside its sizes or above its maximum, or too many or too few
    /// values.
    Range,
    /// A value that the dataset's type can't hold.
    WrongType,
    /// The dataset isn't chunked.
    Fixed,
    /// A new size below the old one.
    Shrink,
    /// The group has links.
    NotEmpty,
    /// A limit would be passed.
    Limit,
    /// The stack has no revisions.
    NoOnion,
    /// The clock's moment has no date.
    Clock,
}
