use crate::Path;
use dtype::{Dims, ElemType, Value};
use h5_base::{Comment, List};

/// What a line of a script asks for. Sizes and coordinates are numbers of elements, the slowest dimension first.
#[derive(Debug, Drop)]
pub enum Command {
    /// A new group, without links.
    Mkgroup {
        path: Path,
    },
    /// A new dataset, each of whose elements is the fill value; contiguous where no chunk sizes are given.
    Mkdata {
        path: Path,
        elem: ElemType,
        dims: Dims,
        chunk: Option<Dims>,
        max: Option<Dims>,
        fill: Option<Value>,
    },
    /// Values for the elements of a box, in row-major order.
    Write {
        path: Path,
        start: Dims,
        count: Dims,
        values: List<Value>,
    },
    /// The elements of a box.
    Read {
        path: Path,
        start: Dims,
        count: Dims,
    },
    /// The links of a group.
    Ls {
        path: Path,
    },
    /// What a path leads to.
    Stat {
        path: Path,
    },
    /// Greater sizes for a chunked dataset.
    Extend {
        path: Path,
        dims: Dims,
    },
    /// A link less.
    Rm {
        path: Path,
    },
    /// All changes so far into the files, to last.
    Flush,
    /// All changes so far as a revision.
    Commit {
        comment: Comment,
    },
}
