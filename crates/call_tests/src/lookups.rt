// A path looked up in a plain file in memory.
use crate::files::space_of_file;
use empty_file::{EMPTY_LEN, write_empty_file};
use space_example::{Found, lookup};
use std::test::Fail;

/// The root of the empty file.
#[test]
fn path_is_looked_up(rt: HostRuntime) -> Result<(), Fail> {
    let mut file = [0; EMPTY_LEN];
    write_empty_file(&mut file);
    let space = space_of_file(rt.alloc(), &file)?;
    let looked = lookup(rt.alloc(), space, &[]);
    assert!(rt; matches!(looked.answer, Ok(Some(Found::Group { header_at: 96 }))));
    Ok(())
}
