// A line of each command of the script language.
use script::{Command, read_line};
use std::alloc::Global;
use std::test::Fail;

// The path `/a`, as the text of a command has it.
const PATH: &str = "Path { names: List { items: [LinkName { bytes: Bytes { items: [97] } }] } }";

// Whether the command has this text, in which that path stands as it is spelled.
fn is_text(alloc: Global, command: &Command, want: &str) -> Result<bool, Fail> {
    let text = format!(in alloc; "{command:?}")?;
    Ok(text.replace(alloc, PATH, "/a")?.as_str() == want)
}

// Whether the line is read as the command of this text.
fn is_read(alloc: Global, line: &str, want: &str) -> Result<bool, Fail> {
    match read_line(alloc, line.as_bytes()) {
        Ok(command) => is_text(alloc, &command, want),
        Err(_) => Ok(false),
    }
}

const ROWS: [(&str, &str); 10] = [
    ("mkgroup /a", "Mkgroup { path: /a }"),
    (
        "mkdata /a i32be 3,0 chunk 1,2 max *,4 fill -7",
        "Mkdata { path: /a, elem: Int { size: 4, signed: true, big: true }, dims: Dims { sizes: [3, 0] }, \
        chunk: Some(Dims { sizes: [1, 2] }), max: Some(Dims { sizes: [18446744073709551615, 4] }), \
        fill: Some(Num(-7)) }",
    ),
    (
        "write /a 0 2 1 \"b\"",
        "Write { path: /a, start: Dims { sizes: [0] }, count: Dims { sizes: [2] }, \
        values: List { items: [Num(1), Text(Bytes { items: [98] })] } }",
    ),
    (
        "read /a - -",
        "Read { path: /a, start: Dims { sizes: [] }, count: Dims { sizes: [] } }",
    ),
    ("ls /", "Ls { path: Path { names: List { items: [] } } }"),
    ("stat /a", "Stat { path: /a }"),
    (
        "extend /a 18446744073709551615",
        "Extend { path: /a, dims: Dims { sizes: [18446744073709551615] } }",
    ),
    ("rm /a", "Rm { path: /a }"),
    ("flush", "Flush"),
    (
        "commit b c",
        "Commit { comment: Comment { bytes: Bytes { items: [98, 32, 99] } } }",
    ),
];

#[test]
fn lines_are_read(rt: HostRuntime) -> Result<(), Fail> {
    for (line, want) in ROWS {
        assert!(rt; is_read(rt.alloc(), line, want)?);
    }
    Ok(())
}
