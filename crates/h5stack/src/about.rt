/// What `--help` prints.
const HELP: &str = r#"usage: h5stack create plain=FILE
       h5stack run plain=FILE < SCRIPT
       h5stack --help
       h5stack --version

create  writes an empty HDF5 file into FILE, which is absent or empty
run     opens the HDF5 file FILE and answers each line of the script on
        standard input by one line of output; FILE stays as it is

FILE lies in the current folder. Its name has 1 to 100 letters, digits, ".",
"_" and "-", and doesn't begin with ".".

lines of a script:
  ls PATH    the links of a group, as g:GROUP d:DATASET l:LINK>TARGET o:OTHER
  stat PATH  what a path leads to
A path is / or names as in /a/b. A byte that is no plain character is \xHH.
An answer is "ok" and what was asked for, or "no" and why not.

status: 0 done; 1 some line was answered "no"; 2 the words are refused;
3 a call on the file failed; 4 the file is refused; 5 standard input failed;
6 the output failed; 8 no memory; 9 the script has 4294967296 bytes or more

docs/h5stack.1 is the manual page: man -l docs/h5stack.1
"#;

/// What `--version` prints.
const VERSION: &str = "h5stack 0.1\n";

/// The text about the program that the words ask for, where they are `--help` or `--version` alone. No action has such
/// a name.
pub fn about(words: &Vec<String>) -> Option<&'static str> {
    if words.len() != 1 {
        return None;
    }
    match words[0].as_str() {
        "--help" => Some(HELP),
        "--version" => Some(VERSION),
        _ => None,
    }
}
