//! An example of how to work over any space: what a path leads to in the file of a space that is handed in.
//!
//! It is for whoever writes a crate above the reading of files: an action of the program, a check, or a tool that has
//! its own kind of space. Nothing in the program calls it. It is small enough to be copied and changed.
//!
//! A space (`outside::Space`) is an array of bytes with an end for each class of memory, over whatever files there are:
//! one plain file today. Code above it is generic over `V: Space` and is proved once, for every space. What to look at
//! in [`lookup`], from its head to its end:
//!
//! - **The space comes in by value and goes back by value**, also where the answer is an error. Whoever gave it knows
//! by
//! `alike` that its bytes, its ends and its files are as they were, and may go on with it by `stands`, unless a fault
//! was answered.
//! - **Two facts are asked of the space**: it stands, which each maker of a space ensures, and its first region begins
//! at
//! address 0, where the superblock is.
//! - **Reading goes through the catalogue** (`Blocks`), which holds the space while the file is read and gives it back
//! by
//! `finish`. `open_tree` reads the whole tree once; then no more is read, and no further fault can come.
//! - **What is answered is told of the file's bytes**, not of the tree in memory: `found` and `there` speak of each
//! tree
//! that the array holds within its ends, `refused` of what the bytes show where there is none, and `complete` says that
//! a file with a tree within the limits isn't refused. They hold where the space tells its bytes (`V.tells`); of a real
//! file nobody can, and these clauses then claim nothing.
//! - **A fault has its cause**: `Failed` is answered only where the space's own count of faults rose.
//!
//! The proof has three parts, one for each step. `proofs/Walked.antt` follows the names of a path through the nodes
//! that are kept, where `id_at` has its loop. `proofs/Matched.antt` carries what they lead to over to the tree of the
//! file, which the opened tree matches, and shows that the file holds no second tree.
//! `proofs/looking/lookup/Answers.antt` joins them, for the space as it was before the catalogue took it.
#![tactic(auto)]

mod looking;

pub use looking::{Found, Looked, lookup};
