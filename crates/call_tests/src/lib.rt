//! Calls of the libraries that no run of the program makes yet, and what no run can show, as tests.
#![tactic(auto)]

#[cfg(test)]
mod answers;
#[cfg(test)]
mod blocks;
#[cfg(test)]
mod commands;
#[cfg(test)]
mod files;
#[cfg(test)]
mod headers;
#[cfg(test)]
mod lookups;
#[cfg(test)]
mod memory;
#[cfg(test)]
mod nodes;
#[cfg(test)]
mod regions;
#[cfg(test)]
mod spaces;
#[cfg(test)]
mod superblock;
#[cfg(test)]
mod trees;
#[cfg(test)]
mod types;
#[cfg(test)]
mod values;
