//! What one link more takes in a group, and what a new group takes.
#![tactic(auto)]
