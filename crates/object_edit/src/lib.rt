//! The plan of a new group in a file and of the link to it, as one plan.
#![tactic(auto)]

mod joining;
mod making;

pub use joining::{join_plans, joined_plans};
pub use making::{GroupPlan, plan_mkgroup};
