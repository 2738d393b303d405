//! The choices of pieces one at a time: a fixed list of steps for a transition and a cube, what each step may give, and the
//! law that they give the selections in their order.
#![tactic(auto)]

// Laws: the steps give the selections, drafts fit, and a draft that no state meets can be given up.
mod laws;

pub use laws::{drafts_fit, nothing_is_kept_behind, steps_give_candidates};
