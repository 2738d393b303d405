//! Laws that join the commands: what `check` prints, `verify` and `replay` accept, and a protocol has one answer.
#![tactic(auto)]

// Laws.
mod laws;

pub use laws::{
    a_node_has_one_trace, check_has_one_answer, replay_accepts_what_check_prints,
    verify_accepts_what_check_prints,
};
