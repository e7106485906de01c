// What is known of an arch before anything is found: where each camera's frame stands, how large its share of the list is, and which calls are taken.
#![tactic(auto)]

pub use due::{due_in, gone_in};
pub use shares::{judge_arch, share_size};

mod due;
mod shares;
