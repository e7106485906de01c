// What the programs share that replay a list of vectors: the walk along its records, entries of a buffer against those of the list, and how what
// agrees is counted.
#![tactic(auto)]

pub use entries::{Compared, Entry, compare, sides};
pub use walk::{Tally, Visit, Walk};

mod entries;
mod walk;
