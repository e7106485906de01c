// Where the values of a map stand out: the greatest of them, how many are above a floor, and the places of a row that are worth a verdict.
#![tactic(auto)]

mod crests;
mod maximum;

pub use crests::{Stretch, count_above, find_above, first_above, next_candidate};
pub use maximum::max_response;
