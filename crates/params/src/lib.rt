// What every other crate goes by: the settings, the two kinds of coordinates, the numbered answers and who judges them.
#![tactic(auto)]

mod answers;
mod coordinates;
mod judges;
mod settings;

pub use answers::{Answer, Outcome, Verdicts};
pub use coordinates::{Input, Working};
pub use judges::{
    judge_finder_call, judge_list, judge_map_call, judge_map_settings, judge_room, judge_size,
};
pub use settings::{PeakFitMode, RadonDetectorParams};
