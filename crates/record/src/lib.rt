// The corner record: a list of corners with the sides of its working image, written as bytes and read back.
#![tactic(auto)]

pub use reader::read_record;
pub use writer::write_record;

mod numbers;
mod reader;
mod writer;

const VERSION: u32 = 1;

// Numbers a corner has, and bytes a number has.
const STRIDE: usize = 3;

const WORD: usize = 4;

// No record has more corners.
const MOST: usize = 8388608;

// The bytes before the corners, and of these the ones that the stated length does not count.
const HEAD: usize = 13;

const LEAD: usize = 5;
