// What the program answers to a frame file: the finder is called over work buffers of the program's own.
#![tactic(auto)]

ghost use Rattle.std.specs.Prelude.{◌≡◌, List, ℕ, length, take};
ghost use Rattle.lines.specs.Printed.{printed};
ghost use Rattle.frame_runner.specs.FileAnswer.{file_outcome, file_buffers};
ghost use Rattle.program.specs.Program.{limit, blank, lines_of};

use frame_runner::run_frame_file;
use params::Outcome;
use response::WorkBuffers;

// The bytes of the longest frame file: 20 before the pixels, and 2,304 pixels.
const LIMIT: usize = 2324;

// What a frame file is answered over work buffers of its own, with room for 2,304 working pixels, so that a program lends the list alone.
pub fn run_with_room(file: &[u8], list: &mut [f32]) -> Outcome
    ensures answer { result ≡ file_outcome limit file.now (blank 2304 list.old) }
    ensures list { list.new ≡ (file_buffers limit file.now (blank 2304 list.old)).list }
{
    let mut working = [0u8; 2304];
    let mut row = [0u32; 2304];
    let mut col = [0u32; 2304];
    let mut falling = [0u32; 2304];
    let mut rising = [0u32; 2304];
    let mut response = [0.0f32; 2304];
    let mut scratch = [0.0f32; 2304];
    let work = &mut WorkBuffers {
        working: &mut working,
        row: &mut row,
        col: &mut col,
        falling: &mut falling,
        rising: &mut rising,
        response: &mut response,
        scratch: &mut scratch,
    };
    run_frame_file(file, LIMIT, work, list)
}

// What the program answers to what it has read, with a list for 256 corners. The input has one byte more than the longest frame file, so that a
// longer one is seen to be too long. The lines are fixed by the bytes that were read; and where those are as much of a file as the array takes, by
// the whole file.
// An array with a count beside it: by its type no caller has less room, and with a byte less `whole` would be false.
pub fn answer(input: &[u8; 2325], got: usize, list: &mut [f32; 768]) -> Outcome
    ensures answer { result ≡ file_outcome limit (take got input.now) (blank 2304 list.old) }
    ensures list { list.new ≡ (file_buffers limit (take got input.now) (blank 2304 list.old)).list }
    ensures lines { printed 3 result list.new ≡ lines_of (take got input.now) }
    ensures whole { (file : List ℕ) → take (length input.now) file ≡ take got input.now
        → printed 3 result list.new ≡ lines_of file }
{
    run_with_room(&input[..got.min(input.len())], list)
}
