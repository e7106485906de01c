// The printed list, line by line.
#![tactic(auto)]

ghost use Rattle.std.specs.Prelude.{◌≡◌, [], ◌*◌, ◌/◌, ◌<◌, min, length, get_or, take, drop};
ghost use Rattle.lines.specs.Printed.{corner_line, printed};
ghost use Rattle.lines.specs.Lines.{Shows};

use params::{Answer, Outcome};

mod text;

// A printed line: its bytes from the first on, its length, and zeros behind it.
// An array of its own: what `line_at` gives is known to its last byte, the zeros too (`Shows`), which an `ArrayVec` would hide.
#[derive(Clone, Copy)]
pub struct Line {
    pub bytes: [u8; 64],
    pub len: usize,
}

// How many numbers a corner has.
const STRIDE: usize = 3;

// The corners that the list holds: as many whole ones as fit.
fn stored(count: usize, len: usize) -> usize
    ensures { result ≡ min count (len / 3) }
{
    count.min(len / STRIDE)
}

// How many lines are printed.
pub fn lines(o: Outcome, list: &[f32]) -> usize
    ensures { result ≡ length (printed 3 o list.now) }
{
    let corners = stored(o.count, list.len());
    match o.answer {
        Answer::Complete => corners + 1,
        Answer::ListFull => corners + 2,
        _ => 1,
    }
}

// The line of corner k, counted from 0.
fn corner_at(list: &[f32], k: usize) -> Line
    requires { k < length list.now / 3 }
    ensures { Shows (corner_line (take 3 (drop (k * 3) list.now))) result }
{
    let at = k * STRIDE;
    Line::corner(list[at], list[at + 1], list[at + 2])
}

// Line i of those, counted from 0; past the last it is empty.
pub fn line_at(o: Outcome, list: &[f32], i: usize) -> Line
    ensures { Shows (get_or (printed 3 o list.now) i []) result }
{
    let corners = stored(o.count, list.len());
    match o.answer {
        Answer::Complete | Answer::ListFull => {
            if i == 0 {
                Line::first(o.w, o.h, o.count)
            } else if i <= corners {
                corner_at(list, i - 1)
            } else if i == corners + 1 && o.answer == Answer::ListFull {
                Line::full()
            } else {
                Line::empty()
            }
        }
        _ if i == 0 => Line::refused(o.answer.number()),
        _ => Line::empty(),
    }
}
