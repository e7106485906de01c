// Replays frame files through all that the program `corners` does and compares the whole of what is printed.
// Places of a list in Gaussian mode may differ, since the original's logarithm is the platform's: they are counted.
#![tactic(auto)]

ghost use Rattle.std.specs.Prelude.{◌≡◌, ℕ, ◌&&◌, cond, eqb, ltb, min, length, take};
ghost use Rattle.vectors.specs.Counts.{sum};
ghost use Rattle.vectors.specs.Vectors.{behind_of};

use params::Outcome;
use replay::{Visit, Walk};
use std::io;
use vectors::{part, plus, skip};

// Where a corner's line has its strength, and how long that line is.
const STRENGTH: usize = 18;

const CORNER: usize = 27;

// What was compared, and the place behind it: lines that disagree, and corners that differ in their places alone. Not `replay`'s: its
// `values` are all that was compared.
#[derive(Clone, Copy, Default)]
struct Compared {
    next: usize,
    wrong: usize,
    places: usize,
}

impl Compared {
    // What was compared before, and what after it.
    fn then(self, after: Compared) -> Compared {
        Compared {
            next: after.next,
            wrong: plus(self.wrong, after.wrong),
            places: plus(self.places, after.places),
        }
    }
}

fn main(rt: HostRuntime) -> io::Result<()> {
    let mut room = vectors::room();
    let s = tell::of_input(&mut rt.stdin(), &mut room)?;
    replayed(&rt, s)
}

// What is kept along the records: how many agree to the bit, in how many corners differ in their places, and how many corners do.
#[derive(Drop, Default)]
struct Replay {
    exact: usize,
    lists: usize,
    places: usize,
}

impl Visit for Replay {
    // A record ends behind its text; of the lines that disagree and the corners whose places differ, the three counts are what they say.
    ghost visits = { λ s kept at next wrong then.
        (next ≡ behind_of s (behind_of s at))
        × ((places : ℕ)
        × (then.exact ≡ sum kept.exact (cond (eqb wrong 0 && eqb places 0) 1 0))
        × (then.lists ≡ sum kept.lists (cond (ltb 0 places) 1 0))
        × (then.places ≡ sum kept.places places)) };

    fn visit(&mut self, s: &[u8], at: usize) -> (usize, usize) {
        let c = record(s, at);
        let exact = c.wrong == 0 && c.places == 0;
        self.exact = plus(self.exact, usize::from(exact));
        self.lists = plus(self.lists, usize::from(c.places > 0));
        self.places = plus(self.places, c.places);
        (c.next, c.wrong)
    }
}

// Every record; then what was found.
fn replayed(rt: &impl Print, s: &[u8]) -> io::Result<()> {
    let mut kept = Replay::default();
    let walk = Walk::along(s, &mut kept);
    tell::head(rt, s, walk)?;
    tell::say(rt, "records that agree to the bit", kept.exact)?;
    tell::say(rt, "Gaussian lists in which places differ", kept.lists)?;
    tell::say(rt, "corners whose places differ there", kept.places)
}

// A record: a file, and a text.
fn record(s: &[u8], at: usize) -> Compared
    ensures { result.next ≡ behind_of s.now (behind_of s.now at) }
{
    let text = vectors::behind(s, at);
    let c = answered(vectors::sized(s, at), vectors::sized(s, text));
    Compared {
        next: vectors::behind(s, text),
        ..c
    }
}

// What the program answers to a file, from an array as the program reads it into.
fn answered(file: &[u8], text: &[u8]) -> Compared {
    let mut input = [0u8; 2325];
    let got = put(file, &mut input);
    let mut list = [0.0f32; 768];
    let outcome = program::answer(&input, got, &mut list);
    printed(outcome, &list, text, vectors::gaussian(file))
}

// Puts as much of a file into the array as reading it would, and answers how many bytes that is.
fn put(file: &[u8], input: &mut [u8; 2325]) -> usize
    ensures { take result input.new ≡ take 2325 file.now }
{
    copy(file, input)
}

// Over a slice: with the array in its place the check leaves the clause open.
fn copy(file: &[u8], input: &mut [u8]) -> usize
    ensures { take result input.new ≡ take (length input.old) file.now }
{
    let n = file.len().min(input.len());
    input[..n].copy_from_slice(&file[..n]);
    n
}

// Every line, and that the text ends with the last.
fn printed(outcome: Outcome, list: &[f32; 768], text: &[u8], gaussian: bool) -> Compared {
    let mut all = Compared::default();
    // By number: so `line_at` gives a line.
    for i in 0..lines::lines(outcome, list) {
        all = all.then(line(outcome, list, i, text, all.next, gaussian));
    }
    let end = usize::from(all.next != text.len());
    Compared {
        wrong: plus(all.wrong, end),
        ..all
    }
}

// One line: to the bit, or in Gaussian mode a corner's strength.
fn line(
    outcome: Outcome,
    list: &[f32; 768],
    i: usize,
    text: &[u8],
    at: usize,
    gaussian: bool,
) -> Compared {
    let line = lines::line_at(outcome, list, i);
    let next = skip(text, at, line.len);
    let same = Compared {
        next,
        ..Compared::default()
    };
    if part(&line.bytes, 0, line.len) == part(text, at, next) {
        return same;
    }
    if gaussian && i > 0 && line.len == CORNER {
        let from = skip(text, at, STRENGTH);
        if part(&line.bytes, STRENGTH, line.len) == part(text, from, next) {
            return Compared { places: 1, ..same };
        }
    }
    Compared { wrong: 1, ..same }
}
