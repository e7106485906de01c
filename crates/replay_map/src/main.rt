// Replays frames through the map's entry and compares working image, tables, response and scratch to the bit.
#![tactic(auto)]

ghost use Rattle.std.specs.Prelude.{◌≡◌, ℕ};
ghost use Rattle.vectors.specs.Counts.{sum};

use params::Answer;
use replay::{Compared, Visit, Walk, compare};
use response::{Sides, WorkBuffers, radon_response_u8};
use std::io;
use vectors::{capped, field, plus, skip, word};

// No frame file of the list is longer.
const LIMIT: usize = 2324;

// No side of a map over the program's buffers that has pixels is longer.
const MAX_SIDE: usize = 4096;

fn main(rt: HostRuntime) -> io::Result<()> {
    let mut room = vectors::room();
    let s = tell::of_input(&mut rt.stdin(), &mut room)?;
    replayed(&rt, s)
}

// What is kept along the records: how many values were compared.
#[derive(Drop)]
struct Replay {
    values: usize,
}

impl Visit for Replay {
    // What was compared there is added. `record` has no contract: so neither the answer nor the number added is fixed.
    ghost visits = { λ s kept at next wrong then. (values : ℕ) × (then.values ≡ sum kept.values values) };

    fn visit(&mut self, s: &[u8], at: usize) -> (usize, usize) {
        let c = record(s, at);
        self.values = plus(self.values, c.values);
        (c.next, c.wrong)
    }
}

// Every record; then what was found.
fn replayed(rt: &impl Print, s: &[u8]) -> io::Result<()> {
    let mut kept = Replay { values: 0 };
    let walk = Walk::along(s, &mut kept);
    tell::head(rt, s, walk)?;
    tell::say(rt, "values compared", kept.values)
}

// A record: a file, and what its map is.
fn record(s: &[u8], at: usize) -> Compared {
    mapped(vectors::sized(s, at), s, vectors::behind(s, at))
}

// The map of a file, over the program's buffers.
fn mapped(file: &[u8], s: &[u8], at: usize) -> Compared {
    let Ok(header) = frame::read(file, LIMIT) else {
        return refused(s);
    };
    let mut working = [0u8; 2304];
    let mut row = [0u32; 2304];
    let mut col = [0u32; 2304];
    let mut falling = [0u32; 2304];
    let mut rising = [0u32; 2304];
    let mut response = [0.0f32; 2304];
    let mut scratch = [0.0f32; 2304];
    let mut work = WorkBuffers {
        working: &mut working,
        row: &mut row,
        col: &mut col,
        falling: &mut falling,
        rising: &mut rising,
        response: &mut response,
        scratch: &mut scratch,
    };
    let map = radon_response_u8(
        frame::pixels(file),
        header.width,
        header.height,
        header.params,
        &mut work,
    );
    against(map, &work, s, at)
}

// The map against the list, from a place on, in the list's order and with the list's sides. A word says whether there is a scratch.
fn against(map: Result<Sides, Answer>, work: &WorkBuffers, s: &[u8], at: usize) -> Compared {
    let (answer, w, h) = match map {
        Ok(map) => (Answer::Complete, map.w as u64, map.h as u64),
        Err(answer) => (answer, 0, 0),
    };
    let n = capped(word(s, at), MAX_SIDE) * capped(field(s, at, 4), MAX_SIDE);
    let c = replay::sides(s, at, u64::from(answer.number()), w, h);
    let mut c = c.then(compare(s, c.next, &*work.working, n));
    for table in [&*work.row, &*work.col, &*work.falling, &*work.rising] {
        c = c.then(compare(s, c.next, table, n));
    }
    let c = c.then(compare(s, c.next, &*work.response, n));
    let blurred = word(s, c.next);
    let next = skip(s, c.next, 4);
    c.then(compare(s, next, &*work.scratch, where_one(blurred, n)))
}

// A file of the list is not refused.
fn refused(s: &[u8]) -> Compared {
    Compared {
        next: s.len(),
        wrong: 1,
        values: 0,
    }
}

fn where_one(flag: u64, n: usize) -> usize {
    if flag == 1 { n } else { 0 }
}
