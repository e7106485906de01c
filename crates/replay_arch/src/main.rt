// Replays arches and compares with what tools/arch_vectors.py lists; and each camera whose frame lies whole with a single call of the program's
// function: answer, count and sides, every number of the list, to the bit, and that each work entry which no frame reaches is as it was.
#![tactic(auto)]

ghost use Rattle.std.specs.Prelude.{◌≡◌, ℕ};
ghost use Rattle.vectors.specs.Counts.{sum};

use params::{Answer, Outcome, Verdicts};
use replay::{Compared, Entry, Visit, Walk};
use response::WorkBuffers;
use std::{array, io};
use vectors::{capped, differ, field, plus, skip, word};

// Entries of each lent work buffer, and the bytes of the longest file that a single call takes.
const ROOM: usize = 2304;

const LIMIT: usize = 2324;

// Numbers of the list, of which as many are lent as a record says, and the most that a share has.
const NUMBERS: usize = 1024;

const SHARE: usize = 128;

// What each byte of the work buffers is before a call; and the patterns of the list's numbers, from the first on, all different.
const OLD: u8 = 165;

const OLD_WORD: u32 = 0xa5a5_a5a5;

const OLD_NUMBER: u64 = 0xa5a5_0000;

// What was found: arches by their camera count, and those refused; cameras by the number of their answer, all of them, those held to a single call,
// and their corners. Two are arrays by number: `tell::each` prints a line for each place.
#[derive(Clone, Copy, Default)]
struct Found {
    arches: [usize; 32],
    refused: usize,
    answered: [usize; 32],
    cameras: usize,
    single: usize,
    corners: usize,
}

fn main(rt: HostRuntime) -> io::Result<()> {
    let mut room = vectors::room();
    let s = tell::of_input(&mut rt.stdin(), &mut room)?;
    replayed(&rt, s)
}

// What is kept along the records: how many values were compared, and what was found.
#[derive(Drop, Default)]
struct Replay {
    values: usize,
    found: Found,
}

impl Visit for Replay {
    // What was compared there is added. `record` has no contract: so the answer, the number added and what is found are not fixed.
    ghost visits = { λ s kept at next wrong then. (values : ℕ) × (then.values ≡ sum kept.values values) };

    fn visit(&mut self, s: &[u8], at: usize) -> (usize, usize) {
        let c = record(s, at, &mut self.found);
        self.values = plus(self.values, c.values);
        (c.next, c.wrong)
    }
}

// Every arch; then what was found.
fn replayed(rt: &impl Print, s: &[u8]) -> io::Result<()> {
    let mut kept = Replay::default();
    let walk = Walk::along(s, &mut kept);
    let found = kept.found;
    tell::head(rt, s, walk)?;
    tell::say(rt, "values compared", kept.values)?;
    tell::each(rt, "arches with a camera count of ", &found.arches, 2, 9)?;
    tell::say(rt, "arches answered 21", found.refused)?;
    tell::say(rt, "cameras", found.cameras)?;
    tell::each(rt, "of these answered ", &found.answered, 0, 16)?;
    tell::say(rt, "of these held to a single call", found.single)?;
    tell::say(rt, "corners that they found", found.corners)
}

// One more there.
fn count(counts: &mut [usize; 32], at: usize) {
    if let Some(n) = counts.get_mut(at) {
        *n = plus(*n, 1);
    }
}

// A record: camera count, length of the list, frames, and what is due.
fn record(s: &[u8], at: usize, found: &mut Found) -> Compared {
    let given = skip(s, at, 8);
    let many = word(s, at) as usize;
    let room = capped(field(s, at, 4), NUMBERS);
    let frames = vectors::sized(s, given);
    let due = vectors::behind(s, given);
    let mut list = old_numbers();
    let mut working = [OLD; 2304];
    let mut row = [OLD_WORD; 2304];
    let mut col = [OLD_WORD; 2304];
    let mut falling = [OLD_WORD; 2304];
    let mut rising = [OLD_WORD; 2304];
    let mut response = [old_float(); 2304];
    let mut scratch = [old_float(); 2304];
    let work = &mut WorkBuffers {
        working: &mut working,
        row: &mut row,
        col: &mut col,
        falling: &mut falling,
        rising: &mut rising,
        response: &mut response,
        scratch: &mut scratch,
    };
    let outcome = arch::run_arch(many, frames, work, &mut list[0..room]);
    let reached = field(s, due, 8);
    let beyond = kept(&working, reached)
        .then(kept(&row, reached))
        .then(kept(&col, reached))
        .then(kept(&falling, reached))
        .then(kept(&rising, reached))
        .then(kept(&response, reached))
        .then(kept(&scratch, reached));
    // A refused arch has no camera of its own.
    let n = if outcome.answer == Answer::Complete {
        count(&mut found.arches, many);
        many
    } else {
        found.refused = plus(found.refused, 1);
        0
    };
    beyond
        .then(own(outcome.answer, s, due))
        .then(against(outcome.cameras, n, list, frames, s, due, found))
}

fn old_float() -> f32 {
    vectors::float(OLD_WORD as u64)
}

// What the list holds before a call.
fn old_numbers() -> [f32; 1024] {
    array::from_fn(|i| vectors::float(OLD_NUMBER + i as u64))
}

// A work buffer, from the entry on that no frame reaches.
fn kept<T: Entry>(buffer: &[T; 2304], reached: u64) -> Compared {
    let whole = &buffer[..];
    let rest = &whole[capped(reached, ROOM)..];
    replay::compare(&[OLD; 9216], 0, rest, rest.len())
}

// The arch's own answer.
fn own(answer: Answer, s: &[u8], due: usize) -> Compared {
    Compared {
        next: due,
        wrong: differ(u64::from(answer.number()), word(s, due)),
        values: 1,
    }
}

// All numbers of two lists.
fn numbers(list: &[f32; 1024], second: &[f32; 1024]) -> Compared {
    let wrong = list
        .iter()
        .zip(second)
        .filter(|(a, b)| vectors::bits(**a) != vectors::bits(**b))
        .count();
    Compared {
        next: 0,
        wrong,
        values: NUMBERS,
    }
}

// Eight cameras, those beyond the n of the arch too; and the list, against a second one into whose shares single calls have written.
fn against(
    told: [Outcome; 8],
    n: usize,
    list: [f32; 1024],
    frames: &[u8],
    s: &[u8],
    due: usize,
    found: &mut Found,
) -> Compared {
    let size = capped(field(s, due, 4), SHARE);
    let mut second = old_numbers();
    let mut all = Compared {
        next: skip(s, due, 12),
        wrong: 0,
        values: 0,
    };
    let mut begin: usize = 0;
    for (i, camera_told) in told.iter().enumerate() {
        let end = begin + size;
        let share = &mut second[begin..end];
        let c = camera(*camera_told, i < n, frames, s, all.next, share, found);
        all = all.then(c);
        begin = end;
    }
    numbers(&list, &second).then(all)
}

// A camera against what is listed; and, where its frame lies whole and is not too long for that, against a single call with its share. It counts if
// it is one of the arch's.
fn camera(
    told: Outcome,
    counts: bool,
    frames: &[u8],
    s: &[u8],
    at: usize,
    share: &mut [f32],
    found: &mut Found,
) -> Compared {
    if counts {
        count_camera(told, found);
    }
    let c = listed(told, s, skip(s, at, 8));
    let begin = word(s, at) as usize;
    let end = skip(frames, begin, field(s, at, 4) as usize);
    let file = vectors::part(frames, begin, end);
    if file.is_empty() || file.len() > LIMIT {
        return c;
    }
    found.single = plus(found.single, 1);
    let single = program::run_with_room(file, share);
    same(told, single).then(c)
}

// By its answer.
fn count_camera(told: Outcome, found: &mut Found) {
    count(&mut found.answered, told.answer.number() as usize);
    found.corners = plus(found.corners, told.count);
    found.cameras = plus(found.cameras, 1);
}

// The answer, which for an accepted frame is listed as 0, and the sides; as many kept as found, and with a refusal no corners and six zeros.
fn listed(told: Outcome, s: &[u8], at: usize) -> Compared {
    let sides = plus(
        differ(told.w as u64, field(s, at, 4)),
        differ(told.h as u64, field(s, at, 8)),
    );
    let due = word(s, at);
    let next = skip(s, at, 12);
    if matches!(told.answer, Answer::Complete | Answer::ListFull) {
        let kept = differ(told.verdicts.kept as u64, told.count as u64);
        return Compared {
            next,
            wrong: plus(differ(0, due), plus(sides, kept)),
            values: 4,
        };
    }
    let head = plus(
        differ(u64::from(told.answer.number()), due),
        differ(told.count as u64, 0),
    );
    Compared {
        next,
        wrong: plus(head, plus(sides, six(told.verdicts, Verdicts::none()))),
        values: 10,
    }
}

// Of two calls' six counts, those that differ.
fn six(a: Verdicts, b: Verdicts) -> usize {
    let a = <[usize; 6]>::from(a);
    let b = <[usize; 6]>::from(b);
    a.iter().zip(&b).filter(|(m, n)| *m != *n).count()
}

// Two outcomes.
fn same(told: Outcome, single: Outcome) -> Compared {
    let head = plus(
        differ(
            u64::from(told.answer.number()),
            u64::from(single.answer.number()),
        ),
        differ(told.count as u64, single.count as u64),
    );
    let sides = plus(
        differ(told.w as u64, single.w as u64),
        differ(told.h as u64, single.h as u64),
    );
    Compared {
        next: 0,
        wrong: plus(head, plus(sides, six(told.verdicts, single.verdicts))),
        values: 10,
    }
}
