// Replays frames through the finder and compares the lists: count, the six counts by verdict, strengths and order to the bit in both modes, places to
// the bit in parabolic mode. In Gaussian mode the original's logarithm is the platform's: of those places it counts which agree to the bit, which lie within 0.001, and
// which beyond.
#![tactic(auto)]

ghost use Rattle.std.specs.Prelude.{◌≡◌};
ghost use Rattle.replay_list.specs.declared.Compared.{Compared};
ghost use Rattle.vectors.specs.Counts.{sum};

use params::{Outcome, Verdicts};
use replay::{Visit, Walk};
use std::io;
use vectors::{differ, float_at, plus, skip, word};

// No record has more corners than the program's list takes.
const MOST: usize = 256;

const NEAR: f32 = 0.001;

// What was compared, and the place behind it: how many numbers disagree, and of the Gaussian corners how many have their place to the bit, within
// the distance, beyond it. Not `replay`'s: three counts for one, and none of them is of all that was compared.
#[derive(Clone, Copy, Default)]
struct Compared {
    next: usize,
    wrong: usize,
    equal: usize,
    near: usize,
    beyond: usize,
}

impl Compared {
    // What was compared before, and what after it.
    fn then(self, after: Compared) -> Compared
        ensures equal { result.equal ≡ sum self.equal after.equal }
        ensures near { result.near ≡ sum self.near after.near }
        ensures beyond { result.beyond ≡ sum self.beyond after.beyond }
    {
        Compared {
            next: after.next,
            wrong: plus(self.wrong, after.wrong),
            equal: plus(self.equal, after.equal),
            near: plus(self.near, after.near),
            beyond: plus(self.beyond, after.beyond),
        }
    }
}

fn main(rt: HostRuntime) -> io::Result<()> {
    let mut room = vectors::room();
    let s = tell::of_input(&mut rt.stdin(), &mut room)?;
    replayed(&rt, s)
}

impl Visit for Compared {
    // What one record has of each kind of Gaussian place is added. `record` has no contract: so the answer and the numbers added are not fixed.
    ghost visits = { λ s kept at next wrong then.
        (c : Compared)
        × (then.equal ≡ sum kept.equal c.equal)
        × (then.near ≡ sum kept.near c.near)
        × (then.beyond ≡ sum kept.beyond c.beyond) };

    fn visit(&mut self, s: &[u8], at: usize) -> (usize, usize) {
        let c = record(s, at);
        *self = self.then(c);
        (c.next, c.wrong)
    }
}

// Every record; then what was found.
fn replayed(rt: &impl Print, s: &[u8]) -> io::Result<()> {
    let mut all = Compared::default();
    let walk = Walk::along(s, &mut all);
    tell::head(rt, s, walk)?;
    tell::say(rt, "Gaussian places equal to the bit", all.equal)?;
    tell::say(rt, "Gaussian places within 0.001", all.near)?;
    tell::say(rt, "Gaussian places beyond", all.beyond)
}

// A record: a file, and its list.
fn record(s: &[u8], at: usize) -> Compared {
    found(vectors::sized(s, at), s, vectors::behind(s, at))
}

// The list of a file, with the program's room.
fn found(file: &[u8], s: &[u8], at: usize) -> Compared {
    let mut list = [0.0f32; 768];
    let outcome = program::run_with_room(file, &mut list);
    let first = sides(outcome, s, at);
    let six = counts(outcome.verdicts, s, first.next);
    let many = vectors::capped(word(s, skip(s, at, 8)), MOST);
    let places = corners(&list, many, s, six.next, vectors::gaussian(file));
    first.then(six).then(places)
}

// The answer 0, the two sides and the count.
fn sides(outcome: Outcome, s: &[u8], at: usize) -> Compared {
    let c = replay::sides(
        s,
        at,
        u64::from(outcome.answer.number()),
        outcome.w as u64,
        outcome.h as u64,
    );
    let wrong = differ(outcome.count as u64, word(s, c.next));
    Compared {
        next: skip(s, c.next, 4),
        wrong: plus(c.wrong, wrong),
        ..Compared::default()
    }
}

// The six counts, in the order of the rules.
fn counts(v: Verdicts, s: &[u8], at: usize) -> Compared {
    let mut next = at;
    let mut wrong: usize = 0;
    for n in <[usize; 6]>::from(v) {
        wrong = plus(wrong, differ(n as u64, word(s, next)));
        next = skip(s, next, 4);
    }
    Compared {
        next,
        wrong,
        ..Compared::default()
    }
}

// As many corners as the record has, so that the next record is found even where this one disagrees.
fn corners(list: &[f32], count: usize, s: &[u8], at: usize, gaussian: bool) -> Compared {
    let mut all = Compared {
        next: at,
        ..Compared::default()
    };
    for numbers in list.chunks_exact(3).take(count) {
        all = all.then(corner(numbers, s, all.next, gaussian));
    }
    all
}

// One corner: x, y and strength.
fn corner(numbers: &[f32], s: &[u8], at: usize, gaussian: bool) -> Compared {
    let compared = Compared {
        next: skip(s, at, 12),
        ..Compared::default()
    };
    let x = float_at(numbers, 0);
    let y = float_at(numbers, 1);
    let strength = float_at(numbers, 2);
    let due_x = word(s, at);
    let due_y = word(s, skip(s, at, 4));
    let wrong = differ(strength, word(s, skip(s, at, 8)));
    let places = plus(differ(x, due_x), differ(y, due_y));
    if !gaussian {
        return Compared {
            wrong: plus(wrong, places),
            ..compared
        };
    }
    let compared = Compared { wrong, ..compared };
    if places == 0 {
        return Compared {
            equal: 1,
            ..compared
        };
    }
    if close(x, due_x) && close(y, due_y) {
        return Compared {
            near: 1,
            ..compared
        };
    }
    Compared {
        beyond: 1,
        ..compared
    }
}

// Whether the floats of two bit patterns are within the distance; no NaN is.
fn close(a: u64, b: u64) -> bool {
    (vectors::float(a) - vectors::float(b)).abs() <= NEAR
}
