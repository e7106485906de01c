// Replays corner records, read and written, and compares with what tools/record_vectors.py lists: the answer, the count and the sides of each call,
// what it wrote, to the bit, and that every other entry of the lent buffer is as it was.
#![tactic(auto)]

ghost use Rattle.std.specs.Prelude.{◌≡◌, ◌+◌, ◌≤◌, cond, eqb, min, length};
ghost use Rattle.vectors.specs.Counts.{sum};
ghost use Rattle.vectors.specs.Vectors.{behind_of, word_at};

use params::Outcome;
use replay::{Entry, Visit, Walk, compare};
use std::{array, io};
use vectors::{capped, differ, field, plus, skip, word};

// What a vector is: a record that is read, or a list that is written.
#[derive(Clone, Copy)]
enum Kind {
    Read,
    Written,
}

// Entries of the lent list, and of the lent output: as many bytes.
const NUMBERS: usize = 1024;

const BYTES: usize = 4096;

// What each byte of the two is before a call: of the output, and of the patterns of the list's numbers.
const OLD: u8 = 165;

const OLD_NUMBER: u64 = 0xa5a5_a5a5;

const MAX_SIDE: usize = 65535;

fn main(rt: HostRuntime) -> io::Result<()> {
    let mut room = vectors::room();
    let s = tell::of_input(&mut rt.stdin(), &mut room)?;
    replayed(&rt, s)
}

// What is kept along the vectors: the calls of each kind.
#[derive(Drop, Default)]
struct Replay {
    reads: Calls,
    writes: Calls,
}

impl Visit for Replay {
    // A vector ends behind its two parts, and is a call more of its kind. How many things in it disagree `vector` leaves open.
    ghost visits = { λ s kept at next wrong then.
        (next ≡ behind_of s (behind_of s (min (at + 32) (length s))))
        × (then.reads.all ≡ cond (eqb (word_at s at) 0) (sum kept.reads.all 1) kept.reads.all)
        × (then.writes.all ≡ cond (eqb (word_at s at) 1) (sum kept.writes.all 1) kept.writes.all) };

    fn visit(&mut self, s: &[u8], at: usize) -> (usize, usize) {
        let kind = kind_at(s, at);
        let c = vector(kind, s, at);
        match kind {
            Some(Kind::Read) => self.reads.count(c.answer),
            Some(Kind::Written) => self.writes.count(c.answer),
            None => {}
        }
        (c.next, c.wrong)
    }
}

// Every vector; then what was found.
fn replayed(rt: &impl Print, s: &[u8]) -> io::Result<()> {
    let mut kept = Replay::default();
    let walk = Walk::along(s, &mut kept);
    tell::head(rt, s, walk)?;
    kept.reads.tell(rt, "reads")?;
    kept.writes.tell(rt, "writes")
}

// How many calls there were, and how many had each answer: by number, since `tell::each` prints a line for each place.
#[derive(Drop, Default)]
struct Calls {
    all: usize,
    answered: [usize; 31],
}

impl Calls {
    // One call more of that answer.
    fn count(&mut self, answer: u64)
        ensures { self.new.all ≡ sum self.old.all 1 }
    {
        let i = capped(answer, 30);
        self.answered[i] = plus(self.answered[i], 1);
        self.all = plus(self.all, 1);
    }

    fn tell(&self, rt: &impl Print, name: &str) -> io::Result<()> {
        tell::say(rt, name, self.all)?;
        tell::each(rt, "of these answered ", &self.answered, 0, 1)?;
        tell::each(rt, "of these answered ", &self.answered, 16, 21)
    }
}

// What was compared, and the place behind it: how many things disagree, and what the call was answered. One a vector: nothing is summed.
#[derive(Clone, Copy)]
struct Compared {
    next: usize,
    wrong: usize,
    answer: u64,
}

// The kind that a vector begins with. No `TryFrom`: to be of no kind is no error here.
fn kind_at(s: &[u8], at: usize) -> Option<Kind>
    ensures { result ≡ cond (eqb (word_at s.now at) 0) (Some Kind.Read) (cond (eqb (word_at s.now at) 1) (Some Kind.Written) None) }
{
    match word(s, at) {
        0 => Some(Kind::Read),
        1 => Some(Kind::Written),
        _ => None,
    }
}

// A vector: eight words, what is given, and what is due. One of no kind is compared as a list, and not counted.
fn vector(kind: Option<Kind>, s: &[u8], at: usize) -> Compared
    ensures { result.next ≡ behind_of s.now (behind_of s.now (min (at + 32) (length s.now))) }
{
    let given = skip(s, at, 32);
    let due = vectors::behind(s, given);
    let part = vectors::sized(s, given);
    match kind {
        Some(Kind::Read) => read(part, s, at, due),
        Some(Kind::Written) | None => written(part, s, at, due),
    }
}

// A record into a list, of which as much is lent as the vector says.
fn read(file: &[u8], s: &[u8], at: usize, due: usize) -> Compared
    ensures { result.next ≡ behind_of s.now due }
{
    let mut list = [vectors::float(OLD_NUMBER); NUMBERS];
    let room = capped(field(s, at, 12), NUMBERS);
    let outcome = record::read_record(file, &mut list[..room]);
    against(
        outcome,
        s,
        at,
        due,
        differs(&list, capped(word(s, due), BYTES) / 4, s, due),
    )
}

// A list into an output, of which as much is lent as the vector says.
fn written(patterns: &[u8], s: &[u8], at: usize, due: usize) -> Compared
    ensures { result.next ≡ behind_of s.now due }
{
    let list = numbers(patterns);
    let n = capped((patterns.len() / 4) as u64, NUMBERS);
    let mut out = [OLD; BYTES];
    let room = capped(field(s, at, 12), BYTES);
    let w = side(s, at, 4);
    let h = side(s, at, 8);
    let outcome = record::write_record(w, h, &list[..n], &mut out[..room]);
    against(
        outcome,
        s,
        at,
        due,
        differs(&out, capped(word(s, due), BYTES), s, due),
    )
}

// The numbers of these patterns. NaNs are all one NaN, and so is what stands behind the last pattern.
fn numbers(patterns: &[u8]) -> [f32; NUMBERS] {
    array::from_fn(|i| vectors::float(word(patterns, 4 * i)))
}

fn side(s: &[u8], at: usize, n: usize) -> u16 {
    capped(field(s, at, n), MAX_SIDE) as u16
}

// The n entries that are due, and behind them those that were there before.
fn differs<T: Entry>(buffer: &[T], n: usize, s: &[u8], due: usize) -> usize
    requires { n ≤ length buffer.now }
{
    let written = compare(s, skip(s, due, 4), buffer, n);
    let kept = compare(&[OLD; BYTES], 0, &buffer[n..], buffer.len() - n);
    plus(written.wrong, kept.wrong)
}

// The answer, the count and the sides of a call that left so many wrong entries.
fn against(outcome: Outcome, s: &[u8], at: usize, due: usize, entries: usize) -> Compared
    ensures { result.next ≡ behind_of s.now due }
{
    let answer = u64::from(outcome.answer.number());
    let mut wrong = entries;
    for (found, place) in [
        (answer, 16),
        (outcome.count as u64, 20),
        (outcome.w as u64, 24),
        (outcome.h as u64, 28),
    ] {
        wrong = plus(wrong, differ(found, field(s, at, place)));
    }
    Compared {
        next: vectors::behind(s, due),
        wrong,
        answer,
    }
}
