// Entries of a buffer against those of a list: bytes, words or floats.
ghost use Rattle.std.specs.Prelude.{◌≡◌, ℕ, List};
ghost use Rattle.vectors.specs.Vectors.{byte_at, word_at, float_at, entry_at};
ghost use Rattle.replay.specs.Entries.{compared_of, both, sides_of};

use std::mem::size_of;
use vectors::{byte, differ, float_at, plus, skip, word, word_at};

// What was compared, and the place behind it: how many values disagree, of how many.
#[derive(Clone, Copy)]
pub struct Compared {
    pub next: usize,
    pub wrong: usize,
    pub values: usize,
}

impl Compared {
    // What was compared before, and what after it.
    pub fn then(self, after: Compared) -> Compared
        ensures { result ≡ both self after }
    {
        Compared {
            next: after.next,
            wrong: plus(self.wrong, after.wrong),
            values: plus(self.values, after.values),
        }
    }
}

// What a buffer holds: how an entry of it is read as a number, and how a list states one.
pub trait Entry: Sized {
    ghost entry_of: { List Self → ℕ → ℕ };

    ghost listed_of: { List ℕ → ℕ → ℕ };

    ghost SIZE: { ℕ };

    // How many bytes an entry takes in a list.
    const SIZE: usize;

    fn entry(buffer: &[Self], i: usize) -> u64
        ensures { result ≡ entry_of buffer.now i };

    fn listed(s: &[u8], at: usize) -> u64
        ensures { result ≡ listed_of s.now at };
}

impl Entry for u8 {
    ghost entry_of = { byte_at };

    ghost listed_of = { byte_at };

    ghost SIZE = { 1 };

    const SIZE: usize = size_of::<u8>();

    fn entry(buffer: &[u8], i: usize) -> u64 {
        byte(buffer, i)
    }

    fn listed(s: &[u8], at: usize) -> u64 {
        byte(s, at)
    }
}

impl Entry for u32 {
    ghost entry_of = { entry_at };

    ghost listed_of = { word_at };

    ghost SIZE = { 4 };

    const SIZE: usize = size_of::<u32>();

    fn entry(buffer: &[u32], i: usize) -> u64 {
        word_at(buffer, i)
    }

    fn listed(s: &[u8], at: usize) -> u64 {
        word(s, at)
    }
}

impl Entry for f32 {
    ghost entry_of = { float_at };

    ghost listed_of = { word_at };

    ghost SIZE = { 4 };

    const SIZE: usize = size_of::<f32>();

    fn entry(buffer: &[f32], i: usize) -> u64 {
        float_at(buffer, i)
    }

    fn listed(s: &[u8], at: usize) -> u64 {
        word(s, at)
    }
}

// The first n entries of a buffer against the n that stand in a list from a place on.
pub fn compare<T: Entry>(s: &[u8], at: usize, buffer: &[T], n: usize) -> Compared
    ensures { result ≡ compared_of T.SIZE (T.entry_of buffer.now) T.listed_of s.now at n }
{
    let mut next = at;
    let mut wrong: usize = 0;
    // Indexed: an entry past the buffer's end is compared too, as none.
    for i in 0..n {
        let found = T::entry(buffer, i);
        wrong = plus(wrong, differ(found, T::listed(s, next)));
        next = skip(s, next, T::SIZE);
    }
    Compared {
        next,
        wrong,
        values: n,
    }
}

// The answer 0 and the two sides.
#[tactic(auto, unfolding(crate::specs::Entries::sides_of))]
pub fn sides(s: &[u8], at: usize, answer: u64, w: u64, h: u64) -> Compared
    ensures { result ≡ sides_of s.now at answer w h }
{
    let second = skip(s, at, 4);
    let wrong = plus(differ(w, word(s, at)), differ(h, word(s, second)));
    Compared {
        next: skip(s, second, 4),
        wrong: plus(wrong, differ(answer, 0)),
        values: 3,
    }
}
