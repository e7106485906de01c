// What stands in a list of vectors: its numbers, its floats and its parts, whether two numbers differ, and sums of counts. A list is a line of text,
// then records of big-endian numbers, as tools/judge/README.md says. No read goes past its end.
#![tactic(auto)]

ghost use Rattle.std.specs.Prelude.{◌≡◌, cond, ◌+◌, ◌≤◌, min, eqb, leb, length, position};
ghost use Rattle.std.specs.Float.{binary32};
ghost use Rattle.std.specs.Float.Ieee.{to_bits};
ghost use Rattle.vectors.specs.Vectors.{zeros, byte_at, word_at, Part, after_line, behind_of, float_of, float_at, entry_at};
ghost use Rattle.vectors.specs.Counts.{sum, differs};

// What stands for a byte or a word past the end, a number that none has. No `Option`: a number is what `byte_at`, `word_at`, `float_at` and `entry_at` say,
// and with them `behind_of` and the contracts of `replay`.
const NO_BYTE: u64 = 256;

const NO_WORD: u64 = 4294967296;

// No count goes over this.
const MOST: usize = 4294967296;

// Room for a whole list, with zeros in it. A caller's proof sees the array's length, and not its million bytes.
pub fn room() -> [u8; 1048576]
    ensures { result ≡ zeros 1048576 }
{
    [0; 1048576]
}

// Here and below a list and a place in it come as two: who replays a list keeps the place alone. This, `word_at` and `float_at` are a line each,
// and each has a definition of its own.
pub fn byte(s: &[u8], at: usize) -> u64
    ensures { result ≡ byte_at s.now at }
{
    s.get(at).map_or(NO_BYTE, |b| u64::from(*b))
}

// The four bytes at a place as a number, the highest first.
#[tactic(auto, using(crate::proofs::Places::word_from), unfolding(crate::specs::Vectors::word_at))]
pub fn word(s: &[u8], at: usize) -> u64
    ensures value { result ≡ word_at s.now at }
    ensures most { result ≤ 4294967296 }
{
    // From the place on: so one test serves all four bytes.
    let rest = &s[at.min(s.len())..];
    if rest.len() < 4 {
        return NO_WORD;
    }
    u64::from(big_endian::word_at(rest, 0))
}

// The place n bytes further, and the end at most.
pub fn skip(s: &[u8], at: usize, n: usize) -> usize
    ensures { result ≡ min (at + n) (length s.now) }
{
    at.saturating_add(n).min(s.len())
}

// The word so many bytes behind a place.
pub fn field(s: &[u8], at: usize, n: usize) -> u64
    ensures value { result ≡ word_at s.now (min (at + n) (length s.now)) }
    ensures most { result ≤ 4294967296 }
{
    word(s, skip(s, at, n))
}

// The bytes from a place to another, and none where that is no part: `Part` says so, and no call fails.
#[tactic(auto, unfolding(crate::specs::Vectors::part_of, crate::specs::Vectors::part_start))]
pub fn part(s: &[u8], from: usize, to: usize) -> &[u8]
    ensures { Part s.entry from to result }
{
    // Not by `get`: its contract has a part's values, and not where it lies.
    let n = s.len();
    if to > n || from > to {
        return &s[n..];
    }
    &s[from..to]
}

// The place behind a part that stands after its length.
#[tactic(auto, unfolding(crate::specs::Vectors::behind_of))]
pub fn behind(s: &[u8], at: usize) -> usize
    ensures { result ≡ behind_of s.now at }
{
    skip(s, skip(s, at, 4), word(s, at) as usize)
}

// That part.
pub fn sized(s: &[u8], at: usize) -> &[u8]
    ensures { Part s.entry (min (at + 4) (length s.now)) (behind_of s.now at) result }
{
    part(s, skip(s, at, 4), behind(s, at))
}

// The place of the first line feed.
fn line_feed(s: &[u8]) -> Option<usize>
    ensures { result ≡ position (λ b. eqb b 10) s.now }
{
    s.iter().position(|b| *b == b'\n')
}

// The place after the first line.
pub fn after_line(s: &[u8]) -> usize
    ensures { result ≡ after_line s.now }
{
    match line_feed(s) {
        Some(i) => i + 1,
        None => s.len(),
    }
}

// The bits of a float. A NaN's are 7FC00000.
pub fn bits(x: f32) -> u64
    ensures value { result ≡ to_bits binary32 x }
    ensures most { result ≤ 4294967295 }
{
    u64::from(big_endian::bits(x))
}

// The float of a bit pattern, and a NaN for a NaN's or for no word.
pub fn float(bits: u64) -> f32
    ensures { result ≡ float_of bits }
{
    match u32::try_from(bits) {
        Ok(bits) => big_endian::float(bits),
        Err(_) => f32::NAN,
    }
}

// An entry's bits, or no word where there is none.
pub fn float_at(t: &[f32], i: usize) -> u64
    ensures { result ≡ float_at t.now i }
{
    t.get(i).map_or(NO_WORD, |x| bits(*x))
}

pub fn word_at(t: &[u32], i: usize) -> u64
    ensures { result ≡ entry_at t.now i }
{
    t.get(i).map_or(NO_WORD, |x| u64::from(*x))
}

// 1 where two numbers differ.
pub fn differ(a: u64, b: u64) -> usize
    ensures { result ≡ differs a b }
{
    usize::from(a != b)
}

// A sum of two counts.
pub fn plus(a: usize, b: usize) -> usize
    ensures { result ≡ sum a b }
{
    a.saturating_add(b).min(MOST)
}

// A number that a list states, and 0 where it is more than may be: `value` says so, and no call fails.
pub fn capped(n: u64, most: usize) -> usize
    ensures value { result ≡ cond (leb n most) n 0 }
    ensures within { result ≤ most }
{
    if n <= most as u64 { n as usize } else { 0 }
}

// Whether a frame file asks for Gaussian mode.
pub fn gaussian(file: &[u8]) -> bool
    ensures { result ≡ eqb (byte_at file.now 12) 1 }
{
    byte(file, 12) == 1
}
