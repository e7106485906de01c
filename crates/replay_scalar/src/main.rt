// Replays the vectors of its input: how many roots agree, how many logarithms, and how many of those are within 2^-19 of L.
// The input is as tools/scalar_vectors.py says: a line of text, then records of big-endian numbers.
#![tactic(auto)]

ghost use Rattle.std.specs.Prelude.{◌≤◌};

use std::io;

// What stands for the answer "outside": the list of vectors states none so, by a NaN's pattern, which no answer has.
const OUTSIDE: u64 = 4294967295;

// No list has more records of a kind.
const MOST: usize = 4096;

// 2^-19 in units of 2^-40, less one for the rounding of L.
const CLOSE: u64 = 2097151;

// 2^31: the sign's bit of a pattern.
const SIGN: u64 = 2147483648;

// How many records agree, and the place of the first that does not.
#[derive(Clone, Copy, Default)]
struct Tally {
    agree: usize,
    first: Option<usize>,
}

fn main(rt: HostRuntime) -> io::Result<()> {
    let mut input = [0u8; 65536];
    let got = input::read_full(&mut rt.stdin(), &mut input)?;
    replayed(&rt, &input[..got])
}

// The roots, then the logarithms, each after the number of them.
fn replayed(rt: &impl Print, s: &[u8]) -> io::Result<()> {
    let roots = vectors::after_line(s);
    let many_roots = count(s, roots);
    let first_root = vectors::skip(s, roots, 4);
    let logs = vectors::skip(s, first_root, 8 * many_roots);
    let many_logs = count(s, logs);
    let first_log = vectors::skip(s, logs, 4);
    let root_agrees = |at| pattern(root(s, at)) == vectors::field(s, at, 4);
    let log_agrees = |at| pattern(log(s, at)) == vectors::field(s, at, 4);
    let log_is_near = |at| {
        near(
            log(s, at),
            vectors::field(s, at, 4),
            vectors::field(s, at, 8),
            vectors::field(s, at, 12),
        )
    };
    report(
        rt,
        "roots that agree",
        many_roots,
        counted(s, first_root, 8, many_roots, root_agrees),
    )?;
    report(
        rt,
        "logarithms that agree",
        many_logs,
        counted(s, first_log, 16, many_logs, log_agrees),
    )?;
    report(
        rt,
        "logarithms within 2^-19 of L",
        many_logs,
        counted(s, first_log, 16, many_logs, log_is_near),
    )
}

// The number of records that stands at a place, at most 4096.
fn count(s: &[u8], at: usize) -> usize
    ensures { result ≤ 4096 }
{
    vectors::capped(vectors::word(s, at), MOST)
}

// Compares as many records as there are, each of `size` bytes, from a place on.
fn counted<F: Fn(usize) -> bool>(
    s: &[u8],
    from: usize,
    size: usize,
    many: usize,
    agrees: F,
) -> Tally
    requires { F.IsAlwaysCallable agrees }
{
    let mut tally = Tally::default();
    let mut at = from;
    for i in 0..many {
        if agrees(at) {
            tally.agree += 1;
        } else {
            tally.first = tally.first.or(Some(i));
        }
        at = vectors::skip(s, at, size);
    }
    tally
}

// The root, or the logarithm, of the number whose pattern stands at a place: a call each, and all else is `pattern`'s.
fn root(s: &[u8], at: usize) -> Option<f32> {
    scalar::sqrt(vectors::float(vectors::word(s, at)))
}

fn log(s: &[u8], at: usize) -> Option<f32> {
    scalar::ln(vectors::float(vectors::word(s, at)))
}

// An answer as a record has it.
fn pattern(answer: Option<f32>) -> u64 {
    answer.map_or(OUTSIDE, vectors::bits)
}

// Whether the logarithm is within 2^-19 of L, which stands in two halves, in units of 2^-40: the top bit is its sign, as of a pattern.
fn near(answer: Option<f32>, expected: u64, high: u64, low: u64) -> bool
    requires { low ≤ 4294967296 }
{
    let Some(value) = answer else {
        return expected == OUTSIDE;
    };
    let bits = vectors::bits(value);
    let Some(found) = units(bits % SIGN) else {
        return false;
    };
    let exact = high % SIGN * 4294967296 + low;
    if expected == OUTSIDE {
        false
    } else if (bits < SIGN) == (high < SIGN) {
        found.abs_diff(exact) <= CLOSE
    } else {
        // Two numbers with opposite signs: their sizes together are the distance.
        found <= CLOSE && exact <= CLOSE - found
    }
}

// The size of an f32 from 2^-27 to below 2^5 in units of 2^-40, 0 for 0; none for any other.
fn units(bits: u64) -> Option<u64> {
    let field = bits / 8388608;
    let digits = bits % 8388608 + 8388608;
    if bits == 0 {
        Some(0)
    } else if field < 100 || field >= 132 {
        None
    } else if field < 110 {
        Some(digits >> (110 - field))
    } else {
        Some(digits << (field - 110))
    }
}

// A line for a kind of vector: how many agree, of how many, and where the first does not, counted from 0.
fn report(rt: &impl Print, name: &str, many: usize, t: Tally) -> io::Result<()> {
    match t.first {
        None => println!(rt; "{name}: {} of {many}", t.agree),
        Some(first) => println!(rt;
            "{name}: {} of {many}; the first that does not is number {first}",
            t.agree
        ),
    }
}
