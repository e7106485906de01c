// The square root of a bit pattern, in whole numbers: the pattern is scaled by a power of 4 to n, the root of n is rounded,
// and the pattern is put together again.
// By hand: the library's `f32::sqrt` is an operation of the machine, which would be trusted where this is proved.
ghost use Rattle.std.specs.Prelude.{◌≡◌, ◌<◌, ◌≤◌};
ghost use Rattle.scalar.specs.Bits.{infinite};
ghost use Rattle.scalar.specs.Root.{root_bits};
ghost use Rattle.scalar.specs.Steps.{Scales, WholeRoot, Rounds, least_scaled, most_scaled};

// The pattern of infinity: those below it are the finite numbers from +0 up.
pub const INFINITE: u32 = 2139095040;

// 2^23: a pattern divided by it is the exponent's field, and the remainder the digits.
const FIELD: u32 = 8388608;

const WIDE_FIELD: u64 = FIELD as u64;

// 2^46: the root of a number from here to 2^48 has 24 digits.
const LEAST_SCALED: u64 = 70368744177664;

// A number n * 4^(h - 149).
#[derive(Clone, Copy)]
struct Scaling {
    n: u64,
    h: u32,
}

// A number within one part in a hundred of n's root: a line over each of two halves.
fn guess(n: u64) -> u64
    requires { n < 281474976710656 }
    ensures { (4194304 ≤ result) × (result ≤ 33554432) }
{
    if n < 140737488355328 {
        4950638 + n / 20101738
    } else {
        7001260 + n / 28428150
    }
}

// By hand, since `u64::isqrt` halves 32 times where three steps or so do.
// A step of Newton's is never below the whole root, whatever it starts from: so the first number that is not above the root is the whole root.
fn whole_root(n: u64) -> u64
    requires { n < 281474976710656 }
    ensures { WholeRoot n result }
{
    let s = guess(n);
    let mut r = (s + n / s) / 2;
    while n < r * r {
        r = (r + n / r) / 2;
    }
    r
}

// The whole number nearest to n's root: n - q * q is above q exactly where the root is above q + 1/2.
fn nearest_root(n: u64) -> u64
    requires { (least_scaled ≤ n) × (n ≤ most_scaled) }
    ensures { Rounds n result }
{
    let q = whole_root(n);
    if n - q * q <= q { q } else { q + 1 }
}

// A subnormal number is multiplied by 4 until it is large enough.
// Counted down by hand: by `leading_zeros` it would be a shift by twice the half, rounded up, of how many are too many, which is
// no plainer.
fn scaled_low(b: u32) -> Scaling
    requires { (0 < b) × (b < 8388608) }
    ensures { Scales b result.n result.h }
{
    let mut n = b as u64 * WIDE_FIELD;
    let mut h = 63u32;
    while n < LEAST_SCALED {
        n *= 4;
        h -= 1;
    }
    Scaling { n, h }
}

// The number of the pattern b, scaled by a power of 4.
fn scaled(b: u32) -> Scaling
    requires { (0 < b) × (b < infinite) }
    ensures { Scales b result.n result.h }
{
    if b < FIELD {
        return scaled_low(b);
    }
    let k = b / FIELD - 1;
    let m = (b % FIELD + FIELD) as u64;
    let h = 63 + k / 2;
    let n = if k % 2 == 0 {
        m * WIDE_FIELD
    } else {
        m * (2 * WIDE_FIELD)
    };
    Scaling { n, h }
}

// The pattern of the nearest root. A significand of 2^24 would carry into the exponent by itself; none occurs.
pub fn root_bits(b: u32) -> u32
    requires { b < infinite }
    ensures { (result ≡ root_bits b) × (result < infinite) }
{
    if b == 0 {
        return 0;
    }
    let s = scaled(b);
    let q = nearest_root(s.n);
    s.h * FIELD + (q as u32)
}
