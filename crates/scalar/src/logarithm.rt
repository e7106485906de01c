// The logarithm of a bit pattern, in whole numbers: units of 2^-28 of half the logarithm, which are units of 2^-27 of the whole.
ghost use Rattle.std.specs.Prelude.{◌≡◌, ◌<◌, ◌≤◌};
ghost use Rattle.scalar.specs.Log.{cut_sum, units_of, float_of, difference, terms, high, least_bits, most_bits};
ghost use Rattle.scalar.specs.Steps.{a_third, roomy};

// How many terms the series has: 9 is up to z^17.
const TERMS: u64 = 9;

// Half of S(1/3), in units.
pub const THIRD: u64 = 93032639;

// 2^28: the units of 1.
const ONE: u64 = 268435456;

// z + z^3 / 3 + z^5 / 5 + .. in units, each power and each term cut to a whole number.
fn odd_sum(z: u64) -> u64
    requires { z ≤ a_third }
    ensures { (result ≡ cut_sum z terms) × (result < 268435456) }
{
    let w = z * z / ONE;
    let mut p = z;
    let mut sum = 0u64;
    for j in 0..TERMS {
        sum += p / (2 * j + 1);
        p = p * w / ONE;
    }
    sum
}

// So many units, which are rounded to an f32 below 2^32.
#[derive(Clone, Copy)]
pub struct Count {
    pub units: u64,
    ghost small: { units < roomy },
}

// The logarithm of 2^6 times the number of the pattern b.
pub fn units(b: u32) -> Count
    requires { (least_bits ≤ b) × (b ≤ most_bits high) }
    ensures { result.units ≡ units_of terms b }
{
    let t = (b % 8388608) as u64;
    let e = (b / 8388608 - 121) as u64;
    Count {
        units: e * THIRD + odd_sum(t * ONE / (t + 16777216)),
    }
}

// d units as an f32, rounded once: dividing by 2^27 is exact.
fn float_of(d: Count) -> f32
    ensures { result ≡ float_of d.units }
{
    std::num::nearest_u32_to_f32(d.units as u32) / 134217728.0
}

// a - c units as an f32.
pub fn difference(a: Count, c: Count) -> f32
    ensures { result ≡ difference a.units c.units }
{
    if c.units <= a.units {
        float_of(Count {
            units: a.units - c.units,
        })
    } else {
        -float_of(Count {
            units: c.units - a.units,
        })
    }
}
