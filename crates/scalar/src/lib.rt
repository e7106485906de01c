// The square root of an f32, correctly rounded, and a natural logarithm that is a cut series: both are worked out in whole numbers.
#![tactic(auto)]

ghost use Rattle.std.specs.Prelude.{◌≡◌, Float, Some};
ghost use Rattle.scalar.specs.Root.{root_of};
ghost use Rattle.scalar.specs.Log.{log_of, Near, terms, high};

mod logarithm;
mod square_root;

use logarithm::Count;

// The ends of the logarithm's range, 2^-6 and 2^24: both are inside.
const LEAST: f32 = 0.015625;

const MOST: f32 = 16777216.0;

// The nearest f32 to the root of x; none for NaN, infinities, numbers below 0 and negative zero.
pub fn sqrt(x: f32) -> Option<f32>
    ensures { result ≡ root_of x }
{
    if x.is_nan() {
        return None;
    }
    let b = x.to_bits();
    if b < square_root::INFINITE {
        Some(f32::from_bits(square_root::root_bits(b)))
    } else {
        None
    }
}

// The logarithm's series at x, to within 2^-19; none for NaN and for what is not in the range.
pub fn ln(x: f32) -> Option<f32>
    ensures value { result ≡ log_of terms high x }
    ensures close { (v : Float) → result ≡ Some v → Near terms x v }
{
    if x >= LEAST && x <= MOST {
        let six = Count {
            units: 6 * logarithm::THIRD,
        };
        Some(logarithm::difference(logarithm::units(x.to_bits()), six))
    } else {
        None
    }
}
