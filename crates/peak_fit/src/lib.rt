// The peak of three map values along one axis, counted in pixels from the middle one: that of the parabola through
// them, or through their logarithms, which fits a Gaussian through the values.
#![tactic(auto)]

ghost use Rattle.std.specs.Prelude.{◌≡◌};
ghost use Rattle.std.specs.Option.{unwrap_or};
ghost use Rattle.float.specs.Values.{f0};
ghost use Rattle.peak_fit.specs.PeakFit.{all_usable, all_above, clamped, peak_of};
ghost use Rattle.peak_fit.specs.PeakFit.{peak_of_logs, by_mode, fit_of};

use params::PeakFitMode;

// An offset goes no further than halfway to the next pixel.
const LOW: f32 = -0.5;

const HIGH: f32 = 0.5;

// 2^32: no value of a map is above it.
const MOST: f32 = 4294967296.0;

// A second difference above this is no peak: the neighbours are not below the middle, and a quotient would run away.
const FLAT: f32 = -1e-12;

// What is fitted: the values before the pixel, at it and after it, or their logarithms.
#[derive(Clone, Copy)]
struct Values {
    y_minus: f32,
    y_c: f32,
    y_plus: f32,
}

impl Values {
    fn all_usable(self) -> bool
        ensures { result ≡ all_usable self.y_minus self.y_c self.y_plus }
    {
        [self.y_minus, self.y_c, self.y_plus]
            .iter()
            .all(|y| 0.0 <= *y && *y <= MOST)
    }

    fn all_above(self) -> bool
        ensures { result ≡ all_above self.y_minus self.y_c self.y_plus }
    {
        [self.y_minus, self.y_c, self.y_plus]
            .iter()
            .all(|y| *y > 0.0)
    }
}

// By hand: `f32::clamp` gives a NaN back, where `clamped` says the upper end; and of two numbers that compare equal, `min` and
// `max` leave open which one they give.
fn clamp(frac: f32) -> f32
    ensures { result ≡ clamped frac }
{
    if frac <= HIGH {
        if LOW <= frac { frac } else { LOW }
    } else {
        HIGH
    }
}

fn peak(ys: Values) -> f32
    ensures { result ≡ peak_of ys.y_minus ys.y_c ys.y_plus }
{
    let Values {
        y_minus: ym,
        y_c: y0,
        y_plus: yp,
    } = ys;
    let denom = ym - 2.0 * y0 + yp;
    if denom > FLAT {
        0.0
    } else {
        clamp(0.5 * (ym - yp) / denom)
    }
}

// The peak of the logarithms; none where a value is outside the logarithm's range, which leaves nothing to fit.
fn log_peak(ys: Values) -> Option<f32>
    ensures { unwrap_or result f0 ≡ peak_of_logs ys.y_minus ys.y_c ys.y_plus }
{
    Some(peak(Values {
        y_minus: scalar::ln(ys.y_minus)?,
        y_c: scalar::ln(ys.y_c)?,
        y_plus: scalar::ln(ys.y_plus)?,
    }))
}

// A value that is not above zero has no logarithm: there the values themselves are fitted, in either mode.
fn by_mode(ys: Values, mode: PeakFitMode) -> f32
    ensures { result ≡ by_mode mode ys.y_minus ys.y_c ys.y_plus }
{
    match mode {
        PeakFitMode::Gaussian if ys.all_above() => log_peak(ys).unwrap_or(0.0),
        _ => peak(ys),
    }
}

// Always a number from -0.5 to 0.5; 0 where there is no peak.
pub fn fit_peak_frac(y_minus: f32, y_c: f32, y_plus: f32, mode: PeakFitMode) -> f32
    ensures { result ≡ fit_of mode y_minus y_c y_plus }
{
    let ys = Values {
        y_minus,
        y_c,
        y_plus,
    };
    if ys.all_usable() {
        by_mode(ys, mode)
    } else {
        0.0
    }
}
