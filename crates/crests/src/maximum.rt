// The map's maximum: the greatest of the values, from zero up. Values that are not above the greatest so far are passed over eight at a time.
ghost use Rattle.std.specs.Prelude.{◌≡◌, ◌+◌, ◌-◌, ◌≤◌, length};
ghost use Rattle.grid.specs.Fold.{fold};
ghost use Rattle.crests.specs.Maximum.{entry, greater, greatest_of};

use super::crests::eight_above;

// The greater of two, the first where neither is. By hand: of two that compare equal the contract of `max` leaves open which it gives.
fn greater_of(m: f32, v: f32) -> f32
    ensures { result ≡ greater m v }
{
    if v > m {
        return v;
    }
    m
}

// What m becomes over the entries from a to below e: each that is above the greatest so far takes its place.
fn raised(s: &[f32], a: usize, e: usize, m: f32) -> f32
    requires { (a ≤ e) × (e ≤ length s.now) }
    ensures { result ≡ fold greater m (λ k. entry s.now (a + k)) (e - a) }
{
    s[a..e].iter().fold(m, |max, v| greater_of(max, *v))
}

// What m becomes over the eight entries from i on: mostly none of them is above it.
fn raised_eight(s: &[f32], i: usize, m: f32) -> f32
    requires { i + 8 ≤ length s.now }
    ensures { result ≡ fold greater m (λ k. entry s.now (i + k)) 8 }
{
    if eight_above(s, i, m) {
        return raised(s, i, i + 8, m);
    }
    m
}

// The greatest of the values, from zero up. The four quarters are read side by side: one after the other, each read would wait for memory.
// By number: four parts in step, zipped, would be no plainer.
pub fn max_response(s: &[f32]) -> f32
    ensures { result ≡ greatest_of s.now }
{
    let n = s.len();
    let second = n / 4;
    let third = 2 * second;
    let fourth = 3 * second;
    let mut m0 = 0.0f32;
    let mut m1 = 0.0f32;
    let mut m2 = 0.0f32;
    let mut m3 = 0.0f32;
    let eights = second / 8;
    for k in 0..eights {
        let i = 8 * k;
        m0 = raised_eight(s, i, m0);
        m1 = raised_eight(s, second + i, m1);
        m2 = raised_eight(s, third + i, m2);
        m3 = raised_eight(s, fourth + i, m3);
    }
    let i = 8 * eights;
    m0 = raised(s, i, second, m0);
    m1 = raised(s, second + i, third, m1);
    m2 = raised(s, third + i, fourth, m2);
    m3 = raised(s, fourth + i, n, m3);
    greater_of(greater_of(greater_of(m0, m1), m2), m3)
}
