// The numbers of a list and those of a record, and whether one of them is not finite.
ghost use Rattle.std.specs.Prelude.{◌≡◌, ◌*◌, ◌<◌, ◌≤◌, length};
ghost use Rattle.std.specs.Float.Ieee.Scale.{finite};
ghost use Rattle.grid.specs.Each.{any};
ghost use Rattle.grid.specs.Fill.{filled};
ghost use Rattle.grid.specs.Rect.{range};
ghost use Rattle.record.specs.Record.{stride, stray, number_in};

use crate::{HEAD, STRIDE, WORD};
use big_endian::{float, word_at};

// Whether a number is finite: it lies between the infinities, and no NaN does.
// By two comparisons: std's `is_finite` takes the number from itself.
fn is_finite(x: f32) -> bool
    ensures { result ≡ finite x }
{
    x < f32::from_bits(0x7f80_0000) && f32::from_bits(0xff80_0000) < x
}

// Whether a number of a list is not finite.
// The like of `Numbers::has_stray`, which asks by place: what both could share is this one line.
pub fn stray_in_list(list: &[f32]) -> bool
    ensures { result ≡ any stray list.now }
{
    list.iter().any(|x| !is_finite(*x))
}

// The numbers of a record: those of as many corners.
#[derive(Clone, Copy)]
pub struct Numbers<'a> {
    pub file: &'a [u8],
    pub corners: u32,
}

impl Numbers<'_> {
    // How many there are.
    pub fn len(self) -> usize
        ensures { result ≡ stride * self.entry.corners }
    {
        STRIDE * self.corners as usize
    }

    // Number i.
    #[tactic(auto, unfolding(crate::specs::Record::number_in))]
    fn at(self, i: usize) -> f32
        requires { i < stride * self.corners }
        ensures { result ≡ number_in self.entry.file.now i }
    {
        float(word_at(self.file, HEAD + WORD * i))
    }

    // Whether one of them is not finite.
    pub fn has_stray(self) -> bool
        ensures { result ≡ any (λ i. stray (number_in self.entry.file.now i)) (range 0 (stride * self.entry.corners)) }
    {
        (0..self.len()).any(|i| !is_finite(self.at(i)))
    }

    // All of them into a list.
    // Indexed: what a list holds after `iter_mut().enumerate()` no clause knows.
    pub fn fill(self, list: &mut [f32])
        requires { stride * self.corners ≤ length list.old }
        ensures { list.new ≡ filled (stride * self.entry.corners) (number_in self.entry.file.now) list.old }
    {
        for i in 0..self.len() {
            list[i] = self.at(i);
        }
    }
}
