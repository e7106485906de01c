// The disk of pixels around a corner: offsets from the middle whose squares together are at most max(k², 2).
ghost use Rattle.std.specs.Prelude.{◌≡◌, ℕ, ◌-◌, ◌+◌, ◌≤◌, ◌<◌, Float};
ghost use Rattle.grid.specs.Rect.{Place};
ghost use Rattle.saddle.specs.Saddle.{side, offset, over_disk};
ghost use Rattle.saddle.specs.Steps.{Spans, AddsAs};

// How far the rows of a disk reach to either side of its middle column: in row k, of radius k, entry d is of the rows d away from
// the middle one. Radius 3 has 2 at 1, since 2² + 1² ≤ 3² < 3² + 1².
const REACHES: [[usize; 8]; 8] = [
    [0, 0, 0, 0, 0, 0, 0, 0],
    [1, 1, 0, 0, 0, 0, 0, 0],
    [2, 1, 0, 0, 0, 0, 0, 0],
    [3, 2, 2, 0, 0, 0, 0, 0],
    [4, 3, 3, 2, 0, 0, 0, 0],
    [5, 4, 4, 4, 3, 0, 0, 0],
    [6, 5, 5, 5, 4, 3, 0, 0],
    [7, 6, 6, 6, 5, 4, 3, 0],
];

// The disk of a radius from 0 to 7.
#[derive(Clone, Copy)]
pub struct Disk {
    pub k: usize,
    ghost small: { k ≤ 7 },
}

impl Disk {
    pub fn new(k: usize) -> Disk
        requires { k ≤ 7 }
        ensures { result.k ≡ k }
    {
        Disk { k }
    }

    // How many columns to either side of the middle one the row iy has.
    fn reach(self, iy: usize) -> usize
        requires { iy < side self.k }
        ensures { Spans self.k iy (self.k - result) (self.k + result + 1) }
    {
        REACHES[self.k][iy.abs_diff(self.k)]
    }

    // How far the column or row i lies from the middle one.
    fn offset(self, i: usize) -> f32
        requires { i < side self.k }
        ensures { result ≡ offset self.k i }
    {
        ((i as u16) as f32) - ((self.k as u16) as f32)
    }

    // Takes the places in order, a row at a time from its first column to its last: no place needs a test. A place is given
    // by its column and row in the square around the disk, and by its offset from the middle.
    pub fn fold<S, F: Fn(S, usize, usize, f32, f32) -> S>(self, start: S, add: F) -> S
        requires { (s : S) (x y : ℕ) (dx dy : Float) → x < side self.k → y < side self.k → F.pre add s x y dx dy }
        ensures { (step : Place → Float → Float → S → S)
            → AddsAs (F.post add) step
            → result ≡ over_disk self.k step start }
    {
        let mut s = start;
        for iy in 0..2 * self.k + 1 {
            let reach = self.reach(iy);
            let dy = self.offset(iy);
            for ix in self.k - reach..self.k + reach + 1 {
                s = add(s, ix, iy, self.offset(ix), dy);
            }
        }
        s
    }
}
