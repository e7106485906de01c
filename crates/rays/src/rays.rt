// The response at each pixel, from the four tables: a ray's sum is one entry less another.
ghost use Rattle.std.specs.Prelude.{◌≡◌, ℕ, Float, ◌+◌, ◌-◌, ◌*◌, ◌<◌, ◌≤◌, length, get_or};
ghost use Rattle.grid.specs.Fill.{filled};
ghost use Rattle.grid.specs.Plane.{plane};
ghost use Rattle.grid.specs.Ways.{Inside, Deep};
ghost use Rattle.rays.specs.Response.{spread, square, within, response_at};
ghost use Rattle.rays.specs.Shown.{shown, Held, entry_at, Between, AllDeep, Computes};

use crate::Size;

// The square of the spread of four ray sums. 16 bits hold a ray of 15 pixels of 12 bits, and go eight to a vector.
fn squared_spread(a: u32, b: u32, c: u32, d: u32) -> f32
    requires { (a ≤ 61425) × (b ≤ 61425) × (c ≤ 61425) × (d ≤ 61425) }
    ensures { result ≡ square (spread a b c d) }
{
    let p = a as u16;
    let q = b as u16;
    let s = c as u16;
    let t = d as u16;
    let hi = p.max(q).max(s.max(t));
    let lo = p.min(q).min(s.min(t));
    let n = f32::from(hi - lo);
    n * n
}

// What a table has at column x and row y, counted from 1: 0 past the edge.
fn entry(t: &[u32], w: usize, x: usize, y: usize) -> u32
    requires { (w ≤ 8192) × (y ≤ 8192) × (w * y ≤ length t.now) }
    ensures { result ≡ entry_at t.now w x y }
{
    if x == 0 || y == 0 || w < x {
        return 0;
    }
    t[(y - 1) * w + (x - 1)]
}

// What a line adds up to after its entry at x0 and y0, up to that at x1 and y1.
fn between(t: &[u32], w: usize, x0: usize, y0: usize, x1: usize, y1: usize) -> u32
    requires { Between t.now w x0 y0 x1 y1 }
    ensures { result ≡ entry_at t.now w x1 y1 - entry_at t.now w x0 y0 }
{
    entry(t, w, x1, y1) - entry(t, w, x0, y0)
}

fn difference(t: &[u32], i: usize, j: usize) -> u32
    requires { (i < length t.now) × (j < length t.now) × (get_or t.now j 0 ≤ get_or t.now i 0) }
    ensures { result ≡ get_or t.now i 0 - get_or t.now j 0 }
{
    t[i] - t[j]
}

// A run of a row, from column a on, of what f computes of each column.
// Indexed: after a loop over `iter_mut().enumerate()` nothing is known of what was written.
fn fill_run<F: Fn(usize) -> f32>(a: usize, out: &mut [f32], f: F)
    requires long { a + length out.old ≤ 8192 }
    requires callable { (x : ℕ) → a ≤ x → x < a + length out.old → F.pre f x }
    ensures { (g : ℕ → Float) → Computes (F.post f) g a (a + length out.old)
        → out.new ≡ filled (length out.old) (λ i. g (a + i)) out.old }
{
    for i in 0..out.len() {
        out[i] = f(a + i);
    }
}

// The tables of one image as the rays read them: its pixels are at most 4,095, and the radius at most 7.
// The four fields of `Tables` again, to be read alone: so the struct is copied, and its two facts hold as long as it does.
#[derive(Clone, Copy)]
pub struct Cumsums<'a> {
    pub row: &'a [u32],
    pub col: &'a [u32],
    pub falling: &'a [u32],
    pub rising: &'a [u32],
    pub size: Size,
    ghost short: { size.r ≤ 7 },
    ghost held: { Held size.w size.h row.now col.now falling.now rising.now },
}

impl Cumsums<'_> {
    ghost use Rattle.rays.specs.Read.{read_at};

    // The response at least r from every edge.
    fn radon_response_at(self, x: usize, y: usize) -> f32
        requires { Inside self.size.w self.size.h self.size.r x y }
        ensures { result ≡ read_at self.entry x y }
    {
        let Size { w, h: _, r } = self.size;
        let x0 = x - r;
        let y0 = y - r;
        let here_x = x + 1;
        let here_y = y + 1;
        let x1 = here_x + r;
        let y1 = here_y + r;
        let s_h = between(self.row, w, x0, here_y, x1, here_y);
        let s_v = between(self.col, w, here_x, y0, here_x, y1);
        let s_d1 = between(self.falling, w, x0, y0, x1, y1);
        let s_d2 = between(self.rising, w, x1 + 1, y0, x0 + 1, y1);
        squared_spread(s_h, s_v, s_d1, s_d2)
    }

    // The response where all eight entries are in the image: no branch, which `radon_response_at` has for an entry past the edge.
    fn deep_response(self, x: usize, y: usize) -> f32
        requires { Deep self.size.w self.size.h self.size.r x y }
        ensures { result ≡ read_at self.entry x y }
    {
        let Size { w, h: _, r } = self.size;
        let past = r + 1;
        let here = y * w + x;
        let below = (y + r) * w + x;
        let above = (y - past) * w + x;
        let s_h = difference(self.row, here + r, here - past);
        let s_v = difference(self.col, below, above);
        let s_d1 = difference(self.falling, below + r, above - past);
        let s_d2 = difference(self.rising, below - r, above + past);
        squared_spread(s_h, s_v, s_d1, s_d2)
    }

    // The response of the image that the tables are of.
    // Indexed: after a loop over `chunks_mut` nothing is known of what was written.
    pub fn compute_response(self, out: &mut [f32])
        requires { self.size.w * self.size.h ≤ length out.old }
        ensures { out.new
            ≡ filled (self.entry.size.w * self.entry.size.h) (plane self.entry.size.w (read_at self.entry)) out.old }
    {
        let w = self.size.w;
        for y in 0..self.size.h {
            let a = y * w;
            Row { sums: self, y }.compute_response_row(&mut out[a..a + w]);
        }
    }
}

// A row of the image that the tables are of.
#[derive(Clone, Copy)]
struct Row<'a> {
    sums: Cumsums<'a>,
    y: usize,
    ghost low: { y < sums.size.h },
}

impl Row<'_> {
    ghost use Rattle.rays.specs.Read.{read_at};

    // Whether a pixel is at least r from every edge.
    fn inside(self, x: usize) -> bool
        requires { x < self.sums.size.w }
        ensures { result ≡ within self.entry.sums.size.w self.entry.sums.size.h self.entry.sums.size.r x self.entry.y }
    {
        let Size { w, h, r } = self.sums.size;
        let y = self.y;
        r <= x && x + r < w && r <= y && y + r < h
    }

    // The response at any pixel: 0 nearer than r to an edge.
    fn response_or_zero(self, x: usize) -> f32
        requires { x < self.sums.size.w }
        ensures { result ≡ read_at self.entry.sums x self.entry.y }
    {
        if self.inside(x) {
            self.sums.radon_response_at(x, self.y)
        } else {
            0.0
        }
    }

    // Where the row's run without a test begins, and as many columns from the end stops: at the end where there is none,
    // which is near the top or the bottom and in a narrow image.
    fn inner_from(self) -> usize
        ensures { (result ≤ self.entry.sums.size.w)
            × AllDeep self.entry.sums.size self.entry.y result (self.entry.sums.size.w - result) }
    {
        let Size { w, h, r } = self.sums.size;
        if r < self.y && self.y + r < h && 2 * r + 2 <= w {
            r + 1
        } else {
            w
        }
    }

    // The pixels near an edge are tested one by one, and those between need no test.
    fn compute_response_row(self, out: &mut [f32])
        requires { length out.old ≡ self.sums.size.w }
        ensures { out.new ≡ filled self.entry.sums.size.w (λ x. read_at self.entry.sums x self.entry.y) out.old }
    {
        let w = self.sums.size.w;
        let first = self.inner_from();
        let last = first.max(w - first);
        let edge = move |x: usize| self.response_or_zero(x);
        fill_run(0, &mut out[0..first], edge);
        fill_run(
            first,
            &mut out[first..last],
            move |x: usize| self.sums.deep_response(x, self.y),
        );
        fill_run(last, &mut out[last..w], edge);
    }
}
