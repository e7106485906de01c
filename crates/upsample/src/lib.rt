// The working image: the input twice as wide and high, or the input itself; whole, or one row of it.
#![tactic(auto)]

ghost use Rattle.std.specs.Prelude.{◌≡◌, cond, ◌+◌, ◌*◌, ◌<◌, ◌≤◌, length, get_or};
ghost use Rattle.grid.specs.Fill.{filled};
ghost use Rattle.grid.specs.Plane.{plane};
ghost use Rattle.grid.specs.Ways.{pixel};
ghost use Rattle.upsample.specs.Upsample.{work_at, image_fits, row_fits, up_fits};
ghost use Rattle.upsample.specs.Kernel.{quarter, between};
ghost use Rattle.upsample.specs.Source.{source_of, working};
ghost use Rattle.upsample.specs.Fitting.{FittingRow, FittingAll};

// The input's longest side.
const MAX_SIDE: usize = 4096;

// The sum of four pixels divided by 4, rounded half up.
fn quarter_sum(p: u8, q: u8, s: u8, t: u8) -> u8
    ensures { result ≡ quarter p q s t }
{
    ((u16::from(p) + u16::from(q) + u16::from(s) + u16::from(t) + 2) / 4) as u8
}

// The row between two rows of the image, twice as wide: two pixels a turn, the last column apart.
fn row_kernel(top: &[u8], low: &[u8], w: usize, dst: &mut [u8])
    requires { (w ≤ 4096) × (w ≤ length top.now) × (w ≤ length low.now) × (2 * w ≤ length dst.old) }
    ensures { dst.new ≡ filled (2 * w)
        (between (λ k. get_or top.now k 0) (λ k. get_or low.now k 0) w)
        dst.old }
{
    if w == 0 {
        return;
    }
    let last = w - 1;
    // Indexed: after a loop over `chunks_exact_mut` nothing is known of what was written.
    for x in 0..last {
        let n = x + 1;
        let i = 2 * x;
        let p = top[x];
        let q = top[n];
        let s = low[x];
        let t = low[n];
        dst[i] = quarter_sum(p, p, s, s);
        dst[i + 1] = quarter_sum(p, q, s, t);
    }
    let i = 2 * last;
    let p = top[last];
    let s = low[last];
    let m = quarter_sum(p, p, s, s);
    dst[i] = m;
    dst[i + 1] = m;
}

// The n entries of src from a on.
// By a loop: `copy_from_slice` is a call of `memmove`, which the archive for C would then ask of whoever links it.
fn copy(src: &[u8], a: usize, n: usize, dst: &mut [u8])
    requires { (a + n ≤ length src.now) × (n ≤ length dst.old) }
    ensures { dst.new ≡ filled n (λ k. get_or src.now (a + k) 0) dst.old }
{
    for i in 0..n {
        dst[i] = src[a + i];
    }
}

// An image, and how many times as wide and high the working image is that is made of it.
#[derive(Clone, Copy)]
struct Source<'a> {
    pixels: &'a [u8],
    w: usize,
    h: usize,
    factor: usize,
}

impl<'a> Source<'a> {
    fn of(pixels: &'a [u8], w: usize, h: usize, factor: u32) -> Source<'a>
        ensures { result ≡ source_of pixels.entry w h factor }
    {
        Source {
            pixels,
            w,
            h,
            factor: factor as usize,
        }
    }

    // Whether the image can be taken, whose sides are judged first, so that their product does not wrap. `sizes::fits` is the like for working sides,
    // which may be twice as long.
    #[tactic(auto, unfolding(crate::specs::Upsample::image_fits))]
    fn fits(self) -> bool
        ensures { result ≡ image_fits self.entry.factor self.entry.w self.entry.h (length self.entry.pixels.now) }
    {
        (1..=2).contains(&self.factor)
            && self.w.max(self.h) <= MAX_SIDE
            && self.w * self.h <= self.pixels.len()
    }

    // Whether y is one of its working rows, and there is room for one.
    #[tactic(auto, using(crate::proofs::Fits::working_sides), unfolding(crate::specs::Upsample::row_fits))]
    fn row_fits(self, y: usize, room: usize) -> bool
        ensures { result ≡ row_fits self.entry.factor self.entry.w self.entry.h y (length self.entry.pixels.now) room }
    {
        self.fits() && y < self.factor * self.h && self.factor * self.w <= room
    }

    // Whether there is room for all of them.
    #[tactic(auto, using(crate::proofs::Fits::working_sides), unfolding(crate::specs::Upsample::up_fits))]
    fn up_fits(self, room: usize) -> bool
        ensures { result ≡ up_fits self.entry.factor self.entry.w self.entry.h (length self.entry.pixels.now) room }
    {
        self.fits() && self.factor * self.w * (self.factor * self.h) <= room
    }

    // Working row y at either factor. Twice: an even row has the image's row on both sides, an odd one that row and the one below.
    fn row(self, y: usize, out: &mut [u8])
        requires { FittingRow self.factor self.w self.h y (length self.pixels.now) (length out.old) }
        ensures { out.new ≡ filled (self.entry.factor * self.entry.w)
            (λ x. working self.entry x y)
            out.old }
    {
        let w = self.w;
        if self.factor == 2 {
            let a = y / 2 * w;
            let b = ((y + y % 2) / 2).min(self.h - 1) * w;
            row_kernel(&self.pixels[a..], &self.pixels[b..], w, out);
        } else {
            copy(self.pixels, y * w, w, out);
        }
    }

    // All working rows, one after the other: at factor 2 the Rust's `upsample_bilinear_2x`.
    fn rows(self, out: &mut [u8])
        requires { FittingAll self.factor self.w self.h (length self.pixels.now) (length out.old) }
        ensures { out.new ≡ filled (self.entry.factor * self.entry.w * (self.entry.factor * self.entry.h))
            (plane (self.entry.factor * self.entry.w) (working self.entry))
            out.old }
    {
        let ww = self.factor * self.w;
        let wh = self.factor * self.h;
        // Indexed: of what stands in a row after `chunks_exact_mut` nothing would be known.
        for y in 0..wh {
            let i = y * ww;
            self.row(y, &mut out[i..i + ww]);
        }
    }
}

// Working row y, beside `upsample`: both are public, and what they share is `Source`. What does not fit changes nothing.
pub fn upsample_row(src: &[u8], w: usize, h: usize, factor: u32, y: usize, out: &mut [u8])
    ensures { out.new ≡ cond (row_fits factor w h y (length src.now) (length out.old))
        (filled (factor * w) (λ x. work_at factor (pixel src.now w) w h x y) out.old)
        out.old }
{
    let image = Source::of(src, w, h, factor);
    if image.row_fits(y, out.len()) {
        image.row(y, out);
    }
}

// The working image. What does not fit changes nothing.
pub fn upsample(src: &[u8], w: usize, h: usize, factor: u32, out: &mut [u8])
    ensures { out.new ≡ cond (up_fits factor w h (length src.now) (length out.old))
        (filled (factor * w * (factor * h)) (plane (factor * w) (work_at factor (pixel src.now w) w h)) out.old)
        out.old }
{
    let image = Source::of(src, w, h, factor);
    if image.up_fits(out.len()) {
        image.rows(out);
    }
}
