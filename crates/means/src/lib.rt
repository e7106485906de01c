// A row of a map's box means: along the row, or down the columns about it. A row of sums is kept, and a whole row is added to it at a time: for the
// columns as in the Rust, and along the row too. So no loop over pixels has a branch, and each pixel still gets its window's values in order.
#![tactic(auto)]

ghost use Rattle.std.specs.Prelude.{◌≡◌, cond, ℕ, Float, ◌+◌, ◌-◌, ◌*◌, ◌<◌, ◌≤◌, length, get_or, pos};
ghost use Rattle.std.specs.Float.{nan, binary32};
ghost use Rattle.std.specs.Float.Ieee.{of_int};
ghost use Rattle.std.specs.Float.Ieee as ieee;
ghost use Rattle.float.specs.Values.{f0, f1};
ghost use Rattle.grid.specs.Fill.{filled};
ghost use Rattle.grid.specs.Touch.{touched};
ghost use Rattle.means.specs.Means.{value_at, count_of, window_sum, mean_at, column_mean, map_fits, row_fits, column_fits};
ghost use Rattle.means.specs.Kernel.{add_three, rows_from, Makes};

// The widest window that is averaged over.
const MAX_RADIUS: usize = 3;

// Each entry from a and below e becomes what f makes of its place and of itself.
fn change<F: Fn(usize, f32) -> f32>(dst: &mut [f32], a: usize, e: usize, f: F)
    requires part { (a ≤ e) × (e ≤ length dst.old) }
    requires callable { (x : ℕ) (v : Float) → a ≤ x → x < e → F.pre f x v }
    ensures { (g : ℕ → Float → Float) → Makes (F.post f) g → dst.new ≡ touched nan a e g dst.old }
{
    // Indexed: after a loop over `iter_mut().enumerate()` nothing is known of what was written.
    for x in a..e {
        dst[x] = f(x, dst[x]);
    }
}

// Three rows of src, from b on, are added one after the other.
#[tactic(auto, unfolding(crate::specs::Kernel::add_three))]
fn add_three(dst: &mut [f32], src: &[f32], b: usize)
    requires { b + 3 * length dst.old ≤ length src.now }
    ensures { dst.new ≡ touched nan 0 (length dst.old)
        (λ x v. add_three v src.now (length dst.old) b x)
        dst.old }
{
    let w = dst.len();
    let c = b + w;
    let d = c + w;
    change(
        dst,
        0,
        w,
        |x, v| ((v + src[b + x]) + src[c + x]) + src[d + x],
    );
}

// The sums down the columns of src, w entries a row, over the rows from a and below e.
// Three rows at a time, as far as that goes: dst is read and stored less often. By number: `chunks_exact` takes no width of 0.
fn sum_columns(src: &[f32], w: usize, a: usize, e: usize, dst: &mut [f32])
    requires { (a ≤ e) × (length dst.old ≡ w) × (w * e ≤ length src.now) }
    ensures { dst.new ≡ filled w (rows_from src.now w a e) dst.old }
{
    dst.fill(0.0);
    let threes = (e - a) / 3;
    for t in 0..threes {
        add_three(dst, src, (a + 3 * t) * w);
    }
    for k in a + 3 * threes..e {
        let row = k * w;
        change(dst, 0, w, |x, v| v + src[row + x]);
    }
}

// The windows about so many places in a line: the pixels of a row, or of a column.
#[derive(Clone, Copy)]
struct Windows {
    places: usize,
    radius: usize,
    ghost short: { places ≤ 8192 },
    ghost narrow: { radius ≤ 3 },
}

impl Windows {
    // How many of the places the window about x has.
    fn count(self, x: usize) -> f32
        requires { x < self.places }
        ensures { result ≡ count_of self.places self.radius x }
    {
        ((x + self.radius + 1).min(self.places) - x.saturating_sub(self.radius)) as f32
    }

    // The sums of the windows along a row: turn k adds to each pixel the k-th place of its window, where the row has it.
    // For 8 pixels and radius 2, where the window of x is x - 2 to x + 2, the places that two of the five turns add, above the pixels that they add to:
    //
    //     k = 0   src   0 1 2 3 4 5 . .     dst[x] += src[x - 2]   b = 0
    //             dst   . . 2 3 4 5 6 7                            a = 2, e = 8
    //
    //     k = 3   src   . 1 2 3 4 5 6 7     dst[x] += src[x + 1]   b = 1
    //             dst   0 1 2 3 4 5 6 .                            a = 0, e = 7
    fn sum_row(self, src: &[f32], dst: &mut [f32])
        requires { (length src.now ≡ self.places) × (length dst.old ≡ self.places) }
        ensures { dst.new ≡ filled self.places (window_sum (λ k. get_or src.now k nan) self.places self.radius) dst.old }
    {
        let w = dst.len();
        let radius = self.radius;
        dst.fill(0.0);
        for k in 0..2 * radius + 1 {
            let a = radius.saturating_sub(k).min(w);
            let b = k.saturating_sub(radius).min(w);
            change(dst, a, w - b, |x, v| v + src[b + (x - a)]);
        }
    }

    // Each sum by its count: the edges one by one, and the pixels between, whose windows are whole, by one count.
    fn divide_row(self, dst: &mut [f32])
        requires { length dst.old ≡ self.places }
        ensures { dst.new ≡ touched nan 0 self.places
            (λ x v. ieee.div binary32 v (count_of self.places self.radius x))
            dst.old }
    {
        let w = dst.len();
        let a = self.radius.min(w);
        let e = w.saturating_sub(self.radius).max(a);
        let whole = (2 * self.radius + 1) as f32;
        change(dst, 0, a, |x, v| v / self.count(x));
        change(dst, a, e, |_, v| v / whole);
        change(dst, e, w, |x, v| v / self.count(x));
    }

    // The means down the columns of src, w entries a row, about row y.
    fn mean_column(self, src: &[f32], w: usize, y: usize, dst: &mut [f32])
        requires { (y < self.places) × (length dst.old ≡ w) × (w * self.places ≤ length src.now) }
        ensures { dst.new ≡ filled w (λ x. column_mean (value_at src.now w) self.places self.radius x y) dst.old }
    {
        let a = y.saturating_sub(self.radius);
        let e = (y + self.radius + 1).min(self.places);
        let n = (e - a) as f32;
        let f = 1.0 / n;
        sum_columns(src, w, a, e, dst);
        change(dst, 0, w, |_, v| v * f);
    }
}

// Whether a window is narrow enough, and a map has sides and room as any working image.
#[tactic(auto, unfolding(crate::specs::Means::map_fits))]
pub fn map_fits(w: usize, h: usize, radius: usize, room: usize) -> bool
    ensures { result ≡ map_fits w h radius room }
{
    radius <= MAX_RADIUS && sizes::fits(w, h, room)
}

#[tactic(auto, unfolding(crate::specs::Means::column_fits))]
fn column_fits(w: usize, h: usize, y: usize, radius: usize, size: usize, room: usize) -> bool
    ensures { result ≡ column_fits w h y radius size room }
{
    map_fits(w, h, radius, size) && y < h && w <= room
}

// The means along one row. What does not fit changes nothing.
pub fn row_means(src: &[f32], radius: usize, dst: &mut [f32])
    ensures { dst.new ≡ cond (row_fits (length src.now) radius (length dst.old))
        (filled (length src.now) (mean_at (λ k. get_or src.now k nan) (length src.now) radius) dst.old)
        dst.old }
{
    let n = src.len();
    if map_fits(n, 1, radius, dst.len()) {
        let windows = Windows { places: n, radius };
        let row = &mut dst[..n];
        windows.sum_row(src, row);
        windows.divide_row(row);
    }
}

// Row y of the means down the columns. What does not fit changes nothing.
pub fn column_means(src: &[f32], w: usize, h: usize, y: usize, radius: usize, dst: &mut [f32])
    ensures { dst.new ≡ cond (column_fits w h y radius (length src.now) (length dst.old))
        (filled w (λ x. column_mean (value_at src.now w) h radius x y) dst.old)
        dst.old }
{
    if column_fits(w, h, y, radius, src.len(), dst.len()) {
        Windows { places: h, radius }.mean_column(src, w, y, &mut dst[..w]);
    }
}
