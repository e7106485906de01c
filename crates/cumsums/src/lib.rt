// The four tables: running sums of an image along its rows, columns, falling and rising diagonals. A row goes on from the one above.
#![tactic(auto)]

ghost use Rattle.std.specs.Prelude.{◌≡◌, cond, ◌+◌, ◌-◌, ◌*◌, ◌<◌, ◌≤◌, min, length, get_or};
ghost use Rattle.grid.specs.Span.{span};
ghost use Rattle.grid.specs.Ways.{Way, pixel, along, down, fall, rise};
ghost use Rattle.cumsums.specs.Tables.{table_of};
ghost use Rattle.cumsums.specs.Lent.{tables_of, tables_fit, room_of};
ghost use Rattle.cumsums.specs.Shown.{tables_now, SameTables};
ghost use Rattle.cumsums.specs.Passes.{Above, Carries};

use sizes::fits;

// The four tables, lent to be written.
#[derive(Drop)]
pub struct Tables<'a> {
    pub row: &'a mut [u32],
    pub col: &'a mut [u32],
    pub falling: &'a mut [u32],
    pub rising: &'a mut [u32],
}

impl Tables<'_> {
    // The length of the shortest, with that of an image of n bytes.
    pub fn room(&self, n: usize) -> usize
        ensures { result ≡ room_of n (tables_now self.now) }
    {
        let diagonals = self.falling.len().min(self.rising.len());
        self.row.len().min(self.col.len()).min(diagonals).min(n)
    }
}

// Entries a to e - 1, where lines begin.
// Indexed: after a zip with `iter_mut` nothing is known of what was written.
fn begin(img: &[u8], a: usize, e: usize, out: &mut [u32])
    requires { (a ≤ e) × (e ≤ length img.now) × (e ≤ length out.old) }
    ensures { out.new ≡ span a (e - a) (λ i. get_or img.now i 0) out.old }
{
    for i in a..e {
        out[i] = u32::from(img[i]);
    }
}

// Entries a to e - 1, whose lines go on from the entry that is `back` before: no branch, and no entry leans on another of the run.
// Indexed: the entry before is one of the same table.
fn carry(img: &[u8], a: usize, e: usize, back: usize, out: &mut [u32])
    requires { Carries img.now out.old a e back }
    ensures { out.new
        ≡ span a (e - a) (λ i. get_or out.old (i - back) 0 + get_or img.now i 0) out.old }
{
    for i in a..e {
        out[i] = out[i - back] + u32::from(img[i]);
    }
}

// How many of a row's lines go on from the row above, where below the first row n do.
fn going(y: usize, n: usize) -> usize
    ensures { ((y ≡ 0) → (result ≡ 0)) × ((0 < y) → (result ≡ n)) }
{
    if y == 0 { 0 } else { n }
}

// A way of the lines: the four tables differ in how row y is filled from the rows above.
trait Lines {
    ghost way: { Way };

    fn fill_row(img: &[u8], w: usize, y: usize, out: &mut [u32])
        requires { Above way img.now w y out.old }
        ensures { out.new ≡ table_of way (pixel img.now w) w (y + 1) out.old };
}

// Along the row itself, from the left.
struct Along;

impl Lines for Along {
    ghost way = { along };

    // Indexed: after a zip with `iter_mut` nothing is known of what was written.
    fn fill_row(img: &[u8], w: usize, y: usize, out: &mut [u32]) {
        let row = y * w;
        let mut acc: u32 = 0;
        for x in 0..w {
            acc += u32::from(img[row + x]);
            out[row + x] = acc;
        }
    }
}

// Down the columns: each goes on from the entry w back, in the row above; in the first row none does, and each begins.
struct Down;

impl Lines for Down {
    ghost way = { down };

    fn fill_row(img: &[u8], w: usize, y: usize, out: &mut [u32]) {
        let row = y * w;
        let end = row + w;
        let back = going(y, w);
        let first = end - back;
        begin(img, row, first, out);
        carry(img, first, end, back, out);
    }
}

// The diagonals that fall to the right, from (x - 1, y - 1): one begins in the first column, and in the first row each.
struct Falling;

impl Lines for Falling {
    ghost way = { fall };

    fn fill_row(img: &[u8], w: usize, y: usize, out: &mut [u32]) {
        let row = y * w;
        let end = row + w;
        let first = end - going(y, w.saturating_sub(1));
        begin(img, row, first, out);
        carry(img, first, end, w + 1, out);
    }
}

// The diagonals that rise to the right, from (x + 1, y - 1): one begins in the last column, and in the first row each.
struct Rising;

impl Lines for Rising {
    ghost way = { rise };

    fn fill_row(img: &[u8], w: usize, y: usize, out: &mut [u32]) {
        let row = y * w;
        let back = w.saturating_sub(1);
        let last = row + going(y, back);
        carry(img, row, last, back, out);
        begin(img, last, row + w, out);
    }
}

fn fill_table<L: Lines>(img: &[u8], w: usize, h: usize, out: &mut [u32])
    requires { (w ≤ 8192) × (h ≤ 8192) × (w * h ≤ length img.now) × (w * h ≤ length out.old) }
    ensures { out.new ≡ table_of L.way (pixel img.now w) w h out.old }
{
    for y in 0..h {
        L::fill_row(img, w, y, out);
    }
}

// Each table needs an entry for every pixel; where the sizes do not fit, nothing changes.
pub fn build_cumsums(img: &[u8], w: usize, h: usize, lent: &mut Tables)
    ensures same { SameTables lent.old lent.new }
    ensures filled { tables_now lent.new
        ≡ cond (tables_fit w h (length img.now) (tables_now lent.old))
        (tables_of (pixel img.now w) w h (tables_now lent.old))
        (tables_now lent.old) }
{
    if fits(w, h, lent.room(img.len())) {
        fill_table::<Along>(img, w, h, lent.row);
        fill_table::<Down>(img, w, h, lent.col);
        fill_table::<Falling>(img, w, h, lent.falling);
        fill_table::<Rising>(img, w, h, lent.rising);
    }
}
