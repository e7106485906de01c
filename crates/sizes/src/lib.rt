// Sizes compared: whether a map fits into a buffer, and a square into the map.
#![tactic(auto)]

ghost use Rattle.std.specs.Prelude.{◌≡◌};
ghost use Rattle.sizes.specs.Fits.{fits_in, clear_of, square_fits};

// Twice the input's longest side.
const MAX_WORKING_SIDE: usize = 8192;

// Whether w·h entries, no side over that of a working image, are no more than `room`.
pub fn fits(w: usize, h: usize, room: usize) -> bool
    ensures { result ≡ fits_in w h room }
{
    w <= MAX_WORKING_SIDE && h <= MAX_WORKING_SIDE && w * h <= room
}

// Whether k to either side of c lies between 0 and n.
fn clear(k: usize, c: usize, n: usize) -> bool
    ensures { result ≡ clear_of k c n }
{
    k <= c && k < n.saturating_sub(c)
}

// Whether the square of side 2 k + 1 around x, y lies in a map w wide and h high, and the map in a buffer of `room` entries.
// Numbers and no struct: one caller has them of a scan, whose struct stands in a crate above, the other as numbers.
pub fn square_fits(k: usize, room: usize, w: usize, h: usize, x: usize, y: usize) -> bool
    ensures { result ≡ square_fits k room w h x y }
{
    fits(w, h, room) && clear(k, x, w) && clear(k, y, h)
}
