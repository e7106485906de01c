// The view of the map: the response and the working image where they were lent, with the map's sides.
#![tactic(auto)]

ghost use Rattle.std.specs.Prelude.{◌≡◌};
ghost use Rattle.places.specs.Places.{place_at, Row};
ghost use Rattle.view.specs.View.{view_of};

pub use places::{place_at, row_at};

// The response at working resolution and the working image that it was computed from, both lent.
#[derive(Clone, Copy)]
pub struct RadonResponseView<'a> {
    pub data: &'a [f32],
    pub image: &'a [u8],
    pub w: usize,
    pub h: usize,
}

// The work is done in `places`, over slices and numbers: its functions are for callers whose two slices have two lifetimes, too.
impl<'a> RadonResponseView<'a> {
    // The view of what is lent.
    pub fn new(response: &'a [f32], image: &'a [u8], w: usize, h: usize) -> RadonResponseView<'a>
        ensures { result ≡ view_of response.entry image.entry w h }
    {
        RadonResponseView {
            data: response,
            image,
            w,
            h,
        }
    }

    // Width of the response map, at working resolution.
    pub fn width(self) -> usize
        ensures { result ≡ self.entry.w }
    {
        self.w
    }

    // Height of the response map, at working resolution.
    pub fn height(self) -> usize
        ensures { result ≡ self.entry.h }
    {
        self.h
    }

    // The lent response, row by row.
    pub fn data(self) -> &'a [f32]
        ensures { result ≡ self.entry.«data» }
    {
        self.data
    }

    // The lent working image that the response was computed from.
    pub fn image(self) -> &'a [u8]
        ensures { result ≡ self.entry.image }
    {
        self.image
    }

    // The response at column x of row y. None stands for "outside".
    pub fn at(self, x: usize, y: usize) -> Option<f32>
        ensures { result ≡ place_at self.entry.«data».now self.entry.image.now self.entry.w self.entry.h x y }
    {
        place_at(self.data, self.image, self.w, self.h, x, y)
    }

    // Row y: that part of the response itself.
    pub fn row(self, y: usize) -> &'a [f32]
        ensures { Row self.entry.«data» self.entry.image.now self.entry.w self.entry.h y result }
    {
        row_at(self.data, self.image, self.w, self.h, y)
    }
}

// A place of a map that is viewed for this one reading. This and `read_row` say what `places` says: they stay, public and in docs/CONTRACTS.md, for
// whoever has no view.
pub fn read_place<'a>(
    response: &'a [f32],
    image: &'a [u8],
    w: usize,
    h: usize,
    x: usize,
    y: usize,
) -> Option<f32>
    ensures { result ≡ place_at response.now image.now w h x y }
{
    RadonResponseView::new(response, image, w, h).at(x, y)
}

// A row of a map that is viewed for this one reading.
pub fn read_row<'a>(response: &'a [f32], image: &'a [u8], w: usize, h: usize, y: usize) -> &'a [f32]
    ensures { Row response.entry image.now w h y result }
{
    RadonResponseView::new(response, image, w, h).row(y)
}
