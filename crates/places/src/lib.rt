// The places and rows of a map: the response with its sides, beside the working image that it was computed from.
#![tactic(auto)]

ghost use Rattle.std.specs.Prelude.{◌≡◌};
ghost use Rattle.places.specs.Places.{row_inside, place_at, Row};

// Whether row y is a row of the map, in slices of these lengths. The shorter slice decides. The number of entries may be too large to compute.
#[tactic(auto, unfolding(crate::specs::Places::row_inside, crate::specs::Places::whole))]
fn row_inside(response: usize, image: usize, w: usize, h: usize, y: usize) -> bool
    ensures { result ≡ row_inside response image w h y }
{
    let room = response.min(image);
    y < h && w.checked_mul(h).is_some_and(|entries| entries <= room)
}

// The response at column x of row y. None stands for "outside".
// Slices and sides come apart: the struct of the four is `RadonResponseView`, in `view` above, and lends both slices at one lifetime.
#[tactic(auto, using(crate::proofs::Steps::row_ends), unfolding(crate::specs::Places::place_at))]
pub fn place_at(
    response: &[f32],
    image: &[u8],
    w: usize,
    h: usize,
    x: usize,
    y: usize,
) -> Option<f32>
    ensures { result ≡ place_at response.now image.now w h x y }
{
    if x < w && row_inside(response.len(), image.len(), w, h, y) {
        Some(response[y * w + x])
    } else {
        None
    }
}

// Row y: that part of the response itself. Outside it is the empty part, as `Row` says: no call fails.
#[tactic(auto, using(crate::proofs::Steps::row_ends), unfolding(crate::specs::Places::row_at, crate::specs::Places::row_start))]
pub fn row_at<'a>(response: &'a [f32], image: &[u8], w: usize, h: usize, y: usize) -> &'a [f32]
    ensures { Row response.entry image.now w h y result }
{
    let entries = response.len();
    if row_inside(entries, image.len(), w, h, y) {
        let start = y * w;
        &response[start..start + w]
    } else {
        &response[0..0]
    }
}
