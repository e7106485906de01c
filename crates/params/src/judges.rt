// The judges: which of the refusals 2 to 9 and 15 a call gets, stage by stage. Each gives the first that applies.
// The definitions give an answer, 0 where nothing is refused: `as_result` makes of that `Ok`, and of a refusal `Err`.
ghost use Rattle.std.specs.Prelude.{◌≡◌, cond};
ghost use Rattle.params.specs.Refusals.{side_over, pixels_of, out_of_range, too_small, size_refusal, map_refusal, list_refusal, room_refusal};
ghost use Rattle.params.specs.Refusals.{as_result, refusal_of, map_refusal_of};

use crate::settings::clamped;
use crate::{Answer, RadonDetectorParams};

const MAX_SIDE: usize = 4096;

const MAX_PIXELS: usize = 8388608;

// Whether a side is too long.
fn side_over(width: usize, height: usize) -> bool
    ensures { result ≡ side_over width height }
{
    width > MAX_SIDE || height > MAX_SIDE
}

// W·H. A side that is too long is refused before anyone asks for it: there it is 0, and no product is too large.
fn pixels(width: usize, height: usize, up: u32) -> usize
    ensures { result ≡ cond (side_over width height) 0 (pixels_of width height up) }
{
    if side_over(width, height) {
        return 0;
    }
    let factor = clamped(up) as usize;
    (factor * width) * (factor * height)
}

// Answers 2, 3 and 4: the sizes, and an image of `image` pixels.
#[tactic(auto, unfolding(crate::specs::Refusals::size_refusal))]
pub fn judge_size(width: usize, height: usize, image: usize, up: u32) -> Result<(), Answer>
    ensures { result ≡ as_result (size_refusal width height image up) }
{
    if side_over(width, height) {
        return Err(Answer::SideTooLong);
    }
    if image != width * height {
        return Err(Answer::ImageLength);
    }
    if pixels(width, height, up) > MAX_PIXELS {
        return Err(Answer::TooManyPixels);
    }
    Ok(())
}

// Answers 5 and 6: the settings that the map goes by.
#[tactic(auto, unfolding(crate::specs::Refusals::map_refusal))]
pub fn judge_map_settings(p: RadonDetectorParams) -> Result<(), Answer>
    ensures { result ≡ as_result (map_refusal p) }
{
    if p.ray_radius > 7 {
        return Err(Answer::RayRadius);
    }
    if p.response_blur_radius > 3 {
        return Err(Answer::BlurRadius);
    }
    Ok(())
}

// Whether a working image of w by h has no place inside the border.
fn too_small(w: usize, h: usize, p: RadonDetectorParams) -> bool
    ensures { result ≡ too_small w h p }
{
    let most = 2 * p.border();
    w <= most || h <= most
}

// Whether a threshold is NaN, below 0 or above 1.
fn out_of_range(t: f32) -> bool
    ensures { result ≡ out_of_range t }
{
    t.is_nan() || t < 0.0 || t > 1.0
}

// Answers 7, 8 and 15: what only the list goes by, for a working image of w by h.
#[tactic(auto, unfolding(crate::specs::Refusals::list_refusal))]
pub fn judge_list(w: usize, h: usize, p: RadonDetectorParams) -> Result<(), Answer>
    ensures { result ≡ as_result (list_refusal w h p) }
{
    if p.nms_radius > 32 {
        return Err(Answer::SuppressionRadius);
    }
    if out_of_range(p.threshold_rel) {
        return Err(Answer::Threshold);
    }
    if too_small(w, h, p) {
        return Err(Answer::FrameTooSmall);
    }
    Ok(())
}

// Answer 9: `room` is the length of the shortest lent buffer, the list apart.
#[tactic(auto, unfolding(crate::specs::Refusals::room_refusal))]
pub fn judge_room(pixels: usize, room: usize) -> Result<(), Answer>
    ensures { result ≡ as_result (room_refusal pixels room) }
{
    if room < pixels {
        return Err(Answer::BufferTooShort);
    }
    Ok(())
}

// A call of the map: 2, 3, 4, 5, 6 and 9, the lowest that applies. What only the list goes by is not looked at, so that
// frames too small for a list are taken. Here and below `n` is the image's length, and `cap` that of the shortest lent buffer.
#[tactic(auto, unfolding(crate::specs::Refusals::map_refusal_of))]
pub fn judge_map_call(
    w: usize,
    h: usize,
    n: usize,
    p: RadonDetectorParams,
    cap: usize,
) -> Result<(), Answer>
    ensures { result ≡ as_result (map_refusal_of w h n p cap) }
{
    judge_size(w, h, n, p.image_upsample)?;
    judge_map_settings(p)?;
    judge_room(pixels(w, h, p.image_upsample), cap)
}

// A call of the finder: 2 to 8, 15 and 9, the first that applies. No side that is too long comes as far as the working
// pixels, so that no product is too large.
#[tactic(auto, unfolding(crate::specs::Refusals::refusal_of))]
pub fn judge_finder_call(
    w: usize,
    h: usize,
    n: usize,
    p: RadonDetectorParams,
    cap: usize,
) -> Result<(), Answer>
    ensures { result ≡ as_result (refusal_of w h n p cap) }
{
    let up = p.image_upsample;
    judge_size(w, h, n, up)?;
    judge_map_settings(p)?;
    let factor = p.image_upsample_clamped() as usize;
    judge_list(factor * w, factor * h, p)?;
    judge_room(pixels(w, h, up), cap)
}
