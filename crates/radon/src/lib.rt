// The finder: from an image to its corners in one call, over buffers that the caller lends, with every refusal.
#![tactic(auto)]

ghost use Rattle.std.specs.Prelude.{◌≡◌};
ghost use Rattle.radon.specs.Finder.{lent_now, outcome_of, buffers_of};
ghost use Rattle.response.specs.Work.{SameWork};

use params::{Outcome, RadonDetectorParams};
use response::{WorkBuffers, radon_response_u8};

// The list takes three numbers a corner: x, y, strength.
// A frame with no place inside the border is refused: it is not one without corners.
pub fn radon_corners_u8(
    img: &[u8],
    w: usize,
    h: usize,
    p: RadonDetectorParams,
    work: &mut WorkBuffers,
    list: &mut [f32],
) -> Outcome
    ensures answer { result ≡ outcome_of img.now w h p (lent_now work.old list.old) }
    ensures same { SameWork work.old work.new }
    ensures buffers { lent_now work.new list.new
        ≡ buffers_of img.now w h p (lent_now work.old list.old) }
{
    if let Err(answer) = params::judge_finder_call(w, h, img.len(), p, work.room()) {
        return Outcome::refusal(answer);
    }
    let map = match radon_response_u8(img, w, h, p, work) {
        Ok(map) => map,
        Err(answer) => return Outcome::refusal(answer),
    };
    // Borrowed one by one first: no proof is made where a field is read while another behind the same reference is lent.
    let response = &mut *work.response;
    let working = &mut *work.working;
    detect::detect_peaks_from_radon(response, working, map.w, map.h, p, list)
}
