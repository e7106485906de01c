// The corner list of a map that is viewed.
#![tactic(auto)]

ghost use Rattle.std.specs.Prelude.{◌≡◌, length};
ghost use Rattle.detect.specs.Detected.{peaks_outcome, list_of};

use params::{Outcome, RadonDetectorParams};
use view::RadonResponseView;

// The corners of a map that is viewed, three numbers a corner: x and y in input pixels, strength.
pub fn detect_peaks_from_radon(
    resp: RadonResponseView<'_>,
    params: RadonDetectorParams,
    list: &mut [f32],
) -> Outcome
    ensures answer { result ≡ peaks_outcome params resp.entry.w resp.entry.h
        resp.entry.«data».now resp.entry.image.now (length list.old) }
    ensures written { list.new ≡ list_of params resp.entry.w resp.entry.h
        resp.entry.«data».now resp.entry.image.now list.old }
{
    detect::detect_peaks_from_radon(resp.data, resp.image, resp.w, resp.h, params, list)
}
