// The verdict on one place, for drawings of what was dropped: for a C or Rust program to call, in an archive of its own. In the finder's a second
// caller would keep the rules from being compiled into the scan, which is slower then.
#![tactic(auto)]

ghost use Rattle.std.specs.Prelude.{◌≡◌};
ghost use Rattle.steyrbunk_verdict.specs.Place.{place_settings, place_verdict};

use params::{PeakFitMode, RadonDetectorParams};
use verdict::{Scan, judge_at};

// The settings that a verdict goes by.
fn place_settings(ray: u32, nms: u32, least: u32) -> RadonDetectorParams
    ensures { result ≡ place_settings ray nms least }
{
    RadonDetectorParams {
        ray_radius: ray,
        image_upsample: 1,
        response_blur_radius: 0,
        peak_fit: PeakFitMode::Gaussian,
        threshold_rel: 0.0,
        nms_radius: nms,
        min_cluster_size: least,
    }
}

// The verdict on one place of a map over its work image, by how many of the five tests it passes: for drawings of what was dropped.
#[unsafe(no_mangle)]
pub extern "C" fn steyrbunk_verdict(
    response: &[f32],
    image: &[u8],
    w: usize,
    h: usize,
    ray: u32,
    nms: u32,
    least: u32,
    floor: f32,
    x: usize,
    y: usize,
) -> u32
    ensures { result ≡ place_verdict response.now image.now w h ray nms least floor x y }
{
    let params = place_settings(ray, nms, least);
    let k = params.ray_radius_clamped() as usize;
    let test = saddle::new(k);
    let scan = Scan {
        w,
        h,
        params,
        test,
        floor,
    };
    judge_at(response, image, scan, x, y).rank() as u32
}
