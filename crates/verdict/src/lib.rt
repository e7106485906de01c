// The verdict on a candidate: the first rule that it fails, the cheapest first, or that it is kept.
#![tactic(auto)]

mod neighbors;

ghost use Rattle.std.specs.Prelude.{◌≡◌, length};
ghost use Rattle.verdict.specs.Verdict.{by_saddle, is_kept, rank};
ghost use Rattle.verdict.specs.Judged.{first_failing_in, judged_in};
ghost use Rattle.verdict.specs.Room.{Room};

use neighbors::Window;
use params::RadonDetectorParams;
use saddle::{Saddle, SaddleTest, accepts};
use sizes::square_fits;

// In the order of the five tests.
#[derive(Clone, Copy, PartialEq, Eq)]
pub enum Verdict {
    NotAbove,
    Beaten,
    TooFew,
    TooFlat,
    WrongCurvature,
    Kept,
}

impl Verdict {
    pub fn is_kept(self) -> bool
        ensures { result ≡ is_kept self }
    {
        self == Verdict::Kept
    }

    // How many of the five tests are passed before one fails; all five where it is kept.
    pub fn rank(self) -> usize
        ensures { result ≡ rank self }
    {
        self as usize
    }
}

impl From<Saddle> for Verdict {
    fn from(s: Saddle) -> Verdict
        ensures { result ≡ by_saddle s }
    {
        match s {
            Saddle::Yes => Verdict::Kept,
            Saddle::Flat => Verdict::TooFlat,
            Saddle::Curved => Verdict::WrongCurvature,
        }
    }
}

// What a scan goes by: the map's sides, the settings, the saddle numbers of their ray radius, and the floor.
#[derive(Clone, Copy)]
pub struct Scan {
    pub w: usize,
    pub h: usize,
    pub params: RadonDetectorParams,
    pub test: SaddleTest,
    pub floor: f32,
}

// The first rule that the candidate at (x, y) fails, whose window lies in the map.
fn by_rules(resp: &[f32], image: &[u8], scan: Scan, x: usize, y: usize) -> Verdict
    requires { Room scan.w scan.h scan.params.nms_radius x y (length resp.now) }
    ensures { result ≡ first_failing_in scan resp.now image.now x y }
{
    let w = scan.w;
    let h = scan.h;
    let v = resp[y * w + x];
    // A NaN is not above the floor.
    if !(v > scan.floor) {
        return Verdict::NotAbove;
    }
    let params = scan.params;
    let r = params.nms_radius as usize;
    let window = Window {
        resp,
        w,
        h,
        x,
        y,
        r,
        v,
    };
    if !window.is_local_max() {
        return Verdict::Beaten;
    }
    if window.count_positive_neighbors() < params.min_cluster_size {
        return Verdict::TooFew;
    }
    let k = params.ray_radius_clamped() as usize;
    Verdict::from(accepts(scan.test, k, image, w, h, x, y))
}

// The verdict on the candidate at (x, y). Where its window does not lie in the map nothing is known of it: it is not
// above the floor, as `judged_in` says, and no call fails.
pub fn judge_at(resp: &[f32], image: &[u8], scan: Scan, x: usize, y: usize) -> Verdict
    ensures { result ≡ judged_in scan resp.now image.now x y }
{
    let params = scan.params;
    if square_fits(params.nms_radius as usize, resp.len(), scan.w, scan.h, x, y) {
        return by_rules(resp, image, scan, x, y);
    }
    Verdict::NotAbove
}
