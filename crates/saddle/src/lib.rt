// The saddle test on the working image. The response has a peak beside a straight edge that runs along a ray, too; but
// there the image bends across the edge only. Around a chessboard corner it is a saddle: it bends one way along one
// diagonal of the board and the other way along the other. So a quadric a x² + b xy + c y² (constant and linear terms
// drop out) is fitted by least squares over a disk of pixels, and its two curvatures are compared. A disk and not a
// square: on a square a thin line along a diagonal shows in the xy term alone, and would pass.
#![tactic(auto)]

ghost use Rattle.std.specs.Prelude.{◌≡◌, cond, ◌+◌, ◌*◌, ◌<◌, length};
ghost use Rattle.grid.specs.Ways.{pixel};
ghost use Rattle.saddle.specs.Saddle.{moments_of, norms_of, saddle_of, saddle_numbers};
ghost use Rattle.saddle.specs.Saddle.{sums_of, by_curvatures, judge, saddle_at, disk_fits};
ghost use Rattle.saddle.specs.Steps.{Around};

mod disk;

use disk::Disk;

// What a radius fixes: the mean of the squared distance over the disk, and 1 over the norms of r² - mean, of x² - y²
// and of xy.
#[derive(Clone, Copy)]
pub struct SaddleTest {
    pub mean_r2: f32,
    pub inv_u: f32,
    pub inv_v: f32,
    pub inv_xy: f32,
}

// The verdict: a saddle, too flat to tell, or curved to one side. Flat is tested first.
#[derive(Clone, Copy)]
pub enum Saddle {
    Yes,
    Flat,
    Curved,
}

// How many places a disk has, and their squared distances added up.
#[derive(Clone, Copy)]
struct Moments {
    n: f32,
    r2: f32,
}

// Three sums over a disk, of r² - mean, x² - y² and xy: each times the image, or times itself for its norm.
#[derive(Clone, Copy)]
struct Sums {
    u: f32,
    v: f32,
    xy: f32,
}

const NO_SUMS: Sums = Sums {
    u: 0.0,
    v: 0.0,
    xy: 0.0,
};

// Smallest ratio of the two curvatures, which have opposite signs. A saddle whose zero lines are θ apart has
// (1 - |cos θ|) / (1 + |cos θ|): 1 for a square board, a third at 60°.
const MIN_SADDLE_RATIO: f32 = 0.2;

// Smallest difference of the two curvatures, times the squared radius: one gray level. Below it the ratio is noise of
// rounding; a straight edge through the middle has no curvature at all.
const MIN_SADDLE_SPREAD: f32 = 1.0;

fn disk_moments(disk: Disk) -> Moments
    ensures { result ≡ moments_of disk.k }
{
    disk.fold(
        Moments { n: 0.0, r2: 0.0 },
        |s, _, _, dx, dy| Moments {
            n: s.n + 1.0,
            r2: s.r2 + (dx * dx + dy * dy),
        },
    )
}

fn disk_norms(mean: f32, disk: Disk) -> Sums
    ensures { result ≡ norms_of mean disk.k }
{
    disk.fold(NO_SUMS, |s, _, _, dx, dy| {
        let xx = dx * dx;
        let yy = dy * dy;
        let u = xx + yy - mean;
        let v = xx - yy;
        Sums {
            u: s.u + u * u,
            v: s.v + v * v,
            xy: s.xy + xx * dy * dy,
        }
    })
}

fn numbers_of(disk: Disk) -> SaddleTest
    ensures { result ≡ saddle_of disk.k }
{
    let m = disk_moments(disk);
    let mean_r2 = m.r2 / m.n;
    let n = disk_norms(mean_r2, disk);
    SaddleTest {
        mean_r2,
        inv_u: 1.0 / n.u,
        inv_v: 1.0 / n.v,
        inv_xy: 1.0 / n.xy,
    }
}

// The test of radius k, from 1 to 7: built once, and passed by value. There is none of another radius: zeros, and no `None`, as
// `saddle_numbers` says: no call fails.
#[tactic(auto, unfolding(crate::specs::Saddle::saddle_numbers))]
pub fn new(k: usize) -> SaddleTest
    ensures { result ≡ saddle_numbers k }
{
    if (1..=7).contains(&k) {
        numbers_of(Disk::new(k))
    } else {
        SaddleTest {
            mean_r2: 0.0,
            inv_u: 0.0,
            inv_v: 0.0,
            inv_xy: 0.0,
        }
    }
}

// Each pixel of the disk around x, y is added to the three sums, in the order of the places. A disk is the same from
// four sides, so 1, r² - mean, x² - y² and xy are orthogonal to each other, and each coefficient is one projection.
fn project(t: SaddleTest, disk: Disk, image: &[u8], w: usize, h: usize, x: usize, y: usize) -> Sums
    requires { Around disk.k (length image.now) w h x y }
    ensures { result ≡ sums_of t disk.k (pixel image.now w) x y }
{
    let (left, top) = (x - disk.k, y - disk.k);
    disk.fold(
        NO_SUMS,
        // A side is at most 8,192, and the pixel is in the image.
        |s, ix, iy, dx, dy|
            requires { (top + iy < 8192) × ((top + iy) * w + left + ix < length image.now) }
        {
            let i = image[(top + iy) * w + left + ix] as f32;
            let xx = dx * dx;
            let yy = dy * dy;
            Sums {
                u: s.u + (xx + yy - t.mean_r2) * i,
                v: s.v + (xx - yy) * i,
                xy: s.xy + dx * dy * i,
            }
        },
    )
}

// The curvatures are (tr + spread) / 2 and (tr - spread) / 2. They have opposite signs, and the smaller is at least the
// ratio times the larger, just where |tr| (1 + ratio) ≤ spread (1 - ratio). What fails both tests is told as flat.
fn compared(disk: Disk, tr: f32, spread: f32) -> Saddle
    ensures { result ≡ by_curvatures disk.k tr spread }
{
    let kk = (disk.k * disk.k) as u16 as f32;
    let steep = spread * kk >= MIN_SADDLE_SPREAD;
    let even = tr.abs() * (1.0 + MIN_SADDLE_RATIO) <= spread * (1.0 - MIN_SADDLE_RATIO);
    if !steep {
        Saddle::Flat
    } else if even {
        Saddle::Yes
    } else {
        Saddle::Curved
    }
}

// The image is near p (x² + y²) + q (x² - y²) + b xy, so its second derivatives are 2 (p + q) along x, 2 (p - q) along
// y and b across: their trace is 4 p, and the curvatures differ by the root of (4 q)² + 4 b².
fn judged(t: SaddleTest, disk: Disk, s: Sums) -> Saddle
    ensures { result ≡ judge t disk.k s }
{
    let p = s.u * t.inv_u;
    let q = s.v * t.inv_v;
    let b = s.xy * t.inv_xy;
    let tr = 4.0 * p;
    match scalar::sqrt(16.0 * q * q + 4.0 * b * b) {
        Some(spread) => compared(disk, tr, spread),
        None => Saddle::Flat,
    }
}

#[tactic(auto, unfolding(crate::specs::Saddle::disk_fits))]
fn disk_fits(k: usize, room: usize, w: usize, h: usize, x: usize, y: usize) -> bool
    ensures { result ≡ disk_fits k room w h x y }
{
    k <= 7 && sizes::square_fits(k, room, w, h, x, y)
}

// Whether the image, w wide and h high, is a saddle around x, y. A disk that does not lie in the image tells nothing,
// as a flat one does: the clause says Flat there, not `None`: no call fails.
pub fn accepts(
    t: SaddleTest,
    k: usize,
    image: &[u8],
    w: usize,
    h: usize,
    x: usize,
    y: usize,
) -> Saddle
    ensures { result ≡ cond (disk_fits k (length image.now) w h x y) (saddle_at t k (pixel image.now w) x y) Saddle.Flat }
{
    if disk_fits(k, image.len(), w, h, x, y) {
        let disk = Disk::new(k);
        judged(t, disk, project(t, disk, image, w, h, x, y))
    } else {
        Saddle::Flat
    }
}
