// The Radon response map: working image, four tables of running sums, response, blur. Each pass is a crate; this is their one entry.
#![tactic(auto)]

ghost use Rattle.std.specs.Prelude.{◌≡◌};
ghost use Rattle.response.specs.Map.{room_of, mapped_of, map_buffers_of};
ghost use Rattle.response.specs.Work.{map_now, SameWork};

use blur::box_blur_inplace;
use cumsums::Tables;
use params::{Answer, RadonDetectorParams, judge_map_call};
use rays::{Size, ray_response};
use upsample::upsample;

// The working image's sides, which are the map's.
#[derive(Clone, Copy)]
pub struct Sides {
    pub w: usize,
    pub h: usize,
}

// The seven buffers that a call works in, lent to be written: each needs an entry for every working pixel.
// Flat, and no `Tables` inside: a caller that makes the struct of its slices knew no more than their lengths afterwards (tried).
#[derive(Drop)]
pub struct WorkBuffers<'a> {
    pub working: &'a mut [u8],
    pub row: &'a mut [u32],
    pub col: &'a mut [u32],
    pub falling: &'a mut [u32],
    pub rising: &'a mut [u32],
    pub response: &'a mut [f32],
    pub scratch: &'a mut [f32],
}

impl WorkBuffers<'_> {
    // The length of the shortest.
    pub fn room(&self) -> usize
        ensures { result ≡ room_of (map_now self.now) }
    {
        let diagonals = self.falling.len().min(self.rising.len());
        let tables = self.row.len().min(self.col.len()).min(diagonals);
        let floats = self.response.len().min(self.scratch.len());
        self.working.len().min(tables).min(floats)
    }
}

// The dense response of an image, over buffers that the caller lends.
// A frame that is too small for a list, sides of 0 included, is taken.
pub fn radon_response_u8(
    img: &[u8],
    w: usize,
    h: usize,
    p: RadonDetectorParams,
    work: &mut WorkBuffers,
) -> Result<Sides, Answer>
    ensures answer { result ≡ mapped_of img.now w h p (map_now work.old) }
    ensures same { SameWork work.old work.new }
    ensures buffers { map_now work.new ≡ map_buffers_of img.now w h p (map_now work.old) }
{
    judge_map_call(w, h, img.len(), p, work.room())?;
    let factor = p.image_upsample_clamped();
    let ray = p.ray_radius_clamped() as usize;
    let radius = p.response_blur_radius as usize;
    let ww = (factor as usize) * w;
    let wh = (factor as usize) * h;
    let size = Size {
        w: ww,
        h: wh,
        r: ray,
    };
    // Borrowed once: it is written, and then read.
    let working = &mut *work.working;
    upsample(img, w, h, factor, working);
    let tables = &mut Tables {
        row: &mut *work.row,
        col: &mut *work.col,
        falling: &mut *work.falling,
        rising: &mut *work.rising,
    };
    ray_response(working, size, tables, work.response);
    box_blur_inplace(work.response, work.scratch, ww, wh, radius);
    Ok(Sides { w: ww, h: wh })
}
