// The box blur of a map, in place with a scratch buffer of the same size: means along the rows into the scratch, then down its columns.
#![tactic(auto)]

ghost use Rattle.std.specs.Prelude.{◌≡◌, cond, ◌+◌, ◌*◌, ◌<◌, ◌≤◌, length};
ghost use Rattle.grid.specs.Fill.{filled};
ghost use Rattle.grid.specs.Plane.{plane};
ghost use Rattle.means.specs.Means.{value_at, column_mean};
ghost use Rattle.blur.specs.Blur.{row_mean, blur_at, scratched, blur_fits};
ghost use Rattle.blur.specs.Fitting.{FittingMaps};

// By index, as the next pass too: of what stands in a row after `chunks_exact_mut` nothing would be known.
// Two passes, not one over a closure: one reads a row and one the whole map, and what a closure would have to promise is longer than both.
#[tactic(auto, using(grid::proofs::Plane::row_in))]
fn blur_rows(resp: &[f32], w: usize, h: usize, radius: usize, scratch: &mut [f32])
    requires { FittingMaps w h radius (length resp.now) (length scratch.old) }
    ensures { scratch.new ≡ filled (w * h) (plane w (row_mean (value_at resp.now w) w radius)) scratch.old }
{
    for y in 0..h {
        let i = y * w;
        means::row_means(&resp[i..i + w], radius, &mut scratch[i..i + w]);
    }
}

#[tactic(auto, using(grid::proofs::Plane::row_in))]
fn blur_columns(scratch: &[f32], w: usize, h: usize, radius: usize, resp: &mut [f32])
    requires { FittingMaps w h radius (length scratch.now) (length resp.old) }
    ensures { resp.new ≡ filled (w * h) (plane w (column_mean (value_at scratch.now w) h radius)) resp.old }
{
    for y in 0..h {
        let i = y * w;
        means::column_means(scratch, w, h, y, radius, &mut resp[i..i + w]);
    }
}

// The map blurred in place. Radius 0 leaves both buffers, and so do a map with no pixel and what does not fit.
pub fn box_blur_inplace(resp: &mut [f32], scratch: &mut [f32], w: usize, h: usize, radius: usize)
    ensures resp_after { resp.new ≡ cond (blur_fits w h radius (length resp.old) (length scratch.old))
        (filled (w * h) (plane w (blur_at (value_at resp.old w) w h radius)) resp.old)
        resp.old }
    ensures scratch_after { scratch.new ≡ cond (blur_fits w h radius (length resp.old) (length scratch.old))
        (scratched (value_at resp.old w) w h radius scratch.old)
        scratch.old }
{
    let room = resp.len().min(scratch.len());
    if radius > 0 && means::map_fits(w, h, radius, room) {
        blur_rows(resp, w, h, radius, scratch);
        blur_columns(scratch, w, h, radius, resp);
    }
}
