// The four tables of running sums and the response of the rays, over buffers that the caller lends.
#![tactic(auto)]

mod rays;

ghost use Rattle.std.specs.Prelude.{◌≡◌, cond, ◌&&◌, leb, length};
ghost use Rattle.grid.specs.Ways.{pixel};
ghost use Rattle.sizes.specs.Fits.{fits_in};
ghost use Rattle.cumsums.specs.Shown.{SameTables};
ghost use Rattle.rays.specs.Lent.{tabled_now, rays_of, rays_fit};

use cumsums::{Tables, build_cumsums};
use rays::Cumsums;
use sizes::fits;

// The sides of an image, and the radius of its rays.
#[derive(Clone, Copy)]
pub struct Size {
    pub w: usize,
    pub h: usize,
    pub r: usize,
}

// The greatest ray radius.
const MAX_RAY_RADIUS: usize = 7;

// Whether the radius is allowed, and every pixel has room.
fn rays_fit(size: Size, room: usize) -> bool
    ensures { result ≡ (leb size.r 7 && fits_in size.w size.h room) }
{
    size.r <= MAX_RAY_RADIUS && fits(size.w, size.h, room)
}

// Each buffer needs an entry for every pixel; where the sizes do not fit, nothing changes.
pub fn ray_response(img: &[u8], size: Size, lent: &mut Tables, response: &mut [f32])
    ensures same { SameTables lent.old lent.new }
    ensures filled { tabled_now lent.new response.new
        ≡ cond (rays_fit size.w size.h size.r (length img.now) (tabled_now lent.old response.old))
        (rays_of (pixel img.now size.w) size.w size.h size.r (tabled_now lent.old response.old))
        (tabled_now lent.old response.old) }
{
    let room = lent.room(img.len().min(response.len()));
    if rays_fit(size, room) {
        build_cumsums(img, size.w, size.h, lent);
        // Borrowed one by one first: no proof is made where a field is read while another behind the same reference is lent.
        let row = &mut *lent.row;
        let col = &mut *lent.col;
        let falling = &mut *lent.falling;
        let rising = &mut *lent.rising;
        let tables = Cumsums {
            row,
            col,
            falling,
            rising,
            size,
        };
        tables.compute_response(response);
    }
}
