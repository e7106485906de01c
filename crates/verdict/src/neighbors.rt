// The two tests of a candidate's square window. The Rust also tests for the map's edge; here a candidate lies so far inside
// (ray + suppression radius + 1) that they never fire, and a window lies in the map.
ghost use Rattle.std.specs.Prelude.{◌≡◌, not, ◌+◌, ◌*◌, ◌<◌, ◌≤◌, length};
ghost use Rattle.grid.specs.Rect.{place};
ghost use Rattle.grid.specs.Ways.{value};
ghost use Rattle.verdict.specs.Window.{beaten, positives};
ghost use Rattle.verdict.specs.Room.{Room, Cross, RowRoom, nearest, row_part, positives_there};

use crests::{count_above, find_above};

// The window of radius r about (x, y) in a map w wide and h high, and the value v at its centre.
#[derive(Clone, Copy)]
pub struct Window<'a> {
    pub resp: &'a [f32],
    pub w: usize,
    pub h: usize,
    pub x: usize,
    pub y: usize,
    pub r: usize,
    pub v: f32,
    ghost lies_in: { Room w h r x y (length resp.now) },
    ghost centre: { v ≡ value resp.now w x y },
}

impl<'a> Window<'a> {
    // Whether one of the four nearest is greater than the centre.
    fn near_beats(&self) -> bool
        requires { 0 < self.now.r }
        ensures { result ≡ nearest (value self.now.resp.now self.now.w) self.now.v self.now.x self.now.y }
    {
        let resp = self.resp;
        let w = self.w;
        let v = self.v;
        let c = self.y * w + self.x;
        (resp[c - 1] > v) | (resp[c + 1] > v) | (resp[c - w] > v) | (resp[c + w] > v)
    }

    // r to each side of the centre's column in row yy, as a part of the map.
    fn row(&self, yy: usize) -> &[f32]
        requires { yy < self.now.y + self.now.r + 1 }
        ensures { result.now ≡ row_part self.now.resp.now self.now.w self.now.x self.now.r yy }
    {
        let a = yy * self.w + (self.x - self.r);
        let e = a + (self.r + self.r + 1);
        &self.resp[a..e]
    }

    // Whether no value in the window is greater than the centre. An equal one does not beat it.
    // A candidate on a slope is beaten by one of its nearest: they are asked first.
    pub fn is_local_max(&self) -> bool
        ensures { result ≡ not (beaten (value self.now.resp.now self.now.w) self.now.r (place self.now.x self.now.y)) }
    {
        if 0 < self.r && self.near_beats() {
            return false;
        }
        (self.y - self.r..self.y + self.r + 1).all(|yy| find_above(self.row(yy), self.v).is_none())
    }

    // How many values in the window are above zero, the centre counted too.
    fn positives(&self) -> u32
        ensures { result ≡ positives_there (value self.now.resp.now self.now.w) self.now.r (place self.now.x self.now.y) }
    {
        (self.y - self.r..self.y + self.r + 1)
            .map(|yy| count_above(self.row(yy), 0.0))
            .sum()
    }

    // How many values in the window are above zero, the centre not counted.
    pub fn count_positive_neighbors(&self) -> u32
        ensures { result ≡ positives (value self.now.resp.now self.now.w) self.now.r (place self.now.x self.now.y) }
    {
        let count = self.positives();
        let v = self.v;
        if v > 0.0 { count - 1 } else { count }
    }
}
