// The two kinds of coordinates, and the one way from the one to the other.
ghost use Rattle.std.specs.Prelude.{◌≡◌};
ghost use Rattle.params.specs.Coordinates.{to_input};

use crate::settings::clamped;

// A coordinate in pixels of the working image.
#[derive(Clone, Copy)]
pub struct Working(pub f32);

// A coordinate in pixels of the input image.
#[derive(Clone, Copy)]
pub struct Input(pub f32);

impl Working {
    // The one way from the working image to the input image.
    pub fn to_input(self, up: u32) -> Input
        ensures { result ≡ to_input self up }
    {
        if clamped(up) == 1 {
            return Input(self.0 * 1.0);
        }
        Input(self.0 * 0.5)
    }
}
