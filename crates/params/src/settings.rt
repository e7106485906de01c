// The settings of a call, with their defaults and the set of the existing sites, and what a number outside their range counts as.
ghost use Rattle.std.specs.Prelude.{◌≡◌};
ghost use Rattle.params.specs.Settings.{defaults, existing_sites, factor_of, ray_of, border_of, mode_numbered};

use crate::Answer;

// How a peak is fitted between pixels.
#[derive(Clone, Copy)]
pub enum PeakFitMode {
    // A parabola through the three values.
    Parabolic,
    // A parabola through their logarithms.
    Gaussian,
}

impl TryFrom<u32> for PeakFitMode {
    type Error = Answer;

    // The mode of that number. No other number has one: that is answer 14.
    fn try_from(n: u32) -> Result<PeakFitMode, Answer>
        ensures { result ≡ mode_numbered n }
    {
        match n {
            0 => Ok(PeakFitMode::Parabolic),
            1 => Ok(PeakFitMode::Gaussian),
            _ => Err(Answer::Mode),
        }
    }
}

// The settings of one call. Radii are working-resolution pixels.
#[derive(Clone, Copy)]
pub struct RadonDetectorParams {
    pub ray_radius: u32,
    pub image_upsample: u32,
    pub response_blur_radius: u32,
    pub peak_fit: PeakFitMode,
    pub threshold_rel: f32,
    pub nms_radius: u32,
    pub min_cluster_size: u32,
}

// No factor above this is supported: larger ones count as it.
const MAX_IMAGE_UPSAMPLE: u32 = 2;

impl RadonDetectorParams {
    pub const DEFAULT_RAY_RADIUS: u32 = 4;

    pub const DEFAULT_IMAGE_UPSAMPLE: u32 = 2;

    pub const DEFAULT_RESPONSE_BLUR_RADIUS: u32 = 1;

    pub const DEFAULT_THRESHOLD_REL: f32 = 0.28;

    pub const DEFAULT_NMS_RADIUS: u32 = 6;

    pub const DEFAULT_MIN_CLUSTER_SIZE: u32 = 2;

    pub const EXISTING_SITES_NMS_RADIUS: u32 = 4;

    // The default settings.
    pub fn new() -> Self
        ensures { result ≡ defaults }
    {
        Self {
            ray_radius: Self::DEFAULT_RAY_RADIUS,
            image_upsample: Self::DEFAULT_IMAGE_UPSAMPLE,
            response_blur_radius: Self::DEFAULT_RESPONSE_BLUR_RADIUS,
            peak_fit: PeakFitMode::Gaussian,
            threshold_rel: Self::DEFAULT_THRESHOLD_REL,
            nms_radius: Self::DEFAULT_NMS_RADIUS,
            min_cluster_size: Self::DEFAULT_MIN_CLUSTER_SIZE,
        }
    }

    // The start-up settings of the sites that are older than the default of 6. They are the Rust's own defaults.
    pub fn existing_sites() -> Self
        ensures { result ≡ existing_sites }
    {
        Self {
            nms_radius: Self::EXISTING_SITES_NMS_RADIUS,
            ..Self::new()
        }
    }

    // The upsampling factor that is used: 1 or 2.
    pub fn image_upsample_clamped(self) -> u32
        ensures { result ≡ factor_of self.image_upsample }
    {
        clamped(self.image_upsample)
    }

    // The ray radius that is used: at least 1.
    pub fn ray_radius_clamped(self) -> u32
        ensures { result ≡ ray_of self.ray_radius }
    {
        self.ray_radius.max(1)
    }

    // How far candidates stay from every edge: the window, the rays and one pixel for the fit lie inside.
    pub fn border(self) -> usize
        ensures { result ≡ border_of self }
    {
        self.ray_radius_clamped() as usize + self.nms_radius as usize + 1
    }
}

// Not the Rust's own default, which is that of `existing_sites`.
impl Default for RadonDetectorParams {
    fn default() -> Self
        ensures { result ≡ defaults }
    {
        Self::new()
    }
}

// The factor that an upsampling counts as, where there is no more of the settings than that, as in `Working::to_input`.
pub fn clamped(up: u32) -> u32
    ensures { result ≡ factor_of up }
{
    up.clamp(1, MAX_IMAGE_UPSAMPLE)
}
