// The frame file: which bytes are taken, and what they mean.
#![tactic(auto)]

ghost use Rattle.std.specs.Prelude.{◌≡◌};
ghost use Rattle.frame.specs.FrameFile.{header_of, read_of, Pixels};

use big_endian::{byte_at, float, half_at, word_at};
use params::{Answer, PeakFitMode, RadonDetectorParams};

mod fields;

// What the fields of a frame file say.
#[derive(Clone, Copy)]
pub struct Header {
    pub width: usize,
    pub height: usize,
    pub params: RadonDetectorParams,
}

// The bytes before the pixels.
const HEADER: usize = 20;

// The header of a frame file of at most `limit` bytes, or the lowest of the answers 10 to 14 that applies: the fields that can be refused are asked
// one after the other.
#[tactic(auto, unfolding(crate::specs::FrameFile::read_of, crate::specs::FrameFile::header_read, crate::specs::Fields::held))]
pub fn read(file: &[u8], limit: usize) -> Result<Header, Answer>
    ensures { result ≡ read_of limit file.now }
{
    if limit < file.len() {
        return Err(Answer::FileTooLong);
    }
    if file.len() < HEADER {
        return Err(Answer::FileTooShort);
    }
    fields::version(file)?;
    fields::stated_length(file)?;
    let fit = fields::mode(file)?;
    Ok(header_of(file, fit))
}

// The header with that mode. No other of its fields can be refused.
#[tactic(auto, unfolding(crate::specs::FrameFile::header_of))]
fn header_of(file: &[u8], fit: PeakFitMode) -> Header
    ensures { result ≡ header_of file.now fit }
{
    let params = RadonDetectorParams {
        ray_radius: byte_at(file, 9),
        image_upsample: byte_at(file, 10),
        response_blur_radius: byte_at(file, 11),
        peak_fit: fit,
        nms_radius: byte_at(file, 13),
        min_cluster_size: half_at(file, 14),
        threshold_rel: float(word_at(file, 16)),
    };
    Header {
        width: half_at(file, 5) as usize,
        height: half_at(file, 7) as usize,
        params,
    }
}

// The pixels of a frame file, where they stand. A file too short for its fields has none: the empty part at its end.
pub fn pixels(file: &[u8]) -> &[u8]
    ensures { Pixels file.entry result }
{
    &file[HEADER.min(file.len())..]
}
