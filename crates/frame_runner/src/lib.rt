// From the bytes of a frame file to what it is answered: the file is read, and the finder is called over lent buffers.
#![tactic(auto)]

ghost use Rattle.std.specs.Prelude.{◌≡◌};
ghost use Rattle.response.specs.Work.{SameWork};
ghost use Rattle.radon.specs.Finder.{lent_now};
ghost use Rattle.frame_runner.specs.FileAnswer.{file_outcome, file_buffers};

use params::Outcome;
use response::WorkBuffers;

// What a frame file is answered, over buffers that the caller lends: the file's own refusal, 10 where it has more than `limit` bytes, or what the
// finder makes of its frame.
#[tactic(auto, unfolding(crate::specs::FileAnswer::file_outcome, crate::specs::FileAnswer::file_buffers))]
pub fn run_frame_file(
    file: &[u8],
    limit: usize,
    work: &mut WorkBuffers,
    list: &mut [f32],
) -> Outcome
    ensures answer { result ≡ file_outcome limit file.now (lent_now work.old list.old) }
    ensures same { SameWork work.old work.new }
    ensures buffers { lent_now work.new list.new
        ≡ file_buffers limit file.now (lent_now work.old list.old) }
{
    match frame::read(file, limit) {
        Err(answer) => Outcome::refusal(answer),
        Ok(header) => radon::radon_corners_u8(
            frame::pixels(file),
            header.width,
            header.height,
            header.params,
            work,
            list,
        ),
    }
}
