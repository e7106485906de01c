// All cameras of an arch in one call: their frame files stand end to end in one slice, the work buffers serve one after the other, and each camera
// has an equal share of the list.
#![tactic(auto)]

ghost use Rattle.std.specs.Prelude.{◌≡◌, ◌*◌, ◌≤◌, length, replicate};
ghost use Rattle.grid.specs.Fill.{filled};
ghost use Rattle.response.specs.Work.{SameWork};
ghost use Rattle.radon.specs.Finder.{lent_now};
ghost use Rattle.arch_plan.specs.Plan.{due_in};
ghost use Rattle.arch.specs.Arch.{camera_outcome, camera_buffers, told, no_frame, left_by, arch_outcome, arch_buffers};

use arch_plan::{due_in, gone_in, judge_arch, share_size};
use frame_runner::run_frame_file;
use params::{Answer, Outcome};
use response::WorkBuffers;

// What a call for an arch reports: its own answer, 0 or 21, and what each camera is told.
// No `Result`, and always eight: a refused call tells each camera too (`arch_outcome`), in fixed memory, as the C interface has it.
#[derive(Clone, Copy)]
pub struct ArchOutcome {
    pub answer: Answer,
    pub cameras: [Outcome; 8],
}

// The camera whose frame begins where `rest` does: answered as a single call would, with its share as the list; or not whole, and refused.
fn run_camera(rest: &[u8], work: &mut WorkBuffers, share: &mut [f32]) -> Outcome
    ensures answer { result ≡ camera_outcome rest.now (due_in rest.now)
        (lent_now work.old share.old) }
    ensures same { SameWork work.old work.new }
    ensures buffers { lent_now work.new share.new
        ≡ camera_buffers rest.now (due_in rest.now)
        (lent_now work.old share.old) }
{
    match due_in(rest) {
        Err(answer) => Outcome::refusal(answer),
        Ok(n) => run_frame_file(&rest[..n], n, work, share),
    }
}

// Camera after camera. A refused one stops nobody.
fn run_cameras(
    cameras: usize,
    size: usize,
    frames: &[u8],
    work: &mut WorkBuffers,
    list: &mut [f32],
) -> [Outcome; 8]
    requires { (cameras ≤ 8) × (cameras * size ≤ length list.old) }
    ensures told { result ≡ filled cameras (told frames.now size
        (lent_now work.old list.old)) (replicate 8 no_frame) }
    ensures same { SameWork work.old work.new }
    ensures buffers { lent_now work.new list.new
        ≡ left_by frames.now size
        (lent_now work.old list.old) cameras }
{
    let mut told = [Outcome::refusal(Answer::FileTooShort); 8];
    let mut rest = frames;
    // Counted: after a `zip` over the shares a proof would know how long they are, and not what was written into them.
    for i in 0..cameras {
        let a = i * size;
        let e = a + size;
        told[i] = run_camera(rest, work, &mut list[a..e]);
        rest = &rest[gone_in(rest)..];
    }
    told
}

// All cameras of an arch: `frames` has their frame files end to end, and camera i has the i-th of as many equal shares of the list, in whole corners.
// An entry of the result beyond the camera count reads as a camera with no frame does.
pub fn run_arch(
    cameras: usize,
    frames: &[u8],
    work: &mut WorkBuffers,
    list: &mut [f32],
) -> ArchOutcome
    ensures answer { result ≡ arch_outcome cameras frames.now
        (lent_now work.old list.old) }
    ensures same { SameWork work.old work.new }
    ensures buffers { lent_now work.new list.new
        ≡ arch_buffers cameras frames.now
        (lent_now work.old list.old) }
{
    if let Err(answer) = judge_arch(cameras, list.len()) {
        return ArchOutcome {
            answer,
            cameras: [Outcome::refusal(answer); 8],
        };
    }
    let size = share_size(cameras, list.len());
    let told = run_cameras(cameras, size, frames, work, list);
    ArchOutcome {
        answer: Answer::Complete,
        cameras: told,
    }
}
