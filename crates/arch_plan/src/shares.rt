// The shares of the list: how large they are, and whether there is a corner in each.
ghost use Rattle.std.specs.Prelude.{◌≡◌};
ghost use Rattle.params.specs.Refusals.{as_result};
ghost use Rattle.arch_plan.specs.Plan.{arch_refusal, share_size};

use params::Answer;

const FEWEST: usize = 2;

const MOST: usize = 8;

// The numbers of a corner: x, y, strength.
const STRIDE: usize = 3;

// Answer 21: `room` is the list's length.
#[tactic(auto, unfolding(crate::specs::Plan::arch_refusal))]
pub fn judge_arch(cameras: usize, room: usize) -> Result<(), Answer>
    ensures { result ≡ as_result (arch_refusal cameras room) }
{
    if !(FEWEST..=MOST).contains(&cameras) || room / STRIDE < cameras {
        return Err(Answer::Cameras);
    }
    Ok(())
}

// How many numbers of the list each camera has: those of whole corners. No camera has none.
pub fn share_size(cameras: usize, room: usize) -> usize
    ensures { result ≡ share_size cameras room }
{
    if cameras == 0 {
        return 0;
    }
    STRIDE * (room / STRIDE / cameras)
}
