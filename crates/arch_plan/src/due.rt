// Where a camera's frame is due: whether it lies whole in what is left of the slice, and how many bytes are gone behind it.
ghost use Rattle.std.specs.Prelude.{◌≡◌, length};
ghost use Rattle.big_endian.specs.BigEndian.{word_at};
ghost use Rattle.arch_plan.specs.Plan.{due_in};
ghost use Rattle.arch_plan.specs.Gone.{gone_by};

use big_endian::word_at;
use params::Answer;

// The bytes up to the end of the stated length.
const LEAD: usize = 5;

// Bytes 1 to 4. Whatever else the frame has, the next one begins behind as many.
fn stated_in(rest: &[u8]) -> usize
    ensures { result ≡ word_at rest.now 1 }
{
    word_at(rest, 1) as usize
}

// A whole frame file of so many bytes, or the refusal of one that is not whole. The stated length is held to what is left, so no sum with it can
// wrap.
#[tactic(auto, unfolding(crate::specs::Plan::due_in))]
pub fn due_in(rest: &[u8]) -> Result<usize, Answer>
    ensures { result ≡ due_in rest.now }
{
    let stated = stated_in(rest);
    if rest.len() < LEAD {
        return Err(Answer::FileTooShort);
    }
    if rest.len() - LEAD < stated {
        return Err(Answer::StatedLength);
    }
    Ok(LEAD + stated)
}

// How many of the bytes that are left are gone behind it: all, where it is not whole.
pub fn gone_in(rest: &[u8]) -> usize
    ensures { result ≡ gone_by (due_in rest.now) (length rest.now) }
{
    due_in(rest).unwrap_or(rest.len())
}
