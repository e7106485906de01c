// The writer: which lists are taken, and the record of one.
ghost use Rattle.std.specs.Prelude.{◌≡◌, ◌+◌, ◌*◌, ◌≤◌, length};
ghost use Rattle.std.proofs.lemmas.List.Edits.{sets};
ghost use Rattle.grid.specs.Over.{over};
ghost use Rattle.params.specs.Refusals.{as_result};
ghost use Rattle.record.specs.Record.{version, stride, following, head_of, bytes_of, write_refusal, write_outcome, written};

use crate::numbers::stray_in_list;
use crate::{HEAD, LEAD, MOST, STRIDE, VERSION, WORD};
use big_endian::{bits, put_half, put_word};
use params::{Answer, Outcome, Verdicts};

// Answers 18 to 20, the lowest that applies: `room` is the output's length. Numbers beyond the whole corners are not looked at.
#[tactic(auto, unfolding(crate::specs::Record::write_refusal))]
fn judge_list(list: &[f32], room: usize) -> Result<(), Answer>
    ensures { result ≡ as_result (write_refusal stride list.now room) }
{
    let count = list.len() / STRIDE;
    if count > MOST {
        return Err(Answer::CornerCount);
    }
    if stray_in_list(&list[..STRIDE * count]) {
        return Err(Answer::NotFinite);
    }
    if room < HEAD + WORD * (STRIDE * count) {
        return Err(Answer::OutputTooShort);
    }
    Ok(())
}

// How many bytes follow the stated length, where there are that many corners.
fn follows(count: usize) -> u32
    requires { count ≤ 8388608 }
    ensures { result ≡ following stride count }
{
    (HEAD - LEAD + WORD * (STRIDE * count)) as u32
}

// The bytes before the corners.
fn put_head(out: &mut [u8], w: u16, h: u16, count: usize)
    requires { (13 ≤ length out.old) × (count ≤ 8388608) }
    ensures { out.new ≡ over (head_of version stride w h count) out.old }
{
    out[0] = VERSION as u8;
    put_word(out, 1, follows(count));
    put_half(out, 5, w);
    put_half(out, 7, h);
    put_word(out, 9, count as u32);
}

// The bits of a list's numbers, behind those bytes.
fn put_numbers(list: &[f32], out: &mut [u8])
    requires { 13 + 4 * length list.now ≤ length out.old }
    ensures { out.new ≡ sets out.old 13 (bytes_of list.now) }
{
    for (i, x) in list.iter().enumerate() {
        put_word(out, HEAD + WORD * i, bits(*x));
    }
}

// The record of a list, with the sides of its working image.
pub fn write_record(w: u16, h: u16, list: &[f32], out: &mut [u8]) -> Outcome
    ensures outcome { result ≡ write_outcome stride w h list.now (length out.old) }
    ensures output { out.new ≡ written version stride w h list.now out.old }
{
    if let Err(answer) = judge_list(list, out.len()) {
        return Outcome::refusal(answer);
    }
    let count = list.len() / STRIDE;
    put_head(out, w, h, count);
    put_numbers(&list[..STRIDE * count], out);
    Outcome {
        answer: Answer::Complete,
        count,
        w: usize::from(w),
        h: usize::from(h),
        verdicts: Verdicts::none(),
    }
}
