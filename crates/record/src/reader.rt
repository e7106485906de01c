// The reader: which records are taken, and the list of one.
ghost use Rattle.std.specs.Prelude.{◌≡◌, length};
ghost use Rattle.params.specs.Refusals.{as_result};
ghost use Rattle.record.specs.Record.{version, stride, count_in, read_refusal, read_outcome, read_back};
ghost use Rattle.record.specs.Stages.{length_refusal, version_refusal, count_refusal, head_refusal};

use crate::numbers::Numbers;
use crate::{HEAD, LEAD, MOST, STRIDE, VERSION, WORD};
use big_endian::{byte_at, half_at, word_at};
use params::{Answer, Outcome, Verdicts};

// Answer 16.
#[tactic(auto, unfolding(crate::specs::Stages::length_refusal))]
fn judge_length(file: &[u8]) -> Result<(), Answer>
    ensures { result ≡ as_result (length_refusal file.now) }
{
    if file.len() < HEAD || word_at(file, 1) as usize != file.len() - LEAD {
        return Err(Answer::RecordLength);
    }
    Ok(())
}

// Answer 17.
#[tactic(auto, unfolding(crate::specs::Stages::version_refusal))]
fn judge_version(file: &[u8]) -> Result<(), Answer>
    ensures { result ≡ as_result (version_refusal version file.now) }
{
    if byte_at(file, 0) != VERSION {
        return Err(Answer::RecordVersion);
    }
    Ok(())
}

fn count_in(file: &[u8]) -> u32
    ensures { result ≡ count_in file.now }
{
    word_at(file, 9)
}

// The numbers of as many corners as the record says it has.
fn numbers_in(file: &[u8]) -> Numbers<'_>
    ensures file { result.file ≡ file.entry }
    ensures corners { result.corners ≡ count_in file.now }
{
    Numbers {
        file,
        corners: count_in(file),
    }
}

// Answer 18. The product does not wrap: a size has 64 bits.
#[tactic(auto, unfolding(crate::specs::Stages::count_refusal))]
fn judge_count(file: &[u8]) -> Result<(), Answer>
    ensures { result ≡ as_result (count_refusal stride file.now) }
{
    let count = count_in(file) as usize;
    if word_at(file, 1) as usize != HEAD - LEAD + WORD * (STRIDE * count) || count > MOST {
        return Err(Answer::CornerCount);
    }
    Ok(())
}

// Answers 16 to 18, the lowest that applies.
fn judge_head(file: &[u8]) -> Result<(), Answer>
    ensures { result ≡ as_result (head_refusal version stride file.now) }
{
    judge_length(file)?;
    judge_version(file)?;
    judge_count(file)
}

// Answers 16 to 20, the lowest that applies: `room` is the list's length. The numbers of a record that says wrongly how many it
// has are not looked at.
#[tactic(auto, using(crate::proofs::Taken::chained))]
fn judge_record(file: &[u8], room: usize) -> Result<(), Answer>
    ensures { result ≡ as_result (read_refusal version stride file.now room) }
{
    judge_head(file)?;
    let numbers = numbers_in(file);
    let n = numbers.len();
    if numbers.has_stray() {
        return Err(Answer::NotFinite);
    }
    if room < n {
        return Err(Answer::OutputTooShort);
    }
    Ok(())
}

// The list of a record, and its sides.
pub fn read_record(file: &[u8], list: &mut [f32]) -> Outcome
    ensures outcome { result ≡ read_outcome version stride file.now (length list.old) }
    ensures list { list.new ≡ read_back version stride file.now list.old }
{
    if let Err(answer) = judge_record(file, list.len()) {
        return Outcome::refusal(answer);
    }
    let numbers = numbers_in(file);
    numbers.fill(list);
    Outcome {
        answer: Answer::Complete,
        count: numbers.corners as usize,
        w: half_at(file, 5) as usize,
        h: half_at(file, 7) as usize,
        verdicts: Verdicts::none(),
    }
}
