// The fields of a frame file that can be refused. Two may hold one number alone, so they are judged; the mode is read.
ghost use Rattle.std.specs.Prelude.{◌≡◌, ◌-◌, ◌≤◌, length};
ghost use Rattle.big_endian.specs.BigEndian.{byte_at, word_at};
ghost use Rattle.params.specs.Settings.{mode_numbered};
ghost use Rattle.frame.specs.Fields.{held};

use big_endian::{byte_at, word_at};
use params::{Answer, PeakFitMode};

// Byte 0, which must be 1.
#[tactic(auto, unfolding(crate::specs::Fields::held))]
pub fn version(file: &[u8]) -> Result<(), Answer>
    ensures { result ≡ held Answer.Version (byte_at file.now 0) 1 }
{
    let v = byte_at(file, 0);
    if v != 1 {
        return Err(Answer::Version);
    }
    Ok(())
}

// Bytes 1 to 4, which must be the number of bytes that follow them.
#[tactic(auto, unfolding(crate::specs::Fields::held))]
pub fn stated_length(file: &[u8]) -> Result<(), Answer>
    requires { 20 ≤ length file.now }
    ensures { result ≡ held Answer.StatedLength (word_at file.now 1) (length file.now - 5) }
{
    let stated = word_at(file, 1);
    if stated as usize != file.len() - 5 {
        return Err(Answer::StatedLength);
    }
    Ok(())
}

// Byte 12, which must be the number of a mode.
pub fn mode(file: &[u8]) -> Result<PeakFitMode, Answer>
    ensures { result ≡ mode_numbered (byte_at file.now 12) }
{
    PeakFitMode::try_from(byte_at(file, 12))
}
