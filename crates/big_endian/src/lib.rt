// Numbers in bytes, the highest byte first, and the bits of an f32: what frame files and corner records are made of.
#![tactic(auto)]

ghost use Rattle.std.specs.Prelude.{◌≡◌, ◌<◌};
ghost use Rattle.std.specs.Float.{binary32};
ghost use Rattle.std.specs.Float.Ieee.{to_bits, of_bits};
ghost use Rattle.big_endian.specs.BigEndian.{byte_at, half_at, word_at, half_bytes, word_bytes, put_at};

use std::num::{f32_from_bits_with_nan, f32_to_bits_with_nan};

// One byte. Here and below, what stands past the end is 0.
pub fn byte_at(s: &[u8], at: usize) -> u32
    ensures { (result ≡ byte_at s.now at) × (result < 256) }
{
    s.get(at).map_or(0, |b| u32::from(*b))
}

// Two bytes, the higher first.
// Byte by byte: `from_be_bytes` takes no array with a byte past the end.
pub fn half_at(s: &[u8], at: usize) -> u32
    ensures { (result ≡ half_at s.now at) × (result < 65536) }
{
    let high = byte_at(s, at);
    let low = byte_at(s, at.saturating_add(1));
    high * 256 + low
}

// Four bytes, the highest first.
pub fn word_at(s: &[u8], at: usize) -> u32
    ensures { result ≡ word_at s.now at }
{
    let high = half_at(s, at);
    let low = half_at(s, at.saturating_add(2));
    high * 65536 + low
}

// Bytes from a place on; where they do not fit nothing is put.
fn put(out: &mut [u8], at: usize, bytes: &[u8])
    ensures { out.new ≡ put_at at bytes.now out.old }
{
    if bytes.len() <= out.len() && at <= out.len() - bytes.len() {
        out[at..at + bytes.len()].copy_from_slice(bytes);
    }
}

// A number as two bytes.
#[tactic(auto, using(crate::proofs::Fits::half_is))]
pub fn put_half(out: &mut [u8], at: usize, n: u16)
    ensures { out.new ≡ put_at at (half_bytes n) out.old }
{
    put(out, at, &u16::to_be_bytes(n));
}

// A number as four bytes.
#[tactic(auto, using(crate::proofs::Fits::word_is))]
pub fn put_word(out: &mut [u8], at: usize, n: u32)
    ensures { out.new ≡ put_at at (word_bytes n) out.old }
{
    put(out, at, &u32::to_be_bytes(n));
}

// The bits of an f32. A NaN has no bits of its own: here they are 7FC00000.
pub fn bits(x: f32) -> u32
    ensures { result ≡ to_bits binary32 x }
{
    f32_to_bits_with_nan(x)
}

// The f32 of these bits. Those of a NaN may not be cast: there a NaN is made.
pub fn float(bits: u32) -> f32
    ensures { result ≡ of_bits binary32 bits }
{
    f32_from_bits_with_nan(bits)
}
