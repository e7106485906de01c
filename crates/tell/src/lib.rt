// How a replay program takes its list, and what it tells of the replay, on standard output.
#![tactic(auto)]

ghost use Rattle.std.specs.Prelude.{◌≡◌, ◌≤◌, take, length, IfOk, IfSome};

use replay::Walk;
use std::convert::AsSlice;
use std::io;
use std::io::Read;
use vectors::{after_line, part};

// Reads a list into the room, as much of it as there is room for, and gives what it read.
pub fn of_input<'a, R: Read>(from: &mut R, room: &'a mut [u8]) -> io::Result<&'a [u8]>
    ensures within { IfOk result (λ list. length list.now ≤ length room.old) }
    ensures front { IfOk result (λ list. IfSome (R.remaining from.old) (λ given. list.now ≡ take (length room.old) given)) }
{
    let got = input::read_full(from, room)?;
    Ok(&room[..got])
}

// The list's own line, the number of records, and how many disagree.
pub fn head(rt: &impl Print, s: &[u8], w: Walk) -> io::Result<()> {
    rt.write_all(part(s, 0, after_line(s)))?;
    say(rt, "records", w.tally.records)?;
    say(rt, "records that disagree", w.tally.wrong)?;
    if let Some(first) = w.tally.first {
        say(rt, "number of the first that disagrees, from 0", first)?;
    }
    Ok(())
}

// A line with a name, text or bytes, and a number.
pub fn say(rt: &impl Print, name: impl AsSlice<u8> + Drop, n: usize) -> io::Result<()> {
    rt.write_all(name.as_slice())?;
    println!(rt; ": {n}")
}

// A line for each count from one place on and before another: a name, the place and the count.
pub fn each(
    rt: &impl Print,
    name: impl AsSlice<u8> + Drop,
    counts: &[usize],
    from: usize,
    to: usize,
) -> io::Result<()> {
    for (i, n) in counts.iter().enumerate().take(to).skip(from) {
        rt.write_all(name.as_slice())?;
        println!(rt; "{i}: {n}")?;
    }
    Ok(())
}
