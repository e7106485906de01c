// What a program reads of its input: as many bytes as there is room for, or all of them.
#![tactic(auto)]

ghost use Rattle.std.specs.Prelude.{◌≡◌, take, length, IfOk, IfSome};
ghost use Rattle.std.specs.Io.{ReadsAtMost};

use std::io;
use std::io::Read;

// Reads until there is no more room or the input ends, and answers how many bytes now stand at the front of the room: as many of the input's.
// Where a read fails, what came before it does not count.
pub fn read_full<R: Read>(input: &mut R, room: &mut [u8]) -> io::Result<usize>
    ensures within { ReadsAtMost result room.new }
    ensures front { IfOk result (λ n. IfSome (R.remaining input.old)
        (λ given. take n room.new ≡ take (length room.new) given)) }
{
    let mut done: usize = 0;
    // No `for`: each read says how far it came.
    while done < room.len() {
        let more = input.read(&mut room[done..])?;
        if more == 0 {
            return Ok(done);
        }
        done += more;
    }
    Ok(done)
}
