// The program: reads one frame file from standard input and prints its list, or the number by which it is refused.
// What cannot be read or written leaves a word on standard error, and the status is then 1.
#![tactic(auto)]

ghost use Rattle.std.specs.Prelude.{[], get_or, OnOk, IfErr, IfSome};
ghost use Rattle.std.specs.List.{concat};
ghost use Rattle.std.specs.Io.KnownBytes.{Appends, Keeps};
ghost use Rattle.lines.specs.Printed.{printed};
ghost use Rattle.program.specs.Program.{lines_of};
ghost use Rattle.corners.specs.Faults.{IsReading};

use input::read_full;
use params::Outcome;
use std::io::{Read, Write};
use std::process::ExitCode;
use std::{fmt, io};

// Which of the two failed, and why.
#[derive(Debug, Drop)]
enum Fault {
    Reading(io::Error),
    Writing(io::Error),
}

impl fmt::Display for Fault {
    fn fmt<W: fmt::Write>(&self, f: &mut fmt::Formatter<W>) -> fmt::Result {
        match self {
            Fault::Reading(e) => write!(f, "standard input: {e}"),
            Fault::Writing(e) => write!(f, "standard output: {e}"),
        }
    }
}

// What failed is said on standard error; a word that cannot be written there is left out.
fn main(rt: HostRuntime) -> ExitCode {
    match run(&mut rt.stdin(), &mut rt.stdout()) {
        Ok(()) => ExitCode::SUCCESS,
        Err(fault) => {
            let _ = eprintln!(rt; "corners: {fault}");
            ExitCode::FAILURE
        }
    }
}

// From the bytes of a file to those of its printed lines. Where a read fails, nothing is printed.
fn run<R: Read, W: Write>(from: &mut R, to: &mut W) -> Result<(), Fault>
    ensures whole { OnOk result (IfSome (R.remaining from.old)
        (λ file. Appends (W.contents to.old) (W.contents to.new) (concat (lines_of file)))) }
    ensures unread { IfErr result (λ fault. IsReading fault → Keeps (W.contents to.old) (W.contents to.new)) }
{
    let mut input = [0u8; 2325];
    let got = read_full(from, &mut input).map_err(Fault::Reading)?;
    let mut list = [0.0f32; 768];
    let outcome = program::answer(&input, got, &mut list);
    print(to, outcome, &list).map_err(Fault::Writing)
}

// Every line; or those before the first that cannot be written.
fn print<W: Write>(to: &mut W, outcome: Outcome, list: &[f32; 768]) -> io::Result<()>
    ensures { OnOk result (Appends (W.contents to.old) (W.contents to.new) (concat (printed 3 outcome list.now))) }
{
    let many = lines::lines(outcome, list);
    for i in 0..many {
        print_line(to, outcome, list, i)?;
    }
    Ok(())
}

fn print_line<W: Write>(to: &mut W, outcome: Outcome, list: &[f32; 768], i: usize) -> io::Result<()>
    ensures { OnOk result (Appends (W.contents to.old) (W.contents to.new) (get_or (printed 3 outcome list.now) i [])) }
{
    let line = lines::line_at(outcome, list, i);
    to.write_all(&line.bytes[..line.len])
}
