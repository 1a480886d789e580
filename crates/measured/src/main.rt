// The library's side of the benchmark (bench/run): does the requests of its input and prints a line for each, with a checksum of what the
// last repetition left. The baseline (bench/baseline) answers the same requests with the same lines; the file stdout holds what it says.
#![tactic(auto)]

mod jobs;
mod requests;

use console::read_full;
use requests::Request;
use std::io;
use std::io::{Read, Write};

// The request, and the checksum of its result.
fn say_line(to: &mut impl Write, r: Request, sum: u64) -> io::Result<()> {
    write!(to, "{} {} {} {} ", r.operation, r.instance, r.assoc, r.text)?;
    writeln!(to, "{} {} {sum:016x}", r.budget, r.repetitions)
}

// Does one request, and says whether to go on: not where the input has ended or asks for more than there is room for.
fn answer_one(input: &mut impl Read, to: &mut impl Write) -> io::Result<bool> {
    let mut bytes = [0u8; 14];
    if read_full(input, &mut bytes)? < 14 {
        return Ok(false);
    }
    let r = Request::from(bytes);
    if 256 < r.assoc || 4096 < r.text {
        return Ok(false);
    }
    say_line(to, r, jobs::done(r))?;
    Ok(true)
}

// A proved loop has to end, and nothing says that an input does: it has more turns than any run uses up.
fn main(rt: HostRuntime) -> io::Result<()> {
    let mut input = rt.stdin();
    let mut to = rt.stdout();
    for _ in 0..u64::MAX {
        if !answer_one(&mut input, &mut to)? {
            break;
        }
    }
    Ok(())
}
