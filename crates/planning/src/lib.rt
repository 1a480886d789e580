// The planning program: reads five-byte requests (instance, the length of the associated data and of the text, each two bytes, the
// first most significant) until its input ends, and prints a line for each. What a line says is proved (`lines`); this part only reads
// and writes. It is a library so that several programs can be run on inputs of their own.
#![tactic(auto)]

mod lines;

use console::read_full;
use std::io;
use std::io::{Read, Write};

// Answers one request, and whether to go on: not where the input has ended, on a whole request or within one.
fn answer_one(input: &mut impl Read, to: &mut impl Write) -> io::Result<bool> {
    let mut request = [0u8; 5];
    let got = read_full(input, &mut request)?;
    if got == 0 {
        return Ok(false);
    }
    if got < 5 {
        writeln!(to, "cut short")?;
        return Ok(false);
    }
    let mut line = [0u8; 40];
    let n = lines::put_line(request, &mut line);
    to.write_all(&line[..n])?;
    Ok(true)
}

// A proved loop has to end, and nothing says that an input does: it has more turns than any run uses up.
fn answer_all(input: &mut impl Read, to: &mut impl Write) -> io::Result<()> {
    for _ in 0..u64::MAX {
        if !answer_one(input, to)? {
            break;
        }
    }
    Ok(())
}

// The heading, and the answers.
pub fn run(input: &mut impl Read, to: &mut impl Write) -> io::Result<()> {
    writeln!(to, "instance assoc text verify total")?;
    answer_all(input, to)
}
