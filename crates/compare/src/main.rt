// Runs the cases of its input, which the second program (tests/second/src/cases) wrote, over the library's calls, and compares all that
// they answer and leave: numbers, rounds, outputs, tags, whole records. It prints how many cases of each kind there were and how many
// differ, and names the first that do.
#![tactic(auto)]

mod beginning;
mod direction;
mod jobs;
mod kinds;
mod messages;
mod outcome;
mod records;
mod refused;
mod room;
mod shown;

use case_file::running::run;
use case_file::tally::Report;
use kinds::Kind;
use outcome::Outcome;
use std::io;
use std::io::{Read, Write};

fn case_of(input: &mut impl Read, kind: Kind) -> io::Result<Outcome> {
    match kind {
        Kind::Message => Ok(Outcome::from(messages::case(input)?)),
        Kind::WholeRefused => Ok(Outcome::from(refused::case(input)?)),
        Kind::BeginningRefused => beginning::case(input, false),
        Kind::Sealing | Kind::Opening | Kind::WrongTag => beginning::case(input, true),
        _ => jobs::forged(input),
    }
}

fn main(rt: HostRuntime) -> io::Result<()> {
    let mut input = rt.stdin();
    let mut to = rt.stdout();
    let mut slices = 0u32;
    let mut tally = run(&mut input, &mut to, |input, kind| {
        let outcome = case_of(input, kind)?;
        slices = slices.wrapping_add(outcome.slices);
        Ok(outcome.verdict)
    })?;
    tally.more(Kind::Slices, slices);
    let kinds = &Kind::ALL;
    write!(to, "{}", Report { tally, kinds })
}
