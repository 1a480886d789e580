// Runs the cases of its input, which the second program (tests/second/src/parcels) wrote, over the calls for parcels, and compares all
// that they answer and leave: numbers, rounds, counters, fields, parts of the buffer, outputs. It prints how many cases of each kind there
// were and how many differ, and names the first that do.
#![tactic(auto)]

mod building;
mod kinds;
mod received;
mod room;

use case_file::running::run;
use case_file::tally::Report;
use case_file::verdict::Verdict;
use kinds::Kind;
use std::io;
use std::io::{Read, Write};

fn case_of(input: &mut impl Read, kind: Kind) -> io::Result<Verdict> {
    match kind {
        Kind::Built | Kind::NotBuilt => building::case(input),
        _ => received::case(input),
    }
}

fn main(rt: HostRuntime) -> io::Result<()> {
    let mut input = rt.stdin();
    let mut to = rt.stdout();
    let tally = run(&mut input, &mut to, case_of)?;
    let kinds = &Kind::ALL;
    write!(to, "{}", Report { tally, kinds })
}
