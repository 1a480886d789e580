// Runs every case of a file of answers, known ones or the second program's: sealing, opening, and opening with a wrong tag, each by a whole
// call and in slices of changing budgets. Prints a line for each difference, and a summary. It is a library so that there can be a program
// for each file.
#![tactic(auto)]

mod lines;
mod reading;
mod saying;
mod slices;
mod trials;
mod whole;

use lines::Heading;
use reading::Case;
use std::io;
use std::io::{Read, Write};
use trials::{Given, Kind, Trial};

// Of how many cases a job was right, by a whole call and in slices.
#[derive(Clone, Copy, Default)]
struct RightIn {
    whole: u32,
    sliced: u32,
}

// How many cases were read, of how many each job was right, and how many cases differ somewhere or cannot be read.
#[derive(Clone, Copy, Default)]
struct Tally {
    read: u32,
    sealings: RightIn,
    openings: RightIn,
    refusals: RightIn,
    differ: u32,
}

fn count_if(n: &mut u32, counts: bool) {
    *n = n.wrapping_add(u32::from(counts));
}

// Names what a job gave otherwise than it should have, run the way named; hands back whether it was right.
fn right(to: &mut impl Write, t: &Trial, given: &Given, way: &str) -> io::Result<bool> {
    let Trial {
        kind,
        case,
        wanted,
        ..
    } = t;
    let count = case.count;
    let parts = [
        ("the number", given.number == wanted.number),
        ("the sum of rounds", given.rounds == wanted.rounds),
        ("what a slice says", given.steady),
        ("the tag", given.tag == wanted.tag),
        ("the output", given.out == wanted.out),
    ];
    let mut all = true;
    for (part, right) in parts {
        if !right {
            writeln!(to, "Count {count}: {kind}{way}: {part} differs")?;
            all = false;
        }
    }
    Ok(all)
}

// Runs a job of a case, counts the ways in which it was right, and hands back whether it was in both.
fn try_job(
    to: &mut impl Write,
    kind: Kind,
    instance: u32,
    case: &Case,
    n: &mut RightIn,
) -> io::Result<bool> {
    let t = Trial::new(kind, instance, case);
    let whole = right(to, &t, &whole::given(&t), "")?;
    let sliced = right(to, &t, &slices::given(&t), " in slices")?;
    count_if(&mut n.whole, whole);
    count_if(&mut n.sliced, sliced);
    Ok(whole && sliced)
}

fn try_case(to: &mut impl Write, instance: u32, case: &Case, n: &mut Tally) -> io::Result<()> {
    let s = try_job(to, Kind::Sealing, instance, case, &mut n.sealings)?;
    let o = try_job(to, Kind::Opening, instance, case, &mut n.openings)?;
    let r = try_job(to, Kind::Refusal, instance, case, &mut n.refusals)?;
    count_if(&mut n.read, true);
    count_if(&mut n.differ, !(s && o && r));
    Ok(())
}

// The case with that count, if there is one: whether to go on. Reading ends where a line is not as it should be.
fn turn(
    input: &mut impl Read,
    to: &mut impl Write,
    instance: u32,
    count: u32,
    n: &mut Tally,
) -> io::Result<bool> {
    let case = match lines::read_heading(input, count)? {
        Heading::End => return Ok(false),
        Heading::Right => reading::read_case(input, to, count)?,
        Heading::Wrong => {
            saying::line(to, count, "Count", false)?;
            None
        }
    };
    let Some(case) = case else {
        count_if(&mut n.differ, true);
        return Ok(false);
    };
    try_case(to, instance, &case, n)?;
    Ok(true)
}

// A proved loop has to end, and nothing says that an input does: it counts up to a number that no file reaches.
fn try_all(input: &mut impl Read, to: &mut impl Write, instance: u32) -> io::Result<Tally> {
    let mut n = Tally::default();
    for count in 1..1000001 {
        if !turn(input, to, instance, count, &mut n)? {
            break;
        }
    }
    Ok(n)
}

// The cases of an instance, from the input.
pub fn run(input: &mut impl Read, to: &mut impl Write, instance: u32) -> io::Result<()> {
    let n = try_all(input, to, instance)?;
    writeln!(to, "instance {instance}")?;
    writeln!(to, "cases read {}", n.read)?;
    writeln!(to, "sealings right {}", n.sealings.whole)?;
    writeln!(to, "openings right {}", n.openings.whole)?;
    writeln!(to, "wrong tags refused {}", n.refusals.whole)?;
    writeln!(to, "sealings in slices right {}", n.sealings.sliced)?;
    writeln!(to, "openings in slices right {}", n.openings.sliced)?;
    writeln!(to, "wrong tags in slices refused {}", n.refusals.sliced)?;
    writeln!(to, "cases that differ or cannot be read {}", n.differ)
}
