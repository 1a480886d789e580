// A program's cases, run in the order of its input.
ghost use Rattle.std.specs.Prelude.{◌≤◌, IfOk};

use crate::reading;
use crate::tally::{Kind, NoCase, Tally};
use crate::verdict::Verdict;
use std::io;
use std::io::{Read, Write};

// Where a case begins stands its kind's number. The first cases that differ are named. A proved loop has to end: it has more turns than any
// file uses up.
pub fn run<K, R, W, C>(input: &mut R, to: &mut W, mut case: C) -> io::Result<Tally>
where
    K: Kind + TryFrom<u8, Error = NoCase>,
    R: Read,
    W: Write,
    C: FnMut(&mut R, K) -> io::Result<Verdict>,
    requires { C.IsAlwaysCallable case }
    ensures { IfOk result (λ tally. tally.differences ≤ tally.cases) }
{
    let mut tally = Tally::default();
    for _ in 0..u32::MAX {
        let Ok(kind) = K::try_from(reading::byte(input)?) else {
            break;
        };
        let verdict = case(input, kind)?;
        if let Some(difference) = tally.counted(kind, verdict) {
            writeln!(to, "case {} ({kind}), {difference}", tally.cases)?;
        }
    }
    Ok(tally)
}
