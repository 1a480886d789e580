// The line that a run prints.
use crate::beginnings::Beginning;
use crate::messages::Message;
use crate::records;
use crate::runs::{Left, Run};
use case_file::parts::first;
use std::io::Write;
use std::{fmt, io};
use task::Kept;

// A line without its output.
#[derive(Clone, Copy)]
pub struct Line<'a> {
    pub name: &'a str,
    pub beginning: Beginning,
    pub budget: u32,
    pub turns: u32,
    pub kept: Kept,
    // of the record that is kept
    pub sum: u64,
}

impl fmt::Display for Line<'_> {
    fn fmt<W: fmt::Write>(&self, f: &mut fmt::Formatter<W>) -> fmt::Result {
        let of = self.beginning;
        let turns = self.kept.turns;
        write!(f, "{} {} {} {} ", of.instance, self.name, of.assoc, of.text)?;
        write!(f, "{} {} ", self.budget, self.turns)?;
        write!(f, "{} {} {} ", turns.number, turns.served, turns.waited)?;
        write!(f, "{} {:016x}", self.kept.job.done, self.sum)
    }
}

// In hex, `-` for none.
#[derive(Clone, Copy)]
struct Output<'a>(&'a [u8]);

impl fmt::Display for Output<'_> {
    fn fmt<W: fmt::Write>(&self, f: &mut fmt::Formatter<W>) -> fmt::Result {
        if self.0.is_empty() {
            return f.write_str("-");
        }
        for byte in self.0 {
            write!(f, "{byte:02x}")?;
        }
        Ok(())
    }
}

// Does a run, and says its line.
pub fn said(to: &mut impl Write, name: &str, message: Message, run: Run) -> io::Result<Left> {
    let left = run.done(message);
    let line = Line {
        name,
        beginning: message.beginning,
        budget: run.budget,
        turns: run.turns,
        kept: left.kept,
        sum: records::sum(left.kept.job),
    };
    let out = Output(first(&left.out, run.out as usize));
    writeln!(to, "{line} {out}")?;
    Ok(left)
}
