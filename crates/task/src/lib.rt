// A host task that keeps the record of one job in its own memory and serves the sampler after each slice of it.
#![tactic(auto)]

ghost use Rattle.std.specs.Prelude.{◌≡◌, ◌+◌, ◌-◌, ◌<◌, eqb};
ghost use Rattle.bits.specs.Pick.{pick};
ghost use Rattle.instances.specs.Schemes.{scheme_of};
ghost use Rattle.task.specs.Turns.{served_of, RunsTask};

use isap::{Answer, Job, UNDER_WAY};

// A turn is a slice of the job, and then the sampler.
#[derive(Clone, Copy)]
pub struct Turns {
    // that the job may still have
    pub left: u32,
    // how often the sampler was served
    pub served: u32,
    // the most rounds that it waited for
    pub waited: u32,
    // the number of the last slice, `UNDER_WAY` where there was none
    pub number: u32,
}

// What the task hands back: its turns, and the record after them.
#[derive(Clone, Copy)]
pub struct Kept {
    pub turns: Turns,
    pub job: Job,
}

// The turns that are left after a slice: none, if the job was refused or has ended.
fn left_after(left: u32, number: u32) -> u32
    requires { 0 < left }
    ensures { result ≡ pick (eqb number 100) (left - 1) 0 }
{
    if number != UNDER_WAY {
        return 0;
    }
    left - 1
}

// Serves the sampler after a slice.
#[tactic(auto, unfolding(crate::specs::Turns::served_of))]
fn served(turns: Turns, answer: Answer) -> Turns
    requires { (0 < turns.left) × (turns.served + 1 < 4294967296) }
    ensures { result ≡ served_of turns answer }
{
    Turns {
        left: left_after(turns.left, answer.number),
        served: turns.served + 1,
        waited: turns.waited.max(answer.rounds),
        number: answer.number,
    }
}

// Gives a job its turns, each with the same budget. The record is in `kept` from the first turn to the last. The turns left are handed back
// (`Turns`), and a slice can take all of them away: so the loop goes by them, and not by a range.
pub fn run(job: Job, assoc: &[u8], text: &[u8], out: &mut [u8], budget: u32, turns: u32) -> Kept
    ensures { RunsTask scheme_of job assoc.now text.now out.old budget turns result out.new }
{
    let mut kept = job;
    let mut seen = Turns {
        left: turns,
        served: 0,
        waited: 0,
        number: UNDER_WAY,
    };
    while 0 < seen.left {
        let answer = station::slice_kept(&mut kept, assoc, text, out, budget);
        seen = served(seen, answer);
    }
    Kept {
        turns: seen,
        job: kept,
    }
}
