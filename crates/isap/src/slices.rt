// A slice: a record, what belongs to it, and a budget of rounds.
ghost use Rattle.std.specs.Prelude.{◌≡◌};
ghost use Rattle.instances.specs.Schemes.{scheme_of};
ghost use Rattle.isap.specs.Refusals.{number_in};
ghost use Rattle.isap.specs.Slices.{number_of, lent_of, refusal_of};
ghost use Rattle.isap.specs.Statements.{Slices};

use crate::counts::Counts;
use crate::further::further;
use crate::refusals::Refusal;
use crate::{Job, Sliced};

// Document 01's number of a job that has not ended.
pub const UNDER_WAY: u32 = 100;

// Document 01's number of an ending.
#[tactic(auto, unfolding(crate::specs::Slices::number_of))]
fn number_of(ending: u32) -> u32
    ensures { result ≡ number_of ending }
{
    match ending {
        0 => UNDER_WAY,
        1 => 0,
        _ => 8,
    }
}

// The lent lengths are the record's.
#[tactic(auto, unfolding(crate::specs::Slices::lent_of, bits::specs::Every::passes))]
fn lent(job: Job, assoc: &[u8], text: &[u8], out: &[u8]) -> bool
    ensures { result ≡ lent_of job assoc.now text.now out.now }
{
    assoc.len() == job.assoc as usize
        && text.len() == job.text as usize
        && out.len() == job.text as usize
}

// 9, 10 or 11, in this order.
#[tactic(auto, unfolding(crate::specs::Slices::refusal_of))]
#[inline(always)]
fn check(job: Job, assoc: &[u8], text: &[u8], out: &[u8]) -> Result<(), Refusal>
    ensures { number_in result ≡ refusal_of scheme_of job assoc.now text.now out.now }
{
    if !job.stands() {
        return Err(Refusal::RecordCannotStand);
    }
    if job.ending != 0 {
        return Err(Refusal::JobHasEnded);
    }
    if !lent(job, assoc, text, out) {
        return Err(Refusal::LentLengths);
    }
    Ok(())
}

// Does the budget's rounds, or as many as the job still has.
pub fn slice(job: Job, assoc: &[u8], text: &[u8], out: &mut [u8], budget: u32) -> Sliced
    ensures { Slices scheme_of job assoc.now text.now out.old budget result out.new }
{
    if let Err(refusal) = check(job, assoc, text, &out[..]) {
        return Sliced {
            number: refusal.number(),
            rounds: 0,
            job,
        };
    }
    let counts = Counts::of(job);
    let mut current = job;
    let mut left = budget;
    // A turn does as many rounds as go in one go, and so can take more than one off the budget: no range counts the turns.
    while 0 < left && current.ending == 0 {
        let next = further(current, assoc, text, out, left, counts);
        left -= next.done - current.done;
        current = next;
    }
    Sliced {
        number: number_of(current.ending),
        rounds: budget - left,
        job: current,
    }
}
