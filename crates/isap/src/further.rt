// How far a job can go in one go: some whole calls of a part that has many, or some rounds of one call.
// The rounds of a call are asked for once a step and handed on as a number: a type for them would carry the job.
ghost use Rattle.std.specs.Prelude.{◌≡◌, ◌*◌, ◌≤◌, ◌<◌};
ghost use Rattle.instances.specs.Schemes.{scheme_of};
ghost use Rattle.instances.specs.Limits.{most_assoc, most_text};
ghost use Rattle.isap.specs.Turns.{At, Rest};
ghost use Rattle.isap.specs.Sofar.{Fresh, Timed, Turned};
ghost use Rattle.isap.specs.Rows.{rounds_at, Further, Many, Rows, Went};

use crate::Job;
use crate::counts::Counts;
use crate::turns::turn;
use plan::Place;

// The whole calls, of `rounds` rounds each, that the budget allows, up to the last of the part, or 0 where a single call is next.
#[inline(always)]
fn row_calls(job: Job, rounds: u32, left: u32) -> u32
    requires { (At scheme_of job job.place) × (job.assoc ≤ most_assoc) × (job.text ≤ most_text) × (rounds ≡ rounds_at scheme_of job) }
    ensures { Rows scheme_of job left result }
{
    let at = job.place;
    if at.round != 0 || at.call == 0 || !calls::has_row(job.instance, job.sealing(), at.part) {
        return 0;
    }
    let last = job.outline().count_at(at.part) - 1;
    (last - at.call).min(left / rounds)
}

// The state after these calls.
#[inline(always)]
fn state_after(job: Job, assoc: &[u8], text: &[u8], out: &mut [u8], calls: u32) -> [u8; 64]
    requires { (Fresh scheme_of job assoc.now text.now out.old) × (Many scheme_of job calls) }
    ensures { Went scheme_of job calls assoc.now text.now out.old result out.new }
{
    calls::go(
        job.instance,
        job.sealing(),
        job.place,
        job.nonce,
        job.state,
        job.session,
        assoc,
        text,
        out,
        calls,
    )
}

// The record after these calls.
#[inline(always)]
fn row(job: Job, assoc: &[u8], text: &[u8], out: &mut [u8], rounds: u32, calls: u32) -> Job
    requires { (Fresh scheme_of job assoc.now text.now out.old) × (Many scheme_of job calls) × (rounds ≡ rounds_at scheme_of job) }
    ensures { Turned scheme_of job assoc.now text.now out.old (calls * rounds_at scheme_of job) result out.new }
{
    let state = state_after(job, assoc, text, out, calls);
    let at = job.place;
    Job {
        done: job.done + calls * rounds,
        place: Place {
            call: at.call + calls,
            round: 0,
            ..at
        },
        state,
        ..job
    }
}

// The rounds that can be done in one go: what is left of the call, or of the budget.
fn rounds_now(job: Job, rounds: u32, left: u32) -> u32
    requires { (At scheme_of job job.place) × (0 < left) × (rounds ≡ rounds_at scheme_of job) }
    ensures { (result ≤ left) × (0 < result) × (Rest scheme_of job result) }
{
    left.min(rounds - job.place.round)
}

// The record after as many rounds as go in one go, within the budget that is left.
#[inline(always)]
pub fn further(
    job: Job,
    assoc: &[u8],
    text: &[u8],
    out: &mut [u8],
    left: u32,
    counts: Counts,
) -> Job
    requires { (Fresh scheme_of job assoc.now text.now out.old) × (Timed scheme_of job counts.front counts.back) × (0 < left) }
    ensures { Further scheme_of job assoc.now text.now out.old left result out.new }
{
    let at = job.place;
    let rounds = plan::rounds_at(job.instance, job.sealing(), at.part);
    let calls = row_calls(job, rounds, left);
    if 0 < calls {
        return row(job, assoc, text, out, rounds, calls);
    }
    let count = rounds_now(job, rounds, left);
    turn(job, assoc, text, out, rounds, count, counts)
}
