// Some rounds of the call at which a record stands. Associated data, text and output are passed as the host lends them, as three slices:
// a struct of them would be made only to be taken apart again, at each call into crate calls.
ghost use Rattle.std.specs.Prelude.{◌≡◌, ◌+◌, ◌≤◌};
ghost use Rattle.instances.specs.Schemes.{scheme_of};
ghost use Rattle.isap.specs.Turns.{Here, Ready, Meets, Left, Ends};
ghost use Rattle.isap.specs.Sofar.{Timed, Turned};
ghost use Rattle.isap.specs.Rows.{rounds_at};

use crate::Job;
use crate::counts::Counts;
use strings::Two;

// The state and the session bytes that the next round meets: a call's first round comes after what enters the call.
#[inline(always)]
fn entered(job: Job, assoc: &[u8], text: &[u8], out: &[u8]) -> Two
    requires { Here scheme_of job assoc.now text.now out.now }
    ensures { Meets scheme_of job assoc.now text.now out.now result.state result.session }
{
    let at = job.place;
    // Taken out as variables: an array field set straight into a literal is not covered by the check.
    let state = job.state;
    let session = job.session;
    if at.round != 0 {
        return Two { state, session };
    }
    calls::enter(
        job.instance,
        job.sealing(),
        at,
        job.key,
        job.nonce,
        job.tag,
        state,
        session,
        assoc,
        text,
        out,
    )
}

// What is left behind, if the call's last round is done: in the output, and as the tag that is handed back.
#[inline(always)]
fn left_behind(
    job: Job,
    last: bool,
    state: [u8; 64],
    assoc: &[u8],
    text: &[u8],
    out: &mut [u8],
) -> [u8; 16]
    requires { Here scheme_of job assoc.now text.now out.old }
    ensures { Left scheme_of job last assoc.now text.now out.old state out.new result }
{
    if !last {
        return job.tag;
    }
    calls::leave(
        job.instance,
        job.sealing(),
        job.place,
        job.tag,
        state,
        assoc,
        text,
        out,
    )
}

// The ending that round `done` gives.
#[inline(always)]
fn ending_after(
    job: Job,
    done: u32,
    counts: Counts,
    tag: [u8; 16],
    state: [u8; 64],
    session: [u8; 64],
) -> u32
    ensures { Ends scheme_of job done counts.front counts.back tag state session result }
{
    if done == counts.front && !calls::decide(job.instance, job.sealing(), tag, state, session) {
        return 2;
    }
    u32::from(done == counts.total())
}

// The record after `count` rounds more, all of one call, which has `rounds`.
#[inline(always)]
pub fn turn(
    job: Job,
    assoc: &[u8],
    text: &[u8],
    out: &mut [u8],
    rounds: u32,
    count: u32,
    counts: Counts,
) -> Job
    requires { (Ready scheme_of job assoc.now text.now out.old count) × (Timed scheme_of job counts.front counts.back) × (rounds ≡ rounds_at scheme_of job) }
    ensures { Turned scheme_of job assoc.now text.now out.old count result out.new }
{
    let sealing = job.sealing();
    let at = job.place;
    let met = entered(job, assoc, text, &out[..]);
    let session = met.session;
    let state = calls::rounds(
        job.instance,
        sealing,
        at,
        job.key,
        met.state,
        session,
        count,
    );
    let last = at.round + count == rounds;
    let tag = left_behind(job, last, state, assoc, text, out);
    let done = job.done + count;
    let ending = ending_after(job, done, counts, tag, state, session);
    let place = job.outline().moved(at, rounds, count);
    Job {
        tag,
        done,
        place,
        ending,
        state,
        session,
        ..job
    }
}
