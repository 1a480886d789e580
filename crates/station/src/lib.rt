// For a station's host task, written in Rattle: a job whose record stays at its place in the task's memory.
#![tactic(auto)]

ghost use Rattle.instances.specs.Schemes.{scheme_of};
ghost use Rattle.station.specs.Statements.{KeepsSlice};

use isap::{Answer, Job};

// A slice of the job at its place: the record that `isap::slice` gives for it is stored there, on 9 to 11 the one that was there.
pub fn slice_kept(job: &mut Job, assoc: &[u8], text: &[u8], out: &mut [u8], budget: u32) -> Answer
    ensures { KeepsSlice scheme_of job.old assoc.now text.now out.old budget result job.new out.new }
{
    let sliced = isap::slice(*job, assoc, text, out, budget);
    *job = sliced.job;
    sliced.into()
}
