// The rounds that a job takes, counted once and kept while it goes on.
ghost use Rattle.std.specs.Prelude.{◌≡◌, ◌+◌, ◌≤◌};
ghost use Rattle.instances.specs.Limits.{most_assoc, most_text, most_rounds};
ghost use Rattle.instances.specs.Schemes.{scheme_of};

use crate::Job;

// The rounds up to the decision, and after it.
#[derive(Clone, Copy)]
pub struct Counts {
    pub front: u32,
    pub back: u32,
    ghost fit: { front + back ≤ most_rounds },
}

impl Counts {
    ghost use Rattle.isap.specs.Sofar.{Timed};

    // By the instance, the direction and the lengths of a record. Compiled into its callers, it spares a slice a call and a copy of them.
    #[inline(always)]
    pub fn of(job: Job) -> Counts
        requires { (job.assoc ≤ most_assoc) × (job.text ≤ most_text) }
        ensures { Timed scheme_of job result.front result.back }
    {
        let outline = job.outline();
        Counts {
            front: outline.front_rounds(),
            back: outline.back_rounds(),
        }
    }

    pub fn total(self) -> u32
        ensures { result ≡ self.front + self.back }
    {
        self.front + self.back
    }
}
