// Whether a record can stand, from its instance, direction, lengths and rounds done.
ghost use Rattle.std.specs.Prelude.{◌≡◌, false, ◌+◌, ◌≤◌, eqb};
ghost use Rattle.bits.specs.Pick.{pick};
ghost use Rattle.instances.specs.Schemes.{scheme_of};
ghost use Rattle.instances.specs.Limits.{most_assoc, most_text};
ghost use Rattle.isap.specs.Records.{sealing_of};
ghost use Rattle.isap.specs.Slices.{place_right, limits_right, stands_of};

use crate::Job;
use crate::counts::Counts;
use plan::Outline;

// A record's direction.
pub(crate) const SEALING: u32 = 1;

pub(crate) const OPENING: u32 = 2;

// An ending that the rounds done allow.
fn ending_right(sealing: bool, done: u32, ending: u32, counts: Counts) -> bool
    ensures { result ≡ pick (eqb ending 2) (pick sealing false (eqb done counts.front)) (eqb ending (pick (eqb done (counts.front + counts.back)) 1 0)) }
{
    if ending == 2 {
        return !sealing && done == counts.front;
    }
    ending == u32::from(done == counts.total())
}

// The place is walked anew here, and only here: a slice moves it on.
#[inline(always)]
fn place_right(job: Job) -> bool
    requires { (job.assoc ≤ most_assoc) × (job.text ≤ most_text) }
    ensures { result ≡ place_right scheme_of job }
{
    let walked = job.outline().place_after(job.done);
    job.place == walked
}

// The instance, the direction and the lengths are within their limits.
#[tactic(auto, unfolding(crate::specs::Slices::limits_right, bits::specs::Every::passes))]
fn limits_right(instance: u32, direction: u32, a: u32, m: u32) -> bool
    ensures { result ≡ limits_right instance direction a m }
{
    plan::is_known(instance)
        && matches!(direction, SEALING..=OPENING)
        && a <= plan::MOST_ASSOC
        && m <= plan::MOST_TEXT
}

impl Job {
    // The direction, of two.
    #[inline(always)]
    pub(crate) fn sealing(self) -> bool
        ensures { result ≡ sealing_of self.direction }
    {
        self.direction == SEALING
    }

    // What is known of a job before its bytes are. The limits are clauses here and where it is asked for: a record is plain data, that of a job
    // that stands too.
    #[inline(always)]
    pub(crate) fn outline(self) -> Outline
        requires { (self.assoc ≤ most_assoc) × (self.text ≤ most_text) }
        ensures instance { result.instance ≡ self.instance }
        ensures sealing { result.sealing ≡ sealing_of self.direction }
        ensures assoc { result.assoc ≡ self.assoc }
        ensures text { result.text ≡ self.text }
    {
        Outline {
            instance: self.instance,
            sealing: self.sealing(),
            assoc: self.assoc,
            text: self.text,
        }
    }

    #[inline(always)]
    pub(crate) fn stands(self) -> bool
        ensures { result ≡ stands_of scheme_of self }
    {
        if !limits_right(self.instance, self.direction, self.assoc, self.text) {
            return false;
        }
        let counts = Counts::of(self);
        if counts.total() < self.done {
            return false;
        }
        ending_right(self.sealing(), self.done, self.ending, counts) && place_right(self)
    }
}
