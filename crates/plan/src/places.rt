// The place of a job after n rounds, found by walking its parts.
ghost use Rattle.std.specs.Prelude.{◌≡◌};
ghost use Rattle.stopping.specs.Places.{place, place_of};
ghost use Rattle.scheme.specs.Scheme.{all_shapes};
ghost use Rattle.instances.specs.Schemes.{scheme_of};
ghost use Rattle.plan.specs.Planned.{placed};

use crate::outlines::Outline;
use crate::shapes::{SPOOK, is_spook, parts_of, rounds_at};

#[derive(Clone, Copy, PartialEq, Eq)]
pub struct Place {
    pub part: u32,
    pub call: u32,
    pub round: u32,
}

impl Place {
    // The first round of a part's first call.
    pub(crate) fn start_of(part: u32) -> Place
        ensures { result ≡ placed (place part 0 0) }
    {
        Place {
            part,
            call: 0,
            round: 0,
        }
    }
}

// The walk over the parts. It is compiled into each of its two calls, where the scheme is known and the loop is unrolled.
#[inline(always)]
fn walked(outline: Outline, n: u32) -> Place
    ensures { result ≡ placed (place_of (all_shapes (scheme_of outline.instance) outline.sealing outline.assoc outline.text) n) }
{
    let parts = parts_of(outline.instance, outline.sealing);
    let mut left = n;
    for part in 0..parts {
        let rounds = rounds_at(outline.instance, outline.sealing, part);
        let cells = outline.count_at(part) * rounds;
        if left < cells {
            return Place {
                part,
                call: left / rounds,
                round: left % rounds,
            };
        }
        left -= cells;
    }
    Place::start_of(parts)
}

impl Outline {
    // Where a job stands after n rounds; at its end, past the last part. The scheme is asked for before the walk: each of the two walks is
    // then compiled for one scheme, and does not ask again at every part.
    pub fn place_after(self, n: u32) -> Place
        ensures { result ≡ placed (place_of (all_shapes (scheme_of self.instance) self.sealing self.assoc self.text) n) }
    {
        if is_spook(self.instance) {
            let of_spook = Outline {
                instance: SPOOK,
                sealing: self.sealing,
                assoc: self.assoc,
                text: self.text,
            };
            return walked(of_spook, n);
        }
        walked(self, n)
    }
}
