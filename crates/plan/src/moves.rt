// How a place moves on with the rounds of the call at which a job stands.
ghost use Rattle.std.specs.Prelude.{◌≡◌, ℕ, ◌+◌, ◌≤◌, ◌<◌};
ghost use Rattle.stopping.specs.Parts.{rounds_in};
ghost use Rattle.stopping.specs.PlaceLaws.{start_of};
ghost use Rattle.stopping.specs.Places.{place, place_of, shape_at};
ghost use Rattle.scheme.specs.Scheme.{all_shapes, parts_of};
ghost use Rattle.instances.specs.Schemes.{scheme_of};
ghost use Rattle.plan.specs.Planned.{placed, Standing};

use crate::outlines::Outline;
use crate::places::Place;
use crate::shapes::parts_of;

impl Outline {
    // The first place of the parts from `part` on: parts without calls are passed over.
    pub fn first_from(self, part: u32) -> Place
        requires { part ≤ parts_of (scheme_of self.instance) self.sealing }
        ensures { result ≡ placed (start_of (all_shapes (scheme_of self.instance) self.sealing self.assoc self.text) part) }
    {
        let parts = parts_of(self.instance, self.sealing);
        for j in part..parts {
            if 0 < self.count_at(j) {
                return Place::start_of(j);
            }
        }
        Place::start_of(parts)
    }

    // The place after `count` rounds more of the call at which `at` stands, which has `rounds`.
    pub fn moved(self, at: Place, rounds: u32, count: u32) -> Place
        requires { (Standing self.instance self.sealing self.assoc self.text at count) × (rounds ≡ (shape_at (all_shapes (scheme_of self.instance) self.sealing self.assoc self.text) at.part).rounds) }
        ensures { (n : ℕ) → n < rounds_in (all_shapes (scheme_of self.instance) self.sealing self.assoc self.text) → place_of (all_shapes (scheme_of self.instance) self.sealing self.assoc self.text) n ≡ place at.part at.call at.round → result ≡ placed (place_of (all_shapes (scheme_of self.instance) self.sealing self.assoc self.text) (n + count)) }
    {
        let part = at.part;
        let round = at.round + count;
        if round < rounds {
            return Place {
                part,
                call: at.call,
                round,
            };
        }
        let calls = self.count_at(part);
        let call = at.call + 1;
        if call < calls {
            return Place {
                part,
                call,
                round: 0,
            };
        }
        self.first_from(part + 1)
    }
}
