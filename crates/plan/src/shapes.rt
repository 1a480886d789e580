// What an instance's scheme has: whether there is one, its key's length, the shapes of its parts and its counts. Which scheme it is, is
// decided here: a further scheme is a further branch.
ghost use Rattle.std.specs.Prelude.{◌≡◌, ℕ, ◌≤◌, ◌<◌};
ghost use Rattle.stopping.specs.Places.{shape_at};
ghost use Rattle.scheme.specs.Scheme.{all_shapes, parts_of};
ghost use Rattle.instances.specs.Schemes.{known, is_spook, scheme_of};
ghost use Rattle.instances.specs.Limits.{most_calls};

use crate::kinds::{count_of, kind_of, rounds_of};
use crate::numbers::{encrypt_rounds, verify_rounds};
use crate::outlines::Outline;
use crate::walks;

// The instance whose scheme is Spook; 1 to 4 are ISAP's. An instance is a number and no enum: C and records hand over any, and `known`,
// `scheme_of` and `plan_of` speak of every number.
pub const SPOOK: u32 = 5;

// Which of the two schemes an instance has.
#[tactic(auto, unfolding(instances::specs::Schemes::is_spook))]
pub fn is_spook(instance: u32) -> bool
    ensures { result ≡ is_spook instance }
{
    instance == SPOOK
}

#[tactic(auto, unfolding(instances::specs::Schemes::known))]
pub fn is_known(instance: u32) -> bool
    ensures { result ≡ known instance }
{
    matches!(instance, 1..=5)
}

// Bytes of a key.
#[tactic(auto, using(instances::specs::Schemes::key_bytes_lem))]
pub fn key_bytes(instance: u32) -> usize
    ensures { result ≡ (scheme_of instance).key_bytes }
{
    16
}

// How many parts a direction has.
pub fn parts_of(instance: u32, sealing: bool) -> u32
    ensures { (result ≡ parts_of (scheme_of instance) sealing) × (result ≤ 255) }
{
    if is_spook(instance) {
        return walks::parts_of(sealing);
    }
    11
}

// How many rounds each call of a part has, by the part's place in the direction's order: a plain number with its bound here and in
// `Outline`, since parts are walked by number.
pub fn rounds_at(instance: u32, sealing: bool, part: u32) -> u32
    requires { part < parts_of (scheme_of instance) sealing }
    ensures { ((a m : ℕ) → result ≡ (shape_at (all_shapes (scheme_of instance) sealing a m) part).rounds) × (0 < result) × (result ≤ 20) }
{
    if is_spook(instance) {
        return 12;
    }
    let kind = kind_of(sealing, part);
    rounds_of(instance, kind)
}

impl Outline {
    // How many calls a part has. Compiled into the walk over the parts, it knows the kind of each.
    #[inline(always)]
    pub fn count_at(self, part: u32) -> u32
        requires { part < parts_of (scheme_of self.instance) self.sealing }
        ensures { (result ≡ (shape_at (all_shapes (scheme_of self.instance) self.sealing self.assoc self.text) part).count) × (result ≤ most_calls) }
    {
        if is_spook(self.instance) {
            return walks::count_of(self, part);
        }
        let kind = kind_of(self.sealing, part);
        count_of(self, kind)
    }

    // The rounds up to the decision, and after it.
    pub fn front_rounds(self) -> u32
        ensures { result ≡ (scheme_of self.instance).front_count self.sealing self.assoc self.text }
    {
        if is_spook(self.instance) {
            return walks::verify_rounds(self);
        }
        let v = verify_rounds(self);
        if self.sealing {
            encrypt_rounds(self.instance, self.text) + v
        } else {
            v
        }
    }

    pub fn back_rounds(self) -> u32
        ensures { result ≡ (scheme_of self.instance).back_count self.sealing self.assoc self.text }
    {
        if self.sealing {
            return 0;
        }
        if is_spook(self.instance) {
            return walks::second_rounds(self);
        }
        encrypt_rounds(self.instance, self.text)
    }
}
