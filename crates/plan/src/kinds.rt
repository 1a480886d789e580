// ISAP's parts by their kinds, in a sealing's order: the first four are encryption's, the others the MAC's.
ghost use Rattle.std.specs.Prelude.{◌≡◌, ℕ, ◌/◌, ◌≤◌, ◌<◌};
ghost use Rattle.mode.specs.Instances.{params_of};
ghost use Rattle.instances.specs.Limits.{most_text, most_calls};
ghost use Rattle.plan.specs.Kinds.{kind_of, shape_of, encryption_calls, mac_calls};
ghost use Rattle.plan.specs.KindNumbers.{kind_number};

use crate::numbers::{blocks_of, numbers_of};
use crate::outlines::Outline;

// The kinds have the names of the parts: encryption's re-keying by the nonce's bits, the text, the MAC's strings, its re-keying by the bits
// of what it has so far, and its last call.
#[derive(Clone, Copy, PartialEq, Eq)]
pub enum Kind {
    KeyStart,
    KeyBits,
    KeyEnd,
    Texts,
    MacStart,
    Assocs,
    Ciphers,
    MacKeyStart,
    MacKeyBits,
    MacKeyEnd,
    MacEnd,
}

// The kind at a place in a sealing's order.
fn kind_at(place: u32) -> Kind
    requires { place < 11 }
    ensures { kind_number result ≡ place }
{
    match place {
        0 => Kind::KeyStart,
        1 => Kind::KeyBits,
        2 => Kind::KeyEnd,
        3 => Kind::Texts,
        4 => Kind::MacStart,
        5 => Kind::Assocs,
        6 => Kind::Ciphers,
        7 => Kind::MacKeyStart,
        8 => Kind::MacKeyBits,
        9 => Kind::MacKeyEnd,
        _ => Kind::MacEnd,
    }
}

// A part's kind, from its place in the direction's order: an opening's starts with the MAC.
#[tactic(auto, unfolding(crate::specs::Kinds::kind_of))]
pub fn kind_of(sealing: bool, part: u32) -> Kind
    requires { part < 11 }
    ensures { kind_number result ≡ kind_of sealing part }
{
    let place = if sealing { part } else { (part + 4) % 11 };
    kind_at(place)
}

#[tactic(auto, unfolding(crate::specs::Kinds::encryption_calls))]
fn encryption_calls(outline: Outline, kind: Kind) -> u32
    ensures { (result ≡ encryption_calls (params_of outline.instance) outline.text (kind_number kind)) × (result ≤ most_text / 8) }
{
    match kind {
        Kind::KeyBits => 127,
        Kind::Texts => blocks_of(outline.instance, outline.text),
        _ => 1,
    }
}

#[tactic(auto, unfolding(crate::specs::Kinds::mac_calls))]
fn mac_calls(outline: Outline, kind: Kind) -> u32
    ensures { (result ≡ mac_calls (params_of outline.instance) outline.assoc outline.text (kind_number kind)) × (result ≤ most_calls) }
{
    let q = numbers_of(outline.instance);
    match kind {
        Kind::Assocs => outline.assoc / q.b + 1,
        Kind::Ciphers => outline.text / q.b + 1,
        Kind::MacKeyBits => 127,
        _ => 1,
    }
}

// How many calls a part has.
#[tactic(auto, unfolding(crate::specs::Kinds::shape_of, crate::specs::Kinds::encryption_calls, crate::specs::Kinds::mac_calls, stopping::specs::Places::shape_at, mode::specs::Counts::enc_shapes, mode::specs::Counts::mac_shapes))]
pub fn count_of(outline: Outline, kind: Kind) -> u32
    ensures { (result ≡ (shape_of (params_of outline.instance) outline.assoc outline.text (kind_number kind)).count) × (result ≤ most_calls) }
{
    match kind {
        Kind::KeyStart | Kind::KeyBits | Kind::KeyEnd | Kind::Texts => {
            encryption_calls(outline, kind)
        }
        _ => mac_calls(outline, kind),
    }
}

// How many rounds each of its calls has.
pub fn rounds_of(instance: u32, kind: Kind) -> u32
    ensures { ((a m : ℕ) → result ≡ (shape_of (params_of instance) a m (kind_number kind)).rounds) × (0 < result) × (result ≤ 20) }
{
    let q = numbers_of(instance);
    match kind {
        Kind::KeyBits | Kind::MacKeyBits => q.sb,
        Kind::Texts => q.se,
        Kind::KeyStart | Kind::KeyEnd | Kind::MacKeyStart | Kind::MacKeyEnd => q.sk,
        Kind::MacStart | Kind::Assocs | Kind::Ciphers | Kind::MacEnd => q.sh,
    }
}
