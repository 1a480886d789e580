// The call at which a job of an ISAP instance stands: the part at a place is the one of its kind.
ghost use Rattle.std.specs.Prelude.{◌≡◌, true, false, List, ℕ, ◌+◌, ◌-◌, ◌≤◌, ◌<◌, eqb, length};
ghost use Rattle.scheme.specs.Machine.{given, machine};
ghost use Rattle.scheme.specs.Scheme.{parts_of};
ghost use Rattle.scheme.specs.Calls.{At, Rest, Inner, Enters, Turns, Leaves, Goes, Decides};
ghost use Rattle.mode.specs.Instances.{params_of};
ghost use Rattle.mode.specs.Isap.{isap_scheme};
ghost use Rattle.plan.specs.Kinds.{kind_of};
ghost use Rattle.plan.specs.KindNumbers.{kind_number};
ghost use Rattle.rows.specs.Gone.{many};

use plan::{Kind, Place};
use strings::Two;

// The state and the session bytes that the first round of the call meets.
#[inline(always)]
pub fn enter(
    instance: u32,
    sealing: bool,
    at: Place,
    key: [u8; 16],
    nonce: [u8; 16],
    state: [u8; 64],
    session: [u8; 64],
    assoc: &[u8],
    text: &[u8],
    out: &[u8],
) -> Two
    requires { (At (isap_scheme (params_of instance)) sealing (length assoc.now) (length text.now) at.part at.call at.round) × (length out.now ≡ length text.now) }
    ensures { (tag : List ℕ) → Enters (isap_scheme (params_of instance)) (given sealing key nonce assoc.now text.now) at.part at.call (machine state session out.now tag) result.state result.session }
{
    let kind = plan::kind_of(sealing, at.part);
    sponge::enter(
        instance, sealing, kind, at.call, key, nonce, state, session, assoc, text, out,
    )
}

// The permutation's index of round `round` of a call of `rounds`: the last ones are used.
fn index_of(instance: u32, rounds: u32, round: u32) -> u32
    requires { (rounds ≤ (params_of instance).most) × (round ≤ rounds) }
    ensures { result ≡ (params_of instance).most - rounds + round }
{
    plan::numbers_of(instance).most - rounds + round
}

// The state after `count` rounds more of the call.
#[inline(always)]
pub fn rounds(instance: u32, sealing: bool, at: Place, state: [u8; 64], count: u32) -> [u8; 64]
    requires { Rest (isap_scheme (params_of instance)) sealing at.part at.round count }
    ensures { (key session : List ℕ) → Turns (isap_scheme (params_of instance)) sealing key at.part at.round count state session result }
{
    let kind = plan::kind_of(sealing, at.part);
    let of_call = plan::rounds_of(instance, kind);
    let from = index_of(instance, of_call, at.round);
    sponge::permute(instance, state, from, count)
}

// Whether a call of the kind writes a block of the text.
fn writes(kind: Kind) -> bool
    ensures { result ≡ eqb (kind_number kind) 3 }
{
    kind == Kind::Texts
}

// Whether it is the MAC's last.
fn ends(kind: Kind) -> bool
    ensures { result ≡ eqb (kind_number kind) 10 }
{
    kind == Kind::MacEnd
}

// What the last round of the call leaves: in the output, and as the tag that is handed back.
#[inline(always)]
pub fn leave(
    instance: u32,
    sealing: bool,
    at: Place,
    tag: [u8; 16],
    state: [u8; 64],
    assoc: &[u8],
    text: &[u8],
    out: &mut [u8],
) -> [u8; 16]
    requires { (At (isap_scheme (params_of instance)) sealing (length assoc.now) (length text.now) at.part at.call at.round) × (length out.old ≡ length text.now) }
    ensures { Leaves (isap_scheme (params_of instance)) sealing at.part at.call assoc.now text.now state out.old tag out.new result }
{
    let kind = plan::kind_of(sealing, at.part);
    sponge::leave_out(out, text, instance, writes(kind), at.call, state);
    sponge::leave_tag(sealing, ends(kind), state, tag)
}

// What an opening's decision says.
#[inline(always)]
pub fn decide(instance: u32, tag: [u8; 16], state: [u8; 64]) -> bool
    ensures { (session : List ℕ) → Decides (isap_scheme (params_of instance)) false state session tag result }
{
    strings::same_front(tag, state)
}

// Whether several calls of a part go in one go.
pub fn has_row(instance: u32, sealing: bool, part: u32) -> bool
    requires { part < parts_of (isap_scheme (params_of instance)) sealing }
    ensures { result ≡ many (kind_of sealing part) }
{
    let kind = plan::kind_of(sealing, part);
    rows::has_many(kind)
}

// The state after so many whole calls of such a part, neither its first nor its last.
#[inline(always)]
pub fn go(
    instance: u32,
    sealing: bool,
    at: Place,
    nonce: [u8; 16],
    state: [u8; 64],
    session: [u8; 64],
    assoc: &[u8],
    text: &[u8],
    out: &mut [u8],
    calls: u32,
) -> [u8; 64]
    requires { (Inner (isap_scheme (params_of instance)) sealing (length assoc.now) (length text.now) at.part at.call calls) × (many (kind_of sealing at.part) ≡ true) × (length out.old ≡ length text.now) }
    ensures { Goes (isap_scheme (params_of instance)) sealing at.part at.call calls nonce assoc.now text.now state session out.old result out.new }
{
    let kind = plan::kind_of(sealing, at.part);
    rows::go(
        instance, sealing, kind, at.call, calls, nonce, state, session, assoc, text, out,
    )
}
