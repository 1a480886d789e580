// The call at which a job stands, done by the code of its instance's scheme: what goes with its first round, some of its rounds, what goes
// with its last, several whole calls, and the decision. A further scheme is a further branch here.
// A job's bytes go to each call by name and not as a struct: each needs others of them, and the output is read by some and written by some.
// Where Spook's code has a call for a sealing and one for each walk of an opening (whose second begins with part 5), it is for the
// compiler: what is called in one place it takes into its caller, and there it takes the buffers of ISAP's calls apart into bytes along
// with Spook's.
// What takes a job's arrays by value is compiled into its caller, here and in isap: a call of its own would copy them onto the stack.
#![tactic(auto)]

mod of_isap;

ghost use Rattle.std.specs.Prelude.{◌≡◌, true, ◌<◌, length};
ghost use Rattle.scheme.specs.Machine.{given, machine};
ghost use Rattle.scheme.specs.Scheme.{parts_of};
ghost use Rattle.scheme.specs.Calls.{At, Rest, Inner, Enters, Turns, Leaves, Goes, Decides};
ghost use Rattle.instances.specs.Schemes.{scheme_of};
ghost use Rattle.calls.specs.Rowable.{rowable};

use plan::Place;
use strings::Two;

// The state and the session bytes that the first round of the call meets.
#[inline(always)]
pub fn enter(
    instance: u32,
    sealing: bool,
    at: Place,
    key: [u8; 16],
    nonce: [u8; 16],
    tag: [u8; 16],
    state: [u8; 64],
    session: [u8; 64],
    assoc: &[u8],
    text: &[u8],
    out: &[u8],
) -> Two
    requires { (At (scheme_of instance) sealing (length assoc.now) (length text.now) at.part at.call at.round) × (length out.now ≡ length text.now) }
    ensures { Enters (scheme_of instance) (given sealing key nonce assoc.now text.now) at.part at.call (machine state session out.now tag) result.state result.session }
{
    if plan::is_spook(instance) {
        let two = Two { state, session };
        if sealing {
            return spook::enter(true, at.part, at.call, nonce, tag, &two, assoc, text, out);
        }
        if at.part < 5 {
            return spook::enter(false, at.part, at.call, nonce, tag, &two, assoc, text, out);
        }
        return spook::enter(
            sealing, at.part, at.call, nonce, tag, &two, assoc, text, out,
        );
    }
    of_isap::enter(
        instance, sealing, at, key, nonce, state, session, assoc, text, out,
    )
}

// The state after `count` rounds more of the call.
#[inline(always)]
pub fn rounds(
    instance: u32,
    sealing: bool,
    at: Place,
    key: [u8; 16],
    state: [u8; 64],
    session: [u8; 64],
    count: u32,
) -> [u8; 64]
    requires { Rest (scheme_of instance) sealing at.part at.round count }
    ensures { Turns (scheme_of instance) sealing key at.part at.round count state session result }
{
    if plan::is_spook(instance) {
        if sealing {
            return spook::rounds(true, at.part, key, state, session, at.round, count);
        }
        if at.part < 5 {
            return spook::rounds(false, at.part, key, state, session, at.round, count);
        }
        return spook::rounds(sealing, at.part, key, state, session, at.round, count);
    }
    of_isap::rounds(instance, sealing, at, state, count)
}

// What the last round of the call leaves: in the output, and as the tag that is handed back.
#[inline(always)]
pub fn leave(
    instance: u32,
    sealing: bool,
    at: Place,
    tag: [u8; 16],
    state: [u8; 64],
    assoc: &[u8],
    text: &[u8],
    out: &mut [u8],
) -> [u8; 16]
    requires { (At (scheme_of instance) sealing (length assoc.now) (length text.now) at.part at.call at.round) × (length out.old ≡ length text.now) }
    ensures { Leaves (scheme_of instance) sealing at.part at.call assoc.now text.now state out.old tag out.new result }
{
    if plan::is_spook(instance) {
        return spook::leave(sealing, at.part, at.call, tag, state, assoc, text, out);
    }
    of_isap::leave(instance, sealing, at, tag, state, assoc, text, out)
}

// What the decision would say.
#[inline(always)]
pub fn decide(
    instance: u32,
    sealing: bool,
    tag: [u8; 16],
    state: [u8; 64],
    session: [u8; 64],
) -> bool
    ensures { Decides (scheme_of instance) sealing state session tag result }
{
    if sealing {
        return true;
    }
    if plan::is_spook(instance) {
        return spook::decide(state, session);
    }
    of_isap::decide(instance, tag, state)
}

// Whether several calls of a part go in one go.
pub fn has_row(instance: u32, sealing: bool, part: u32) -> bool
    requires { part < parts_of (scheme_of instance) sealing }
    ensures { result ≡ rowable instance sealing part }
{
    if plan::is_spook(instance) {
        return spook::has_row(part);
    }
    of_isap::has_row(instance, sealing, part)
}

// The state after so many whole calls of such a part, neither its first nor its last.
#[inline(always)]
pub fn go(
    instance: u32,
    sealing: bool,
    at: Place,
    nonce: [u8; 16],
    state: [u8; 64],
    session: [u8; 64],
    assoc: &[u8],
    text: &[u8],
    out: &mut [u8],
    calls: u32,
) -> [u8; 64]
    requires { (Inner (scheme_of instance) sealing (length assoc.now) (length text.now) at.part at.call calls) × (rowable instance sealing at.part ≡ true) × (length out.old ≡ length text.now) }
    ensures { Goes (scheme_of instance) sealing at.part at.call calls nonce assoc.now text.now state session out.old result out.new }
{
    if plan::is_spook(instance) {
        return spook::go(sealing, at.part, at.call, calls, state, assoc, text, out);
    }
    of_isap::go(
        instance, sealing, at, nonce, state, session, assoc, text, out, calls,
    )
}
