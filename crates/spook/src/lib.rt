// Spook's calls on the bytes of a job: what goes with the first round of a call, its rounds, what goes with its last, several whole calls
// in one go, and the decision. Parts are numbered in the direction's order: seed, start, data, text and closing call, then an opening's
// second walk. Internal: the library above calls it, and meets each `requires`.
// No branch and no index depends on key, nonce, state, session or text bytes. A call's values are handed over one by one: what is put
// together before it is known that a job is Spook's costs small jobs of ISAP (docs/DECISIONS.md, 'Spook's code').
#![tactic(auto)]

mod enters;
mod in_words;
mod kinds;
mod leaves;
mod turns;

ghost use Rattle.std.specs.Prelude.{◌≡◌, false, List, ℕ};
ghost use Rattle.scheme.specs.Machine.{given, machine};
ghost use Rattle.scheme.specs.Calls.{Rest, Enters, Turns, Leaves, Goes, Decides};
ghost use Rattle.s1p.specs.Spook.{spook, spook_scheme};
ghost use Rattle.spook.specs.Kinds.{CanCall};
ghost use Rattle.spook.specs.Going.{many, CanGo};

use kinds::Kind;
use shadow::Bundles;
use strings::Two;

// The state and the session bytes that the first round of a call meets. The two that were are lent: by value they would be copied once more.
#[tactic(auto, using(crate::specs::Entering::entered))]
pub fn enter(
    sealing: bool,
    part: u32,
    call: u32,
    nonce: [u8; 16],
    tag: [u8; 16],
    two: &Two,
    assoc: &[u8],
    text: &[u8],
    out: &[u8],
) -> Two
    requires { CanCall spook sealing part call assoc.now text.now out.now }
    ensures { (key : List ℕ) → Enters spook_scheme (given sealing key nonce assoc.now text.now) part call (machine two.now.state two.now.session out.now tag) result.state result.session }
{
    let state = enters::enter_state(sealing, part, call, nonce, tag, two.state, assoc, text, out);
    let session = enters::enter_session(part, two.state, two.session);
    Two { state, session }
}

// The state after `count` rounds of a call from round `from` on.
#[tactic(auto, using(crate::specs::Turning::turned))]
pub fn rounds(
    sealing: bool,
    part: u32,
    key: [u8; 16],
    state: [u8; 64],
    session: [u8; 64],
    from: u32,
    count: u32,
) -> [u8; 64]
    requires { Rest spook_scheme sealing part from count }
    ensures { Turns spook_scheme sealing key part from count state session result }
{
    turns::turn(sealing, part, key, state, session, from, count)
}

// What the last round of a call leaves: in the output, and as the tag that is handed back.
#[tactic(auto, using(crate::specs::Leaving::left))]
pub fn leave(
    sealing: bool,
    part: u32,
    call: u32,
    tag: [u8; 16],
    state: [u8; 64],
    assoc: &[u8],
    text: &[u8],
    out: &mut [u8],
) -> [u8; 16]
    requires { CanCall spook sealing part call assoc.now text.now out.old }
    ensures { Leaves spook_scheme sealing part call assoc.now text.now state out.old tag out.new result }
{
    leaves::leave_out(out, text, assoc, sealing, part, call, state);
    leaves::leave_tag(sealing, part, state, tag)
}

// What an opening's decision says: whether the required value is there. All sixteen bytes are read, whatever they are.
#[tactic(auto, using(crate::specs::Turning::decided))]
pub fn decide(state: [u8; 64], session: [u8; 64]) -> bool
    ensures { (tag : List ℕ) → Decides spook_scheme false state session tag result }
{
    strings::same_front(strings::front(state), session)
}

// Whether several calls of a part go in one go: those of the data and of the text do.
#[tactic(auto, unfolding(crate::specs::Going::many))]
pub fn has_row(part: u32) -> bool
    ensures { result ≡ many part }
{
    matches!(Kind::of(part), Kind::Data | Kind::Text)
}

// The state after `calls` calls of such a part from `call` on, none of them its first or its last.
pub fn go(
    sealing: bool,
    part: u32,
    call: u32,
    calls: u32,
    state: [u8; 64],
    assoc: &[u8],
    text: &[u8],
    out: &mut [u8],
) -> [u8; 64]
    requires { CanGo spook sealing part call calls assoc.now text.now out.old }
    ensures { (nonce session : List ℕ) → Goes spook_scheme sealing part call calls nonce assoc.now text.now state session out.old result out.new }
{
    match Kind::of(part) {
        Kind::Data => engine::blocks::<Bundles>(state, assoc, call as usize, calls as usize, 0, 12),
        _ => {
            let writes = leaves::writes_in(sealing, part);
            in_words::text_row(out, text, sealing, writes, state, call, calls)
        }
    }
}
