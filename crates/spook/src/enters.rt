// What goes with the first round of a call: the state and the session bytes that it meets.
ghost use Rattle.std.specs.Prelude.{◌≡◌, ◌++◌, ◌*◌, ◌%◌, ◌<◌, length, take, replicate};
ghost use Rattle.bits.specs.Pick.{pick};
ghost use Rattle.bits.specs.Strings.{xor_at, block};
ghost use Rattle.scheme.specs.Machine.{first};
ghost use Rattle.s1p.specs.Paper.{iv, text_mark, last_data, last_text};
ghost use Rattle.s1p.specs.Spook.{spook};
ghost use Rattle.spook.specs.Kinds.{CanCall};
ghost use Rattle.spook.specs.Entering.{state_bytes, session_bytes};

use crate::kinds::Kind;
use strings::{absorb, front, put_at};

// Sixteen bytes, then zeros: what a call of Clyde has for its state.
#[tactic(auto, using(crate::proofs::Blocks::widened))]
fn widened(sixteen: [u8; 16]) -> [u8; 64]
    ensures { result ≡ sixteen ++ replicate 48 0 }
{
    let zeros = [0u8; 64];
    put_at(zeros, &sixteen, 0)
}

// The nonce between zeros, and the seed behind them.
#[tactic(auto, using(crate::proofs::Blocks::started))]
fn started(nonce: [u8; 16], state: [u8; 64]) -> [u8; 64]
    ensures { result ≡ iv nonce ++ take 16 state }
{
    let zeros = [0u8; 64];
    let s = put_at(zeros, &nonce, 16);
    put_at(s, &state[..16], 48)
}

// A number xored into one byte: a mark, or the padding's byte.
#[tactic(auto, unfolding(bits::specs::Strings::xor_at))]
fn marked(mut state: [u8; 64], i: usize, v: u8) -> [u8; 64]
    requires { i < 64 }
    ensures { result ≡ xor_at i v state }
{
    state[i] ^= v;
    state
}

// Block `call` of the data; a short one is marked, and padded behind its own bytes.
fn absorb_data(state: [u8; 64], assoc: &[u8], call: u32) -> [u8; 64]
    requires { call * 32 < length assoc.now }
    ensures { result ≡ last_data (block 32 call assoc.now) state }
{
    let at = call as usize * 32;
    let end = at + 32;
    if end <= assoc.len() {
        return absorb(state, &assoc[at..end]);
    }
    let s = absorb(marked(state, 32, 2), &assoc[at..]);
    marked(s, assoc.len() - at, 1)
}

// Block `call` of the ciphertext in place of the state's first bytes; a short one is marked, and padded, before it.
fn take_cipher(state: [u8; 64], cipher: &[u8], call: u32) -> [u8; 64]
    requires { call * 32 < length cipher.now }
    ensures { result ≡ last_text (block 32 call cipher.now) state }
{
    let at = call as usize * 32;
    let end = at + 32;
    if end <= cipher.len() {
        return put_at(state, &cipher[at..end], 0);
    }
    let s = marked(marked(state, 32, 2), cipher.len() - at, 1);
    put_at(s, &cipher[at..], 0)
}

// The text's mark, before its first block.
#[tactic(auto, unfolding(s1p::specs::Paper::text_mark))]
fn text_mark(state: [u8; 64], call: u32) -> [u8; 64]
    ensures { result ≡ first call text_mark state }
{
    if call != 0 {
        return state;
    }
    marked(state, 32, 1)
}

// The ciphertext is the output of a sealing and the text of an opening.
fn enter_text(sealing: bool, state: [u8; 64], text: &[u8], out: &[u8], call: u32) -> [u8; 64]
    requires { (call * 32 < length text.now) × (length out.now ≡ length text.now) }
    ensures { result ≡ last_text (block 32 call (pick sealing out.now text.now)) (first call text_mark state) }
{
    let s = text_mark(state, call);
    if sealing {
        return take_cipher(s, out, call);
    }
    take_cipher(s, text, call)
}

// The closing call begins with the state's own bytes, or with the tag that was received.
fn closing(sealing: bool, state: [u8; 64], tag: [u8; 16]) -> [u8; 64]
    ensures { result ≡ take 16 (pick sealing state tag) ++ replicate 48 0 }
{
    if sealing {
        return widened(front(state));
    }
    widened(tag)
}

// The state, by the part's kind.
#[tactic(auto, using(s1p::proofs::Laws::put_all, crate::proofs::Blocks::started_long, crate::proofs::Blocks::closed_long, crate::specs::Kinds::in_data, crate::specs::Kinds::in_text), unfolding(crate::specs::Entering::state_bytes))]
pub fn enter_state(
    sealing: bool,
    part: u32,
    call: u32,
    nonce: [u8; 16],
    tag: [u8; 16],
    state: [u8; 64],
    assoc: &[u8],
    text: &[u8],
    out: &[u8],
) -> [u8; 64]
    requires { CanCall spook sealing part call assoc.now text.now out.now }
    ensures { result ≡ state_bytes sealing nonce tag assoc.now text.now (part % 5) call state out.now }
{
    match Kind::of(part) {
        Kind::Seed => widened(nonce),
        Kind::Start => started(nonce, state),
        Kind::Data => absorb_data(state, assoc, call),
        Kind::Text => enter_text(sealing, state, text, out, call),
        Kind::Closing => closing(sealing, state, tag),
    }
}

// The session bytes: cleared with a seed, and Shadow's state from the closing call on.
#[tactic(auto, using(s1p::proofs::Laws::put_all), unfolding(crate::specs::Entering::session_bytes))]
pub fn enter_session(part: u32, state: [u8; 64], session: [u8; 64]) -> [u8; 64]
    ensures { result ≡ session_bytes (part % 5) state session }
{
    match Kind::of(part) {
        Kind::Seed => [0u8; 64],
        Kind::Closing => state,
        Kind::Start | Kind::Data | Kind::Text => session,
    }
}
