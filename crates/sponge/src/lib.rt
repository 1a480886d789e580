// What goes with the first and the last round of a call, on the bytes of a job: the state that the sponge works on, the session bytes,
// the output and the tag. Internal: the library above calls it, and meets each `requires`.
// No branch and no index depends on key, nonce, state, session or text bytes.
#![tactic(auto)]

mod absorbing;

ghost use Rattle.std.specs.Prelude.{◌≡◌, ◌++◌, ◌+◌, ◌-◌, ◌*◌, ◌/◌, ◌≤◌, ◌<◌, length, take, drop, replicate};
ghost use Rattle.bits.specs.Pick.{pick};
ghost use Rattle.bits.specs.Put.{put, put_at};
ghost use Rattle.bits.specs.Run.{run};
ghost use Rattle.bits.specs.Xors.{xors};
ghost use Rattle.bits.specs.Strings.{xor_into, xor_at, block};
ghost use Rattle.mode.specs.Strings.{padded};
ghost use Rattle.mode.specs.Params.{iv};
ghost use Rattle.scheme.specs.Machine.{first, given};
ghost use Rattle.mode.specs.Instances.{params_of};
ghost use Rattle.sponge.specs.Kinds.{CanEnter, Entered};
ghost use Rattle.sponge.specs.Engines.{on_ascon};
ghost use Rattle.sponge.specs.Entering.{state_bytes, session_bytes};
ghost use Rattle.plan.specs.KindNumbers.{kind_number};

pub use absorbing::bit_at;
use absorbing::{absorb_bit, absorb_padded};
use ascon::Words;
use keccak::Lanes;
use plan::Kind;
use strings::{Two, front, put_at, write_text};

// ---- rounds of an instance's permutation; what lies beyond its state stays

// Whether an instance's permutation is Ascon-p. The engine is a type, the instance a number: where one becomes the other, this is asked.
#[tactic(auto, unfolding(crate::specs::Engines::on_ascon))]
pub fn on_ascon(instance: u32) -> bool
    ensures { result ≡ on_ascon instance }
{
    matches!(instance, 1 | 2)
}

// The rounds of the indices from `from` on, `count` of them, on the instance's part of the state.
pub fn permute(instance: u32, mut state: [u8; 64], from: u32, count: u32) -> [u8; 64]
    requires { from + count ≤ (params_of instance).most }
    ensures { result ≡ run (params_of instance).n (params_of instance).round from count state }
{
    if on_ascon(instance) {
        engine::rounds::<Words>(&mut state, from, count);
    } else {
        engine::rounds::<Lanes>(&mut state, from, count);
    }
    state
}

// ---- what an instance is made of

// Bytes of a state, and of a block, as places in a buffer.
fn state_bytes(instance: u32) -> usize
    ensures { (result ≡ (params_of instance).n) × (24 ≤ result) × (result ≤ 50) }
{
    plan::numbers_of(instance).n as usize
}

fn block_bytes(instance: u32) -> usize
    ensures { (result ≡ (params_of instance).b) × (0 < result) × (result ≤ 18) }
{
    plan::numbers_of(instance).b as usize
}

// An initial value, with zeros up to the longest: how many bytes it has is the instance's, and memory is fixed.
fn initial(instance: u32, flag: u8) -> [u8; 34]
    ensures { take ((params_of instance).n - 16) result ≡ iv (params_of instance) flag }
{
    let q = plan::numbers_of(instance);
    let numbers = [
        flag,
        128,
        (8 * q.b) as u8,
        1,
        q.sh as u8,
        q.sb as u8,
        q.se as u8,
        q.sk as u8,
    ];
    let mut value = [0u8; 34];
    value[..8].copy_from_slice(&numbers);
    value
}

// ---- what goes with the first round of a call

// A start: sixteen bytes and an initial value.
fn start(instance: u32, state: [u8; 64], flag: u8, sixteen: [u8; 16]) -> [u8; 64]
    ensures { result ≡ put (sixteen ++ iv (params_of instance) flag) state }
{
    let value = initial(instance, flag);
    let m = state_bytes(instance) - 16;
    let s = put_at(state, &sixteen, 0);
    put_at(s, &value[..m], 16)
}

// The nonce behind the session key, before the first block of text.
fn put_nonce(instance: u32, state: [u8; 64], nonce: [u8; 16], call: u32) -> [u8; 64]
    ensures { result ≡ first call (put_at ((params_of instance).n - 16) nonce) state }
{
    if call != 0 {
        return state;
    }
    let n = state_bytes(instance);
    put_at(state, &nonce, n - 16)
}

// The domain bit, before the first block of ciphertext.
#[tactic(auto, unfolding(bits::specs::Strings::xor_at))]
fn domain(instance: u32, mut state: [u8; 64], call: u32) -> [u8; 64]
    ensures { result ≡ first call (xor_at ((params_of instance).n - 1) 1) state }
{
    if call != 0 {
        return state;
    }
    let i = state_bytes(instance) - 1;
    state[i] ^= 1;
    state
}

// Block `call` of a string, with its padding.
fn absorb_block(instance: u32, state: [u8; 64], call: u32, src: &[u8]) -> [u8; 64]
    requires { call < length src.now / (params_of instance).b + 1 }
    ensures { result ≡ xor_into (block (params_of instance).b call (padded (params_of instance).b src.now)) state }
{
    let b = block_bytes(instance);
    absorb_padded(state, src, call, b)
}

// The ciphertext is the output of a sealing and the text of an opening.
fn absorb_cipher(
    instance: u32,
    sealing: bool,
    state: [u8; 64],
    call: u32,
    text: &[u8],
    out: &[u8],
) -> [u8; 64]
    requires { (call < length text.now / (params_of instance).b + 1) × (length out.now ≡ length text.now) }
    ensures { result ≡ xor_into (block (params_of instance).b call (padded (params_of instance).b (pick sealing out.now text.now))) (first call (xor_at ((params_of instance).n - 1) 1) state) }
{
    let s = domain(instance, state, call);
    if sealing {
        return absorb_block(instance, s, call, out);
    }
    absorb_block(instance, s, call, text)
}

// The MAC state set aside into the session bytes; taken back behind the session key; and the session bytes cleared.
#[tactic(auto, using(bits::specs::Put::put_at_zero))]
fn aside(instance: u32, state: [u8; 64], session: [u8; 64]) -> [u8; 64]
    ensures { result ≡ put (take (params_of instance).n state) session }
{
    let n = state_bytes(instance);
    put_at(session, &state[..n], 0)
}

fn taken_back(instance: u32, state: [u8; 64], session: [u8; 64]) -> [u8; 64]
    ensures { result ≡ put (take 16 state ++ drop 16 (take (params_of instance).n session)) state }
{
    let n = state_bytes(instance);
    put_at(state, &session[16..n], 16)
}

fn cleared(instance: u32, session: [u8; 64]) -> [u8; 64]
    ensures { result ≡ put (replicate (params_of instance).n 0) session }
{
    let n = state_bytes(instance);
    let zeros = [0u8; 64];
    put_at(session, &zeros[..n], 0)
}

// The state with which the first round of a call begins. The job's bytes come one by one: each kind of part needs others of them, and `out`
// is read here and written by other calls.
#[tactic(auto, unfolding(crate::specs::Entering::state_bytes, crate::specs::Entering::encryption_state, crate::specs::Entering::mac_state, crate::specs::Entering::mac_key_state, scheme::specs::Machine::cipher_of))]
fn enter_state(
    instance: u32,
    sealing: bool,
    kind: Kind,
    call: u32,
    key: [u8; 16],
    nonce: [u8; 16],
    state: [u8; 64],
    session: [u8; 64],
    assoc: &[u8],
    text: &[u8],
    out: &[u8],
) -> [u8; 64]
    requires { CanEnter instance (kind_number kind) call (given sealing key nonce assoc.now text.now) out.now }
    ensures { result ≡ state_bytes (params_of instance) (given sealing key nonce assoc.now text.now) (kind_number kind) call state session out.now }
{
    match kind {
        Kind::KeyStart => start(instance, state, 3, key),
        Kind::KeyBits => absorb_bit(state, &nonce, call),
        Kind::KeyEnd => absorb_bit(state, &nonce, 127),
        Kind::Texts => put_nonce(instance, state, nonce, call),
        Kind::MacStart => start(instance, state, 1, nonce),
        Kind::Assocs => absorb_block(instance, state, call, assoc),
        Kind::Ciphers => absorb_cipher(instance, sealing, state, call, text, out),
        Kind::MacKeyStart => start(instance, state, 2, key),
        Kind::MacKeyBits => absorb_bit(state, &session[..16], call),
        Kind::MacKeyEnd => absorb_bit(state, &session[..16], 127),
        Kind::MacEnd => taken_back(instance, state, session),
    }
}

// The session bytes change twice: the MAC state goes in, and is cleared once it is taken back.
#[tactic(auto, unfolding(crate::specs::Entering::session_bytes))]
fn enter_session(instance: u32, kind: Kind, state: [u8; 64], session: [u8; 64]) -> [u8; 64]
    ensures { result ≡ session_bytes (params_of instance) (kind_number kind) state session }
{
    match kind {
        Kind::MacKeyStart => aside(instance, state, session),
        Kind::MacEnd => cleared(instance, session),
        _ => session,
    }
}

// The state and the session bytes with which the first round of a call begins.
pub fn enter(
    instance: u32,
    sealing: bool,
    kind: Kind,
    call: u32,
    key: [u8; 16],
    nonce: [u8; 16],
    state: [u8; 64],
    session: [u8; 64],
    assoc: &[u8],
    text: &[u8],
    out: &[u8],
) -> Two
    requires { CanEnter instance (kind_number kind) call (given sealing key nonce assoc.now text.now) out.now }
    ensures { Entered instance (kind_number kind) call (given sealing key nonce assoc.now text.now) state session out.now result.state result.session }
{
    let begun = enter_state(
        instance, sealing, kind, call, key, nonce, state, session, assoc, text, out,
    );
    Two {
        state: begun,
        session: enter_session(instance, kind, state, session),
    }
}

// ---- what goes with the last round of a call

// What the last round of a call leaves in the output: in a call of the text (`writes`), its block xored with the state. A flag and no
// `Kind`, here and for the tag: so it has an answer whatever number a part has.
pub fn leave_out(
    out: &mut [u8],
    text: &[u8],
    instance: u32,
    writes: bool,
    call: u32,
    state: [u8; 64],
)
    requires { length out.old ≡ length text.now }
    ensures { out.new ≡ pick writes (put_at (call * (params_of instance).b) (xors state (block (params_of instance).b call text.now)) out.old) out.old }
{
    if writes {
        let b = block_bytes(instance);
        write_text(out, text, state, call as usize, b);
    }
}

// What it leaves as the tag: in a sealing, the state's first sixteen bytes where the MAC ends.
pub fn leave_tag(sealing: bool, ends: bool, state: [u8; 64], tag: [u8; 16]) -> [u8; 16]
    ensures { result ≡ pick ends (pick sealing (take 16 state) tag) tag }
{
    if ends && sealing { front(state) } else { tag }
}
