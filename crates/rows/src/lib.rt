// Several whole calls of one part of a job in one go, the state kept in words from call to call. Internal: the library above calls it, and
// meets each `requires`. No branch and no index depends on nonce, state, session or text bytes.
#![tactic(auto)]

ghost use Rattle.std.specs.Prelude.{◌≡◌, ◌+◌, ◌*◌, ◌≤◌, length};
ghost use Rattle.bits.specs.Pick.{pick};
ghost use Rattle.bits.specs.Run.{run};
ghost use Rattle.mode.specs.Instances.{params_of};
ghost use Rattle.plan.specs.KindNumbers.{kind_number};
ghost use Rattle.engine.specs.Fed.{fed, block_in, nothing_in, written_by};
ghost use Rattle.rows.specs.Bits.{bit_in};
ghost use Rattle.rows.specs.Gone.{rounds_of, many, CanGo, Gone};

use ascon::Words;
use engine::TakesBits;
use keccak::Lanes;
use plan::Kind;

// Some calls in one go, a bit of a string entering with each: the words are loaded once, kept from call to call, and put back.
fn each_bit<E: TakesBits>(
    state: [u8; 64],
    y: &[u8],
    first: u32,
    calls: u32,
    from: u32,
    count: u32,
) -> [u8; 64]
    requires { (first + calls ≤ 8 * length y.now) × (first + calls ≤ 128) × (from + count ≤ E.most) }
    ensures { result ≡ fed (run E.width E.round from count) (bit_in y.now) first calls state }
{
    let mut words = E::load(&state);
    for i in first..first + calls {
        let bit = sponge::bit_at(y, i);
        words = words.with_first(bit * 128).run(from, count);
    }
    let mut s = state;
    words.store(&mut s);
    s
}

// Bits of a re-keying.
fn bits(instance: u32, state: [u8; 64], y: &[u8], first: u32, calls: u32) -> [u8; 64]
    requires { (first + calls ≤ 8 * length y.now) × (first + calls ≤ 128) }
    ensures { result ≡ fed (rounds_of (params_of instance) (params_of instance).s_b) (bit_in y.now) first calls state }
{
    let q = plan::numbers_of(instance);
    let from = q.most - q.sb;
    if sponge::on_ascon(instance) {
        return each_bit::<Words>(state, y, first, calls, from, q.sb);
    }
    each_bit::<Lanes>(state, y, first, calls, from, q.sb)
}

// Blocks of a string that the MAC absorbs.
fn blocks(instance: u32, state: [u8; 64], src: &[u8], first: u32, calls: u32) -> [u8; 64]
    requires { (first + calls) * (params_of instance).b ≤ length src.now }
    ensures { result ≡ fed (rounds_of (params_of instance) (params_of instance).s_h) (block_in (params_of instance).b src.now) first calls state }
{
    let q = plan::numbers_of(instance);
    let from = q.most - q.sh;
    if sponge::on_ascon(instance) {
        return engine::blocks::<Words>(state, src, first as usize, calls as usize, from, q.sh);
    }
    engine::blocks::<Lanes>(state, src, first as usize, calls as usize, from, q.sh)
}

// The ciphertext is the output of a sealing and the text of an opening.
fn ciphers(
    instance: u32,
    sealing: bool,
    state: [u8; 64],
    text: &[u8],
    out: &[u8],
    first: u32,
    calls: u32,
) -> [u8; 64]
    requires { ((first + calls) * (params_of instance).b ≤ length text.now) × (length out.now ≡ length text.now) }
    ensures { result ≡ fed (rounds_of (params_of instance) (params_of instance).s_h) (block_in (params_of instance).b (pick sealing out.now text.now)) first calls state }
{
    if sealing {
        return blocks(instance, state, out, first, calls);
    }
    blocks(instance, state, text, first, calls)
}

// Blocks of the text, encrypted or decrypted.
fn texts(
    instance: u32,
    out: &mut [u8],
    text: &[u8],
    state: [u8; 64],
    first: u32,
    calls: u32,
) -> [u8; 64]
    requires { ((first + calls) * (params_of instance).b ≤ length text.now) × (length out.old ≡ length text.now) }
    ensures { (result ≡ fed (rounds_of (params_of instance) (params_of instance).s_e) nothing_in first calls state) × (out.new ≡ written_by (rounds_of (params_of instance) (params_of instance).s_e) (params_of instance).b text.now first calls state out.old) }
{
    let q = plan::numbers_of(instance);
    let from = q.most - q.se;
    if sponge::on_ascon(instance) {
        return engine::texts::<Words>(out, text, state, first as usize, calls as usize, from, q.se);
    }
    engine::texts::<Lanes>(out, text, state, first as usize, calls as usize, from, q.se)
}

// Whether a part of a kind has many calls.
#[tactic(auto, unfolding(crate::specs::Gone::many))]
pub fn has_many(kind: Kind) -> bool
    ensures { result ≡ many (kind_number kind) }
{
    matches!(
        kind,
        Kind::KeyBits | Kind::Texts | Kind::Assocs | Kind::Ciphers | Kind::MacKeyBits
    )
}

// The state after `calls` calls of such a part from `call` on, none of them its first or its last.
// The job's bytes come one by one: each kind of part needs others of them, and `out` is read by some and written by one.
pub fn go(
    instance: u32,
    sealing: bool,
    kind: Kind,
    call: u32,
    calls: u32,
    nonce: [u8; 16],
    state: [u8; 64],
    session: [u8; 64],
    assoc: &[u8],
    text: &[u8],
    out: &mut [u8],
) -> [u8; 64]
    requires { CanGo instance (kind_number kind) call calls assoc.now text.now out.old }
    ensures { Gone instance (kind_number kind) call calls sealing nonce assoc.now text.now state session out.old result out.new }
{
    match kind {
        Kind::KeyBits => bits(instance, state, &nonce, call, calls),
        Kind::MacKeyBits => bits(instance, state, &session[..16], call, calls),
        Kind::Assocs => blocks(instance, state, assoc, call, calls),
        Kind::Ciphers => ciphers(instance, sealing, state, text, &out[..], call, calls),
        _ => texts(instance, out, text, state, call, calls),
    }
}
