// A permutation's state held in words, for any permutation: what an engine gives and owes, and what every engine then has: rounds on a
// buffer, and whole calls in one go.
// Internal: the libraries above call it, and meet each `requires`; a host does not see it.
#![tactic(auto)]

ghost use Rattle.std.specs.Prelude.{ℕ, List, ◌≡◌, [], ◌∷◌, ◌++◌, ◌+◌, ◌*◌, ◌≤◌, ◌<◌, length, take, drop};
ghost use Rattle.bits.specs.Run.{rounds as Rounds, run as Run, Keeps};
ghost use Rattle.bits.specs.Xors.{xors};
ghost use Rattle.engine.specs.Fed.{fed, block_in, nothing_in, written_by};

// A permutation's state in words. What its methods do is said on the bytes that the words stand for.
pub trait Engine: Copy {
    // the bytes of a state, the rounds of the permutation, and the bytes of a block
    ghost width: { ℕ };

    ghost most: { ℕ };

    ghost BLOCK: { ℕ };

    // the state as bytes, and the round of an index on them
    ghost bytes_of: { Self → List ℕ };

    ghost round: { ℕ → List ℕ → List ℕ };

    const BLOCK: usize;

    // The words of a buffer's first bytes.
    fn load(state: &[u8]) -> Self
        requires { width ≤ length state.now }
        ensures { bytes_of result ≡ take width state.now };

    // The words in place of a buffer's first bytes.
    fn store(self, state: &mut [u8])
        requires { width ≤ length state.old }
        ensures { state.new ≡ bytes_of self ++ drop width state.old };

    // The rounds of the indices from `from` on, `count` of them: two numbers, since a type for both would carry the engine and its limit.
    fn run(self, from: u32, count: u32) -> Self
        requires { from + count ≤ most }
        ensures { bytes_of result ≡ Rounds round from count (bytes_of self) };

    // The state with a block xored into its first bytes.
    fn absorbed(self, block: &[u8]) -> Self
        requires { length block.now ≡ BLOCK }
        ensures { bytes_of result ≡ xors (bytes_of self) block.now ++ drop BLOCK (bytes_of self) };

    // The block of a text that starts at `at`, xored with the state's first bytes, put at the same place of an output.
    fn write_xored(self, out: &mut [u8], at: usize, text: &[u8])
        requires { (at + BLOCK ≤ length text.now) × (at + BLOCK ≤ length out.old) }
        ensures { out.new
            ≡ take at out.old ++ (xors (bytes_of self) (take BLOCK (drop at text.now)) ++ drop (at + BLOCK) out.old) };

    // a round keeps the state's length and its bytes
    ghost keeps: { Keeps width round };

    ghost some: { 0 < BLOCK };

    ghost within: { BLOCK ≤ width };

    ghost room: { width ≤ 64 };
}

// An engine that also takes single bits.
pub trait TakesBits: Engine {
    // The state with a byte xored into its first byte.
    fn with_first(self, v: u8) -> Self
        ensures { Self.bytes_of result ≡ xors (Self.bytes_of self) (v ∷ []) ++ drop 1 (Self.bytes_of self) };
}

// The rounds of the indices from `from` on, `count` of them, on a buffer whose first bytes are the state; what lies beyond is neither read
// nor changed.
pub fn rounds<E: Engine>(state: &mut [u8], from: u32, count: u32)
    requires { (E.width ≤ length state.old) × (from + count ≤ E.most) }
    ensures { state.new ≡ Run E.width E.round from count state.old }
{
    E::load(state).run(from, count).store(state);
}

// Some calls in one go, a block of a string entering with each: the words are loaded once, kept from call to call, and put back.
// `first` and `calls` are two numbers as in `fed`: a range would put its ends' difference into each clause.
pub fn blocks<E: Engine>(
    state: [u8; 64],
    src: &[u8],
    first: usize,
    calls: usize,
    from: u32,
    count: u32,
) -> [u8; 64]
    requires { ((first + calls) * E.BLOCK ≤ length src.now) × (from + count ≤ E.most) }
    ensures { result ≡ fed (Run E.width E.round from count) (block_in E.BLOCK src.now) first calls state }
{
    let mut words = E::load(&state);
    for i in first..first + calls {
        let at = i * E::BLOCK;
        words = words.absorbed(&src[at..at + E::BLOCK]).run(from, count);
    }
    let mut s = state;
    words.store(&mut s);
    s
}

// The same, a block of the text written after each call's rounds.
#[tactic(auto, using(crate::proofs::Holding::in_string))]
pub fn texts<E: Engine>(
    out: &mut [u8],
    text: &[u8],
    state: [u8; 64],
    first: usize,
    calls: usize,
    from: u32,
    count: u32,
) -> [u8; 64]
    requires { ((first + calls) * E.BLOCK ≤ length text.now) × (length out.old ≡ length text.now) × (from + count ≤ E.most) }
    ensures { (result ≡ fed (Run E.width E.round from count) nothing_in first calls state) × (out.new ≡ written_by (Run E.width E.round from count) E.BLOCK text.now first calls state out.old) }
{
    let mut words = E::load(&state);
    for i in first..first + calls {
        words = words.run(from, count);
        words.write_xored(out, i * E::BLOCK, text);
    }
    let mut s = state;
    words.store(&mut s);
    s
}
