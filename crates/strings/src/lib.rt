// Byte strings put into a state and taken from it, whatever the algorithm. Internal: the code of the calls uses it, and meets each
// `requires`. No branch and no index depends on what the bytes are.
#![tactic(auto)]

ghost use Rattle.std.specs.Prelude.{◌≡◌, ◌+◌, ◌*◌, ◌≤◌, length, take};
ghost use Rattle.bits.specs.Put.{put_at};
ghost use Rattle.bits.specs.Xors.{xors};
ghost use Rattle.bits.specs.Strings.{xor_into, block, same};

// The state and the session bytes.
#[derive(Drop)]
pub struct Two {
    pub state: [u8; 64],
    pub session: [u8; 64],
}

// A string in place of the state's bytes from `at` on.
#[tactic(auto, unfolding(bits::specs::Put::put_at))]
pub fn put_at(mut state: [u8; 64], part: &[u8], at: usize) -> [u8; 64]
    requires { at + length part.now ≤ 64 }
    ensures { result ≡ put_at at part.now state }
{
    state[at..at + part.len()].copy_from_slice(part);
    state
}

// A string xored into the state's first bytes. Here and below an index writes: of what a zip over `iter_mut` wrote, the check knows only
// the length.
pub fn absorb(mut state: [u8; 64], part: &[u8]) -> [u8; 64]
    requires { length part.now ≤ 64 }
    ensures { result ≡ xor_into part.now state }
{
    for (i, byte) in part.iter().enumerate() {
        state[i] ^= *byte;
    }
    state
}

// A block of text xored with the state's first bytes.
fn write_block(out: &mut [u8], text: &[u8], state: [u8; 64])
    requires { (length out.old ≡ length text.now) × (length text.now ≤ 64) }
    ensures { out.new ≡ xors state text.now }
{
    for (i, byte) in text.iter().enumerate() {
        out[i] = state[i] ^ *byte;
    }
}

// The state's first sixteen bytes.
pub fn front(state: [u8; 64]) -> [u8; 16]
    ensures { result ≡ take 16 state }
{
    let mut sixteen = [0u8; 16];
    sixteen.copy_from_slice(&state[..16]);
    sixteen
}

// Whether sixteen bytes are the state's first: put in their place, they leave it as it is. All of it is read, whatever it holds. A loop
// over sixteen bytes would be unrolled, and the compiler would then keep a record's tag as sixteen bytes wherever a record goes; one over a
// zip of the two takes 288 bytes more of stack in a slice.
pub fn same_front(sixteen: [u8; 16], state: [u8; 64]) -> bool
    ensures { result ≡ same sixteen (take 16 state) }
{
    let placed = put_at(state, &sixteen, 0);
    let mut differing: u8 = 0;
    for (i, byte) in placed.iter().enumerate() {
        differing |= *byte ^ state[i];
    }
    differing == 0
}

// Block i of the text, of b bytes, xored with the state, to its place in the output; past the last block nothing. That the two are of one
// length is asked here and at every call above, since a type can't hold it beside a `&mut`.
pub fn write_text(out: &mut [u8], text: &[u8], state: [u8; 64], i: usize, b: usize)
    requires { (length out.old ≡ length text.now) × (b ≤ 64) × (i ≤ 8589934592) }
    ensures { out.new ≡ put_at (i * b) (xors state (block b i text.now)) out.old }
{
    let a = i * b;
    if text.len() <= a {
        return;
    }
    let e = (a + b).min(text.len());
    write_block(&mut out[a..e], &text[a..e], state);
}
