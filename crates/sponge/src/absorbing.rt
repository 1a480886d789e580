// What of a string enters the state with a call: a block with its padding, or a bit. No branch and no index depends on what the bytes are.
ghost use Rattle.std.specs.Prelude.{◌≡◌, ◌+◌, ◌*◌, ◌≤◌, ◌<◌, length};
ghost use Rattle.bits.specs.Number.{value};
ghost use Rattle.bits.specs.Strings.{xor_into, block};
ghost use Rattle.mode.specs.Strings.{padded, bit_at, xor_bit};

use strings::absorb;

// Block i of a padded string absorbed: the part of the string that starts at the block's own offset, and the padding's byte behind the end.
pub fn absorb_padded(state: [u8; 64], src: &[u8], i: u32, b: usize) -> [u8; 64]
    requires { (0 < b) × (b ≤ 18) × (i * b ≤ length src.now) }
    ensures { result ≡ xor_into (block b i (padded b src.now)) state }
{
    let a = i as usize * b;
    let e = a + b;
    if e <= src.len() {
        return absorb(state, &src[a..e]);
    }
    let mut s = absorb(state, &src[a..]);
    let at = src.len() - a;
    s[at] ^= 128;
    s
}

// Bit i of a string, the top bit of each byte first.
#[tactic(auto, using(crate::proofs::Picked::picked))]
pub fn bit_at(y: &[u8], i: u32) -> u8
    requires { i < 8 * length y.now }
    ensures { result ≡ value (bit_at y.now i) }
{
    let k = (i / 8) as usize;
    let m = 7 - i % 8;
    (y[k] >> m) & 1
}

// Bit i of a string xored into the state's first bit.
#[tactic(auto, unfolding(mode::specs::Strings::xor_bit, bits::specs::Strings::xor_at))]
pub fn absorb_bit(mut state: [u8; 64], y: &[u8], i: u32) -> [u8; 64]
    requires { i < 8 * length y.now }
    ensures { result ≡ xor_bit (bit_at y.now i) state }
{
    let bit = bit_at(y, i);
    state[0] ^= bit * 128;
    state
}
