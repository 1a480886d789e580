// ι: the round constant is added to the first lane. Its bits come from the shift register of FIPS 202, which is stepped as rounds go by.
//
// The register is held as what it gives next: the word of a round index i, whose digit k is rc(7i + k). Modulo the register's polynomial,
// x^8 + x^6 + x^5 + x^4 + 1, x^21 is x^11 + 1 and x^25 is x^24 + 1. So a bit is the sum of the bits 10 and 21 steps before it, and it is
// also the sum of the bits 24 and 25 steps after it: one sum of two shifts takes the word up to ten steps on, or up to 24 back.
ghost use Rattle.std.specs.Prelude.{◌≡◌, ℕ, ◌≤◌, ◌<◌};
ghost use Rattle.bits.specs.Digit.{bit};
ghost use Rattle.keccak.specs.Agree.{Agree};
ghost use Rattle.keccak.specs.Ahead.{ahead, later, earlier, spread};
ghost use Rattle.keccak.specs.Fips202.{RC, ι};
ghost use Rattle.keccak.specs.Lanes.{array_of};

// The word of round index 20, which is after the last round: rc(140) to rc(171).
const END: u32 = 0xae886c79;

// The word of `n` rounds earlier.
fn earlier(w: u32, n: u32) -> u32
    requires { (0 < n) × (n < 4) }
    ensures { result ≡ earlier n w }
{
    (w << (7 * n)) | (((w << 7) ^ (w << 8)) >> (32 - 7 * n))
}

// The word of the round index `i`. A call does the last rounds, so it is sought from the end, up to three rounds at once.
pub fn start(i: u32) -> u32
    requires { i ≤ 20 }
    ensures { result ≡ ahead i }
{
    let mut w = END;
    let mut left = 20 - i;
    // no `for` over whole threes: with the rest behind them the archive would hold a word for each, with it in front a call costs more
    while left > 0 {
        let n = left.min(3);
        w = earlier(w, n);
        left -= n;
    }
    w
}

// The word of the next round index: seven steps at once.
pub fn next(w: u32) -> u32
    ensures { result ≡ later w }
{
    (w >> 7) | (((w >> 11) ^ (w >> 22)) << 25)
}

// The round constant: digit j at place 2^j - 1, for j from 0 to 4. The product has the digits 2 to 4 three times, at nine places; the mask
// keeps 2 at 3, 3 at 7 and 4 at 15.
pub fn constant(w: u32) -> u16
    ensures { result ≡ spread w }
{
    ((w & 3) | (((w & 28) * 0x812) & 0x8088)) as u16
}

// ι of every round index whose constant is `c`.
pub fn iota(a: [[u16; 5]; 5], c: u16) -> [[u16; 5]; 5]
    ensures { (i : ℕ) → ((z : ℕ) → z < 16 → bit c z ≡ RC i z) → Agree (array_of result) (ι i (array_of a)) }
{
    let mut b = a;
    b[0][0] ^= c;
    b
}
