// Ascon-p: the state in five words of 64 bits, a round on all 64 columns at once, and what crate `engine` asks of such words.
// Internal: the library above calls it, and meets each `requires`; a host does not see it.
// What a reader must believe is specs/Permutation.antt, where the S-box is the table, applied to one column after the other.
#![tactic(auto)]

ghost use Rattle.std.specs.Prelude.{◌≡◌, [], ◌∷◌, ◌++◌, ◌+◌, ◌≤◌, ◌<◌, length, take, drop};
ghost use Rattle.bits.specs.BigEndian.{be_bytes, from_be};
ghost use Rattle.bits.specs.Run.{rounds as Rounds};
ghost use Rattle.bits.specs.Xors.{xors};
ghost use Rattle.ascon.specs.Permutation.{p_c, p_s, sigma, p_l, bytes_of, ascon_round};
ghost use Rattle.ascon.specs.Laws.{ascon_keeps};
ghost use Rattle.std.proofs.Common.{lit<, lit≤};

use engine::{Engine, TakesBits};

#[derive(Clone, Copy)]
pub struct Words {
    pub x0: u64,
    pub x1: u64,
    pub x2: u64,
    pub x3: u64,
    pub x4: u64,
}

// A word xored with itself turned by a places and by b. One turn inside the other spares a copy of the word.
fn mix(x: u64, a: u32, b: u32) -> u64
    requires { (0 < a) × (a < b) × (b < 64) }
    ensures { result ≡ sigma a b x }
{
    x ^ (x ^ x.rotate_right(b - a)).rotate_right(a)
}

impl Words {
    // The twelve constants fall by 15, so no table is read: an array constant would be laid out anew in each round.
    fn add_constant(self, i: u32) -> Words
        requires { i < 12 }
        ensures { result ≡ p_c i self }
    {
        let constant = 240 - 15 * (i as u64);
        Words {
            x2: self.x2 ^ constant,
            ..self
        }
    }

    // The S-box on all 64 columns at once, by the shortest formulas found: an `or` spares an inversion and a sum.
    #[tactic(auto, using(crate::proofs::Sliced::sliced_is))]
    fn substitute(self) -> Words
        ensures { result ≡ p_s self }
    {
        let a0 = self.x0 ^ self.x4;
        let a2 = self.x1 ^ self.x2;
        let a4 = self.x3 ^ self.x4;
        Words {
            x0: (self.x1 | (a0 ^ self.x2)) ^ a4,
            x1: (self.x3 | a2) ^ (self.x1 & self.x2) ^ a0,
            x2: (self.x3 | !self.x4) ^ a2,
            x3: (self.x0 | a4) ^ a2,
            x4: (self.x1 & !a0) ^ a4,
        }
    }

    fn diffuse(self) -> Words
        ensures { result ≡ p_l self }
    {
        Words {
            x0: mix(self.x0, 19, 28),
            x1: mix(self.x1, 39, 61),
            x2: mix(self.x2, 1, 6),
            x3: mix(self.x3, 10, 17),
            x4: mix(self.x4, 7, 41),
        }
    }

    // Round i of the twelve.
    pub fn round(self, i: u32) -> Words
        requires { i < 12 }
        ensures { bytes_of result ≡ ascon_round i (bytes_of self) }
    {
        self.add_constant(i).substitute().diffuse()
    }
}

// The word that stands at a place of a slice.
fn word_at(s: &[u8], at: usize) -> u64
    requires { at + 8 ≤ length s.now }
    ensures { result ≡ from_be (take 8 (drop at s.now)) }
{
    let mut bytes = [0; 8];
    bytes.copy_from_slice(&s[at..at + 8]);
    u64::from_be_bytes(bytes)
}

// A word put at a place of a slice.
fn put_word(s: &mut [u8], at: usize, x: u64)
    requires { at + 8 ≤ length s.old }
    ensures { s.new ≡ take at s.old ++ (be_bytes 8 x ++ drop (at + 8) s.old) }
{
    s[at..at + 8].copy_from_slice(&x.to_be_bytes());
}

impl Engine for Words {
    ghost width = { 40 };

    ghost most = { 12 };

    ghost BLOCK = { 8 };

    ghost bytes_of = { bytes_of };

    ghost round = { ascon_round };

    const BLOCK: usize = 8;

    fn load(state: &[u8]) -> Words {
        Words {
            x0: word_at(state, 0),
            x1: word_at(state, 8),
            x2: word_at(state, 16),
            x3: word_at(state, 24),
            x4: word_at(state, 32),
        }
    }

    fn store(self, state: &mut [u8]) {
        put_word(state, 0, self.x0);
        put_word(state, 8, self.x1);
        put_word(state, 16, self.x2);
        put_word(state, 24, self.x3);
        put_word(state, 32, self.x4);
    }

    fn run(self, from: u32, count: u32) -> Words {
        let mut words = self;
        for i in from..from + count {
            words = words.round(i);
        }
        words
    }

    fn absorbed(self, block: &[u8]) -> Words {
        Words {
            x0: self.x0 ^ word_at(block, 0),
            ..self
        }
    }

    fn write_xored(self, out: &mut [u8], at: usize, text: &[u8]) {
        put_word(out, at, self.x0 ^ word_at(text, at));
    }

    ghost keeps = { ascon_keeps };

    ghost some = { lit< tt };

    ghost within = { lit≤ tt };

    ghost room = { lit≤ tt };
}

impl TakesBits for Words {
    fn with_first(self, v: u8) -> Words {
        Words {
            x0: self.x0 ^ ((v as u64) << 56),
            ..self
        }
    }
}
