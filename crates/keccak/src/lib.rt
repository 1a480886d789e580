// Keccak-p[400]: the state in five planes of five lanes of 16 bits, a round on it, and what an engine does with it on the state's bytes.
// Internal: the library above calls it, and meets each `requires`; a host does not see it.
// What a reader must believe is specs/Fips202.antt, where each step mapping is defined bit by bit.
#![tactic(auto)]

mod bytes;
mod chi;
mod iota;
mod rho_pi;
mod theta;

ghost use Rattle.std.specs.Prelude.{◌≡◌, [], ◌∷◌, ◌++◌, ◌+◌, ◌*◌, ◌≤◌, ◌<◌, length, take, drop};
ghost use Rattle.std.proofs.Common.{lit<, lit≤};
ghost use Rattle.bits.specs.Run.{rounds as Rounds};
ghost use Rattle.bits.specs.Xors.{xors};
ghost use Rattle.keccak.specs.Fips202.{keccak_round};
ghost use Rattle.keccak.specs.Lanes.{bytes_of};
ghost use Rattle.keccak.specs.Laws.{keccak_keeps};

use engine::{Engine, TakesBits};

// The state in lanes.
#[derive(Clone, Copy)]
pub struct Lanes {
    pub planes: [[u16; 5]; 5],
}

// One round, of the round index `i`.
pub fn round(a: [[u16; 5]; 5], i: u32) -> [[u16; 5]; 5]
    requires { i < 20 }
    ensures { bytes_of result ≡ keccak_round i (bytes_of a) }
{
    Lanes { planes: a }.run(i, 1).planes
}

impl Engine for Lanes {
    ghost width = { 50 };

    ghost most = { 20 };

    ghost BLOCK = { 18 };

    ghost bytes_of = { λ s. bytes_of s.planes };

    ghost round = { keccak_round };

    const BLOCK: usize = 18;

    fn load(state: &[u8]) -> Lanes {
        // written out: a closure of `array::from_fn` would need a clause of its own
        Lanes {
            planes: [
                bytes::plane_at(state, 0),
                bytes::plane_at(state, 10),
                bytes::plane_at(state, 20),
                bytes::plane_at(state, 30),
                bytes::plane_at(state, 40),
            ],
        }
    }

    fn store(self, state: &mut [u8]) {
        for y in 0..5 {
            bytes::put::<5>(state, 10 * y, self.planes[y]);
        }
    }

    fn run(self, from: u32, count: u32) -> Lanes {
        let mut planes = self.planes;
        let mut w = iota::start(from);
        for _ in 0..count {
            // in this order the compiler makes the fewest copies of lanes
            let after = iota::next(w);
            let c = iota::constant(w);
            planes = iota::iota(chi::chi(rho_pi::rho_pi(theta::theta(planes))), c);
            w = after;
        }
        Lanes { planes }
    }

    // Nine lanes.
    fn absorbed(self, block: &[u8]) -> Lanes {
        let [a, b, c, d, e] = self.planes;
        Lanes {
            planes: [
                bytes::xored::<5>(a, block, 0),
                bytes::xored::<4>(b, block, 10),
                c,
                d,
                e,
            ],
        }
    }

    fn write_xored(self, out: &mut [u8], at: usize, text: &[u8]) {
        let xored = self.absorbed(&text[at..at + 18]);
        bytes::put::<5>(out, at, xored.planes[0]);
        bytes::put::<4>(out, at + 10, xored.planes[1]);
    }

    ghost keeps = { keccak_keeps };

    ghost some = { lit< tt };

    ghost within = { lit≤ tt };

    ghost room = { lit≤ tt };
}

impl TakesBits for Lanes {
    fn with_first(self, v: u8) -> Lanes {
        let mut planes = self.planes;
        planes[0][0] ^= u16::from(v);
        Lanes { planes }
    }
}
