// Shadow-512: the state in four bundles of four rows of 32 bits, a round on it, and what the permutation's engine does.
// Internal: the library above calls it, and meets each `requires`; a host does not see it.
// What a reader must believe is specs/Shadow.antt, where the diffusion layer is its matrix; S-box, L-box and constants are those of clyde.
#![tactic(auto)]

ghost use Rattle.std.specs.Prelude.{◌≡◌, ◌++◌, ◌<◌, length, drop};
ghost use Rattle.std.proofs.Common.{lit<, lit≤};
ghost use Rattle.clyde.specs.Components.{add, W};
ghost use Rattle.shadow.specs.Shadow.{d_rows, d_layer, sl_layer, shifted, with_constant, layers as layersOf, round as roundOf};
ghost use Rattle.shadow.specs.OnBytes.{bundle_bytes, shadow_turn, shadow-keeps};

use clyde::Rows;
use engine::Engine;

#[derive(Clone, Copy)]
pub struct Bundles {
    pub b0: Rows,
    pub b1: Rows,
    pub b2: Rows,
    pub b3: Rows,
}

// S-box layer and L-box layer on a bundle.
#[tactic(auto, unfolding(crate::specs::Shadow::sl_layer))]
fn bundle(s: Rows) -> Rows
    ensures { result ≡ sl_layer s }
{
    s.substitute().mix()
}

// The diffusion layer on one row of each bundle.
fn spread(w: u32, x: u32, y: u32, z: u32) -> Rows
    ensures { result ≡ d_rows w x y z }
{
    let u = w ^ x;
    let v = y ^ z;
    Rows {
        x0: x ^ v,
        x1: w ^ v,
        x2: u ^ z,
        x3: u ^ y,
    }
}

// The constant of round r on digit b of the rows.
fn marked(s: Rows, r: u32, b: u32) -> Rows
    requires { (r < 12) × (b < 4) }
    ensures { result ≡ add (shifted b (W r)) s }
{
    let w = Rows::constant(r);
    s ^ Rows {
        x0: w.x0 << b,
        x1: w.x1 << b,
        x2: w.x2 << b,
        x3: w.x3 << b,
    }
}

impl Bundles {
    // A layer on each bundle.
    fn each<F: Fn(Rows) -> Rows>(self, f: F) -> Bundles
        requires { F.IsAlwaysCallable f }
        ensures { F.post f self.b0 result.b0 × F.post f self.b1 result.b1 × F.post f self.b2 result.b2
            × F.post f self.b3 result.b3 }
    {
        Bundles {
            b0: f(self.b0),
            b1: f(self.b1),
            b2: f(self.b2),
            b3: f(self.b3),
        }
    }

    // The diffusion layer, row by row.
    #[tactic(auto, unfolding(crate::specs::Shadow::d_rows, crate::specs::Shadow::d_bundle, crate::specs::Shadow::d_layer))]
    fn diffuse(self) -> Bundles
        ensures { result ≡ d_layer self }
    {
        let r0 = spread(self.b0.x0, self.b1.x0, self.b2.x0, self.b3.x0);
        let r1 = spread(self.b0.x1, self.b1.x1, self.b2.x1, self.b3.x1);
        let r2 = spread(self.b0.x2, self.b1.x2, self.b2.x2, self.b3.x2);
        let r3 = spread(self.b0.x3, self.b1.x3, self.b2.x3, self.b3.x3);
        Bundles {
            b0: Rows {
                x0: r0.x0,
                x1: r1.x0,
                x2: r2.x0,
                x3: r3.x0,
            },
            b1: Rows {
                x0: r0.x1,
                x1: r1.x1,
                x2: r2.x1,
                x3: r3.x1,
            },
            b2: Rows {
                x0: r0.x2,
                x1: r1.x2,
                x2: r2.x2,
                x3: r3.x2,
            },
            b3: Rows {
                x0: r0.x3,
                x1: r1.x3,
                x2: r2.x3,
                x3: r3.x3,
            },
        }
    }

    // Bundle b takes the constant on its digit b.
    #[tactic(auto, unfolding(crate::specs::Shadow::with_constant))]
    fn with_constant(self, r: u32) -> Bundles
        requires { r < 12 }
        ensures { result ≡ with_constant (W r) self }
    {
        Bundles {
            b0: marked(self.b0, r, 0),
            b1: marked(self.b1, r, 1),
            b2: marked(self.b2, r, 2),
            b3: marked(self.b3, r, 3),
        }
    }

    // The layers of round r: an even one is a round A, an odd one a round B. Only the round's number steers the branch.
    #[tactic(auto, unfolding(crate::specs::Shadow::each, crate::specs::Shadow::layers))]
    fn layers(self, r: u32) -> Bundles
        ensures { result ≡ layersOf r self }
    {
        if r % 2 == 0 {
            self.each(bundle)
        } else {
            self.each(Rows::substitute).diffuse()
        }
    }

    // Round r of the twelve.
    #[tactic(auto, unfolding(crate::specs::Shadow::round))]
    fn round(self, r: u32) -> Bundles
        requires { r < 12 }
        ensures { result ≡ roundOf r self }
    {
        self.layers(r).with_constant(r)
    }

    // The state with a block in place of its first 32 bytes.
    pub fn replaced(self, block: &[u8]) -> Bundles
        requires { length block.now ≡ 32 }
        ensures { bundle_bytes result ≡ block.now ++ drop 32 (bundle_bytes self) }
    {
        Bundles {
            b0: Rows::load(block),
            b1: Rows::load(&block[16..]),
            ..self
        }
    }
}

impl Engine for Bundles {
    ghost width = { 64 };

    ghost most = { 12 };

    ghost BLOCK = { 32 };

    ghost bytes_of = { bundle_bytes };

    ghost round = { shadow_turn };

    const BLOCK: usize = 32;

    fn load(state: &[u8]) -> Bundles {
        Bundles {
            b0: Rows::load(state),
            b1: Rows::load(&state[16..]),
            b2: Rows::load(&state[32..]),
            b3: Rows::load(&state[48..]),
        }
    }

    fn store(self, state: &mut [u8]) {
        self.b0.store(state);
        self.b1.store(&mut state[16..]);
        self.b2.store(&mut state[32..]);
        self.b3.store(&mut state[48..]);
    }

    fn run(self, from: u32, count: u32) -> Bundles {
        let mut bundles = self;
        for i in from..from + count {
            bundles = bundles.round(i);
        }
        bundles
    }

    // The block goes into the first two bundles.
    fn absorbed(self, block: &[u8]) -> Bundles {
        Bundles {
            b0: self.b0 ^ Rows::load(block),
            b1: self.b1 ^ Rows::load(&block[16..]),
            ..self
        }
    }

    fn write_xored(self, out: &mut [u8], at: usize, text: &[u8]) {
        (self.b0 ^ Rows::load(&text[at..])).store(&mut out[at..]);
        (self.b1 ^ Rows::load(&text[at + 16..])).store(&mut out[at + 16..]);
    }

    ghost keeps = { shadow-keeps };

    ghost some = { lit< tt };

    ghost within = { lit≤ tt };

    ghost room = { lit≤ tt };
}
