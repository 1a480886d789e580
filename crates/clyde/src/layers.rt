// The layers of a round: S-box, L-box and the addition of a constant or a tweakey, with the inverses of the first two.
ghost use Rattle.std.specs.Prelude.{◌≡◌, ◌<◌};
ghost use Rattle.std.specs.Int.Bits.{bit_xor};
ghost use Rattle.bits.specs.Rotate.{rotr};
ghost use Rattle.clyde.specs.Components.{add, s_layer, s_inverse, lbox, lbox_inverse, on_pairs, W};

use crate::{Pair, Rows};
use std::ops::BitXor;

// The addition of a constant or a tweakey.
impl BitXor for Rows {
    type Output = Rows;

    ghost bitxor_gives = { λ s k r. r ≡ add k s };

    #[tactic(auto, unfolding(crate::specs::Components::add))]
    fn bitxor(self, rhs: Rows) -> Rows {
        Rows {
            x0: self.x0 ^ rhs.x0,
            x1: self.x1 ^ rhs.x1,
            x2: self.x2 ^ rhs.x2,
            x3: self.x3 ^ rhs.x3,
        }
    }
}

// x ⊕ rot(y, n)
fn mixed(x: u32, y: u32, n: u32) -> u32
    requires { n < 32 }
    ensures { result ≡ bit_xor x (rotr 32 n y) }
{
    x ^ y.rotate_right(n)
}

impl Pair {
    // The L-box, line by line as in section 3.4.
    #[tactic(auto, using(crate::proofs::Lbox::lbox_formula_lem), unfolding(crate::specs::Lbox::lbox_formula))]
    fn diffuse(self) -> Pair
        ensures { result ≡ lbox self }
    {
        let a1 = mixed(self.a, self.a, 12);
        let b1 = mixed(self.b, self.b, 12);
        let a2 = mixed(a1, a1, 3);
        let b2 = mixed(b1, b1, 3);
        let a3 = mixed(a2, self.a, 17);
        let b3 = mixed(b2, self.b, 17);
        let c = mixed(a3, a3, 31);
        let d = mixed(b3, b3, 31);
        let a4 = mixed(a3, d, 26);
        let b4 = mixed(b3, c, 25);
        Pair {
            a: mixed(a4, c, 15),
            b: mixed(b4, d, 15),
        }
    }

    // Its inverse, by Appendix F.
    fn diffuse_back(self) -> Pair
        ensures { result ≡ lbox_inverse self }
    {
        let a1 = mixed(self.a, self.a, 25);
        let b1 = mixed(self.b, self.b, 25);
        let c1 = mixed(self.a, a1, 31);
        let d1 = mixed(self.b, b1, 31);
        let c2 = mixed(c1, a1, 20);
        let d2 = mixed(d1, b1, 20);
        let a2 = mixed(c2, c2, 31);
        let b2 = mixed(d2, d2, 31);
        let c3 = mixed(c2, b2, 26);
        let d3 = mixed(d2, a2, 25);
        let a3 = mixed(a2, c3, 17);
        let b3 = mixed(b2, d3, 17);
        Pair {
            a: a3.rotate_right(16),
            b: b3.rotate_right(16),
        }
    }
}

impl Rows {
    // The S-box on all 32 columns at once.
    #[tactic(auto, using(crate::proofs::Sbox::s_formula_lem), unfolding(crate::specs::Sbox::s_formula))]
    pub fn substitute(self) -> Rows
        ensures { result ≡ s_layer self }
    {
        let y1 = (self.x0 & self.x1) ^ self.x2;
        let y0 = (self.x3 & self.x0) ^ self.x1;
        let y3 = (y1 & self.x3) ^ self.x0;
        let y2 = (y0 & y1) ^ self.x3;
        Rows {
            x0: y0,
            x1: y1,
            x2: y2,
            x3: y3,
        }
    }

    // Its inverse, by Appendix E.
    #[tactic(auto, unfolding(crate::specs::Components::s_inverse))]
    pub(crate) fn substitute_back(self) -> Rows
        ensures { result ≡ s_inverse self }
    {
        let y3 = (self.x0 & self.x1) ^ self.x2;
        let y0 = (self.x1 & y3) ^ self.x3;
        let y1 = (y3 & y0) ^ self.x0;
        let y2 = (y0 & y1) ^ self.x1;
        Rows {
            x0: y0,
            x1: y1,
            x2: y2,
            x3: y3,
        }
    }

    // A function of pairs on rows 0 and 1, and on rows 2 and 3.
    fn on_pairs<F: Fn(Pair) -> Pair>(self, f: F) -> Rows
        requires { F.IsAlwaysCallable f }
        ensures { F.post f (record { a = self.x0; b = self.x1 }) (record { a = result.x0; b = result.x1 })
            × F.post f (record { a = self.x2; b = self.x3 }) (record { a = result.x2; b = result.x3 }) }
    {
        let u = f(Pair {
            a: self.x0,
            b: self.x1,
        });
        let l = f(Pair {
            a: self.x2,
            b: self.x3,
        });
        Rows {
            x0: u.a,
            x1: u.b,
            x2: l.a,
            x3: l.b,
        }
    }

    // The L-box layer.
    #[tactic(auto, unfolding(crate::specs::Components::on_pairs))]
    pub fn mix(self) -> Rows
        ensures { result ≡ on_pairs lbox self }
    {
        self.on_pairs(Pair::diffuse)
    }

    // Its inverse.
    #[tactic(auto, unfolding(crate::specs::Components::on_pairs))]
    pub(crate) fn mix_back(self) -> Rows
        ensures { result ≡ on_pairs lbox_inverse self }
    {
        self.on_pairs(Pair::diffuse_back)
    }

    // The constant of round r: a row's bits for the twelve rounds stand in one number, so no table is read. A type for r < 12 would be no
    // plainer: rounds are counted in plain numbers, so it would be made anew at each.
    pub fn constant(r: u32) -> Rows
        requires { r < 12 }
        ensures { result ≡ W r }
    {
        Rows {
            x0: (0x591 >> r) & 1,
            x1: (0xeb2 >> r) & 1,
            x2: (0xd64 >> r) & 1,
            x3: (0xac8 >> r) & 1,
        }
    }
}
