// ρ and π in one: each lane goes to its new place, and is turned by its offset.
ghost use Rattle.std.specs.Prelude.{◌≡◌, ◌<◌, All};
ghost use Rattle.bits.specs.Rotate.{rotl};
ghost use Rattle.keccak.specs.Agree.{Agree};
ghost use Rattle.keccak.specs.Fips202.{ρ, π};
ghost use Rattle.keccak.specs.Lanes.{array_of, at, five, lane, turned_lane};

use std::array;

// The lanes that come to a plane, one from each plane, not turned yet.
fn moved(a: [[u16; 5]; 5], from: [usize; 5]) -> [u16; 5]
    requires { All (λ x. x < 5) from }
    ensures { result ≡ five (λ y. lane a (at from y) y) }
{
    array::from_fn(|y| a[y][from[y]])
}

// A lane turned.
fn turn(v: u16, by: u32) -> u16
    requires { by < 16 }
    ensures { result ≡ rotl 16 by v }
{
    v.rotate_left(by)
}

// The lanes of a plane, each turned by its own number.
fn turned(p: [u16; 5], by: [u32; 5]) -> [u16; 5]
    requires { All (λ r. r < 16) by }
    ensures { result ≡ five (turned_lane p by) }
{
    array::from_fn(|x| turn(p[x], by[x]))
}

// The planes from the last to the first, which spares copies of lanes.
pub fn rho_pi(a: [[u16; 5]; 5]) -> [[u16; 5]; 5]
    ensures { Agree (array_of result) (π (ρ (array_of a))) }
{
    let p4 = turned(moved(a, [2, 3, 4, 0, 1]), [14, 7, 7, 9, 2]);
    let p3 = turned(moved(a, [4, 0, 1, 2, 3]), [11, 4, 10, 15, 8]);
    let p2 = turned(moved(a, [1, 2, 3, 4, 0]), [1, 6, 9, 8, 2]);
    let p1 = turned(moved(a, [3, 4, 0, 1, 2]), [12, 4, 3, 13, 13]);
    let p0 = turned(moved(a, [0, 1, 2, 3, 4]), [0, 12, 11, 5, 14]);
    [p0, p1, p2, p3, p4]
}
