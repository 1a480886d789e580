// θ: each bit is added the parities of two columns.
ghost use Rattle.std.specs.Prelude.{◌≡◌};
ghost use Rattle.keccak.specs.Agree.{Agree};
ghost use Rattle.keccak.specs.Fips202.{θ};
ghost use Rattle.keccak.specs.Lanes.{array_of, five, added_lane, parity_lane, effect_lane};

use std::array;

// Two planes added, lane by lane.
fn added(p: [u16; 5], q: [u16; 5]) -> [u16; 5]
    ensures { result ≡ five (added_lane p q) }
{
    array::from_fn(|x| p[x] ^ q[x])
}

// The parities of the columns, a lane for each x: the sum of the five planes.
fn parities(a: [[u16; 5]; 5]) -> [u16; 5]
    ensures { result ≡ five (parity_lane a) }
{
    added(added(added(added(a[0], a[1]), a[2]), a[3]), a[4])
}

// What each column is added: the parity on its left, and the parity on its right, turned by one.
fn effects(c: [u16; 5]) -> [u16; 5]
    ensures { result ≡ five (effect_lane c) }
{
    let [c0, c1, c2, c3, c4] = c;
    [
        c4 ^ c1.rotate_left(1),
        c0 ^ c2.rotate_left(1),
        c1 ^ c3.rotate_left(1),
        c2 ^ c4.rotate_left(1),
        c3 ^ c0.rotate_left(1),
    ]
}

pub fn theta(a: [[u16; 5]; 5]) -> [[u16; 5]; 5]
    ensures { Agree (array_of result) (θ (array_of a)) }
{
    let d = effects(parities(a));
    // written out: through `map` or `array::from_fn` the search did not prove what the five planes are
    [
        added(a[0], d),
        added(a[1], d),
        added(a[2], d),
        added(a[3], d),
        added(a[4], d),
    ]
}
