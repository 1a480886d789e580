// χ: each bit is added the product of the two on its right, the first of them inverted.
ghost use Rattle.std.specs.Prelude.{◌≡◌};
ghost use Rattle.keccak.specs.Agree.{Agree};
ghost use Rattle.keccak.specs.Fips202.{χ};
ghost use Rattle.keccak.specs.Lanes.{array_of, five, chi_lane};

// One plane, with three inversions for five: `b ^ (!c & d)` is `!b ^ (c | !d)`. The order of the five spares copies of lanes.
fn mixed(p: [u16; 5]) -> [u16; 5]
    ensures { result ≡ five (chi_lane p) }
{
    let [a, b, c, d, e] = p;
    let na = !a;
    let nb = !b;
    let nd = !d;
    let m0 = a ^ (nb & c);
    let m2 = c ^ (nd & e);
    let m4 = e ^ (na & b);
    let m3 = nd ^ (e | na);
    let m1 = nb ^ (c | nd);
    [m0, m1, m2, m3, m4]
}

// The planes from the last to the first, as `rho_pi` makes them.
pub fn chi(a: [[u16; 5]; 5]) -> [[u16; 5]; 5]
    ensures { Agree (array_of result) (χ (array_of a)) }
{
    let p4 = mixed(a[4]);
    let p3 = mixed(a[3]);
    let p2 = mixed(a[2]);
    let p1 = mixed(a[1]);
    let p0 = mixed(a[0]);
    [p0, p1, p2, p3, p4]
}
