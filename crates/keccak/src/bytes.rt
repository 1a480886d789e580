// A plane of lanes as ten bytes of a slice, and back. A lane's low byte comes first.
ghost use Rattle.std.specs.Prelude.{◌≡◌, ◌++◌, ◌+◌, ◌*◌, ◌≤◌, length, take, drop};
ghost use Rattle.bits.specs.LittleEndian.{le_bytes};
ghost use Rattle.keccak.specs.Lanes.{lane_at, plane_at, plane_bytes, lanes_xored};

// The lane whose bytes start at `i`.
fn lane_at(s: &[u8], i: usize) -> u16
    requires { i + 2 ≤ length s.now }
    ensures { result ≡ lane_at s.now i }
{
    u16::from_le_bytes([s[i], s[i + 1]])
}

// The plane whose bytes start at `i`.
pub fn plane_at(s: &[u8], i: usize) -> [u16; 5]
    requires { i + 10 ≤ length s.now }
    ensures { result ≡ plane_at s.now i }
{
    // written out: through `array::from_fn` the compiler copies planes where it now copies the whole state, 15 instructions more a call
    [
        lane_at(s, i),
        lane_at(s, i + 2),
        lane_at(s, i + 4),
        lane_at(s, i + 6),
        lane_at(s, i + 8),
    ]
}

// The plane `p`, its first N lanes xored with those whose bytes start at `i`.
pub fn xored<const N: usize>(p: [u16; 5], s: &[u8], i: usize) -> [u16; 5]
    requires { (N ≤ 5) × (i + 2 * N ≤ length s.now) }
    ensures { result ≡ lanes_xored N p s.now i }
{
    let mut q = p;
    for x in 0..N {
        q[x] ^= lane_at(s, i + 2 * x);
    }
    q
}

// The two bytes of the lane `v` put at `i`.
fn put_lane(s: &mut [u8], i: usize, v: u16)
    requires { i + 2 ≤ length s.old }
    ensures { s.new ≡ take i s.old ++ (le_bytes 2 v ++ drop (i + 2) s.old) }
{
    let [low, high] = v.to_le_bytes();
    s[i] = low;
    s[i + 1] = high;
}

// The bytes of the first N lanes of the plane `p` put at `i`.
pub fn put<const N: usize>(s: &mut [u8], i: usize, p: [u16; 5])
    requires { (N ≤ 5) × (i + 2 * N ≤ length s.old) }
    ensures { s.new ≡ take i s.old ++ (take (2 * N) (plane_bytes p) ++ drop (i + 2 * N) s.old) }
{
    for x in 0..N {
        put_lane(s, i + 2 * x, p[x]);
    }
}
