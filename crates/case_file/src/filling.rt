// What stands in a buffer before a case, named by a seed, and the checksum of long outputs. The second program
// (tests/second/src/filling.rs) has the same rules.
ghost use Rattle.std.specs.Prelude.{◌≡◌, length};
ghost use Rattle.case_file.specs.Filling.{stirred, steps, lowest_bytes};

// A step of the sequence: x ^= x << 13, x ^= x >> 7, x ^= x << 17, on 64 bits.
fn stirred(x: u64) -> u64
    ensures { result ≡ stirred x }
{
    let a = x ^ (x << 13);
    let b = a ^ (a >> 7);
    b ^ (b << 17)
}

// The sequence of a seed, as far as it was used.
#[derive(Clone, Copy)]
pub struct Sequence {
    pub state: u64,
}

impl Sequence {
    pub fn new(seed: u64) -> Self
        ensures { result.state ≡ seed }
    {
        Sequence { state: seed }
    }

    // For each byte of the buffer a step, and then its lowest byte.
    pub fn fill(&mut self, s: &mut [u8])
        ensures bytes { s.new ≡ lowest_bytes (length s.old) self.old.state }
        ensures goes_on { self.new.state ≡ steps (length s.old) self.old.state }
    {
        for b in s.iter_mut() {
            self.state = stirred(self.state);
            *b = (self.state % 256) as u8;
        }
    }

    // An array filled.
    pub fn array<const N: usize>(&mut self) -> [u8; N]
        ensures bytes { result ≡ lowest_bytes N self.old.state }
        ensures goes_on { self.new.state ≡ steps N self.old.state }
    {
        let mut s = [0u8; N];
        self.fill(&mut s);
        s
    }
}

// From 1 on, each byte is xored in, and a step follows.
pub fn checksum(s: &[u8]) -> u64 {
    s.iter().fold(1, |sum, &b| stirred(sum ^ u64::from(b)))
}
