// Strings cut and damaged.
ghost use Rattle.console.specs.Counts.{IsPrefixLen};

// A length kept within a string's.
pub fn within(s: &[u8], count: usize) -> usize
    ensures { IsPrefixLen result s.now }
{
    count.min(s.len())
}

// The first bytes of a string, or all that it has.
pub fn first(s: &[u8], count: usize) -> &[u8] {
    &s[..within(s, count)]
}

// The bits of one byte changed, if the string has it.
pub fn damage(s: &mut [u8], at: usize, bits: u8) {
    if let Some(byte) = s.get_mut(at) {
        *byte ^= bits;
    }
}
