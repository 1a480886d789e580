// Rows as they stand in the bytes of a slice, the least significant byte of each row first.
ghost use Rattle.std.specs.Prelude.{◌≡◌, ◌++◌, ◌+◌, ◌≤◌, length, take, drop};
ghost use Rattle.bits.specs.LittleEndian.{from_le};
ghost use Rattle.clyde.specs.Clyde.{rows_of, bytes_of};

use crate::Rows;

// The row that stands at a place of a slice.
fn row_at(s: &[u8], at: usize) -> u32
    requires { at + 4 ≤ length s.now }
    ensures { result ≡ from_le (take 4 (drop at s.now)) }
{
    u32::from_le_bytes([s[at], s[at + 1], s[at + 2], s[at + 3]])
}

impl Rows {
    // The rows of a slice's first 16 bytes.
    #[tactic(auto, unfolding(crate::specs::Clyde::rows_of))]
    pub fn load(s: &[u8]) -> Rows
        requires { 16 ≤ length s.now }
        ensures { result ≡ rows_of s.now }
    {
        Rows {
            x0: row_at(s, 0),
            x1: row_at(s, 4),
            x2: row_at(s, 8),
            x3: row_at(s, 12),
        }
    }

    // The rows in place of a slice's first 16 bytes.
    pub fn store(self, s: &mut [u8])
        requires { 16 ≤ length s.old }
        ensures { s.new ≡ bytes_of self ++ drop 16 s.old }
    {
        s[..4].copy_from_slice(&self.x0.to_le_bytes());
        s[4..8].copy_from_slice(&self.x1.to_le_bytes());
        s[8..12].copy_from_slice(&self.x2.to_le_bytes());
        s[12..16].copy_from_slice(&self.x3.to_le_bytes());
    }
}
