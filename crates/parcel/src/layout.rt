// Header and nonce, byte by byte. The numbers in them are big-endian.
ghost use Rattle.std.specs.Prelude.{◌≡◌, ◌++◌, ◌+◌, ◌≤◌, length, take, drop};
ghost use Rattle.parcel.specs.Layout.{header_of, nonce_of};

use crate::Fields;

// A parcel's first two bytes.
pub const FIRST_MARK: u8 = 0xA7;

pub const SECOND_MARK: u8 = 0x5C;

// Bytes of header and tag, and of both.
pub const HEADER: usize = 15;

pub const TAG: usize = 16;

pub const ADDED: usize = 31;

// Bytes of text that a parcel can carry, which the definitions have as `most_carried`.
pub const MOST_CARRIED: u32 = 4096;

// The bytes of `part` in place of those from `at` on.
fn put(bytes: &mut [u8], at: usize, part: &[u8])
    requires { at + length part.now ≤ length bytes.old }
    ensures { bytes.new ≡ take at bytes.old ++ (part.now ++ drop (at + length part.now) bytes.old) }
{
    bytes[at..at + part.len()].copy_from_slice(part);
}

// A parcel's first 15 bytes.
pub fn header(fields: Fields) -> [u8; 15]
    ensures { result ≡ header_of fields }
{
    let mut h = [0u8; 15];
    h[0] = FIRST_MARK;
    h[1] = SECOND_MARK;
    put(&mut h, 2, &fields.instance.to_be_bytes()[3..]);
    put(&mut h, 3, &fields.station.to_be_bytes());
    put(&mut h, 5, &fields.counter.to_be_bytes());
    put(&mut h, 13, &fields.text.to_be_bytes()[2..]);
    h
}

// The nonce of a station's parcel with this counter.
pub fn nonce(station: u16, counter: u64) -> [u8; 16]
    ensures { result ≡ nonce_of station counter }
{
    let mut n = [0u8; 16];
    put(&mut n, 0, &station.to_be_bytes());
    put(&mut n, 2, &counter.to_be_bytes());
    n
}
