// The case file's numbers, the most significant byte first, and its strings. Where the input has ended, a number is zero.
ghost use Rattle.std.specs.Prelude.{ℕ, ◌<◌, ◌≤◌, IfOk, take};
ghost use Rattle.std.specs.Io.KnownBytes.{Consumes};

use console::read_full;
use isap::Answer;
use std::io;
use std::io::Read;

// The next N bytes; where the input ends before, zeros stand for the others.
pub fn bytes<const N: usize, R: Read>(input: &mut R) -> io::Result<[u8; N]>
    ensures { IfOk result (λ s. (n : ℕ) × (n ≤ N) × Consumes (R.remaining input.old) (R.remaining input.new) (take n s)) }
{
    let mut s = [0u8; N];
    read_full(input, &mut s)?;
    Ok(s)
}

pub fn byte(input: &mut impl Read) -> io::Result<u8> {
    Ok(u8::from_be_bytes(bytes(input)?))
}

pub fn pair(input: &mut impl Read) -> io::Result<u16> {
    Ok(u16::from_be_bytes(bytes(input)?))
}

pub fn four(input: &mut impl Read) -> io::Result<u32> {
    Ok(u32::from_be_bytes(bytes(input)?))
}

pub fn eight(input: &mut impl Read) -> io::Result<u64> {
    Ok(u64::from_be_bytes(bytes(input)?))
}

// A string that fills the buffer, or what the input still has of it, at the buffer's start.
pub fn string(input: &mut impl Read, s: &mut [u8]) -> io::Result<()> {
    read_full(input, s)?;
    Ok(())
}

// A string into a part of a buffer, if the buffer has it.
pub fn string_at(input: &mut impl Read, s: &mut [u8], at: usize, count: usize) -> io::Result<()> {
    match s.get_mut(at..).and_then(|rest| rest.get_mut(..count)) {
        Some(part) => string(input, part),
        None => Ok(()),
    }
}

// A string with its length before it (two bytes), to the start of a buffer: its length.
pub fn counted_string(input: &mut impl Read, s: &mut [u8]) -> io::Result<usize> {
    let count = usize::from(pair(input)?);
    string_at(input, s, 0, count)?;
    Ok(count)
}

// An answer's number (one byte) and rounds (two).
pub fn answer(input: &mut impl Read) -> io::Result<Answer>
    ensures { IfOk result (λ a. (a.number < 256) × (a.rounds < 65536)) }
{
    let number = byte(input)?;
    let rounds = pair(input)?;
    Ok(Answer {
        number: u32::from(number),
        rounds: u32::from(rounds),
    })
}
