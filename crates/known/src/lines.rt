// Lines of a file of known answers: a name and a value each, in the text format of NIST's lightweight cryptography call.
use arrayvec::ArrayVec;
use console::read_full;
use std::io;
use std::io::Read;

#[derive(Clone, Copy)]
pub enum Heading {
    End,
    Right,
    Wrong,
}

// No line that is as it should be is longer.
type Line = ArrayVec<u8, 128>;

fn next_byte(input: &mut impl Read) -> io::Result<Option<u8>> {
    let mut byte = [0u8; 1];
    let got = read_full(input, &mut byte)?;
    Ok((got == 1).then_some(byte[0]))
}

// Reads a line with its end, as far as there is room. At the end of the input there is nothing to read.
fn read_line<const N: usize>(input: &mut impl Read) -> io::Result<ArrayVec<u8, N>> {
    let mut line = ArrayVec::new();
    while !line.is_full() {
        let Some(byte) = next_byte(input)? else {
            break;
        };
        line.push(byte);
        if byte == b'\n' {
            break;
        }
    }
    Ok(line)
}

// The value of a line, if it has the name asked for and an end.
fn value_of<'a>(line: &'a Line, name: &[u8]) -> Option<&'a [u8]> {
    line.as_slice().strip_prefix(name)?.strip_suffix(b"\n")
}

// A digit's value. The files write none in small letters.
fn digit(c: u8) -> Option<u8> {
    match c {
        b'0'..=b'9' => Some(c - b'0'),
        b'A'..=b'F' => Some(c - b'A' + 10),
        _ => None,
    }
}

// The bytes that a string of hex digits spells, if it spells any and there is room for them.
fn unhex<const N: usize>(hex: &[u8]) -> Option<ArrayVec<u8, N>> {
    if hex.len() % 2 != 0 {
        return None;
    }
    let mut bytes = ArrayVec::new();
    for pair in hex.chunks_exact(2) {
        let byte = digit(pair[0])? << 4 | digit(pair[1])?;
        bytes.try_push(byte).ok()?;
    }
    Some(bytes)
}

// Reads the line of that name: its value's bytes.
pub fn read_hex<const N: usize>(
    input: &mut impl Read,
    name: &[u8],
) -> io::Result<Option<ArrayVec<u8, N>>> {
    let line = read_line(input)?;
    let Some(hex) = value_of(&line, name) else {
        return Ok(None);
    };
    Ok(unhex(hex))
}

fn is_count(line: &Line, count: u32) -> bool {
    let mut digits = itoa::Buffer::new();
    value_of(line, b"Count = ") == Some(digits.format(count).as_bytes())
}

// The line that opens a case; it must have the count that comes next.
pub fn read_heading(input: &mut impl Read, count: u32) -> io::Result<Heading> {
    let line = read_line(input)?;
    if line.is_empty() {
        return Ok(Heading::End);
    }
    if is_count(&line, count) {
        return Ok(Heading::Right);
    }
    Ok(Heading::Wrong)
}

pub fn read_empty_line(input: &mut impl Read) -> io::Result<bool> {
    let line = read_line::<2>(input)?;
    Ok(line.as_slice() == b"\n".as_slice())
}
