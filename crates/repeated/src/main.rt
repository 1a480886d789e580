// Builds parcels with a counter that is used twice, then with the one that was handed back, and prints them: the worked example of
// docs/COUNTERS.md, whose lines are the second program's (tests/second).
#![tactic(auto)]

use case_file::parts::first;
use std::io::Write;
use std::{fmt, io};

const INSTANCE: u32 = 1;

const STATION: u16 = 12;

// Bytes of a parcel's header.
const HEADER: usize = 15;

// The last counter that the mast had used.
const LAST: u64 = 40;

const KEY: [u8; 16] = [0, 1, 2, 3, 4, 5, 6, 7, 8, 9, 10, 11, 12, 13, 14, 15];

// A row of bytes in hex, each with a space before it.
#[derive(Clone, Copy)]
struct Row<'a>(&'a [u8]);

impl fmt::Display for Row<'_> {
    fn fmt<W: fmt::Write>(&self, f: &mut fmt::Formatter<W>) -> fmt::Result {
        for byte in self.0 {
            write!(f, " {byte:02x}")?;
        }
        Ok(())
    }
}

// A row of bytes, each xored with the other row's byte at its place.
#[derive(Clone, Copy)]
struct Xored<'a>(&'a [u8], &'a [u8]);

impl fmt::Display for Xored<'_> {
    fn fmt<W: fmt::Write>(&self, f: &mut fmt::Formatter<W>) -> fmt::Result {
        for (a, b) in self.0.iter().zip(self.1) {
            let byte = *a ^ *b;
            write!(f, " {byte:02x}")?;
        }
        Ok(())
    }
}

// Builds the parcel of a text with the counter after `last`, and says what was answered.
fn build(
    to: &mut impl Write,
    name: &str,
    last: u64,
    text: &[u8],
    out: &mut [u8],
) -> io::Result<()> {
    let built = parcel::build(INSTANCE, &KEY, STATION, last, text, out);
    writeln!(
        to,
        "{name}, last counter {last}: number {}, counter {}",
        built.number, built.counter
    )
}

fn say_texts(to: &mut impl Write, a: &[u8], b: &[u8]) -> io::Result<()> {
    writeln!(to, "text A   {}", Row(a))?;
    writeln!(to, "text B   {}", Row(b))?;
    writeln!(to, "xor      {}", Xored(a, b))
}

// Two parcels: their headers, their ciphertexts and the xor of these.
fn say_parcels(to: &mut impl Write, a: &[u8], b: &[u8]) -> io::Result<()> {
    writeln!(to, "header A {}", Row(first(a, HEADER)))?;
    writeln!(to, "header B {}", Row(first(b, HEADER)))?;
    let a = parcel::cipher(a);
    let b = parcel::cipher(b);
    writeln!(to, "sealed A {}", Row(a))?;
    writeln!(to, "sealed B {}", Row(b))?;
    writeln!(to, "xor      {}", Xored(a, b))
}

// One counter for two texts of equal length. Gives the parcel of the first.
fn twice(to: &mut impl Write, a: &[u8], b: &[u8]) -> io::Result<[u8; 49]> {
    let mut parcel_a = [0u8; 49];
    let mut parcel_b = [0u8; 49];
    build(to, "\ntext A", LAST, a, &mut parcel_a)?;
    build(to, "text B", LAST, b, &mut parcel_b)?;
    say_parcels(to, &parcel_a, &parcel_b)?;
    Ok(parcel_a)
}

// The same counter again: for the first part of a text, and for what was sealed of it.
fn again(to: &mut impl Write, a: &[u8], sealed: &[u8]) -> io::Result<()> {
    let mut short = [0u8; 42];
    build(
        to,
        "\nthe first 11 bytes of text A",
        LAST,
        first(a, 11),
        &mut short,
    )?;
    writeln!(to, "sealed   {}", Row(parcel::cipher(&short)))?;
    let mut back = [0u8; 49];
    build(to, "\nsealed A as a text", LAST, sealed, &mut back)?;
    writeln!(to, "sealed   {}", Row(parcel::cipher(&back)))
}

// The counter that was handed back, and the largest, which has no next.
fn next(to: &mut impl Write, b: &[u8], sealed: &[u8]) -> io::Result<()> {
    let mut parcel_b = [0u8; 49];
    build(to, "\ntext B", LAST + 1, b, &mut parcel_b)?;
    let cipher = parcel::cipher(&parcel_b);
    writeln!(to, "sealed B {}", Row(cipher))?;
    writeln!(to, "xor      {}", Xored(sealed, cipher))?;
    build(to, "\ntext B", u64::MAX, b, &mut parcel_b)
}

fn main(rt: HostRuntime) -> io::Result<()> {
    let to = &mut rt.stdout();
    let a = b"shift clock +17 us";
    let b = b"shift clock -42 us";
    say_texts(to, a, b)?;
    let parcel_a = twice(to, a, b)?;
    let sealed = parcel::cipher(&parcel_a);
    again(to, a, sealed)?;
    next(to, b, sealed)
}
