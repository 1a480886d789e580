// Buffers received: read (call 1), parted into ciphertext (2) and tag (3), and opened (4).
use crate::room::Room;
use case_file::parts::{first, within};
use case_file::reading;
use case_file::verdict::{Verdict, What, answered, unless};
use parcel::{Fields, Numbered, Refusal};
use std::io;
use std::io::Read;

fn read_fields(input: &mut impl Read) -> io::Result<Fields> {
    Ok(Fields {
        instance: u32::from(reading::byte(input)?),
        station: reading::pair(input)?,
        counter: reading::eight(input)?,
        text: u32::from(reading::pair(input)?),
    })
}

// Whether a reading is of a whole parcel with these fields, or else refused with this number.
fn is_reading(reading: Result<Fields, Refusal>, number: u32, expected: Fields) -> bool {
    match reading {
        Ok(fields) => number == 0 && fields == expected,
        Err(refusal) => refusal.number() == number,
    }
}

fn read(input: &mut impl Read, buffer: &[u8]) -> io::Result<Verdict> {
    let number = u32::from(reading::byte(input)?);
    let expected = read_fields(input)?;
    let reading = parcel::read(buffer);
    let read = is_reading(reading, number, expected);
    let numbered = parcel::number_of(reading) == number;
    let parted = parcel::fields_of(reading) == expected;
    Ok(
        unless(read, What::Reading, 1)
            .or(unless(numbered, What::Number, 1))
            .or(unless(parted, What::Fields, 1)),
    )
}

fn parted(input: &mut impl Read, buffer: &[u8]) -> io::Result<Verdict> {
    let mut expected = [0u8; 4200];
    let m = reading::counted_string(input, &mut expected)?;
    let cipher = parcel::cipher(buffer) == first(&expected, m);
    let t = reading::counted_string(input, &mut expected)?;
    let tag = parcel::tag(buffer) == first(&expected, t);
    Ok(unless(cipher, What::Ciphertext, 2).or(unless(tag, What::Tag, 3)))
}

fn opened(input: &mut impl Read, room: Room, buffer: &[u8]) -> io::Result<Verdict> {
    let key = first(&room.key, usize::from(reading::byte(input)?));
    let mut out = room.out;
    let n = within(&out, usize::from(reading::pair(input)?));
    let answer = parcel::open(key, buffer, &mut out[..n]);
    let expected = reading::answer(input)?;
    let mut written = room.out;
    reading::counted_string(input, &mut written)?;
    Ok(answered(answer, expected, 4).or(unless(out == written, What::Output, 4)))
}

pub fn case(input: &mut impl Read) -> io::Result<Verdict> {
    let room = Room::filled(reading::eight(input)?);
    let mut all = [0u8; 4200];
    let length = reading::counted_string(input, &mut all)?;
    let buffer = first(&all, length);
    let read = read(input, buffer)?;
    let parted = parted(input, buffer)?;
    let opened = opened(input, room, buffer)?;
    Ok(read.or(parted).or(opened))
}
