// Parcels built, and buildings refused: the answer, and the whole output.
use crate::room::Room;
use case_file::parts::{first, within};
use case_file::reading;
use case_file::verdict::{Verdict, What, answered, unless};
use isap::Answer;
use parcel::Built;
use std::io;
use std::io::Read;

// Builds what the sender gives, with the lengths that are lent, into an output.
fn build(input: &mut impl Read, room: Room, out: &mut [u8]) -> io::Result<Built> {
    let instance = reading::four(input)?;
    let station = reading::pair(input)?;
    let last = reading::eight(input)?;
    let key = first(&room.key, usize::from(reading::byte(input)?));
    let text = first(&room.text, usize::from(reading::pair(input)?));
    let n = within(out, usize::from(reading::pair(input)?));
    Ok(parcel::build(instance, key, station, last, text, &mut out[..n]))
}

pub fn case(input: &mut impl Read) -> io::Result<Verdict> {
    let room = Room::filled(reading::eight(input)?);
    let mut out = room.out;
    let built = build(input, room, &mut out)?;
    let answer = Answer {
        number: built.number,
        rounds: built.rounds,
    };
    let expected = reading::answer(input)?;
    let counter = reading::eight(input)?;
    let mut written = room.out;
    reading::counted_string(input, &mut written)?;
    Ok(
        answered(answer, expected, 1)
            .or(unless(built.counter == counter, What::Counter, 1))
            .or(unless(out == written, What::Output, 1)),
    )
}
