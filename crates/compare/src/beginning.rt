// A beginning as the case file has it: what is lent, the number and the record that it must hand out.
use crate::direction::Direction;
use crate::jobs::Course;
use crate::outcome::Outcome;
use crate::records::is_record;
use crate::room::Room;
use case_file::parts::first;
use case_file::reading;
use case_file::verdict::{What, answered, unless};
use isap::{Answer, Begun};
use std::io;
use std::io::Read;

// The tag that is lent has 16 bytes from the file, with zeros behind them.
fn begun(
    input: &mut impl Read,
    direction: Direction,
    instance: u32,
    room: &Room,
) -> io::Result<Begun> {
    let key = first(&room.key, usize::from(reading::byte(input)?));
    let nonce = first(&room.nonce, usize::from(reading::byte(input)?));
    let t = usize::from(reading::byte(input)?);
    let a = reading::four(input)?;
    let m = reading::four(input)?;
    let mut tag = [0u8; 32];
    reading::string(input, &mut tag[..16])?;
    Ok(match direction {
        Direction::Sealing => isap::begin_seal(instance, key, nonce, a, m),
        Direction::Opening => isap::begin_open(instance, key, nonce, first(&tag, t), a, m),
    })
}

// A beginning, and its slices if the case has any.
pub fn case(input: &mut impl Read, sliced: bool) -> io::Result<Outcome> {
    let direction = Direction::from(reading::byte(input)?);
    let instance = reading::four(input)?;
    let room = Room::filled(reading::eight(input)?);
    let begun = begun(input, direction, instance, &room)?;
    let answer = Answer {
        number: begun.number,
        rounds: begun.rounds,
    };
    let number = u32::from(reading::byte(input)?);
    let record = reading::bytes(input)?;
    let as_recorded = is_record(&begun.job, &record);
    let verdict = answered(answer, Answer { number, rounds: 0 }, 0).or(unless(
        as_recorded,
        What::Record,
        0,
    ));
    let outcome = Outcome::from(verdict);
    if !sliced {
        return Ok(outcome);
    }
    Course::new(begun.job, record, room, outcome).run(input)
}
