// Whole calls that are refused: the number, no rounds, and neither output nor tag touched. They are lent parts of two long
// arrays, each of one byte again and again: a text may have up to 128 bytes more than the library takes.
use crate::direction::Direction;
use crate::room::Room;
use case_file::parts::{first, within};
use case_file::reading;
use case_file::verdict::{Verdict, What, answered, unless};
use isap::Answer;
use std::io;
use std::io::Read;

// Functions of their own: an array written out where it is used is one that the prover unfolds.
fn long_text() -> [u8; 1048704] {
    [85u8; 1048704]
}

fn long_out() -> [u8; 1048704] {
    [170u8; 1048704]
}

pub fn case(input: &mut impl Read) -> io::Result<Verdict> {
    let direction = Direction::from(reading::byte(input)?);
    let instance = reading::four(input)?;
    let room = Room::filled(reading::eight(input)?);
    let key = first(&room.key, usize::from(reading::byte(input)?));
    let nonce = first(&room.nonce, usize::from(reading::byte(input)?));
    let assoc = first(&room.assoc, usize::from(reading::pair(input)?));
    let long = long_text();
    let text = first(&long, reading::four(input)? as usize);
    let before = long_out();
    let mut out = long_out();
    let n = within(&out, reading::four(input)? as usize);
    let mut tag = [170u8; 32];
    let t = within(&tag, usize::from(reading::byte(input)?));
    let number = u32::from(reading::byte(input)?);
    let answer = match direction {
        Direction::Sealing => isap::seal(
            instance,
            key,
            nonce,
            assoc,
            text,
            &mut out[..n],
            &mut tag[..t],
        ),
        Direction::Opening => isap::open(
            instance,
            key,
            nonce,
            assoc,
            text,
            &tag[..t],
            &mut out[..n],
        ),
    };
    Ok(
        answered(answer, Answer { number, rounds: 0 }, 1)
            .or(unless(&out[..n] == &before[..n], What::Output, 1))
            .or(unless(tag == [170u8; 32], What::Tag, 1)),
    )
}
