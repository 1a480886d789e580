// Messages: sealed (call 1), opened again (2), and opened with one thing damaged (3).
use crate::room::Room;
use crate::shown::is_shown;
use case_file::parts::{damage, first, within};
use case_file::reading;
use case_file::verdict::{Verdict, What, answered, unless};
use isap::Answer;
use std::io;
use std::io::Read;

#[derive(Clone, Copy, Debug, PartialEq, Eq)]
enum Target {
    Key,
    Nonce,
    Assoc,
    Ciphertext,
    Tag,
    Instance,
    // the ciphertext is cut
    Length,
    Nothing,
}

// As the file numbers it.
impl From<u8> for Target {
    fn from(number: u8) -> Self {
        match number {
            0 => Target::Key,
            1 => Target::Nonce,
            2 => Target::Assoc,
            3 => Target::Ciphertext,
            4 => Target::Tag,
            5 => Target::Instance,
            6 => Target::Length,
            _ => Target::Nothing,
        }
    }
}

// What is damaged: bits of a byte, or the number that stands in place of instance or length.
#[derive(Clone, Copy)]
struct Harm {
    target: Target,
    at: u16,
    bits: u8,
    // of the opening that it ends
    answer: Answer,
}

// An answer with this number, whose rounds the file has.
fn expected(input: &mut impl Read, number: u32) -> io::Result<Answer> {
    let rounds = u32::from(reading::pair(input)?);
    Ok(Answer { number, rounds })
}

impl Harm {
    fn read(input: &mut impl Read) -> io::Result<Self> {
        Ok(Harm {
            target: Target::from(reading::byte(input)?),
            at: reading::pair(input)?,
            bits: reading::byte(input)?,
            answer: expected(input, 8)?,
        })
    }
}

// What the calls of a message are lent, with the lengths of associated data and text, and its tag.
#[derive(Clone, Copy)]
struct Message {
    instance: u32,
    assoc: usize,
    text: usize,
    room: Room,
    tag: [u8; 16],
}

impl Message {
    fn seal(self, out: &mut [u8], tag: &mut [u8]) -> Answer {
        let room = &self.room;
        let n = within(out, self.text);
        isap::seal(
            self.instance,
            &room.key[..16],
            &room.nonce[..16],
            first(&room.assoc, self.assoc),
            first(&room.text, self.text),
            &mut out[..n],
            tag,
        )
    }

    fn open(self, out: &mut [u8]) -> Answer {
        let room = &self.room;
        let n = within(out, self.text);
        isap::open(
            self.instance,
            &room.key[..16],
            &room.nonce[..16],
            first(&room.assoc, self.assoc),
            first(&room.text, self.text),
            &self.tag,
            &mut out[..n],
        )
    }

    fn damage(&mut self, harm: Harm) {
        let at = usize::from(harm.at);
        match harm.target {
            Target::Key => damage(&mut self.room.key, at, harm.bits),
            Target::Nonce => damage(&mut self.room.nonce, at, harm.bits),
            Target::Assoc => damage(&mut self.room.assoc, at, harm.bits),
            Target::Ciphertext => damage(&mut self.room.text, at, harm.bits),
            Target::Tag => damage(&mut self.tag, at, harm.bits),
            Target::Instance => self.instance = u32::from(harm.at),
            Target::Length => self.text = at,
            Target::Nothing => {}
        }
    }
}

fn sealed(
    input: &mut impl Read,
    message: Message,
    out: &mut [u8],
    expected: Answer,
) -> io::Result<Verdict> {
    let mut tag = [170u8; 16];
    let answer = message.seal(out, &mut tag);
    let as_shown = is_shown(input, first(out, message.text))?;
    Ok(
        answered(answer, expected, 1)
            .or(unless(tag == message.tag, What::Tag, 1))
            .or(unless(as_shown, What::Output, 1)),
    )
}

fn opened(message: Message, text: &[u8], expected: Answer) -> Verdict {
    let mut out = message.room.out;
    let answer = message.open(&mut out);
    let same = first(&out, message.text) == first(text, message.text);
    answered(answer, expected, 2).or(unless(same, What::Output, 2))
}

fn not_opened(message: Message, expected: Answer) -> Verdict {
    let mut out = message.room.out;
    let answer = message.open(&mut out);
    let kept = out == message.room.out;
    answered(answer, expected, 3).or(unless(kept, What::Output, 3))
}

pub fn case(input: &mut impl Read) -> io::Result<Verdict> {
    let instance = u32::from(reading::byte(input)?);
    let assoc = usize::from(reading::pair(input)?);
    let text = usize::from(reading::pair(input)?);
    let room = Room::filled(reading::eight(input)?);
    let sealing = expected(input, 0)?;
    let opening = expected(input, 0)?;
    let harm = Harm::read(input)?;
    let tag = reading::bytes(input)?;
    let mut message = Message {
        instance,
        assoc,
        text,
        room,
        tag,
    };
    let mut ciphertext = room.out;
    let first_call = sealed(input, message, &mut ciphertext, sealing)?;
    // as it is received, its text is the ciphertext
    message.room.text = ciphertext;
    let second_call = opened(message, &room.text, opening);
    message.damage(harm);
    let third_call = not_opened(message, harm.answer);
    Ok(first_call.or(second_call).or(third_call))
}
