// Jobs in slices, begun or forged: after each slice number, rounds, the whole record and the whole output are compared.
use crate::outcome::Outcome;
use crate::records;
use crate::records::is_record;
use crate::room::Room;
use case_file::parts::{first, within};
use case_file::reading;
use case_file::verdict::{What, answered, unless};
use isap::{Answer, Job};
use std::io;
use std::io::Read;

// A place or a length of a run of bytes that a slice changes: in a record it is short.
fn number(input: &mut impl Read, short: bool) -> io::Result<usize> {
    if short {
        return Ok(usize::from(reading::byte(input)?));
    }
    Ok(usize::from(reading::pair(input)?))
}

// What a slice changes: runs of bytes, each with its place and its length.
fn changes(input: &mut impl Read, s: &mut [u8], short: bool) -> io::Result<()> {
    for _ in 0..reading::byte(input)? {
        let at = number(input, short)?;
        let count = number(input, short)?;
        reading::string_at(input, s, at, count)?;
    }
    Ok(())
}

// What a slice is lent and allowed, and what it must answer.
#[derive(Clone, Copy)]
struct Cut {
    assoc: usize,
    text: usize,
    out: usize,
    budget: u32,
    answer: Answer,
}

impl Cut {
    fn read(input: &mut impl Read) -> io::Result<Self> {
        Ok(Cut {
            assoc: usize::from(reading::pair(input)?),
            text: usize::from(reading::pair(input)?),
            out: usize::from(reading::pair(input)?),
            budget: reading::four(input)?,
            answer: reading::answer(input)?,
        })
    }
}

// A job on its way through its slices, with the room whose parts it is lent.
#[derive(Clone, Copy)]
pub struct Course {
    job: Job,
    room: Room,
    // what the record and the room's output must be
    record: [u8; 212],
    written: [u8; 4200],
    outcome: Outcome,
}

impl Course {
    pub fn new(job: Job, record: [u8; 212], room: Room, outcome: Outcome) -> Self {
        let written = room.out;
        Course {
            job,
            room,
            record,
            written,
            outcome,
        }
    }

    fn slice(&mut self, cut: Cut) -> Answer {
        let Room {
            assoc,
            text,
            out,
            ..
        } = &mut self.room;
        let n = within(&out[..], cut.out);
        let sliced = isap::slice(
            self.job,
            first(&assoc[..], cut.assoc),
            first(&text[..], cut.text),
            &mut out[..n],
            cut.budget,
        );
        self.job = sliced.job;
        sliced.into()
    }

    fn step(&mut self, input: &mut impl Read) -> io::Result<()> {
        let cut = Cut::read(input)?;
        changes(input, &mut self.record, true)?;
        changes(input, &mut self.written, false)?;
        let answer = self.slice(cut);
        let call = self.outcome.slices.wrapping_add(1);
        let as_recorded = is_record(&self.job, &self.record);
        let verdict = self
            .outcome
            .verdict
            .or(answered(answer, cut.answer, call))
            .or(unless(as_recorded, What::Record, call))
            .or(unless(self.room.out == self.written, What::Output, call));
        self.outcome = Outcome {
            verdict,
            slices: call,
        };
        Ok(())
    }

    // All its slices.
    pub fn run(mut self, input: &mut impl Read) -> io::Result<Outcome> {
        for _ in 0..reading::pair(input)? {
            self.step(input)?;
        }
        Ok(self.outcome)
    }
}

// A forged record and its slices.
pub fn forged(input: &mut impl Read) -> io::Result<Outcome> {
    let room = Room::filled(reading::eight(input)?);
    let record = reading::bytes(input)?;
    let job = records::record(&record);
    Course::new(job, record, room, Outcome::from(None)).run(input)
}
