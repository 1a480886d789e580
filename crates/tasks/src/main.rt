// Runs the host task on jobs of every instance and prints a line for each run: the case, the number of the last slice, how often the
// sampler was served, the most rounds that it waited, the rounds done, the record's checksum, and the output, of an image its checksum. The
// second program (tests/second/src/tasks.rs) says what the lines must be.
#![tactic(auto)]

mod beginnings;
mod images;
mod lines;
mod messages;
mod records;
mod runs;

use beginnings::wrong;
use isap::Job;
use lines::said;
use messages::Message;
use runs::Run;
use std::io;
use std::io::Write;

// More turns than a job of these messages has rounds.
const ENOUGH: u32 = 20000;

// A run of a sealing's record, in any state, that is lent what the sealing needs.
fn of_sealing(m: Message, job: Job, budget: u32, turns: u32) -> Run {
    let text = m.plain;
    Run {
        job,
        text,
        out: m.beginning.text,
        budget,
        turns,
    }
}

fn whole_sealing(m: Message, budget: u32) -> Run {
    of_sealing(m, m.beginning.sealing(), budget, ENOUGH)
}

fn of_opening(m: Message, cipher: [u8; 100], tag: [u8; 16], budget: u32) -> Run {
    Run {
        job: m.beginning.opening(tag),
        text: cipher,
        out: m.beginning.text,
        budget,
        turns: ENOUGH,
    }
}

// Sealed, and the ciphertext opened with the tag that the sealing's record holds, and with a wrong one.
fn to_the_end(to: &mut impl Write, m: Message, budget: u32) -> io::Result<()> {
    let sealed = said(to, "seal", m, whole_sealing(m, budget))?;
    let cipher = sealed.out;
    let tag = sealed.kept.job.tag;
    said(to, "open", m, of_opening(m, cipher, tag, budget))?;
    said(to, "wrong", m, of_opening(m, cipher, wrong(tag), budget))?;
    Ok(())
}

fn by_every_budget(to: &mut impl Write, m: Message) -> io::Result<()> {
    for budget in [1, 25, 1000] {
        to_the_end(to, m, budget)?;
    }
    Ok(())
}

// The record says one round done, and its place none.
fn forged(m: Message) -> Job {
    let mut job = m.beginning.sealing();
    job.done = 1;
    job
}

// One byte less than the 41 of the text.
fn with_a_short_output(m: Message) -> Run {
    let mut run = of_sealing(m, m.beginning.sealing(), 25, 5);
    run.out = 40;
    run
}

// Turns of one round, after which some of the output's blocks are written and some are not.
fn amid_the_text(instance: u32) -> u32 {
    match instance {
        1 => 163,
        3 => 159,
        5 => 40,
        _ => 1572,
    }
}

// Turns of 25 rounds, one fewer than the sealing needs.
fn one_too_few(instance: u32) -> u32 {
    match instance {
        1 => 18,
        2 => 131,
        3 => 16,
        4 => 130,
        _ => 2,
    }
}

// Runs that have too few turns, or whose first slice is refused.
fn short_of_the_end(to: &mut impl Write, m: Message) -> io::Result<()> {
    let instance = m.beginning.instance;
    let fresh = m.beginning.sealing();
    let ended = whole_sealing(m, 25).done(m).kept.job;
    said(
        to,
        "part",
        m,
        of_sealing(m, fresh, 1, amid_the_text(instance)),
    )?;
    said(
        to,
        "cut",
        m,
        of_sealing(m, fresh, 25, one_too_few(instance)),
    )?;
    said(to, "none", m, of_sealing(m, fresh, 0, 3))?;
    said(to, "idle", m, of_sealing(m, fresh, 25, 0))?;
    said(to, "again", m, of_sealing(m, ended, 25, 5))?;
    said(to, "forged", m, of_sealing(m, forged(m), 25, 5))?;
    said(to, "other", m, with_a_short_output(m))?;
    Ok(())
}

fn of_instance(to: &mut impl Write, instance: u32) -> io::Result<()> {
    by_every_budget(to, Message::filled(instance, 1, 0, 0))?;
    by_every_budget(to, Message::filled(instance, 2, 1, 8))?;
    by_every_budget(to, Message::filled(instance, 3, 20, 41))?;
    by_every_budget(to, Message::filled(instance, 4, 256, 100))?;
    short_of_the_end(to, Message::filled(instance, 3, 20, 41))?;
    images::of_instance(to, instance)
}

fn main(rt: HostRuntime) -> io::Result<()> {
    let to = &mut rt.stdout();
    writeln!(
        to,
        "instance job assoc text budget turns number served waited done record out"
    )?;
    for instance in 1..6 {
        of_instance(to, instance)?;
    }
    Ok(())
}
