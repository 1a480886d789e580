// Runs the cases of document 01, and of document 02 the empty heartbeats and texts around the limit, over the library's calls and prints
// what they answer. Byte strings are compared here, one buffer with another; the file stdout holds the documents' numbers.
#![tactic(auto)]

mod heartbeats;

ghost use Rattle.std.specs.Prelude.{◌≤◌};

use heartbeats::heartbeat;
use isap::{Answer, Job, UNDER_WAY};
use std::io::Write;
use std::{fmt, io};

const KEY: [u8; 16] = [0, 1, 2, 3, 4, 5, 6, 7, 8, 9, 10, 11, 12, 13, 14, 15];

const NONCE: [u8; 16] = [7; 16];

const TEXT: [u8; 8] = [0, 1, 2, 3, 4, 5, 6, 7];

// What an output holds before a call: not zeros, so that zeros written would show.
const BLANK: [u8; 8] = [170; 8];

// What a call answers, as it is printed.
#[derive(Clone, Copy)]
struct Answered(Answer);

impl fmt::Display for Answered {
    fn fmt<W: fmt::Write>(&self, f: &mut fmt::Formatter<W>) -> fmt::Result {
        write!(f, "number {}, rounds {}", self.0.number, self.0.rounds)
    }
}

// What a whole sealing writes.
#[derive(Clone, Copy)]
struct Sealed {
    out: [u8; 8],
    tag: [u8; 16],
}

// A job on its way through slices.
#[derive(Clone, Copy)]
struct Course {
    // the last slice's number, and the sum of what the slices said they did
    answer: Answer,
    // the rounds done when the output was last as at the start, and when it last changed
    untouched: u32,
    written: u32,
    out: [u8; 8],
    job: Job,
}

impl fmt::Display for Course {
    fn fmt<W: fmt::Write>(&self, f: &mut fmt::Formatter<W>) -> fmt::Result {
        let Course {
            answer,
            untouched,
            written,
            ..
        } = self;
        let answered = Answered(*answer);
        if self.out == BLANK {
            return write!(f, "{answered}, output untouched");
        }
        write!(
            f,
            "{answered}, output untouched after {untouched}, written after {written}"
        )
    }
}

// The word for what a comparison gave.
fn compared(same: bool) -> &'static str {
    if same { "same" } else { "different" }
}

// The same tag with one bit changed. Crate tasks has its own: this program is linked without what the second program's cases need.
fn wrong(tag: [u8; 16]) -> [u8; 16] {
    let mut t = tag;
    t[15] ^= 1;
    t
}

fn sealing() -> Job {
    isap::begin_seal(1, &KEY, &NONCE, 0, 8).job
}

fn opening(tag: [u8; 16]) -> Job {
    isap::begin_open(1, &KEY, &NONCE, &tag, 0, 8).job
}

fn step(c: Course, input: [u8; 8], budget: u32) -> Course {
    let mut out = c.out;
    let done = isap::slice(c.job, b"", &input, &mut out, budget);
    let rounds = c.answer.rounds.wrapping_add(done.rounds);
    Course {
        answer: Answer {
            number: done.number,
            rounds,
        },
        untouched: if out == BLANK { rounds } else { c.untouched },
        written: if out == c.out { c.written } else { rounds },
        out,
        job: done.job,
    }
}

// A job taken to its end. No job here has more than 400 rounds, so a budget of one round needs no more slices.
fn run(job: Job, input: [u8; 8], budget: u32) -> Course {
    let mut c = Course {
        answer: Answer {
            number: UNDER_WAY,
            rounds: 0,
        },
        untouched: 0,
        written: 0,
        out: BLANK,
        job,
    };
    for _ in 0..400 {
        if c.answer.number != UNDER_WAY {
            break;
        }
        c = step(c, input, budget);
    }
    c
}

fn beginning(to: &mut impl Write, a: u32, m: u32) -> io::Result<()> {
    let begun = isap::begin_seal(1, &KEY, &NONCE, a, m);
    writeln!(
        to,
        "beginning a sealing, a = {a}, m = {m}: number {}",
        begun.number
    )
}

fn whole(to: &mut impl Write, assoc: &[u8], input: &[u8], out: &mut [u8]) -> io::Result<()> {
    let mut tag = [0u8; 16];
    let answer = Answered(isap::seal(1, &KEY, &NONCE, assoc, input, out, &mut tag));
    let (a, m) = (assoc.len(), input.len());
    writeln!(to, "sealing whole, a = {a}, m = {m}: {answer}")
}

fn beginnings_at_the_limits(to: &mut impl Write) -> io::Result<()> {
    beginning(to, 257, 8)?;
    beginning(to, 0, 1048577)?;
    beginning(to, 257, 1048577)?;
    beginning(to, 256, 1048576)
}

// A byte more than the longest text. A function of its own: an array written out where it is used is one that the prover unfolds.
fn too_long() -> [u8; 1048577] {
    [0u8; 1048577]
}

fn whole_image(to: &mut impl Write, bytes: usize) -> io::Result<()>
    requires { bytes ≤ 1048577 }
{
    let image = too_long();
    let mut out = too_long();
    whole(to, b"", &image[..bytes], &mut out[..bytes])
}

fn whole_calls_with_too_much_data(to: &mut impl Write) -> io::Result<()> {
    let assoc = [0u8; 257];
    let short = [0u8; 8];
    let mut short_out = [0u8; 8];
    whole(to, &assoc, &short, &mut short_out)?;
    let long = too_long();
    let mut long_out = too_long();
    whole(to, &assoc, &long, &mut long_out)
}

fn seal_whole(to: &mut impl Write) -> io::Result<Sealed> {
    let mut out = BLANK;
    let mut tag = [0u8; 16];
    let answer = Answered(isap::seal(1, &KEY, &NONCE, b"", &TEXT, &mut out, &mut tag));
    writeln!(to, "sealing whole: {answer}")?;
    Ok(Sealed { out, tag })
}

// Hands back the ended record.
fn seal_sliced(to: &mut impl Write, whole: Sealed, budget: u32) -> io::Result<Job> {
    let c = run(sealing(), TEXT, budget);
    let out = compared(c.out == whole.out);
    let tag = compared(c.job.tag == whole.tag);
    writeln!(
        to,
        "sealing in slices of {budget}: {c}, ciphertext {out}, tag {tag}"
    )?;
    Ok(c.job)
}

// An opening of what was sealed, by a whole call: its answer, and the output.
fn open_whole(s: Sealed, tag: [u8; 16]) -> (Answered, [u8; 8]) {
    let mut out = BLANK;
    let answer = isap::open(1, &KEY, &NONCE, b"", &s.out, &tag, &mut out);
    (Answered(answer), out)
}

fn opened_whole(to: &mut impl Write, s: Sealed) -> io::Result<()> {
    let (answer, out) = open_whole(s, wrong(s.tag));
    let kept = compared(out == BLANK);
    writeln!(
        to,
        "opening whole, wrong tag: {answer}, output and what it held {kept}"
    )?;
    let (answer, out) = open_whole(s, s.tag);
    let opened = compared(out == TEXT);
    writeln!(
        to,
        "opening whole, right tag: {answer}, output and text {opened}"
    )
}

// Hands back the record that a wrong tag ended.
fn opened_sliced(to: &mut impl Write, s: Sealed, budget: u32) -> io::Result<Job> {
    let refused = run(opening(wrong(s.tag)), s.out, budget);
    writeln!(to, "opening in slices of {budget}, wrong tag: {refused}")?;
    let opened = run(opening(s.tag), s.out, budget);
    let text = compared(opened.out == TEXT);
    writeln!(
        to,
        "opening in slices of {budget}, right tag: {opened}, output and text {text}"
    )?;
    Ok(refused.job)
}

// One slice, and whether it left the output alone.
fn once(to: &mut impl Write, words: &str, job: Job, budget: u32) -> io::Result<()> {
    let mut out = BLANK;
    let answer = Answered(isap::slice(job, b"", &TEXT, &mut out, budget).into());
    let kept = compared(out == BLANK);
    writeln!(
        to,
        "{words}, budget {budget}: {answer}, output and what it held {kept}"
    )
}

fn main(rt: HostRuntime) -> io::Result<()> {
    let to = &mut rt.stdout();
    beginnings_at_the_limits(to)?;
    whole_calls_with_too_much_data(to)?;
    for bytes in 1048575..1048578 {
        whole_image(to, bytes)?;
    }
    let s = seal_whole(to)?;
    seal_sliced(to, s, 1)?;
    seal_sliced(to, s, 7)?;
    let ended = seal_sliced(to, s, 1000)?;
    opened_whole(to, s)?;
    opened_sliced(to, s, 1)?;
    opened_sliced(to, s, 7)?;
    let stopped = opened_sliced(to, s, 1000)?;
    once(to, "a sealing begun", sealing(), 0)?;
    once(to, "an opening begun", opening(s.tag), 0)?;
    once(to, "a sealing ended", ended, 1)?;
    once(to, "an opening ended by a wrong tag", stopped, 1)?;
    for instance in 1..6 {
        heartbeat(to, instance)?;
    }
    Ok(())
}
