// An image of the largest length, sealed and opened by the task in turns of 1,000 rounds, and a forged record of one byte more. The second
// program (tests/second/src/tasks/images.rs) has the same.
use crate::beginnings::{Beginning, seed, wrong};
use crate::lines::Line;
use crate::records;
use case_file::filling::{Sequence, checksum};
use isap::Job;
use std::io;
use std::io::Write;

const INDEX: u32 = 5;

const ASSOC: u32 = 256;

const TEXT: u32 = 1048576;

const BUDGET: u32 = 1000;

// More turns than a job of an image has.
const ENOUGH: u32 = 4000;

// A function of its own: an array written out where it is used is one that the prover unfolds.
fn zeros() -> [u8; 1048576] {
    [0u8; 1048576]
}

// What every run of an image is given.
#[derive(Clone, Copy)]
struct Given {
    beginning: Beginning,
    data: [u8; 256],
    // of what stands in the output before a run
    before: u64,
}

impl Given {
    // Key, nonce, associated data and image by one sequence, in this order.
    fn filled(instance: u32, image: &mut [u8]) -> Self {
        let start = seed(instance, INDEX);
        let mut sequence = Sequence::new(start);
        let given = Given {
            beginning: Beginning::filled(&mut sequence, instance, ASSOC, TEXT),
            data: sequence.array(),
            before: start + 1,
        };
        sequence.fill(image);
        given
    }

    // A record of a text of one byte more than the limit allows.
    fn forged(self) -> Job {
        let mut job = self.beginning.sealing();
        job.text = TEXT + 1;
        job
    }

    // Runs the task on a record, says the line, and hands the record back.
    fn said(
        self,
        to: &mut impl Write,
        name: &str,
        job: Job,
        text: &[u8],
        out: &mut [u8],
        turns: u32,
    ) -> io::Result<Job> {
        let kept = task::run(job, &self.data, text, out, BUDGET, turns);
        let line = Line {
            name,
            beginning: self.beginning,
            budget: BUDGET,
            turns,
            kept,
            sum: records::sum(kept.job),
        };
        let sum = checksum(out);
        writeln!(to, "{line} {sum:016x}")?;
        Ok(kept.job)
    }

    // In part by one run of the task, and to the end by another. Hands back the tag.
    fn sealed(self, to: &mut impl Write, image: &[u8], cipher: &mut [u8]) -> io::Result<[u8; 16]> {
        Sequence::new(self.before).fill(cipher);
        let job = self.beginning.sealing();
        let turns = amid_the_image(self.beginning.instance);
        let amid = self.said(to, "part", job, image, cipher, turns)?;
        let ended = self.said(to, "rest", amid, image, cipher, ENOUGH)?;
        Ok(ended.tag)
    }

    fn opened(
        self,
        to: &mut impl Write,
        name: &str,
        tag: [u8; 16],
        cipher: &[u8],
        out: &mut [u8],
    ) -> io::Result<()> {
        Sequence::new(self.before).fill(out);
        let job = self.beginning.opening(tag);
        self.said(to, name, job, cipher, out, ENOUGH)?;
        Ok(())
    }
}

// Turns after which some of the image is sealed and some is not.
fn amid_the_image(instance: u32) -> u32 {
    match instance {
        1 => 700,
        2 => 1000,
        3 => 400,
        4 => 600,
        _ => 200,
    }
}

// Sealed, and opened with the tag and with a wrong one, and what cannot stand.
pub fn of_instance(to: &mut impl Write, instance: u32) -> io::Result<()> {
    let mut image = zeros();
    let mut cipher = zeros();
    let mut out = zeros();
    let given = Given::filled(instance, &mut image);
    let tag = given.sealed(to, &image, &mut cipher)?;
    given.opened(to, "open", tag, &cipher, &mut out)?;
    given.opened(to, "wrong", wrong(tag), &cipher, &mut out)?;
    given.said(to, "forged", given.forged(), &cipher, &mut out, ENOUGH)?;
    Ok(())
}
