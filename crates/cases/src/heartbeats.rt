// Empty heartbeats: with neither associated data nor text there is nothing to write, and yet both of ISAP's re-keyings are done; Spook's
// opening has nothing after its decision then, and ends with it.
use crate::{Answered, KEY, NONCE, wrong};
use std::io;
use std::io::Write;

fn sealed(to: &mut impl Write, instance: u32) -> io::Result<[u8; 16]> {
    let mut tag = [0u8; 16];
    let answer = Answered(isap::seal(instance, &KEY, &NONCE, b"", b"", &mut [], &mut tag));
    writeln!(to, "heartbeat of instance {instance} sealed: {answer}")?;
    Ok(tag)
}

fn opened(to: &mut impl Write, instance: u32, words: &str, tag: [u8; 16]) -> io::Result<()> {
    let answer = Answered(isap::open(instance, &KEY, &NONCE, b"", b"", &tag, &mut []));
    writeln!(
        to,
        "heartbeat of instance {instance} opened, {words}: {answer}"
    )
}

// Opened with a right tag, by a slice of the verification's rounds and one that has more than enough.
fn opened_past_the_decision(to: &mut impl Write, instance: u32, tag: [u8; 16]) -> io::Result<()> {
    let begun = isap::begin_open(instance, &KEY, &NONCE, &tag, 0, 0);
    let planned = plan::plan(instance, 0, 0);
    let verified = isap::slice(begun.job, b"", b"", &mut [], planned.verify);
    let ended = isap::slice(verified.job, b"", b"", &mut [], planned.total);
    let (verified, ended) = (Answered(verified.into()), Answered(ended.into()));
    writeln!(
        to,
        "heartbeat of instance {instance} opened, stopped at the decision: {verified}, then: {ended}"
    )
}

pub fn heartbeat(to: &mut impl Write, instance: u32) -> io::Result<()> {
    let tag = sealed(to, instance)?;
    opened(to, instance, "wrong tag", wrong(tag))?;
    opened(to, instance, "right tag", tag)?;
    opened_past_the_decision(to, instance, tag)
}
