// The beginning of a job: its refusals, and the record before its first round.
ghost use Rattle.std.specs.Prelude.{◌≡◌, ◌≤◌, length};
ghost use Rattle.instances.specs.Schemes.{scheme_of};
ghost use Rattle.instances.specs.Limits.{most_assoc, most_text};
ghost use Rattle.isap.specs.Refusals.{number_in};
ghost use Rattle.isap.specs.Beginnings.{limits_refusal, tag_refusal, or_else, begun_job, begun_or, begun_by};
ghost use Rattle.isap.specs.Statements.{BeginsSealing, BeginsOpening};

use crate::refusals::Refusal;
use crate::slices::UNDER_WAY;
use crate::standing::{OPENING, SEALING};
use crate::{Begun, Job};
use plan::{Outline, Place};

// What a refused beginning hands out: all zeros, which cannot stand.
const NO_JOB: Job = Job {
    instance: 0,
    direction: 0,
    assoc: 0,
    text: 0,
    key: [0; 16],
    nonce: [0; 16],
    tag: [0; 16],
    done: 0,
    place: Place {
        part: 0,
        call: 0,
        round: 0,
    },
    ending: 0,
    state: [0; 64],
    session: [0; 64],
};

// 1 to 5 in this order, from the instance and the lengths.
#[tactic(auto, unfolding(crate::specs::Beginnings::limits_refusal))]
pub fn check_limits(
    instance: u32,
    key: usize,
    nonce: usize,
    a: usize,
    m: usize,
) -> Result<(), Refusal>
    ensures { number_in result ≡ limits_refusal scheme_of instance key nonce a m }
{
    if !plan::is_known(instance) {
        return Err(Refusal::UnknownInstance);
    }
    if key != plan::key_bytes(instance) {
        return Err(Refusal::KeyLength);
    }
    if nonce != 16 {
        return Err(Refusal::NonceLength);
    }
    if (plan::MOST_ASSOC as usize) < a {
        return Err(Refusal::AssocTooLong);
    }
    if (plan::MOST_TEXT as usize) < m {
        return Err(Refusal::TextTooLong);
    }
    Ok(())
}

// 7.
#[tactic(auto, unfolding(crate::specs::Beginnings::tag_refusal))]
pub fn check_tag(tag: usize) -> Result<(), Refusal>
    ensures { number_in result ≡ tag_refusal tag }
{
    if tag != 16 {
        return Err(Refusal::TagLength);
    }
    Ok(())
}

fn sixteen(bytes: &[u8]) -> [u8; 16]
    requires { length bytes.now ≡ 16 }
    ensures { result ≡ bytes.now }
{
    bytes.try_into().unwrap()
}

// The record before its first round. The direction is a number, as the record has it.
#[tactic(auto, unfolding(crate::specs::Beginnings::begun_job))]
fn begun_job(
    instance: u32,
    direction: u32,
    key: &[u8],
    nonce: &[u8],
    tag: &[u8],
    a: u32,
    m: u32,
) -> Job
    requires { (length key.now ≡ 16) × (length nonce.now ≡ 16) × (length tag.now ≡ 16) × (a ≤ most_assoc) × (m ≤ most_text) }
    ensures { result ≡ begun_job scheme_of instance direction key.now nonce.now tag.now a m }
{
    let outline = Outline {
        instance,
        sealing: direction == SEALING,
        assoc: a,
        text: m,
    };
    let place = outline.place_after(0);
    Job {
        instance,
        direction,
        assoc: a,
        text: m,
        key: sixteen(key),
        nonce: sixteen(nonce),
        tag: sixteen(tag),
        place,
        ..NO_JOB
    }
}

// A job in either direction, unless it is refused.
fn begin(
    instance: u32,
    direction: u32,
    key: &[u8],
    nonce: &[u8],
    tag: &[u8],
    a: u32,
    m: u32,
) -> Result<Job, Refusal>
    ensures { begun_by result ≡ begun_or (or_else (limits_refusal scheme_of instance (length key.now) (length nonce.now) a m) (tag_refusal (length tag.now))) (begun_job scheme_of instance direction key.now nonce.now tag.now a m) }
{
    check_limits(instance, key.len(), nonce.len(), a as usize, m as usize)?;
    check_tag(tag.len())?;
    Ok(begun_job(instance, direction, key, nonce, tag, a, m))
}

// What a beginning answers.
#[tactic(auto, unfolding(crate::specs::Beginnings::no_job))]
fn begun(beginning: Result<Job, Refusal>) -> Begun
    ensures { result ≡ begun_by beginning }
{
    match beginning {
        Ok(job) => Begun {
            number: UNDER_WAY,
            rounds: 0,
            job,
        },
        Err(refusal) => Begun {
            number: refusal.number(),
            rounds: 0,
            job: NO_JOB,
        },
    }
}

// Begins a sealing of a text of m bytes with a bytes of associated data.
pub fn begin_seal(instance: u32, key: &[u8], nonce: &[u8], a: u32, m: u32) -> Begun
    ensures { BeginsSealing scheme_of instance key.now nonce.now a m result }
{
    let tag = [0u8; 16];
    begun(begin(instance, SEALING, key, nonce, &tag, a, m))
}

// Begins an opening, with the tag received.
#[tactic(auto, unfolding(crate::specs::Beginnings::begin_open_of))]
pub fn begin_open(instance: u32, key: &[u8], nonce: &[u8], tag: &[u8], a: u32, m: u32) -> Begun
    ensures { BeginsOpening scheme_of instance key.now nonce.now tag.now a m result }
{
    begun(begin(instance, OPENING, key, nonce, tag, a, m))
}
