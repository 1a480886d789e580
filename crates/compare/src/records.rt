// A record from its 212 bytes in the case file, and two records compared.
ghost use Rattle.std.specs.Prelude.{◌+◌, ◌≤◌};

use isap::Job;
use plan::Place;

fn part<const N: usize>(s: &[u8; 212], at: usize) -> [u8; N]
    requires { at + N ≤ 212 }
{
    let mut bytes = [0u8; N];
    bytes.copy_from_slice(&s[at..at + N]);
    bytes
}

// Four numbers, the most significant byte of each first, key, nonce and tag, five numbers, state and session.
pub fn record(s: &[u8; 212]) -> Job {
    Job {
        instance: u32::from_be_bytes(part(s, 0)),
        direction: u32::from_be_bytes(part(s, 4)),
        assoc: u32::from_be_bytes(part(s, 8)),
        text: u32::from_be_bytes(part(s, 12)),
        key: part(s, 16),
        nonce: part(s, 32),
        tag: part(s, 48),
        done: u32::from_be_bytes(part(s, 64)),
        place: Place {
            part: u32::from_be_bytes(part(s, 68)),
            call: u32::from_be_bytes(part(s, 72)),
            round: u32::from_be_bytes(part(s, 76)),
        },
        ending: u32::from_be_bytes(part(s, 80)),
        state: part(s, 84),
        session: part(s, 148),
    }
}

fn numbers(job: &Job) -> [u32; 9] {
    [
        job.instance,
        job.direction,
        job.assoc,
        job.text,
        job.done,
        job.place.part,
        job.place.call,
        job.place.round,
        job.ending,
    ]
}

// Every field of a record is what the case file has. A job has no `==` of its own: the library compares no secret with an early exit.
pub fn is_record(job: &Job, s: &[u8; 212]) -> bool {
    let expected = record(s);
    numbers(job) == numbers(&expected)
        && job.key == expected.key
        && job.nonce == expected.nonce
        && job.tag == expected.tag
        && job.state == expected.state
        && job.session == expected.session
}
