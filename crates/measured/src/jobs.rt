// The jobs of a request, repeated. A sealing's nonce is the tag of the one before, so that each repetition is a job of its own and the last
// one's bytes depend on all of them. An opening opens the same ciphertext each time.
ghost use Rattle.std.specs.Prelude.{◌≤◌};

use crate::requests::{Operation, Request};
use isap::{Begun, UNDER_WAY};

const KEY: [u8; 16] = [0, 1, 2, 3, 4, 5, 6, 7, 8, 9, 10, 11, 12, 13, 14, 15];

const FIRST_NONCE: [u8; 16] = [7; 16];

// No text of 4,096 bytes needs more rounds, so a budget of one round needs no more slices.
const MOST_SLICES: u32 = 15816;

// 0, 1, 2 and so on, after 255 with 0 again: what associated data and text begin with.
fn counting() -> [u8; 4096] {
    let mut s = [0u8; 4096];
    for (i, b) in s.iter_mut().enumerate() {
        *b = (i & 0xff) as u8;
    }
    s
}

// A checksum that goes on over more bytes.
fn summed(sum: u64, bytes: &[u8]) -> u64 {
    bytes
        .iter()
        .fold(sum, |s, &b| s.rotate_left(9).wrapping_add(u64::from(b)))
}

// A request with the strings that its sealings are given.
#[derive(Clone, Copy)]
struct Sealing<'a> {
    request: Request,
    assoc: &'a [u8],
    text: &'a [u8],
}

impl Sealing<'_> {
    fn whole(self, nonce: [u8; 16], out: &mut [u8]) -> [u8; 16] {
        let mut tag = [0u8; 16];
        isap::seal(
            self.request.instance,
            &KEY,
            &nonce,
            self.assoc,
            self.text,
            out,
            &mut tag,
        );
        tag
    }

    fn begun(self, nonce: [u8; 16]) -> Begun {
        let r = self.request;
        isap::begin_seal(r.instance, &KEY, &nonce, r.assoc, r.text)
    }

    fn in_slices(self, nonce: [u8; 16], out: &mut [u8]) -> [u8; 16] {
        let begun = self.begun(nonce);
        let mut number = begun.number;
        let mut job = begun.job;
        for _ in 0..MOST_SLICES {
            if number != UNDER_WAY {
                break;
            }
            let sliced = isap::slice(job, self.assoc, self.text, out, self.request.budget);
            number = sliced.number;
            job = sliced.job;
        }
        job.tag
    }

    fn kept(self, nonce: [u8; 16], out: &mut [u8]) -> [u8; 16] {
        let job = self.begun(nonce).job;
        let budget = self.request.budget;
        let kept = task::run(job, self.assoc, self.text, out, budget, MOST_SLICES);
        kept.job.tag
    }

    fn once(self, nonce: [u8; 16], out: &mut [u8]) -> [u8; 16] {
        match Operation::from(self.request.operation) {
            Operation::SealInSlices => self.in_slices(nonce, out),
            Operation::SealKept => self.kept(nonce, out),
            _ => self.whole(nonce, out),
        }
    }

    // Hands back the last tag.
    fn repeated(self, out: &mut [u8]) -> [u8; 16] {
        let mut tag = FIRST_NONCE;
        for _ in 0..self.request.repetitions {
            // two steps: `tag = self.once(..)` is not covered for an array
            let next = self.once(tag, out);
            tag = next;
        }
        tag
    }
}

// Hands back the sum of the numbers returned: 0, where every tag was right.
fn open_all(r: Request, assoc: &[u8], cipher: &[u8], tag: [u8; 16], out: &mut [u8]) -> u64 {
    let mut numbers: u64 = 0;
    for _ in 0..r.repetitions {
        let answer = isap::open(r.instance, &KEY, &FIRST_NONCE, assoc, cipher, &tag, out);
        numbers = numbers.wrapping_add(u64::from(answer.number));
    }
    numbers
}

// Does a request, and hands back the checksum of output and tag.
pub fn done(r: Request) -> u64
    requires { (r.assoc ≤ 256) × (r.text ≤ 4096) }
{
    let bytes = counting();
    let mut room = [0u8; 4096];
    let mut cipher = [0u8; 4096];
    let m = r.text as usize;
    let out = &mut room[..m];
    let sealing = Sealing {
        request: r,
        assoc: &bytes[..r.assoc as usize],
        text: &bytes[..m],
    };
    if Operation::from(r.operation) != Operation::OpenWhole {
        let tag = sealing.repeated(out);
        return summed(summed(0, out), &tag);
    }
    let cipher = &mut cipher[..m];
    let tag = sealing.whole(FIRST_NONCE, cipher);
    let numbers = open_all(r, sealing.assoc, cipher, tag, out);
    summed(summed(numbers, out), &tag)
}
