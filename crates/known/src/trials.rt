// The jobs of a case, each with what must come of it.
ghost use Rattle.std.specs.Prelude.{◌≡◌};
ghost use Rattle.arrayvec.specs.ArrayVec.{array_vec_len};

use crate::reading::{Case, Text};
use std::fmt;

// The jobs that are run on a case: a refusal is an opening with a wrong tag.
#[derive(Clone, Copy)]
pub enum Kind {
    Sealing,
    Opening,
    Refusal,
}

impl fmt::Display for Kind {
    fn fmt<W: fmt::Write>(&self, f: &mut fmt::Formatter<W>) -> fmt::Result {
        f.write_str(match self {
            Kind::Sealing => "sealing",
            Kind::Opening => "opening",
            Kind::Refusal => "opening with a wrong tag",
        })
    }
}

// What a job gave, or must give.
#[derive(Clone, Copy)]
pub struct Given {
    pub number: u32,
    pub rounds: u32,
    pub tag: [u8; 16],
    // at the start the output, and behind it what was there
    pub out: [u8; 32],
    // whether each slice did its budget or the rounds left, and answered 100 until the last
    pub steady: bool,
}

// A job: what it is given, and what it must give. An opening is given the tag too.
#[derive(Drop)]
pub struct Trial<'a> {
    pub kind: Kind,
    pub instance: u32,
    pub case: &'a Case,
    pub text: &'a Text,
    pub wanted: Given,
}

// What an output holds before a call: not zeros, so that zeros written would show.
pub const BLANK: [u8; 32] = [170; 32];

// What an output holds in which a text was written.
fn written(text: &Text) -> [u8; 32] {
    let mut out = BLANK;
    out[..text.len()].copy_from_slice(text.as_slice());
    out
}

// The tag with one bit changed, which bit by the case's count.
fn wrong(tag: [u8; 16], count: u32) -> [u8; 16] {
    let mut t = tag;
    t[(count / 8 % 16) as usize] ^= 1 << (count % 8);
    t
}

impl<'a> Trial<'a> {
    pub fn new(kind: Kind, instance: u32, case: &'a Case) -> Trial<'a>
        ensures same_case { result.case.now ≡ case.now }
        ensures as_long { array_vec_len result.text.now ≡ array_vec_len case.now.text }
    {
        let plan = plan::plan(instance, case.assoc.len() as u32, case.text.len() as u32);
        let sealed = &case.sealed;
        // a refusal must leave the output as it was
        let (text, number, rounds, tag, out) = match kind {
            Kind::Sealing => (
                &case.text,
                0,
                plan.sealing,
                sealed.tag,
                written(&sealed.text),
            ),
            Kind::Opening => (&sealed.text, 0, plan.total, sealed.tag, written(&case.text)),
            Kind::Refusal => (
                &sealed.text,
                8,
                plan.verify,
                wrong(sealed.tag, case.count),
                BLANK,
            ),
        };
        let wanted = Given {
            number,
            rounds,
            tag,
            out,
            steady: true,
        };
        Trial {
            kind,
            instance,
            case,
            text,
            wanted,
        }
    }
}
