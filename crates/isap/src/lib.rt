// Sealing for a station, by ISAP or by Spook: jobs begun and sliced by budgets of rounds, and whole calls.
#![tactic(auto)]

ghost use Rattle.std.specs.Prelude.{◌≡◌};

mod beginnings;
mod counts;
mod exports;
mod further;
mod refusals;
mod slices;
mod standing;
mod turns;
mod whole;

pub use beginnings::{begin_open, begin_seal};
pub use exports::{isap_open, isap_plan_seal, isap_plan_total, isap_plan_verify, isap_seal, pack};
use plan::Place;
pub use plan::{is_known, key_bytes};
pub use slices::{UNDER_WAY, slice};
pub use whole::{open, seal};

// A job's record. Plain data: it is handed in by value and handed back. Its direction and its ending are numbers, since a host can hand in
// any record, also one of a number that is none of these, which a slice refuses.
#[derive(Clone, Copy)]
pub struct Job {
    pub instance: u32,
    // 1 sealing, 2 opening
    pub direction: u32,
    // the two lengths in bytes
    pub assoc: u32,
    pub text: u32,
    pub key: [u8; 16],
    pub nonce: [u8; 16],
    // in a sealing zero until it is made, in an opening the one received
    pub tag: [u8; 16],
    pub done: u32,
    pub place: Place,
    // 0 not ended, 1 well, 2 by a wrong tag
    pub ending: u32,
    pub state: [u8; 64],
    pub session: [u8; 64],
}

// What a beginning answers: document 01's number, the rounds it did, which are none, and the record. Here and below the number is a plain
// one, since a host in C gets it (`pack`) and the theorems speak of it (`begin_seal_of`, `slice_of`, `seal_of`, `open_of`).
#[derive(Clone, Copy)]
pub struct Begun {
    pub number: u32,
    pub rounds: u32,
    pub job: Job,
}

// What a slice answers: document 01's number, the rounds it did itself, and the record. A type of its own beside `Begun`, because README
// and the theorems name both (`begin_seal_of`, `slice_of`).
#[derive(Clone, Copy)]
pub struct Sliced {
    pub number: u32,
    pub rounds: u32,
    pub job: Job,
}

// What a whole call answers: document 01's number, and the rounds done.
#[derive(Clone, Copy)]
pub struct Answer {
    pub number: u32,
    pub rounds: u32,
}

// A slice's answer without the record.
impl From<Sliced> for Answer {
    ghost from_gives = { λ s r. r ≡ record { number = s.number; rounds = s.rounds } };

    fn from(sliced: Sliced) -> Answer {
        Answer {
            number: sliced.number,
            rounds: sliced.rounds,
        }
    }
}
