// The parcel on the air: mark, instance, station, counter and text length, then ciphertext and tag, in one row of bytes. It is built,
// read, taken apart and opened here, by isap's whole calls.
#![tactic(auto)]

mod building;
mod exports;
mod layout;
mod opening;
mod reader;
mod refusals;

pub use building::build;
pub use exports::{
    parcel_build, parcel_counter, parcel_instance, parcel_number, parcel_open, parcel_station,
    parcel_text,
};
pub use opening::open;
pub use reader::{cipher, fields_of, number_of, read, tag};
pub use refusals::{Numbered, Refusal};

// What a parcel's header says, without the mark.
#[derive(Clone, Copy, PartialEq, Eq)]
pub struct Fields {
    pub instance: u32,
    pub station: u16,
    pub counter: u64,
    // the text's length in bytes
    pub text: u32,
}

// What building answers: the number, the rounds done, and the counter to keep, which is the parcel's own, or the one given if refused. The
// number is a plain one, as a host in C gets it, and so the theorems on it say (`Builds`).
#[derive(Clone, Copy)]
pub struct Built {
    pub number: u32,
    pub rounds: u32,
    pub counter: u64,
}
