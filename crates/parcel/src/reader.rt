// Reading a parcel at the start of a buffer. Bytes behind it are not looked at.
ghost use Rattle.std.specs.Prelude.{◌≡◌, ◌≤◌, length};
ghost use Rattle.parcel.specs.Reading.{marked, fields_in};
ghost use Rattle.parcel.specs.Statements.{Reads, TellsNumber, TellsFields, GivesCipher, GivesTag};

use crate::layout::{ADDED, FIRST_MARK, HEADER, MOST_CARRIED, SECOND_MARK, TAG};
use crate::{Fields, Numbered, Refusal};

const NO_FIELDS: Fields = Fields {
    instance: 0,
    station: 0,
    counter: 0,
    text: 0,
};

#[tactic(auto, unfolding(crate::specs::Reading::marked))]
fn is_marked(parcel: &[u8]) -> bool
    requires { 2 ≤ length parcel.now }
    ensures { result ≡ marked parcel.now }
{
    parcel[0] == FIRST_MARK && parcel[1] == SECOND_MARK
}

fn fields_in(parcel: &[u8]) -> Fields
    requires { 15 ≤ length parcel.now }
    ensures { result ≡ fields_in parcel.now }
{
    Fields {
        instance: u32::from(parcel[2]),
        station: u16::from_be_bytes(parcel[3..5].try_into().unwrap()),
        counter: u64::from_be_bytes(parcel[5..13].try_into().unwrap()),
        text: u32::from(u16::from_be_bytes(parcel[13..15].try_into().unwrap())),
    }
}

// Reads the parcel at the start of a buffer. Four reasons come: `CutShort`, `WrongMark`, `UnknownInstance`, `TextTooLong`.
#[tactic(auto, unfolding(crate::specs::Reading::read_of))]
pub fn read(parcel: &[u8]) -> Result<Fields, Refusal>
    ensures { Reads parcel.now result }
{
    if parcel.len() < 2 {
        return Err(Refusal::CutShort);
    }
    if !is_marked(parcel) {
        return Err(Refusal::WrongMark);
    }
    if parcel.len() < HEADER {
        return Err(Refusal::CutShort);
    }
    let fields = fields_in(parcel);
    if !isap::is_known(fields.instance) {
        return Err(Refusal::UnknownInstance);
    }
    if MOST_CARRIED < fields.text {
        return Err(Refusal::TextTooLong);
    }
    if parcel.len() < ADDED + fields.text as usize {
        return Err(Refusal::CutShort);
    }
    Ok(fields)
}

// The number of a reading: 0 of a whole parcel.
#[tactic(auto, unfolding(crate::specs::Reading::number_of))]
pub fn number_of<R: Numbered>(reading: Result<Fields, R>) -> u32
    ensures { TellsNumber R.number_is reading result }
{
    match reading {
        Ok(_) => 0,
        Err(refusal) => refusal.number(),
    }
}

// The fields of a reading: all zero on a refusal.
#[tactic(auto, unfolding(crate::specs::Reading::fields_of))]
pub fn fields_of<R: Copy>(reading: Result<Fields, R>) -> Fields
    ensures { TellsFields reading result }
{
    reading.unwrap_or(NO_FIELDS)
}

// The ciphertext, as a part of the buffer; empty on a refusal.
pub fn cipher(parcel: &[u8]) -> &[u8]
    ensures { GivesCipher parcel.entry result }
{
    let Ok(fields) = read(parcel) else {
        return &parcel[..0];
    };
    let end = HEADER + fields.text as usize;
    &parcel[HEADER..end]
}

// The tag, as a part of the buffer; empty on a refusal.
pub fn tag(parcel: &[u8]) -> &[u8]
    ensures { GivesTag parcel.entry result }
{
    let Ok(fields) = read(parcel) else {
        return &parcel[..0];
    };
    let start = HEADER + fields.text as usize;
    let end = start + TAG;
    &parcel[start..end]
}
