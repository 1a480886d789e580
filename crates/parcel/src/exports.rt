// For a host in C, to which crates/parcel_c exports them: numbers and byte slices only.
ghost use Rattle.std.specs.Prelude.{◌≡◌};
ghost use Rattle.instances.specs.Schemes.{scheme_of};
ghost use Rattle.parcel.specs.Reading.{read_of, fields_of};
ghost use Rattle.parcel.specs.Statements.{BuildsInC, OpensParcelInC, NumberInC, InstanceInC, StationInC, CounterInC, TextInC};

use crate::{Fields, building, opening, reader};

// Number and rounds; the counter to keep is `last + 1` with 0, else `last`.
pub fn parcel_build(
    instance: u32,
    key: &[u8],
    station: u16,
    last: u64,
    text: &[u8],
    out: &mut [u8],
) -> u64
    ensures { BuildsInC scheme_of instance key.now station last text.now out.old result out.new }
{
    let built = building::build(instance, key, station, last, text, out);
    isap::pack(built.number, built.rounds)
}

pub fn parcel_open(key: &[u8], parcel: &[u8], out: &mut [u8]) -> u64
    ensures { OpensParcelInC scheme_of key.now parcel.now out.old result out.new }
{
    let answer = opening::open(key, parcel, out);
    isap::pack(answer.number, answer.rounds)
}

// The number of a reading, and its fields, all zero on a refusal.
pub fn parcel_number(parcel: &[u8]) -> u32
    ensures { NumberInC parcel.now result }
{
    reader::number_of(reader::read(parcel))
}

fn fields_read(parcel: &[u8]) -> Fields
    ensures { result ≡ fields_of (read_of parcel.now) }
{
    reader::fields_of(reader::read(parcel))
}

pub fn parcel_instance(parcel: &[u8]) -> u32
    ensures { InstanceInC parcel.now result }
{
    fields_read(parcel).instance
}

pub fn parcel_station(parcel: &[u8]) -> u16
    ensures { StationInC parcel.now result }
{
    fields_read(parcel).station
}

pub fn parcel_counter(parcel: &[u8]) -> u64
    ensures { CounterInC parcel.now result }
{
    fields_read(parcel).counter
}

pub fn parcel_text(parcel: &[u8]) -> u32
    ensures { TextInC parcel.now result }
{
    fields_read(parcel).text
}
