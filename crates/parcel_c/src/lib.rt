// parcel's calls for a host in C (include/parcel.h), an archive of their own, because no library can depend on one. A slice is a pointer
// and a length. Each promises what parcel's function of the same name does, and calls it.
#![tactic(auto)]

ghost use Rattle.instances.specs.Schemes.{scheme_of};
ghost use Rattle.parcel.specs.Statements.{BuildsInC, OpensParcelInC, NumberInC, InstanceInC, StationInC, CounterInC, TextInC};

#[unsafe(no_mangle)]
pub extern "C" fn parcel_build(
    instance: u32,
    key: &[u8],
    station: u16,
    last: u64,
    text: &[u8],
    out: &mut [u8],
) -> u64
    ensures { BuildsInC scheme_of instance key.now station last text.now out.old result out.new }
{
    parcel::parcel_build(instance, key, station, last, text, out)
}

#[unsafe(no_mangle)]
pub extern "C" fn parcel_open(key: &[u8], parcel: &[u8], out: &mut [u8]) -> u64
    ensures { OpensParcelInC scheme_of key.now parcel.now out.old result out.new }
{
    parcel::parcel_open(key, parcel, out)
}

#[unsafe(no_mangle)]
pub extern "C" fn parcel_number(parcel: &[u8]) -> u32
    ensures { NumberInC parcel.now result }
{
    parcel::parcel_number(parcel)
}

#[unsafe(no_mangle)]
pub extern "C" fn parcel_instance(parcel: &[u8]) -> u32
    ensures { InstanceInC parcel.now result }
{
    parcel::parcel_instance(parcel)
}

#[unsafe(no_mangle)]
pub extern "C" fn parcel_station(parcel: &[u8]) -> u16
    ensures { StationInC parcel.now result }
{
    parcel::parcel_station(parcel)
}

#[unsafe(no_mangle)]
pub extern "C" fn parcel_counter(parcel: &[u8]) -> u64
    ensures { CounterInC parcel.now result }
{
    parcel::parcel_counter(parcel)
}

#[unsafe(no_mangle)]
pub extern "C" fn parcel_text(parcel: &[u8]) -> u32
    ensures { TextInC parcel.now result }
{
    parcel::parcel_text(parcel)
}
