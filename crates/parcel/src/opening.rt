// Opening a parcel: read, and by its parts isap's whole call.
ghost use Rattle.std.specs.Prelude.{◌+◌, ◌≤◌, length};
ghost use Rattle.instances.specs.Schemes.{scheme_of};
ghost use Rattle.parcel.specs.Statements.{OpensWhole, OpensParcel};

use crate::{Fields, Numbered, layout, reader};
use isap::Answer;

fn open_whole(key: &[u8], fields: Fields, parcel: &[u8], out: &mut [u8]) -> Answer
    requires { 31 + fields.text ≤ length parcel.now }
    ensures { OpensWhole scheme_of key.now fields parcel.now out.old result out.new }
{
    let nonce = layout::nonce(fields.station, fields.counter);
    let end = layout::HEADER + fields.text as usize;
    let last = end + layout::TAG;
    isap::open(
        fields.instance,
        key,
        &nonce,
        &parcel[..layout::HEADER],
        &parcel[layout::HEADER..end],
        &parcel[end..last],
        out,
    )
}

// Opens the parcel at the start of a buffer: the text goes to `out` if the tag is right, and nothing else does.
pub fn open(key: &[u8], parcel: &[u8], out: &mut [u8]) -> Answer
    ensures { OpensParcel scheme_of key.now parcel.now out.old result out.new }
{
    match reader::read(parcel) {
        Ok(fields) => open_whole(key, fields, parcel, out),
        Err(refusal) => Answer {
            number: refusal.number(),
            rounds: 0,
        },
    }
}
