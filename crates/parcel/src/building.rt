// Building a parcel: its refusals, then header, ciphertext and tag, one behind the other.
ghost use Rattle.std.specs.Prelude.{◌≡◌, ◌≤◌, ◌++◌, length, drop};
ghost use Rattle.instances.specs.Schemes.{scheme_of};
ghost use Rattle.parcel.specs.Refusals.{number_in};
ghost use Rattle.parcel.specs.Building.{build_refusal, CanBuild, PutsParcel};
ghost use Rattle.parcel.specs.Statements.{Builds};

use crate::{Built, Fields, Numbered, Refusal, layout};
use isap::Answer;

// 1, 2, 5, 6, 13 in this order, from the instance, the lengths and the last counter.
#[tactic(auto, unfolding(crate::specs::Building::build_refusal))]
fn check(instance: u32, key: usize, m: usize, out: usize, last: u64) -> Result<(), Refusal>
    ensures { number_in result ≡ build_refusal scheme_of instance key m out last }
{
    if !isap::is_known(instance) {
        return Err(Refusal::UnknownInstance);
    }
    if key != isap::key_bytes(instance) {
        return Err(Refusal::KeyLength);
    }
    if (layout::MOST_CARRIED as usize) < m {
        return Err(Refusal::TextTooLong);
    }
    if out != m + layout::ADDED {
        return Err(Refusal::OutputLength);
    }
    if last == u64::MAX {
        return Err(Refusal::CounterSpent);
    }
    Ok(())
}

// Writes the parcel of these fields: header, ciphertext, tag.
fn put_parcel(fields: Fields, key: &[u8], text: &[u8], out: &mut [u8]) -> Answer
    requires { CanBuild scheme_of fields.instance (length key.now) (length text.now) (length out.old) }
    ensures { PutsParcel scheme_of fields key.now text.now result out.new }
{
    let header = layout::header(fields);
    let nonce = layout::nonce(fields.station, fields.counter);
    let mut tag = [0u8; 16];
    let end = layout::HEADER + text.len();
    let sealed = isap::seal(
        fields.instance,
        key,
        &nonce,
        &header,
        text,
        &mut out[layout::HEADER..end],
        &mut tag,
    );
    out[..layout::HEADER].copy_from_slice(&header);
    out[end..].copy_from_slice(&tag);
    sealed
}

// Builds the parcel of `text` with the counter after `last`.
pub fn build(
    instance: u32,
    key: &[u8],
    station: u16,
    last: u64,
    text: &[u8],
    out: &mut [u8],
) -> Built
    ensures { Builds scheme_of instance key.now station last text.now out.old result out.new }
{
    if let Err(refusal) = check(instance, key.len(), text.len(), out.len(), last) {
        return Built {
            number: refusal.number(),
            rounds: 0,
            counter: last,
        };
    }
    let counter = last + 1;
    let fields = Fields {
        instance,
        station,
        counter,
        text: text.len() as u32,
    };
    let sealed = put_parcel(fields, key, text, out);
    Built {
        number: sealed.number,
        rounds: sealed.rounds,
        counter,
    }
}
