// What goes with the last round of a call: a block of the text in the output, and the tag.
ghost use Rattle.std.specs.Prelude.{◌≡◌, ◌*◌, ◌%◌, ◌≤◌, eqb, length};
ghost use Rattle.s1p.specs.Paper.{blocks};
ghost use Rattle.s1p.specs.Spook.{spook};
ghost use Rattle.spook.specs.Kinds.{writes_in, CanCall};
ghost use Rattle.spook.specs.Leaving.{first_written, out_left, tag_left};

use crate::kinds::Kind;
use strings::{front, write_text};

// Whether a part's calls write: all of a sealing, and an opening's second walk.
#[tactic(auto, unfolding(crate::specs::Kinds::writes_in))]
pub fn writes_in(sealing: bool, part: u32) -> bool
    ensures { result ≡ writes_in sealing part }
{
    sealing || 4 < part
}

// Whether so many blocks of the data are all of them.
#[tactic(auto, using(crate::proofs::Blocks::reaches))]
fn all_data(assoc: &[u8], done: usize) -> bool
    requires { (done ≤ blocks (length assoc.now)) × (done ≤ 4294967296) }
    ensures { result ≡ eqb done (blocks (length assoc.now)) }
{
    assoc.len() <= done * 32
}

// The first block of the text, once all data is absorbed.
fn write_first(out: &mut [u8], text: &[u8], assoc: &[u8], state: [u8; 64], done: usize)
    requires { (length out.old ≡ length text.now) × (done ≤ blocks (length assoc.now)) × (done ≤ 4294967296) }
    ensures { out.new ≡ first_written done (length assoc.now) text.now state out.old }
{
    if all_data(assoc, done) {
        write_text(out, text, state, 0, 32);
    }
}

// The output, by the part's kind.
#[tactic(auto, using(crate::specs::Kinds::data_count), unfolding(crate::specs::Leaving::out_left, crate::specs::Leaving::out_written))]
pub fn leave_out(
    out: &mut [u8],
    text: &[u8],
    assoc: &[u8],
    sealing: bool,
    part: u32,
    call: u32,
    state: [u8; 64],
)
    requires { CanCall spook sealing part call assoc.now text.now out.old }
    ensures { out.new ≡ out_left (writes_in sealing part) (length assoc.now) (part % 5) call text.now state out.old }
{
    if !writes_in(sealing, part) {
        return;
    }
    let next = call as usize + 1;
    match Kind::of(part) {
        Kind::Start => write_first(out, text, assoc, state, 0),
        Kind::Data => write_first(out, text, assoc, state, next),
        Kind::Text => write_text(out, text, state, next, 32),
        Kind::Seed | Kind::Closing => {}
    }
}

// The tag: the state's first sixteen bytes at the end of a sealing.
#[tactic(auto, unfolding(crate::specs::Leaving::tag_left))]
pub fn leave_tag(sealing: bool, part: u32, state: [u8; 64], tag: [u8; 16]) -> [u8; 16]
    ensures { result ≡ tag_left sealing (part % 5) state tag }
{
    match Kind::of(part) {
        Kind::Closing => { if sealing { front(state) } else { tag } }
        Kind::Seed | Kind::Start | Kind::Data | Kind::Text => tag,
    }
}
