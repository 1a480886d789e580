// Several whole calls of the text in one go: the state is loaded into words once, kept there from call to call, and put back. The data's
// are the engine's own (`engine::blocks`); here a block is put in place of the state's first bytes, and the last one written may be short.
ghost use Rattle.std.specs.Prelude.{◌≡◌, ◌++◌, ◌+◌, ◌*◌, ◌≤◌, ◌<◌, length, drop};
ghost use Rattle.bits.specs.Pick.{pick};
ghost use Rattle.bits.specs.Strings.{block};
ghost use Rattle.shadow.specs.OnBytes.{bundle_bytes};
ghost use Rattle.s1p.specs.Spook.{spook};
ghost use Rattle.spook.specs.Leaving.{block_written};
ghost use Rattle.spook.specs.Going.{TextGone};

use engine::Engine;
use shadow::Bundles;

// Block i of the ciphertext, a whole one, in place of the state's first bytes.
#[tactic(auto, unfolding(bits::specs::Strings::block))]
fn taken(bundles: Bundles, sealing: bool, text: &[u8], out: &[u8], i: usize) -> Bundles
    requires { (i * 32 + 32 ≤ length text.now) × (length out.now ≡ length text.now) }
    ensures { bundle_bytes result ≡ block 32 i (pick sealing out.now text.now) ++ drop 32 (bundle_bytes bundles) }
{
    let at = i * 32;
    if sealing {
        bundles.replaced(&out[at..at + 32])
    } else {
        bundles.replaced(&text[at..at + 32])
    }
}

// Block i of the text, xored with the state, to its place in the output; the last block may be short.
fn write_words(out: &mut [u8], text: &[u8], i: usize, bundles: Bundles)
    requires { (length out.old ≡ length text.now) × (i ≤ 8589934592) }
    ensures { out.new ≡ block_written i text.now (bundle_bytes bundles) out.old }
{
    let at = i * 32;
    if at + 32 <= text.len() {
        bundles.write_xored(out, at, text);
        return;
    }
    let mut state = [0u8; 64];
    bundles.store(&mut state);
    strings::write_text(out, text, state, i, 32);
}

// The same, in a walk that writes.
fn write_next(out: &mut [u8], text: &[u8], writes: bool, i: usize, bundles: Bundles)
    requires { (length out.old ≡ length text.now) × (i ≤ 8589934592) }
    ensures { out.new ≡ pick writes (block_written i text.now (bundle_bytes bundles) out.old) out.old }
{
    if writes {
        write_words(out, text, i, bundles);
    }
}

// A block of the ciphertext enters with each call, and the next block of the text is written after it.
pub fn text_row(
    out: &mut [u8],
    text: &[u8],
    sealing: bool,
    writes: bool,
    mut state: [u8; 64],
    first: u32,
    calls: u32,
) -> [u8; 64]
    requires { (0 < first) × ((first + calls) * 32 ≤ length text.now) × (length out.old ≡ length text.now) }
    ensures { TextGone spook sealing writes first calls text.now state out.old result out.new }
{
    let mut bundles = Bundles::load(&state);
    for i in first as usize..first as usize + calls as usize {
        bundles = taken(bundles, sealing, text, &out[..], i).run(0, 12);
        write_next(out, text, writes, i + 1, bundles);
    }
    bundles.store(&mut state);
    state
}
