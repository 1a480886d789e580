// Whole calls: a beginning and one slice, with a budget that ends every job.
ghost use Rattle.std.specs.Prelude.{◌≡◌, length};
ghost use Rattle.instances.specs.Schemes.{scheme_of};
ghost use Rattle.isap.specs.Refusals.{number_in, number_of_refusal};
ghost use Rattle.isap.specs.Whole.{out_refusal, whole_refusal};
ghost use Rattle.isap.specs.Statements.{Seals, Opens};

use crate::Answer;
use crate::beginnings::{begin_open, begin_seal, check_limits, check_tag};
use crate::refusals::Refusal;
use crate::slices::slice;

// The largest budget, which ends every job.
const LARGEST: u32 = u32::MAX;

// 6.
#[tactic(auto, unfolding(crate::specs::Whole::out_refusal))]
fn check_out(out: usize, m: usize) -> Result<(), Refusal>
    ensures { number_in result ≡ out_refusal out m }
{
    if out != m {
        return Err(Refusal::OutputLength);
    }
    Ok(())
}

// 1 to 7 in this order, from the instance and the lengths.
#[tactic(auto, using(crate::proofs::Beginning::first_refusal, crate::proofs::Beginning::next_refusal), unfolding(crate::specs::Whole::whole_refusal))]
fn check_whole(
    instance: u32,
    key: usize,
    nonce: usize,
    a: usize,
    m: usize,
    out: usize,
    tag: usize,
) -> Result<(), Refusal>
    ensures { number_in result ≡ whole_refusal scheme_of instance key nonce a m out tag }
{
    check_limits(instance, key, nonce, a, m)?;
    check_out(out, m)?;
    check_tag(tag)
}

fn refused(refusal: Refusal) -> Answer
    ensures { result ≡ record { number = number_of_refusal refusal; rounds = 0 } }
{
    Answer {
        number: refusal.number(),
        rounds: 0,
    }
}

fn put_tag(tag: &mut [u8], made: [u8; 16])
    requires { length tag.old ≡ 16 }
    ensures { tag.new ≡ made }
{
    tag.copy_from_slice(&made);
}

// Seals `text`: the ciphertext goes to `out`, the tag to `tag`.
pub fn seal(
    instance: u32,
    key: &[u8],
    nonce: &[u8],
    assoc: &[u8],
    text: &[u8],
    out: &mut [u8],
    tag: &mut [u8],
) -> Answer
    ensures { Seals scheme_of instance key.now nonce.now assoc.now text.now out.old tag.old result out.new tag.new }
{
    let a = assoc.len();
    let m = text.len();
    let checked = check_whole(instance, key.len(), nonce.len(), a, m, out.len(), tag.len());
    if let Err(refusal) = checked {
        return refused(refusal);
    }
    let begun = begin_seal(instance, key, nonce, a as u32, m as u32);
    let ended = slice(begun.job, assoc, text, out, LARGEST);
    put_tag(tag, ended.job.tag);
    ended.into()
}

// Opens the ciphertext `text`: the plaintext goes to `out` if `tag` is right, and nothing else does.
pub fn open(
    instance: u32,
    key: &[u8],
    nonce: &[u8],
    assoc: &[u8],
    text: &[u8],
    tag: &[u8],
    out: &mut [u8],
) -> Answer
    ensures { Opens scheme_of instance key.now nonce.now assoc.now text.now tag.now out.old result out.new }
{
    let a = assoc.len();
    let m = text.len();
    let checked = check_whole(instance, key.len(), nonce.len(), a, m, out.len(), tag.len());
    if let Err(refusal) = checked {
        return refused(refusal);
    }
    let begun = begin_open(instance, key, nonce, tag, a as u32, m as u32);
    slice(begun.job, assoc, text, out, LARGEST).into()
}
