// For a host in C, to which crates/isap_c exports them: numbers and byte slices only.
ghost use Rattle.std.specs.Prelude.{◌≡◌};
ghost use Rattle.instances.specs.Schemes.{scheme_of};
ghost use Rattle.isap.specs.Whole.{packed};
ghost use Rattle.isap.specs.Statements.{PlansVerify, PlansSeal, PlansTotal, SealsInC, OpensInC};

use crate::whole;

// The number in the low 32 bits, the rounds in the high 32.
pub fn pack(number: u32, rounds: u32) -> u64
    ensures { result ≡ packed number rounds }
{
    u64::from(number) + (u64::from(rounds) << 32)
}

pub fn isap_seal(
    instance: u32,
    key: &[u8],
    nonce: &[u8],
    assoc: &[u8],
    text: &[u8],
    out: &mut [u8],
    tag: &mut [u8],
) -> u64
    ensures { SealsInC scheme_of instance key.now nonce.now assoc.now text.now out.old tag.old result out.new tag.new }
{
    let answer = whole::seal(instance, key, nonce, assoc, text, out, tag);
    pack(answer.number, answer.rounds)
}

pub fn isap_open(
    instance: u32,
    key: &[u8],
    nonce: &[u8],
    assoc: &[u8],
    text: &[u8],
    tag: &[u8],
    out: &mut [u8],
) -> u64
    ensures { OpensInC scheme_of instance key.now nonce.now assoc.now text.now tag.now out.old result out.new }
{
    let answer = whole::open(instance, key, nonce, assoc, text, tag, out);
    pack(answer.number, answer.rounds)
}

// The rounds of a verification, which a wrong tag takes.
pub fn isap_plan_verify(instance: u32, assoc_len: u32, text_len: u32) -> u64
    ensures { PlansVerify instance assoc_len text_len result }
{
    let planned = plan::plan(instance, assoc_len, text_len);
    pack(planned.number, planned.verify)
}

// The rounds of a sealing.
pub fn isap_plan_seal(instance: u32, assoc_len: u32, text_len: u32) -> u64
    ensures { PlansSeal instance assoc_len text_len result }
{
    let planned = plan::plan(instance, assoc_len, text_len);
    pack(planned.number, planned.sealing)
}

// The rounds of an opening with a right tag.
pub fn isap_plan_total(instance: u32, assoc_len: u32, text_len: u32) -> u64
    ensures { PlansTotal instance assoc_len text_len result }
{
    let planned = plan::plan(instance, assoc_len, text_len);
    pack(planned.number, planned.total)
}
