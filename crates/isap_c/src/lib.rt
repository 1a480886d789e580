// isap's calls for a host in C (include/isap.h), an archive of their own, because no library can depend on one. A slice is a pointer and a
// length. Each promises what isap's function of the same name does, and calls it.
#![tactic(auto)]

ghost use Rattle.instances.specs.Schemes.{scheme_of};
ghost use Rattle.isap.specs.Statements.{PlansVerify, PlansSeal, PlansTotal, SealsInC, OpensInC};

#[unsafe(no_mangle)]
pub extern "C" fn isap_seal(
    instance: u32,
    key: &[u8],
    nonce: &[u8],
    assoc: &[u8],
    text: &[u8],
    out: &mut [u8],
    tag: &mut [u8],
) -> u64
    ensures { SealsInC scheme_of instance key.now nonce.now assoc.now text.now out.old tag.old result out.new tag.new }
{
    isap::isap_seal(instance, key, nonce, assoc, text, out, tag)
}

#[unsafe(no_mangle)]
pub extern "C" fn isap_open(
    instance: u32,
    key: &[u8],
    nonce: &[u8],
    assoc: &[u8],
    text: &[u8],
    tag: &[u8],
    out: &mut [u8],
) -> u64
    ensures { OpensInC scheme_of instance key.now nonce.now assoc.now text.now tag.now out.old result out.new }
{
    isap::isap_open(instance, key, nonce, assoc, text, tag, out)
}

#[unsafe(no_mangle)]
pub extern "C" fn isap_plan_verify(instance: u32, assoc_len: u32, text_len: u32) -> u64
    ensures { PlansVerify instance assoc_len text_len result }
{
    isap::isap_plan_verify(instance, assoc_len, text_len)
}

#[unsafe(no_mangle)]
pub extern "C" fn isap_plan_seal(instance: u32, assoc_len: u32, text_len: u32) -> u64
    ensures { PlansSeal instance assoc_len text_len result }
{
    isap::isap_plan_seal(instance, assoc_len, text_len)
}

#[unsafe(no_mangle)]
pub extern "C" fn isap_plan_total(instance: u32, assoc_len: u32, text_len: u32) -> u64
    ensures { PlansTotal instance assoc_len text_len result }
{
    isap::isap_plan_total(instance, assoc_len, text_len)
}
