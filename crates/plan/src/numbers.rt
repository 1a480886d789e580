// ISAP's numbers: the parameters of an instance, and document 01's formulas for its rounds.
ghost use Rattle.std.specs.Prelude.{◌≡◌, ◌+◌, ◌/◌, ◌≤◌};
ghost use Rattle.mode.specs.Instances.{params_of};
ghost use Rattle.mode.specs.Paper.{blocks};
ghost use Rattle.mode.specs.Counts.{rekey_rounds, verify_rounds, encrypt_rounds};
ghost use Rattle.instances.specs.Limits.{most_text, most_verify};
ghost use Rattle.plan.specs.Numbers.{OfInstance};

use crate::outlines::Outline;

// The numbers of an instance: bytes of a state and of a block, rounds of the calls pH, pB, pE and pK, and rounds of the permutation.
#[derive(Clone, Copy)]
pub struct Numbers {
    pub n: u32,
    pub b: u32,
    pub sh: u32,
    pub sb: u32,
    pub se: u32,
    pub sk: u32,
    pub most: u32,
}

#[tactic(auto, using(crate::specs::Numbers::numbers_1, crate::specs::Numbers::numbers_2, crate::specs::Numbers::numbers_3, crate::specs::Numbers::numbers_4))]
pub fn numbers_of(instance: u32) -> Numbers
    ensures { OfInstance instance result }
{
    match instance {
        1 => Numbers {
            n: 40,
            b: 8,
            sh: 12,
            sb: 1,
            se: 6,
            sk: 12,
            most: 12,
        },
        2 => Numbers {
            n: 40,
            b: 8,
            sh: 12,
            sb: 12,
            se: 12,
            sk: 12,
            most: 12,
        },
        3 => Numbers {
            n: 50,
            b: 18,
            sh: 16,
            sb: 1,
            se: 8,
            sk: 8,
            most: 20,
        },
        _ => Numbers {
            n: 50,
            b: 18,
            sh: 20,
            sb: 12,
            se: 12,
            sk: 12,
            most: 20,
        },
    }
}

// R
fn rekey_rounds(instance: u32) -> u32
    ensures { (result ≡ rekey_rounds (params_of instance)) × (result ≤ 1548) }
{
    let q = numbers_of(instance);
    2 * q.sk + 127 * q.sb
}

// V
pub fn verify_rounds(outline: Outline) -> u32
    ensures { (result ≡ verify_rounds (params_of outline.instance) outline.assoc outline.text) × (result ≤ most_verify) }
{
    let q = numbers_of(outline.instance);
    q.sh * (outline.assoc / q.b + outline.text / q.b + 4) + rekey_rounds(outline.instance)
}

// The blocks of a text, a last short one counted.
#[tactic(auto, using(crate::proofs::Counting::blocks_is, instances::specs::Limits::blocks_most))]
pub fn blocks_of(instance: u32, m: u32) -> u32
    requires { m ≤ most_text }
    ensures { (result ≡ blocks (params_of instance) m) × (result ≤ most_text / 8) }
{
    let q = numbers_of(instance);
    (m + (q.b - 1)) / q.b
}

// E
#[tactic(auto, using(crate::proofs::Counting::encrypt_is))]
pub fn encrypt_rounds(instance: u32, m: u32) -> u32
    requires { m ≤ most_text }
    ensures { result ≡ encrypt_rounds (params_of instance) m }
{
    let q = numbers_of(instance);
    rekey_rounds(instance) + q.se * blocks_of(instance, m)
}
