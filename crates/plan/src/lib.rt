// Counting: the rounds a job takes, its parts, and where it stands after n rounds, by the numbers of its instance.
// `plan` is public and has no `requires`. The others are internal: the library meets what they require, the limits of document 01.
#![tactic(auto)]

mod kinds;
mod moves;
mod numbers;
mod outlines;
mod places;
mod shapes;
mod walks;

ghost use Rattle.std.specs.Prelude.{◌≡◌, ◌≤◌, true, MatchResult};
ghost use Rattle.instances.specs.Schemes.{known};
ghost use Rattle.instances.specs.Limits.{most_assoc, most_text};
ghost use Rattle.plan.specs.Planned.{Plans, plan_of, unplanned};
ghost use Rattle.plan.specs.Refusals.{refusal_number};

pub use kinds::{Kind, kind_of, rounds_of};
pub use numbers::numbers_of;
pub use outlines::Outline;
pub use places::Place;
pub use shapes::{is_known, is_spook, key_bytes, parts_of, rounds_at};

// The limits in bytes, which the definitions have as `most_assoc` and `most_text`.
pub const MOST_ASSOC: u32 = 256;

pub const MOST_TEXT: u32 = 1048576;

// What a job takes: the rounds of a verification, of a sealing, and of an opening with a right tag. Refused with the number of document 01,
// 1, 4 or 5: a number beside the figures and no Result, as `plan_of` defines it and C takes it.
#[derive(Clone, Copy)]
pub struct Planned {
    pub number: u32,
    pub verify: u32,
    pub sealing: u32,
    pub total: u32,
}

// Why a plan is refused: a type of its own, which has these reasons and no other.
#[derive(Clone, Copy)]
enum Refusal {
    UnknownInstance,
    AssocTooLong,
    TextTooLong,
}

// What a refused plan hands out: document 01's number, and no rounds.
fn refused(refusal: Refusal) -> Planned
    ensures { result ≡ unplanned (refusal_number refusal) }
{
    let number = match refusal {
        Refusal::UnknownInstance => 1,
        Refusal::AssocTooLong => 4,
        Refusal::TextTooLong => 5,
    };
    Planned {
        number,
        verify: 0,
        sealing: 0,
        total: 0,
    }
}

// The first of the limits, in document 01's order, that a request is beyond.
#[tactic(auto, unfolding(crate::specs::Planned::plan_of))]
fn within_limits(instance: u32, a: u32, m: u32) -> Result<(), Refusal>
    ensures { MatchResult result (λ _. (known instance ≡ true) × (a ≤ most_assoc) × (m ≤ most_text)) (λ e. unplanned (refusal_number e) ≡ plan_of instance a m) }
{
    if !is_known(instance) {
        return Err(Refusal::UnknownInstance);
    }
    if MOST_ASSOC < a {
        return Err(Refusal::AssocTooLong);
    }
    if MOST_TEXT < m {
        return Err(Refusal::TextTooLong);
    }
    Ok(())
}

fn figures(instance: u32, a: u32, m: u32) -> Result<Planned, Refusal>
    ensures { MatchResult result (λ p. p ≡ plan_of instance a m) (λ e. unplanned (refusal_number e) ≡ plan_of instance a m) }
{
    within_limits(instance, a, m)?;
    let opening = Outline {
        instance,
        sealing: false,
        assoc: a,
        text: m,
    };
    let sealing = Outline {
        instance,
        sealing: true,
        assoc: a,
        text: m,
    };
    let verify = opening.front_rounds();
    Ok(Planned {
        number: 0,
        verify,
        sealing: sealing.front_rounds(),
        total: verify + opening.back_rounds(),
    })
}

pub fn plan(instance: u32, a: u32, m: u32) -> Planned
    ensures { Plans instance a m result }
{
    match figures(instance, a, m) {
        Ok(figures) => figures,
        Err(refusal) => refused(refusal),
    }
}
