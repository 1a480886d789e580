// Spook's numbers: the calls of its parts, and request (iv)'s formulas for its rounds. Every call has twelve.
ghost use Rattle.std.specs.Prelude.{◌≡◌, ◌+◌, ◌/◌, ◌%◌, ◌≤◌, ◌<◌};
ghost use Rattle.s1p.specs.Paper.{blocks};
ghost use Rattle.s1p.specs.Counts.{verify_rounds, second_rounds, walk_calls};
ghost use Rattle.instances.specs.Limits.{most_text, most_calls};
ghost use Rattle.plan.specs.Walks.{calls_of, walk_parts};
ghost use Rattle.plan.specs.KindNumbers.{stage_number};

use crate::outlines::Outline;

// The blocks of 32 bytes, a last short one counted; an empty string has none.
#[tactic(auto, unfolding(s1p::specs::Paper::blocks))]
fn blocks_of(m: u32) -> u32
    requires { m ≤ most_text }
    ensures { (result ≡ blocks m) × (result ≤ most_text / 8) }
{
    (m + 31) / 32
}

// The kinds of Spook's parts, by their place in the first walk; the second has the first four once more. Crate spook has a type of its own
// (`Kind`): neither of the two crates stands on the other.
#[derive(Clone, Copy)]
enum Stage {
    Seed,
    Start,
    Data,
    Text,
    Closing,
}

// A part's kind, from its place in the direction's order.
fn stage_of(part: u32) -> Stage
    requires { part < 9 }
    ensures { stage_number result ≡ part % 5 }
{
    let place = if part < 5 { part } else { part - 5 };
    match place {
        0 => Stage::Seed,
        1 => Stage::Start,
        2 => Stage::Data,
        3 => Stage::Text,
        _ => Stage::Closing,
    }
}

// The calls of a part of a walk, and of the closing one.
#[tactic(auto, unfolding(s1p::specs::Counts::walk_calls))]
fn walk_calls(outline: Outline, stage: Stage) -> u32
    ensures { (result ≡ walk_calls outline.assoc outline.text (stage_number stage)) × (result ≤ most_text / 8) }
{
    match stage {
        Stage::Data => blocks_of(outline.assoc),
        Stage::Text => blocks_of(outline.text),
        _ => 1,
    }
}

// How many parts a direction has: an opening walks a second time.
#[tactic(auto, unfolding(crate::specs::Walks::walk_parts))]
pub fn parts_of(sealing: bool) -> u32
    ensures { (result ≡ walk_parts sealing) × (result ≤ 9) }
{
    if sealing { 5 } else { 9 }
}

// The calls of a part. An empty text has no second walk, and the last block of a text needs no call after it there.
#[tactic(auto, unfolding(crate::specs::Walks::calls_of))]
pub fn count_of(outline: Outline, part: u32) -> u32
    requires { part < 9 }
    ensures { (result ≡ calls_of outline.assoc outline.text part) × (result ≤ most_calls) }
{
    let stage = stage_of(part);
    let calls = walk_calls(outline, stage);
    if part < 5 {
        return calls;
    }
    if outline.text == 0 {
        return 0;
    }
    match stage {
        Stage::Text => calls - 1,
        _ => calls,
    }
}

// A verification, and a sealing.
#[tactic(auto, unfolding(s1p::specs::Counts::verify_rounds))]
pub fn verify_rounds(outline: Outline) -> u32
    ensures { result ≡ verify_rounds outline.assoc outline.text }
{
    24 + 12 * (1 + blocks_of(outline.assoc) + blocks_of(outline.text))
}

// An opening's second walk.
#[tactic(auto, using(s1p::specs::Counts::unless_none, s1p::specs::Counts::unless_some), unfolding(s1p::specs::Counts::second_rounds))]
pub fn second_rounds(outline: Outline) -> u32
    ensures { result ≡ second_rounds outline.assoc outline.text }
{
    if outline.text == 0 {
        return 0;
    }
    12 + 12 * (blocks_of(outline.assoc) + blocks_of(outline.text))
}
