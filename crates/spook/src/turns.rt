// The rounds of a call: Clyde's on the state's first sixteen bytes, forward or back, or Shadow's on all of it.
ghost use Rattle.std.specs.Prelude.{◌≡◌, ◌+◌, ◌%◌, ◌≤◌, take, drop};
ghost use Rattle.bits.specs.Run.{run};
ghost use Rattle.clyde.specs.OnBytes.{is_back, turn_by};
ghost use Rattle.shadow.specs.OnBytes.{shadow_turn};
ghost use Rattle.s1p.specs.Paper.{closing_tweak};
ghost use Rattle.s1p.specs.Spook.{spook};
ghost use Rattle.spook.specs.Turning.{closed, turned_bytes};

use crate::kinds::Kind;
use clyde::{Clyde, Direction};
use shadow::Bundles;

// Clyde's rounds in either direction. The tweak is bytes 16 to 31 of `wide`, where Shadow's state has it.
fn enciphered(
    direction: Direction,
    key: [u8; 16],
    wide: [u8; 64],
    mut state: [u8; 64],
    from: u32,
    count: u32,
) -> [u8; 64]
    requires { from + count ≤ 12 }
    ensures { result ≡ run 16 (turn_by (is_back direction) key (take 16 (drop 16 wide))) from count state }
{
    Clyde::new(&key, &wide[16..32]).rounds(direction, &mut state, from, count);
    state
}

// Shadow's rounds.
fn permuted(mut state: [u8; 64], from: u32, count: u32) -> [u8; 64]
    requires { from + count ≤ 12 }
    ensures { result ≡ run 64 shadow_turn from count state }
{
    engine::rounds::<Bundles>(&mut state, from, count);
    state
}

// Shadow's state with the closing call's tweak in it: the top bit of byte 31 set.
fn with_tweak(mut session: [u8; 64]) -> [u8; 64]
    ensures { take 16 (drop 16 result) ≡ closing_tweak session }
{
    session[31] = session[31] % 128 + 128;
    session
}

// Rounds of the closing call: forward for the tag, back from it to the required value.
#[tactic(auto, unfolding(crate::specs::Turning::closed, s1p::specs::Spook::spook))]
fn close(
    sealing: bool,
    key: [u8; 16],
    state: [u8; 64],
    session: [u8; 64],
    from: u32,
    count: u32,
) -> [u8; 64]
    requires { from + count ≤ 12 }
    ensures { result ≡ closed spook sealing key from count state session }
{
    let direction = if sealing {
        Direction::Forward
    } else {
        Direction::Back
    };
    enciphered(direction, key, with_tweak(session), state, from, count)
}

// Rounds of a call, by the part's kind.
#[tactic(auto, unfolding(crate::specs::Turning::turned_bytes, s1p::specs::Spook::spook))]
pub fn turn(
    sealing: bool,
    part: u32,
    key: [u8; 16],
    state: [u8; 64],
    session: [u8; 64],
    from: u32,
    count: u32,
) -> [u8; 64]
    requires { from + count ≤ 12 }
    ensures { result ≡ turned_bytes spook sealing key (part % 5) from count state session }
{
    match Kind::of(part) {
        Kind::Seed => enciphered(Direction::Forward, key, [0u8; 64], state, from, count),
        Kind::Closing => close(sealing, key, state, session, from, count),
        Kind::Start | Kind::Data | Kind::Text => permuted(state, from, count),
    }
}
