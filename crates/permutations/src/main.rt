// Runs the permutations on the 32 cases of its input and prints the whole state after each: what lies beyond the permutation's bytes must
// come back as it was. A case has 98 bytes: a state (66), then a key (16) and a tweak (16), which Clyde-128 alone looks at. Ascon-p and
// Keccak-p[400] go through the round counts that the instances use; Shadow-512, Clyde-128 and its inverse, whose rounds count in its own
// order, through runs of a call's rounds. The file stdout holds what the second program (tests/second) computes on the same cases.
#![tactic(auto)]

ghost use Rattle.std.specs.Prelude.{ℕ, ◌≡◌, ◌+◌, ◌≤◌, length};

use ascon::Words;
use clyde::{Clyde, Direction};
use console::read_full;
use keccak::Lanes;
use shadow::Bundles;
use std::io::{Read, Write};
use std::{fmt, io};

// A state, printed in hex.
#[derive(Clone, Copy)]
struct Hex([u8; 66]);

impl fmt::Display for Hex {
    fn fmt<W: fmt::Write>(&self, f: &mut fmt::Formatter<W>) -> fmt::Result {
        for b in self.0 {
            write!(f, "{b:02x}")?;
        }
        Ok(())
    }
}

// The state after rounds of a permutation.
fn after<F: Fn(&mut [u8], u32, u32)>(rounds: F, state: [u8; 66], from: u32, count: u32) -> Hex
    requires { (s : _) → length s.now ≡ 66 → F.pre rounds s from count }
{
    let mut s = state;
    rounds(&mut s, from, count);
    Hex(s)
}

fn of_ascon(to: &mut impl Write, state: [u8; 66]) -> io::Result<()> {
    for count in [12, 8, 6, 1] {
        let s = after(engine::rounds::<Words>, state, 12 - count, count);
        writeln!(to, "ascon-p {count} {s}")?;
    }
    Ok(())
}

fn of_keccak(to: &mut impl Write, state: [u8; 66]) -> io::Result<()> {
    for count in [20, 16, 12, 8, 1] {
        let s = after(engine::rounds::<Lanes>, state, 20 - count, count);
        writeln!(to, "keccak-p {count} {s}")?;
    }
    Ok(())
}

// All rounds of a call, the first, the second, some that begin within a step, and up to the last.
const RUNS: [(u32, u32); 5] = [(0, 12), (0, 1), (1, 1), (1, 4), (5, 7)];

fn of_shadow(to: &mut impl Write, state: [u8; 66]) -> io::Result<()> {
    for (from, count) in RUNS {
        let s = after(engine::rounds::<Bundles>, state, from, count);
        writeln!(to, "shadow-512 {from} {count} {s}")?;
    }
    Ok(())
}

// The cipher, or its inverse.
fn of_clyde(
    to: &mut impl Write,
    name: &str,
    cipher: Clyde,
    direction: Direction,
    state: [u8; 66],
) -> io::Result<()> {
    for (from, count) in RUNS {
        let s = after(
            |s, from, count| cipher.rounds(direction, s, from, count),
            state,
            from,
            count,
        );
        writeln!(to, "{name} {from} {count} {s}")?;
    }
    Ok(())
}

fn case(input: &mut impl Read, to: &mut impl Write) -> io::Result<()> {
    let mut state = [0u8; 66];
    let mut key = [0u8; 16];
    let mut tweak = [0u8; 16];
    read_full(input, &mut state)?;
    read_full(input, &mut key)?;
    read_full(input, &mut tweak)?;
    of_ascon(to, state)?;
    of_keccak(to, state)?;
    of_shadow(to, state)?;
    let cipher = Clyde::new(&key, &tweak);
    of_clyde(to, "clyde-128", cipher, Direction::Forward, state)?;
    of_clyde(to, "clyde-128-inverse", cipher, Direction::Back, state)
}

fn main(rt: HostRuntime) -> io::Result<()> {
    let mut input = rt.stdin();
    let mut to = rt.stdout();
    for _ in 0..32 {
        case(&mut input, &mut to)?;
    }
    Ok(())
}
