// Cases counted by kind.
ghost use Rattle.std.specs.Prelude.{ℕ, ◌≡◌, ◌↔◌, ◌+◌, ◌%◌, ◌^◌, ◌<◌, ◌≤◌, IsNone, IsSome, IfSome, Some, slice_index};
ghost use Rattle.case_file.specs.Counting.{raised_at};

use crate::verdict::{Difference, Verdict};
use std::fmt;

// Of so many cases that differ it is said which they are.
const NAMED: u32 = 5;

// What a program counts, with its name.
pub trait Kind: Copy + fmt::Display {
    ghost place_is: { Self → ℕ };

    // Its place in a tally.
    fn place(self) -> usize
        ensures its_own { result ≡ place_is self }
        ensures within { result < 12 };
}

// What stands where a case would begin is no kind's number: the cases have ended.
#[derive(Clone, Copy, Debug)]
pub struct NoCase;

#[derive(Clone, Copy, Debug, Default)]
pub struct Tally {
    pub counts: [u32; 12],
    pub cases: u32,
    pub differences: u32,
}

impl Tally {
    // More of a kind that is no case, as slices are.
    pub fn more<K: Kind>(&mut self, kind: K, by: u32)
        ensures raises { (K.place_is kind < 12) × (self.new.counts ≡ raised_at (K.place_is kind) by self.old.counts) }
        ensures cases { (self.new.cases ≡ self.old.cases) × (self.new.differences ≡ self.old.differences) }
    {
        let place = kind.place();
        self.counts[place] = self.counts[place].wrapping_add(by);
    }

    // One case more. Gives its difference, if that is to be named.
    pub fn counted<K: Kind>(&mut self, kind: K, verdict: Verdict) -> Option<Difference>
        ensures raises { (K.place_is kind < 12) × (self.new.counts ≡ raised_at (K.place_is kind) 1 self.old.counts) }
        ensures cases { self.new.cases ≡ (self.old.cases + 1) % 2 ^ 32 }
        ensures differs { IsSome verdict → self.new.differences ≡ (self.old.differences + 1) % 2 ^ 32 }
        ensures agrees { IsNone verdict → self.new.differences ≡ self.old.differences }
        ensures named { IsSome result ↔ (IsSome verdict × (self.new.differences ≤ NAMED)) }
        ensures difference { IfSome result (λ d. verdict ≡ Some d) }
    {
        self.more(kind, 1);
        self.cases = self.cases.wrapping_add(1);
        let difference = verdict?;
        self.differences = self.differences.wrapping_add(1);
        (self.differences <= NAMED).then_some(difference)
    }

    pub fn count<K: Kind>(&self, kind: K) -> u32
        ensures { (K.place_is kind < 12) × (result ≡ slice_index self.now.counts (K.place_is kind)) }
    {
        self.counts[kind.place()]
    }
}

// What is printed in the end: how many there were of each kind, and how many cases differ.
#[derive(Clone, Copy)]
pub struct Report<'a, K> {
    pub tally: Tally,
    pub kinds: &'a [K],
}

impl<K: Kind> fmt::Display for Report<'_, K> {
    fn fmt<W: fmt::Write>(&self, f: &mut fmt::Formatter<W>) -> fmt::Result {
        for kind in self.kinds {
            writeln!(f, "{kind}: {}", self.tally.count(*kind))?;
        }
        writeln!(f, "differences: {}", self.tally.differences)
    }
}
