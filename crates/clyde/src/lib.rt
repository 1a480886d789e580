// Clyde-128 and its inverse: the state, the key and the tweak in four rows of 32 bits each, and a run of rounds on the state's bytes.
// Internal: the library above calls it, and meets each `requires`; a host does not see it.
// What a reader must believe is specs/Components.antt and specs/Clyde.antt, where the S-box is the table, applied to one column after the
// other, and the L-box two circulant matrices.
#![tactic(auto)]

mod bytes;
mod layers;

ghost use Rattle.std.specs.Prelude.{◌≡◌, ◌+◌, ◌≤◌, ◌<◌, length};
ghost use Rattle.bits.specs.Pick.{pick};
ghost use Rattle.bits.specs.Run.{rounds as Rounds, run as Run};
ghost use Rattle.clyde.specs.Components.{add};
ghost use Rattle.clyde.specs.Clyde.{bytes_of, delta, TK, round as roundOf, round_inverse};
ghost use Rattle.clyde.specs.OnBytes.{is_back, round_by, turn_by};

// Four rows: a state, a key or a tweak.
#[derive(Clone, Copy)]
pub struct Rows {
    pub x0: u32,
    pub x1: u32,
    pub x2: u32,
    pub x3: u32,
}

// Two rows, on which the L-box works.
#[derive(Clone, Copy)]
pub struct Pair {
    pub a: u32,
    pub b: u32,
}

// Which way the rounds go: those of Clyde-128, or those of its inverse.
#[derive(Clone, Copy)]
pub enum Direction {
    Forward,
    Back,
}

// Clyde-128 with a key and a tweak.
#[derive(Clone, Copy)]
pub struct Clyde {
    key: Rows,
    tweak: Rows,
}

impl Rows {
    // Round r of the twelve, without the tweakeys that may go with it.
    #[tactic(auto, unfolding(crate::specs::Clyde::round))]
    fn round(self, r: u32) -> Rows
        requires { r < 12 }
        ensures { result ≡ roundOf r self }
    {
        self.substitute().mix() ^ Rows::constant(r)
    }

    // Round r undone.
    #[tactic(auto, unfolding(crate::specs::Clyde::round_inverse))]
    fn round_back(self, r: u32) -> Rows
        requires { r < 12 }
        ensures { result ≡ round_inverse r self }
    {
        (self ^ Rows::constant(r)).mix_back().substitute_back()
    }

    // What a tweak adds to the key for tweakey i: the branches go by its number alone.
    #[tactic(auto, unfolding(crate::specs::Clyde::delta))]
    fn delta(self, i: u32) -> Rows
        ensures { result ≡ delta self i }
    {
        match i % 3 {
            0 => self,
            1 => Rows {
                x0: self.x0 ^ self.x2,
                x1: self.x1 ^ self.x3,
                x2: self.x0,
                x3: self.x1,
            },
            _ => Rows {
                x0: self.x2,
                x1: self.x3,
                x2: self.x0 ^ self.x2,
                x3: self.x1 ^ self.x3,
            },
        }
    }
}

impl Clyde {
    // The cipher of a key and a tweak of 16 bytes each.
    #[tactic(auto, using(crate::proofs::OnBytes::block_back))]
    pub fn new(key: &[u8], tweak: &[u8]) -> Clyde
        requires { (length key.now ≡ 16) × (length tweak.now ≡ 16) }
        ensures { (bytes_of result.key ≡ key.now) × (bytes_of result.tweak ≡ tweak.now) }
    {
        Clyde {
            key: Rows::load(key),
            tweak: Rows::load(tweak),
        }
    }

    #[tactic(auto, unfolding(crate::specs::Clyde::TK))]
    fn tweakey(self, i: u32) -> Rows
        ensures { result ≡ TK self.key self.tweak i }
    {
        self.key ^ self.tweak.delta(i)
    }

    // Tweakey n added to a state, where it goes with the round.
    fn added(self, n: u32, goes: bool, s: Rows) -> Rows
        ensures { result ≡ pick goes (add (TK self.key self.tweak n) s) s }
    {
        if goes { s ^ self.tweakey(n) } else { s }
    }

    // Round i of a call: a tweakey goes with the first round, and one with every second. The round's number and the direction alone steer
    // the branches.
    #[tactic(auto, unfolding(crate::specs::Clyde::first, crate::specs::Clyde::second, crate::specs::Clyde::clyde_round, crate::specs::Clyde::clyde_round_inverse))]
    fn turn(self, direction: Direction, s: Rows, i: u32) -> Rows
        requires { i < 12 }
        ensures { result ≡ round_by (is_back direction) self.key self.tweak i s }
    {
        let n = (i + 1) / 2;
        let first = i == 0;
        let second = i % 2 == 1;
        match direction {
            Direction::Forward => self.added(n, second, self.added(0, first, s).round(i)),
            Direction::Back => self.added(
                6 - n,
                second,
                self.added(6, first, s).round_back(11 - i),
            ),
        }
    }

    // The rounds of the indices from `from` on, `count` of them.
    fn run(self, direction: Direction, mut s: Rows, from: u32, count: u32) -> Rows
        requires { from + count ≤ 12 }
        ensures { result ≡ Rounds (round_by (is_back direction) self.key self.tweak) from count s }
    {
        for i in from..from + count {
            s = self.turn(direction, s, i);
        }
        s
    }

    // A run of the rounds on a buffer whose first 16 bytes are the state.
    pub fn rounds(self, direction: Direction, state: &mut [u8], from: u32, count: u32)
        requires { (16 ≤ length state.old) × (from + count ≤ 12) }
        ensures { state.new
            ≡ Run 16 (turn_by (is_back direction) (bytes_of self.key) (bytes_of self.tweak)) from count state.old }
    {
        self.run(direction, Rows::load(state), from, count)
            .store(state);
    }
}
