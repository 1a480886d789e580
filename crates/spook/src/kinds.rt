// The kinds of parts.
ghost use Rattle.std.specs.Prelude.{◌≡◌, ◌%◌};
ghost use Rattle.spook.specs.Kinds.{number};

// What a part's calls do: a walk has the first four kinds in this order, and the closing call follows it. Crate plan has a type of its own
// (`Stage`): neither of the two crates stands on the other.
#[derive(Clone, Copy)]
pub enum Kind {
    Seed,
    Start,
    Data,
    Text,
    Closing,
}

impl Kind {
    // The kind of a part: those of an opening's second walk are the first walk's.
    pub fn of(part: u32) -> Kind
        ensures { number result ≡ part % 5 }
    {
        match part % 5 {
            0 => Kind::Seed,
            1 => Kind::Start,
            2 => Kind::Data,
            3 => Kind::Text,
            _ => Kind::Closing,
        }
    }
}
