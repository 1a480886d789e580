// Why no parcel is built, or none is read: a type of its own beside isap's, with these reasons and no other. Each is document 01's number.
ghost use Rattle.std.specs.Prelude.{◌≡◌, ℕ};
ghost use Rattle.parcel.specs.Refusals.{number_of_refusal};

#[derive(Clone, Copy, PartialEq, Eq)]
pub enum Refusal {
    UnknownInstance = 1,
    KeyLength = 2,
    TextTooLong = 5,
    OutputLength = 6,
    WrongMark = 12,
    CounterSpent = 13,
    CutShort = 14,
}

// A reason that has a number.
pub trait Numbered: Copy {
    ghost number_is: { Self → ℕ };

    fn number(self) -> u32
        ensures { result ≡ number_is self };
}

impl Numbered for Refusal {
    ghost number_is = { number_of_refusal };

    fn number(self) -> u32 {
        self as u32
    }
}

// A plain number, as a host may hand one on, is its own.
impl Numbered for u32 {
    ghost number_is = { λ n. n };

    fn number(self) -> u32 {
        self
    }
}
