// Why a call is refused. Each reason is document 01's number of it, by which the public calls answer.
ghost use Rattle.std.specs.Prelude.{◌≡◌};
ghost use Rattle.isap.specs.Refusals.{number_of_refusal};

#[derive(Clone, Copy)]
pub enum Refusal {
    UnknownInstance = 1,
    KeyLength = 2,
    NonceLength = 3,
    AssocTooLong = 4,
    TextTooLong = 5,
    OutputLength = 6,
    TagLength = 7,
    RecordCannotStand = 9,
    JobHasEnded = 10,
    LentLengths = 11,
}

impl Refusal {
    pub fn number(self) -> u32
        ensures { result ≡ number_of_refusal self }
    {
        self as u32
    }
}
