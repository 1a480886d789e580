// What a case shows: the first thing that differs, and in which of its calls.
ghost use Rattle.std.specs.Prelude.{◌≡◌, ◌↔◌, IsTrue, IsNone, IfSome};

use isap::Answer;
use std::fmt;

// What can differ.
#[derive(Clone, Copy, Debug, PartialEq, Eq)]
pub enum What {
    Number,
    Rounds,
    Output,
    Tag,
    Record,
    Counter,
    Reading,
    Fields,
    Ciphertext,
}

impl fmt::Display for What {
    ghost use Rattle.std.specs.Prelude.{Some};
    ghost use Rattle.case_file.specs.Shown.{name_of};

    ghost output = { λ what. Some (name_of what) };

    fn fmt<W: fmt::Write>(&self, f: &mut fmt::Formatter<W>) -> fmt::Result {
        match self {
            What::Number => f.write_str("number"),
            What::Rounds => f.write_str("rounds"),
            What::Output => f.write_str("output"),
            What::Tag => f.write_str("tag"),
            What::Record => f.write_str("record"),
            What::Counter => f.write_str("counter"),
            What::Reading => f.write_str("reading"),
            What::Fields => f.write_str("fields"),
            What::Ciphertext => f.write_str("ciphertext"),
        }
    }
}

#[derive(Clone, Copy, Debug, PartialEq, Eq)]
pub struct Difference {
    pub what: What,
    // counted from 1; 0 is a beginning
    pub call: u32,
}

impl fmt::Display for Difference {
    ghost use Rattle.std.specs.Prelude.{Some};
    ghost use Rattle.case_file.specs.Shown.{difference_of};

    ghost output = { λ difference. Some (difference_of difference) };

    fn fmt<W: fmt::Write>(&self, f: &mut fmt::Formatter<W>) -> fmt::Result {
        write!(f, "call {}: {} different", self.call, self.what)
    }
}

pub type Verdict = Option<Difference>;

// A difference in this, unless what came is the same as what must come.
pub fn unless(same: bool, what: What, call: u32) -> Verdict
    ensures none { IsNone result ↔ IsTrue same }
    ensures named { IfSome result (λ d. (d.what ≡ what) × (d.call ≡ call)) }
{
    if same {
        return None;
    }
    Some(Difference { what, call })
}

// The number of an answer is compared first, then its rounds.
pub fn answered(answer: Answer, expected: Answer, call: u32) -> Verdict
    ensures { IsNone result ↔ (answer ≡ expected) }
{
    let number = unless(answer.number == expected.number, What::Number, call);
    number.or(unless(answer.rounds == expected.rounds, What::Rounds, call))
}
