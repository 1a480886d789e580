// The kinds of cases, and what they are called.
use case_file::tally;
use case_file::tally::NoCase;
use std::fmt;

#[derive(Clone, Copy, Debug, PartialEq, Eq)]
pub enum Kind {
    Message,
    WholeRefused,
    Sealing,
    Opening,
    WrongTag,
    BeginningRefused,
    Standing,
    NotStanding,
    Ended,
    OtherLengths,
    // no kind of case: the slices of all
    Slices,
}

impl Kind {
    // As they are printed.
    pub const ALL: [Kind; 11] = [
        Kind::Message,
        Kind::WholeRefused,
        Kind::Sealing,
        Kind::Opening,
        Kind::WrongTag,
        Kind::BeginningRefused,
        Kind::Standing,
        Kind::NotStanding,
        Kind::Ended,
        Kind::OtherLengths,
        Kind::Slices,
    ];
}

impl tally::Kind for Kind {
    ghost use Rattle.compare.specs.Kinds.{place_of};

    ghost place_is = { place_of };

    fn place(self) -> usize {
        self as usize
    }
}

impl TryFrom<u8> for Kind {
    type Error = NoCase;

    fn try_from(number: u8) -> Result<Self, NoCase> {
        match number {
            1 => Ok(Kind::Message),
            2 => Ok(Kind::WholeRefused),
            3 => Ok(Kind::Sealing),
            4 => Ok(Kind::Opening),
            5 => Ok(Kind::WrongTag),
            6 => Ok(Kind::BeginningRefused),
            7 => Ok(Kind::Standing),
            8 => Ok(Kind::NotStanding),
            9 => Ok(Kind::Ended),
            10 => Ok(Kind::OtherLengths),
            _ => Err(NoCase),
        }
    }
}

impl fmt::Display for Kind {
    fn fmt<W: fmt::Write>(&self, f: &mut fmt::Formatter<W>) -> fmt::Result {
        f.write_str(match self {
            Kind::Message => "messages sealed, opened, and opened damaged",
            Kind::WholeRefused => "whole calls refused",
            Kind::Sealing => "sealings in slices",
            Kind::Opening => "openings in slices",
            Kind::WrongTag => "openings in slices, with a wrong tag",
            Kind::BeginningRefused => "beginnings refused",
            Kind::Standing => "forged records that can stand",
            Kind::NotStanding => "forged records that cannot stand",
            Kind::Ended => "forged records that have ended",
            Kind::OtherLengths => "forged records with other lengths lent",
            Kind::Slices => "slices",
        })
    }
}
