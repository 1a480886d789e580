// The kinds of cases, and what they are called.
use case_file::tally;
use case_file::tally::NoCase;
use std::fmt;

#[derive(Clone, Copy, Debug, PartialEq, Eq)]
pub enum Kind {
    Built,
    NotBuilt,
    Opened,
    WrongTag,
    LengthLent,
    CutShort,
    WrongMark,
    WrongHeader,
}

impl Kind {
    // As they are printed.
    pub const ALL: [Kind; 8] = [
        Kind::Built,
        Kind::NotBuilt,
        Kind::Opened,
        Kind::WrongTag,
        Kind::LengthLent,
        Kind::CutShort,
        Kind::WrongMark,
        Kind::WrongHeader,
    ];
}

impl tally::Kind for Kind {
    ghost use Rattle.parcels.specs.Kinds.{place_of};

    ghost place_is = { place_of };

    fn place(self) -> usize {
        self as usize
    }
}

impl TryFrom<u8> for Kind {
    type Error = NoCase;

    fn try_from(number: u8) -> Result<Self, NoCase> {
        match number {
            1 => Ok(Kind::Built),
            2 => Ok(Kind::NotBuilt),
            3 => Ok(Kind::Opened),
            4 => Ok(Kind::WrongTag),
            5 => Ok(Kind::LengthLent),
            6 => Ok(Kind::CutShort),
            7 => Ok(Kind::WrongMark),
            8 => Ok(Kind::WrongHeader),
            _ => Err(NoCase),
        }
    }
}

impl fmt::Display for Kind {
    fn fmt<W: fmt::Write>(&self, f: &mut fmt::Formatter<W>) -> fmt::Result {
        f.write_str(match self {
            Kind::Built => "parcels built",
            Kind::NotBuilt => "parcels not built",
            Kind::Opened => "parcels read and opened",
            Kind::WrongTag => "parcels read and not opened, for the tag",
            Kind::LengthLent => "parcels read and not opened, for a length lent",
            Kind::CutShort => "buffers cut short",
            Kind::WrongMark => "buffers without the mark",
            Kind::WrongHeader => "buffers whose instance or text length no parcel has",
        })
    }
}
