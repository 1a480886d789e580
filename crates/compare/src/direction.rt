// Which way a case goes.

#[derive(Clone, Copy, Debug, PartialEq, Eq)]
pub enum Direction {
    Sealing,
    Opening,
}

// As a case file has it.
impl From<u8> for Direction {
    fn from(number: u8) -> Self {
        match number {
            1 => Direction::Sealing,
            _ => Direction::Opening,
        }
    }
}
