// A request's 14 bytes: operation, instance, the two lengths in two bytes each, budget and repetitions in four, the first most significant.

#[derive(Clone, Copy, Debug, PartialEq, Eq)]
pub enum Operation {
    SealWhole,
    OpenWhole,
    SealInSlices,
    // the same by a host task that keeps the record
    SealKept,
}

// What a number asks for; one that is none of these, for whole sealings.
impl From<u8> for Operation {
    fn from(number: u8) -> Self {
        match number {
            2 => Operation::OpenWhole,
            3 => Operation::SealInSlices,
            4 => Operation::SealKept,
            _ => Operation::SealWhole,
        }
    }
}

#[derive(Clone, Copy)]
pub struct Request {
    // its number as it came, for the line says it again
    pub operation: u8,
    pub instance: u32,
    // the two lengths in bytes
    pub assoc: u32,
    pub text: u32,
    pub budget: u32,
    pub repetitions: u32,
}

impl From<[u8; 14]> for Request {
    fn from(b: [u8; 14]) -> Self {
        Request {
            operation: b[0],
            instance: u32::from(b[1]),
            assoc: u32::from(u16::from_be_bytes([b[2], b[3]])),
            text: u32::from(u16::from_be_bytes([b[4], b[5]])),
            budget: u32::from_be_bytes([b[6], b[7], b[8], b[9]]),
            repetitions: u32::from_be_bytes([b[10], b[11], b[12], b[13]]),
        }
    }
}
