// The buffers from which the lent parts are taken, each from its start. The second program has the same (`ROOM`).
use case_file::filling::Sequence;

#[derive(Clone, Copy)]
pub struct Room {
    pub key: [u8; 32],
    pub text: [u8; 4200],
    pub out: [u8; 4200],
}

impl Room {
    // One sequence fills all buffers in order.
    pub fn filled(seed: u64) -> Self {
        let mut sequence = Sequence::new(seed);
        Room {
            key: sequence.array(),
            text: sequence.array(),
            out: sequence.array(),
        }
    }
}
