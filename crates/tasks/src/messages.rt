// The messages that are sealed, filled as the second program fills them (tests/second/src/tasks.rs).
use crate::beginnings::{Beginning, seed};
use case_file::filling::Sequence;
use case_file::parts::within;

#[derive(Clone, Copy)]
pub struct Message {
    pub beginning: Beginning,
    // of these three the bytes at the start are the message's
    pub data: [u8; 256],
    pub plain: [u8; 100],
    // what stands in the output before each run
    pub before: [u8; 100],
}

impl Message {
    // Key, nonce, associated data and text by one sequence, in this order; the output by one of its own.
    pub fn filled(instance: u32, index: u32, assoc: u32, text: u32) -> Self {
        let start = seed(instance, index);
        let mut sequence = Sequence::new(start);
        let beginning = Beginning::filled(&mut sequence, instance, assoc, text);
        let mut data = [0u8; 256];
        let mut plain = [0u8; 100];
        let mut before = [0u8; 100];
        let a = within(&data, assoc as usize);
        let m = within(&plain, text as usize);
        sequence.fill(&mut data[..a]);
        sequence.fill(&mut plain[..m]);
        Sequence::new(start + 1).fill(&mut before[..m]);
        Message {
            beginning,
            data,
            plain,
            before,
        }
    }
}
