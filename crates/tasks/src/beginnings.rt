// What a job begins with.
ghost use Rattle.std.specs.Prelude.{◌<◌};

use case_file::filling::Sequence;
use isap::Job;

#[derive(Clone, Copy)]
pub struct Beginning {
    pub instance: u32,
    pub key: [u8; 16],
    pub nonce: [u8; 16],
    // the two lengths in bytes
    pub assoc: u32,
    pub text: u32,
}

impl Beginning {
    // Key and nonce go on with the sequence.
    pub fn filled(sequence: &mut Sequence, instance: u32, assoc: u32, text: u32) -> Self {
        Beginning {
            instance,
            key: sequence.array(),
            nonce: sequence.array(),
            assoc,
            text,
        }
    }

    pub fn sealing(self) -> Job {
        isap::begin_seal(self.instance, &self.key, &self.nonce, self.assoc, self.text).job
    }

    pub fn opening(self, tag: [u8; 16]) -> Job {
        isap::begin_open(
            self.instance,
            &self.key,
            &self.nonce,
            &tag,
            self.assoc,
            self.text,
        )
        .job
    }
}

// The same tag with one bit changed. Crate cases has its own, which stands without case_file.
pub fn wrong(tag: [u8; 16]) -> [u8; 16] {
    let mut t = tag;
    t[15] ^= 1;
    t
}

// Of a sequence. Small enough that one more is a seed too.
pub fn seed(instance: u32, index: u32) -> u64
    ensures { result < 5000000000000 }
{
    u64::from(instance) * 1000 + u64::from(index) * 10
}
