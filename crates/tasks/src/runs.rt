// Runs of the task.
use crate::messages::Message;
use case_file::parts::{first, within};
use isap::Job;
use task::Kept;

// What a run is given beside the message's associated data.
#[derive(Clone, Copy)]
pub struct Run {
    pub job: Job,
    pub text: [u8; 100],
    // the length of the output that is lent
    pub out: u32,
    pub budget: u32,
    pub turns: u32,
}

#[derive(Clone, Copy)]
pub struct Left {
    pub kept: Kept,
    pub out: [u8; 100],
}

impl Run {
    pub fn done(self, message: Message) -> Left {
        let mut out = message.before;
        let n = within(&out, self.out as usize);
        let kept = task::run(
            self.job,
            first(&message.data, message.beginning.assoc as usize),
            first(&self.text, message.beginning.text as usize),
            &mut out[..n],
            self.budget,
            self.turns,
        );
        Left { kept, out }
    }
}
