// What a case comes to.
use case_file::verdict::Verdict;

// What it showed, and how many slices it had.
#[derive(Clone, Copy)]
pub struct Outcome {
    pub verdict: Verdict,
    pub slices: u32,
}

// Without slices.
impl From<Verdict> for Outcome {
    fn from(verdict: Verdict) -> Self {
        Outcome { verdict, slices: 0 }
    }
}
