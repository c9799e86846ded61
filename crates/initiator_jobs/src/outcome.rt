//! The outcome of a job.

use crate::answers::Answers;

/// What the target answered to the initiators of a job.
#[derive(Clone, Copy)]
pub struct Outcome {
    /// A digest of all bytes.
    pub digest: u64,
    /// The number of answers, without Data-Ins and R2Ts.
    pub answers: u64,
    /// The number of SCSI Responses with status GOOD.
    pub good: u64,
}

impl Outcome {
    /// Returns the outcome of no initiator.
    pub fn new() -> Outcome {
        Outcome {
            digest: 0,
            answers: 0,
            good: 0,
        }
    }

    /// Adds the answers to another initiator.
    pub fn add(&mut self, answers: &Answers) {
        self.digest = self
            .digest
            .rotate_left(5)
            .wrapping_add(answers.digest.value());
        self.answers = self.answers.wrapping_add(answers.ended);
        self.good = self.good.wrapping_add(answers.good);
    }
}
