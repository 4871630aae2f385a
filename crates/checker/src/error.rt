//! Why the program does not come to the end of a plan.
use std::alloc::Global;
use std::fmt::Display;
use std::io;

/// Why a plan is not read to its end.
#[derive(Debug, Drop)]
pub(crate) enum PlanError {
    /// The plan is sent back, and the sentence says why. It outlives the words that it tells of, so it is a text of its own.
    SentBack(String),
    /// The program cannot go on, which is no fault of the plan.
    Failed(anyhow::Error),
}

impl PlanError {
    /// The plan is sent back for the reason.
    pub(crate) fn sent_back(heap: Global, reason: impl Display + Drop) -> PlanError {
        match reason.to_string(heap) {
            Ok(sentence) => PlanError::SentBack(sentence),
            Err(error) => PlanError::Failed(anyhow::Error::from(error)),
        }
    }
}

impl From<io::Error> for PlanError {
    fn from(error: io::Error) -> PlanError {
        PlanError::Failed(anyhow::Error::from(error))
    }
}
