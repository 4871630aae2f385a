//! Files of words.
use crate::error::PlanError;
use anyhow::anyhow;
use report::tokens::UnreadableSentence;
use std::io::Read;
use std::{fs, io};
use words::{TextError, words_of};

// The bytes of the file, or of the standard input where it is named `-`.
fn bytes_of(rt: &HostRuntime, file: &str) -> io::Result<Vec<u8>> {
    if file != "-" {
        return fs::read(rt, file);
    }
    let mut bytes = Vec::new(rt.alloc());
    rt.stdin().read_to_end(&mut bytes)?;
    Ok(bytes)
}

/// The words of the file.
pub(crate) fn read_words(rt: &HostRuntime, file: &str) -> Result<Vec<u32>, PlanError> {
    let heap = rt.alloc();
    let bytes = bytes_of(rt, file).map_err(|error| PlanError::sent_back(
        heap,
        format_args!("cannot be read: {error}"),
    ))?;
    words_of(heap, &bytes).map_err(|error| match error {
        TextError::Unreadable(token) => PlanError::sent_back(heap, UnreadableSentence(token)),
        TextError::Memory => PlanError::Failed(anyhow!("out of memory")),
    })
}
