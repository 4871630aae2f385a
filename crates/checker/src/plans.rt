//! What the program does with plans.
use crate::error::PlanError;
use crate::files::read_words;
use alphabet::alphabet::Alphabet;
use alphabet::loads::Loads;
use alphabet::types::Types;
use plan::reader::Reader;
use plan::tally::{Tally, count_items};
use report::counts::PlanCounts;
use report::items::ItemLine;
use report::names::Names;
use report::refusals::RefusalSentence;
use std::io;
use std::process::ExitCode;

/// An alphabet with the names that are printed for it.
trait Printed: Alphabet {
    const NAMES: Names;
}

impl Printed for Loads {
    const NAMES: Names = Names::Loads;
}

impl Printed for Types {
    const NAMES: Names = Names::Types;
}

// Prints the items of the plan, up to the end or to the first that is refused.
fn print_items<A: Printed>(rt: &HostRuntime, alphabet: &A, words: &[u32]) -> io::Result<()> {
    let Ok(mut reader) = Reader::open(words) else {
        return Ok(());
    };
    let mut tally = Tally { items: 0, cells: 0 };
    let mut position = 0;
    while let Ok(Some(item)) = reader.next(alphabet) {
        let line = ItemLine {
            names: A::NAMES,
            position,
            cell: tally.cells,
            item: &item,
        };
        println!(rt; "{line}")?;
        tally = tally.and(&item);
        position = reader.position();
    }
    Ok(())
}

// Prints the items of the plan and counts them, or says what sends the plan back. The verdict is that of `count_items`,
// whose contract fixes it; so printing passes over what is refused.
fn print_plan<A: Printed>(
    rt: &HostRuntime,
    alphabet: &A,
    words: &[u32],
) -> Result<PlanCounts, PlanError> {
    print_items(rt, alphabet, words)?;
    let tally = count_items(alphabet, words).map_err(|fault| PlanError::sent_back(
        rt.alloc(),
        RefusalSentence { fault, words },
    ))?;
    Ok(PlanCounts {
        tally,
        words: words.len(),
    })
}

// The same for the plan in the file.
fn print_file(rt: &HostRuntime, names: Names, file: &str) -> Result<PlanCounts, PlanError> {
    let words = read_words(rt, file)?;
    match names {
        Names::Loads => print_plan(rt, &Loads, &words),
        Names::Types => print_plan(rt, &Types, &words),
    }
}

/// Prints a line for each item of the plan and then how many there are, or what sends the plan back.
pub fn list(rt: &HostRuntime, names: Names, file: &str) -> anyhow::Result<ExitCode> {
    match print_file(rt, names, file) {
        Ok(counts) => {
            println!(rt; "{counts}")?;
            Ok(ExitCode::SUCCESS)
        }
        Err(PlanError::SentBack(sentence)) => {
            eprintln!(rt; "checker: {file}: {sentence}")?;
            Ok(ExitCode::FAILURE)
        }
        Err(PlanError::Failed(error)) => Err(error),
    }
}

/// Prints the same for each plan, under the name of its file.
pub fn judge(rt: &HostRuntime, names: Names, files: &[String]) -> anyhow::Result<ExitCode> {
    for file in files {
        println!(rt; "{file}:")?;
        match print_file(rt, names, file.as_str()) {
            Ok(counts) => println!(rt; "{counts}")?,
            Err(PlanError::SentBack(sentence)) => println!(rt; "{sentence}")?,
            Err(PlanError::Failed(error)) => return Err(error),
        }
    }
    Ok(ExitCode::SUCCESS)
}
