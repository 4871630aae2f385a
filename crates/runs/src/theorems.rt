//! The theorem about runs of calls, carried by the contract of a function that does nothing else.
ghost use Rattle.runs.specs.Promise.{RunsKeepThePromise};

/// After every run of calls from an opening the next call has one outcome, there is an assignment, listings are filled by exactly the rows of types that
/// assignments give, and every run with the same cells and equations shows every list alike.
pub fn runs_keep_the_promise()
    ensures { RunsKeepThePromise }
{}
