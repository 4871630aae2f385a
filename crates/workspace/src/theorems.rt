//! Theorems about the calls. Each function carries one in its contract, and does nothing else.
ghost use Rattle.workspace.specs.Promise.{CallsHaveOneAnswer, ReachedStatesKeepThePromise};

/// In every state that calls lead to, each call has an answer, and only one.
pub fn calls_have_one_answer()
    ensures { CallsHaveOneAnswer }
{}

/// Every state that calls lead to from an opening has an assignment; its listings are filled by exactly the rows of types that assignments
/// give; and it shows every list as any other state does that has the same cells and equations, over a meaning that agrees.
pub fn reached_states_keep_the_promise()
    ensures { ReachedStatesKeepThePromise }
{}
