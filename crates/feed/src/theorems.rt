//! Theorems about feed. Each function carries one in its contract, and does nothing else.
ghost use Rattle.feed.specs.Answering.{FeedHasOneAnswer};
ghost use Rattle.feed.specs.Judging.{PlansAreJudged};

/// In every state that calls lead to, feed answers every plan, in one way only, and leaves such a state.
pub fn feed_has_one_answer()
    ensures { FeedHasOneAnswer }
{}

/// A plan that feed accepts has an assignment of its cells under all its links; where it is refused with 7 or 8, the items before the link have one, and with
/// the link none remains; and a plan that has one is refused with neither.
pub fn plans_are_judged_by_their_links()
    ensures { PlansAreJudged }
{}
