//! Theorems about plans. The functions here do nothing: each carries a theorem in its contract.
ghost use Rattle.plan.specs.Reading.{OneReading, GivesBack};

/// Every position of a plan has exactly one item, refusal or end, and one position where the next item begins.
pub fn every_position_has_one_reading()
    ensures { OneReading }
{}

/// Items written out one after another give back exactly the words that were read.
pub fn items_give_back_their_words()
    ensures { GivesBack }
{}
