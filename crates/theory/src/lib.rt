//! The theorems of the solver: each function carries one in its contract, and does nothing else.
#![tactic(auto)]

ghost use Rattle.theory.specs.Meaning.{ChoiceByMeaning};
ghost use Rattle.theory.specs.Theorems.{StatesStayFormed, JoinedCellsHaveOneType, ChoiceExtendsToAssignment, ChoiceFixesAssignment, ConsistentStateHasUnclassedAssignment, JoinedCellsHaveOneLabel, CertifiedStateHasAssignment, ListingIsUnique, ListingExists, RowsAreFillings, FillingsAreRows, SameEquationsJoinTheSame, SameEquationsHaveSameListings, ClashLeavesNoAssignment, BarredLeavesNoAssignment, EveryStateHasAVerdict, NextEquationHasAVerdict, EmptyStateIsCertified, NewCellKeepsCertificate, NewCellKeepsClasses};
ghost use Rattle.theory.specs.ShapesOfClasses.{ShapesAreBacked, ShapesSayHowCellsAreWritten};
ghost use Rattle.theory.specs.SetsByLabel.{SetsDecideClasses, SetsMerge};
ghost use Rattle.theory.specs.Closures.{CertificateResumes, ClosureMoves, ClosureEnds};
ghost use Rattle.theory.specs.PendingBound.{PendingIsBounded};
ghost use Rattle.theory.specs.Walks.{WalkMoves, WalkMeasureFalls, WalkEnds, DoneNodesHaveRanks};
ghost use Rattle.theory.specs.Rings.{CycleIsRingOrStrict, RingIsJoined, StrictCycleClashes};
ghost use Rattle.theory.specs.Changes.{MovesChangeFew, LoopsAreInChangedClasses, ChangedClassesHaveRanks, ChangedClassesAreAdmitted};

// Alphabets.

/// Whether an alphabet finds a code for a set of classes depends on its meaning alone, not on the code that it chooses.
pub fn choice_is_by_meaning()
    ensures { ChoiceByMeaning }
{}

// States.

/// The empty state is formed, and a state stays so where a formed cell or an equation of cells that stand is added.
pub fn states_stay_formed()
    ensures { StatesStayFormed }
{}

// Joining and assignments.

/// Joined cells have one type under every assignment, even with the classes read as empty.
pub fn joined_cells_have_one_type()
    ensures { JoinedCellsHaveOneType }
{}

/// Where labels are consistent with a state, every choice of types at the classes without a term extends to an assignment.
pub fn choice_extends_to_assignment()
    ensures { ChoiceExtendsToAssignment }
{}

/// Assignments that agree at the classes without a term agree everywhere.
pub fn choice_fixes_assignment()
    ensures { ChoiceFixesAssignment }
{}

/// Where labels are consistent with a state there is an assignment with the classes read as empty.
pub fn consistent_state_has_unclassed_assignment()
    ensures { ConsistentStateHasUnclassedAssignment }
{}

/// Where labels are consistent with a state, joined cells have one label.
pub fn joined_cells_have_one_label()
    ensures { JoinedCellsHaveOneLabel }
{}

/// A state with a certificate whose classes are met has an assignment.
pub fn certified_state_has_assignment()
    ensures { CertifiedStateHasAssignment }
{}

// Listings and fillings.

/// Lists of cells that are joined have one listing.
pub fn listing_is_unique()
    ensures { ListingIsUnique }
{}

/// In a state with a certificate every list of cells has a listing.
pub fn listing_exists()
    ensures { ListingExists }
{}

/// Whatever types an assignment gives a list of cells, some filling of its listing gives them.
pub fn rows_are_fillings()
    ensures { RowsAreFillings }
{}

/// Whatever types a filling of a listing gives, some assignment gives its cells.
pub fn fillings_are_rows()
    ensures { FillingsAreRows }
{}

// The same equations.

/// The same equations, in whatever order, however often and either way round, join the same cells.
pub fn same_equations_join_the_same()
    ensures { SameEquationsJoinTheSame }
{}

/// The same equations have the same listings.
pub fn same_equations_have_same_listings()
    ensures { SameEquationsHaveSameListings }
{}

// Refusals and verdicts.

/// Two codes in one class, or a type inside itself, leave no assignment, even with the classes read as empty.
pub fn clash_leaves_no_assignment()
    ensures { ClashLeavesNoAssignment }
{}

/// A class that does not admit the code of a term, or classes that no code has together, leave no assignment.
pub fn barred_leaves_no_assignment()
    ensures { BarredLeavesNoAssignment }
{}

/// Every state has a certificate, or no assignment even with the classes read as empty, or one so but none with them.
pub fn every_state_has_a_verdict()
    ensures { EveryStateHasAVerdict }
{}

/// From a certificate one equation more comes to a verdict.
pub fn next_equation_has_a_verdict()
    ensures { NextEquationHasAVerdict }
{}

// Certificates from cell to cell.

/// The empty state has a certificate, and its classes are met.
pub fn empty_state_is_certified()
    ensures { EmptyStateIsCertified }
{}

/// A certificate stays one where a cell is added, which is a class by itself.
pub fn new_cell_keeps_certificate()
    ensures { NewCellKeepsCertificate }
{}

/// The classes stay met where a cell is added whose classes are met.
pub fn new_cell_keeps_classes()
    ensures { NewCellKeepsClasses }
{}

// What labels, shapes and sets say.

/// A shape names as many cells as its code has places, they stand, and joined classes whose codes do not agree clash.
pub fn shapes_are_backed()
    ensures { ShapesAreBacked }
{}

/// Labels say which cells are joined, and the shape of its class by which rule a cell is written.
pub fn shapes_say_how_cells_are_written()
    ensures { ShapesSayHowCellsAreWritten }
{}

/// The set of a class of cells decides whether the classes of its unknowns are met.
pub fn sets_decide_classes()
    ensures { SetsDecideClasses }
{}

/// Where two classes of cells are merged, their sets are joined.
pub fn sets_merge()
    ensures { SetsMerge }
{}

// The closure.

/// From a certificate the closure goes on with one equation more.
pub fn certificate_resumes()
    ensures { CertificateResumes }
{}

/// Each move of a closure keeps its invariant, and the measure falls with each pending pair.
pub fn closure_moves()
    ensures { ClosureMoves }
{}

/// The cells that shapes name and the pending pairs, together, never rise.
pub fn pending_is_bounded()
    ensures { PendingIsBounded }
{}

/// From wherever its invariant holds a closure comes to a certificate, or to a clash.
pub fn closure_ends()
    ensures { ClosureEnds }
{}

// The walk.

/// Each move of a depth-first walk keeps its invariant, and coming round is a cycle.
pub fn walk_moves()
    ensures { WalkMoves }
{}

/// The measure of a depth-first walk falls with each move.
pub fn walk_measure_falls()
    ensures { WalkMeasureFalls }
{}

/// A depth-first walk comes to its end, or there is a cycle.
pub fn walk_ends()
    ensures { WalkEnds }
{}

/// What a walk is done with has a rank that falls along edges, over an older rank elsewhere.
pub fn done_nodes_have_ranks()
    ensures { DoneNodesHaveRanks }
{}

// Rings.

/// Where the walk comes round, it is by second places of Pairs only, or by some other place.
pub fn cycle_is_ring_or_strict()
    ensures { CycleIsRingOrStrict }
{}

/// Where the walk comes round by second places of Pairs, its classes are joined.
pub fn ring_is_joined()
    ensures { RingIsJoined }
{}

/// Where the walk comes round by any other place, there is a clash.
pub fn strict_cycle_clashes()
    ensures { StrictCycleClashes }
{}

// Only what has changed.

/// A merge changes the class that is left of the two, and a new shape its own class.
pub fn moves_change_few()
    ensures { MovesChangeFew }
{}

/// A Pair whose second place is in its own class stands only in a class that has changed.
pub fn loops_are_in_changed_classes()
    ensures { LoopsAreInChangedClasses }
{}

/// A walk that is done with the changed classes is enough for a new rank.
pub fn changed_classes_have_ranks()
    ensures { ChangedClassesHaveRanks }
{}

/// Only the classes of the unknowns of changed classes of cells are to be checked again.
pub fn changed_classes_are_admitted()
    ensures { ChangedClassesAreAdmitted }
{}
