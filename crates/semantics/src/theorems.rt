// The theorems on the definitions of specs/: each of these functions has one as its contract, and does nothing.

ghost use Rattle.semantics.specs.Theorems.{RoundsReachTheLeastModel, SetsAreListedOnceInOrder, PlansAreListedOnceInOrder, HeldCountsThePlansWithAnAtom, BoundsHoldInEveryPlan, AContradictionLeavesNoPlan, NoMarksNoContradiction, EachRoundNarrows, RoundsEndAtOnePair, RoundsBoundTheSearch, SearchStepsKeepTheListing, SearchStepsLeaveLessWork, SearchFindsEveryPlan};
ghost use Rattle.semantics.specs.Modules.{ModulesAreLawful, RuleModulesAnswerByPlans};
ghost use Rattle.semantics.specs.History.{EachCallHasOneAnswer, EveryRunKeepsTheLaw};
ghost use Rattle.semantics.specs.Worked.{Worked, WorkedHistory, WorkedFaults};

// Least models and listing order.
pub fn rounds_reach_the_least_model()
    ensures { RoundsReachTheLeastModel }
{}

pub fn sets_are_listed_once_in_order()
    ensures { SetsAreListedOnceInOrder }
{}

// Plans.
pub fn plans_are_listed_once_in_order()
    ensures { PlansAreListedOnceInOrder }
{}

pub fn held_counts_the_plans_with_an_atom()
    ensures { HeldCountsThePlansWithAnAtom }
{}

// Bounds.
pub fn bounds_hold_in_every_plan()
    ensures { BoundsHoldInEveryPlan }
{}

pub fn a_contradiction_leaves_no_plan()
    ensures { AContradictionLeavesNoPlan }
{}

pub fn no_marks_no_contradiction()
    ensures { NoMarksNoContradiction }
{}

pub fn each_round_narrows()
    ensures { EachRoundNarrows }
{}

pub fn rounds_end_at_one_pair()
    ensures { RoundsEndAtOnePair }
{}

// Search.
pub fn search_steps_keep_the_listing()
    ensures { SearchStepsKeepTheListing }
{}

pub fn rounds_bound_the_search()
    ensures { RoundsBoundTheSearch }
{}

pub fn search_steps_leave_less_work()
    ensures { SearchStepsLeaveLessWork }
{}

pub fn search_finds_every_plan()
    ensures { SearchFindsEveryPlan }
{}

// Modules.
pub fn modules_are_lawful()
    ensures { ModulesAreLawful }
{}

pub fn rule_modules_answer_by_plans()
    ensures { RuleModulesAnswerByPlans }
{}

// Lists of calls.
pub fn each_call_has_one_answer()
    ensures { EachCallHasOneAnswer }
{}

pub fn every_run_keeps_the_law()
    ensures { EveryRunKeepsTheLaw }
{}

// Examples, by computation.
pub fn small_sheets_work_out()
    ensures { Worked }
{}

pub fn a_history_works_out()
    ensures { WorkedHistory }
{}

pub fn faults_work_out()
    ensures { WorkedFaults }
{}
