//! Laws of the meaning. Each function carries one as its clause, and does nothing.

ghost use Rattle.meaning_laws.specs.Laws.{FuelIsEnough, LimitsCut, LongerCappedExtend, LongerRunsExtend, LongerSourcesExtend, SourceShowsJournal, VariablesStay};
ghost use Rattle.meaning_laws.specs.Pointers.{PointersNameVariables};
ghost use Rattle.meaning_laws.specs.Typing.{AccessesAreThere, FormIsWellTyped, StatesAreTyped};

/// A longer budget only extends the journal, and an ending other than by turns is kept.
pub fn longer_runs_extend()
    ensures { LongerRunsExtend }
{}

/// The same under limits.
pub fn longer_capped_extend()
    ensures { LongerCappedExtend }
{}

/// What a source shows in fewer turns is what it shows in more, or it stops earlier.
pub fn longer_sources_extend()
    ensures { LongerSourcesExtend }
{}

/// Only turns end a run early: more fuel changes nothing.
pub fn fuel_is_enough()
    ensures { FuelIsEnough }
{}

/// What those outside see is what the journal prints, under the same limits and with the same ending.
pub fn source_shows_journal()
    ensures { SourceShowsJournal }
{}

/// Under limits a run is the one without them, cut before the first call or birth that would pass one, with that limit as its
/// ending.
pub fn limits_cut()
    ensures { LimitsCut }
{}

/// No variable dies or moves.
pub fn variables_stay()
    ensures { VariablesStay }
{}

/// Pointers and slices name variables that are there, where the constants of the program's text and its package variables begin
/// without any.
pub fn pointers_name_variables()
    ensures { PointersNameVariables }
{}

/// Type safety: in each state of each run of a well typed program each variable's value is of its type, each value that is held is of
/// the type of what gave it, and all their pointers and slices lead to parts that are there.
pub fn states_are_typed()
    ensures { StatesAreTyped }
{}

/// Each read and each write of such a run is of words of a variable that was born before.
pub fn accesses_are_there()
    ensures { AccessesAreThere }
{}

/// Programs in form are well typed.
pub fn form_is_well_typed()
    ensures { FormIsWellTyped }
{}
