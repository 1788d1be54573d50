//! The laws of the evaluation. Each function does nothing: its clauses are what holds.
ghost use Rattle.nfg_work.specs.Laws.{EvaluationGoesOn, FailedReadIsCause, MorePlacesChangeNothing, PartIsInNfg, ValuesAreInNfg};
ghost use Rattle.nfg_work.specs.Reach.{ValuesAreReached};

/// The value of every name, at every point of a script, is a list of graphemes.
pub fn values_are_in_nfg()
    ensures values { ValuesAreInNfg }
    // the states that the first clause speaks of are those of the evaluation
    ensures evaluation { EvaluationGoesOn }
{}

/// A part of a list of graphemes is a list of graphemes.
pub fn part_is_in_nfg()
    ensures { PartIsInNfg }
{}

/// A script ends with a line that can't be read only where a file that was read for it has failed.
pub fn failed_read_is_cause()
    ensures { FailedReadIsCause }
{}

/// The values of a script that is not refused are those that its names reach, whatever the costs and the places.
pub fn values_are_reached()
    ensures { ValuesAreReached }
{}

/// What a script gives over a table that has room for its clusters, it gives over every larger one.
pub fn more_places_change_nothing()
    ensures { MorePlacesChangeNothing }
{}
