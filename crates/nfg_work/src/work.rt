//! What the workers of a script share.
use crate::FileRead;
use crate::outcome::Outcome;
use crate::plan::Plan;
use nfg_script::Script;

/// What the workers of a script share while they do the jobs of a level.
#[derive(Clone, Copy)]
pub(crate) struct Work<'a> {
    pub(crate) script: &'a Script,
    /// Where the script defines its names and has its loads.
    pub(crate) plan: &'a Plan,
    /// What was read for the loads, in order.
    pub(crate) reads: &'a [FileRead],
    /// What each command has given so far.
    pub(crate) outcomes: &'a [Outcome],
}
