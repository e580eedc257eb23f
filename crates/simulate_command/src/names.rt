//! The names that `simulate` takes.
ghost use Rattle.std.specs.Prelude.{◌≤◌};

use check_base::CheckNames;

/// The names of the files of `simulate`, which are those of `check`, with the number that names the events of the run, and
/// how many packets enter, at most 1000.
#[derive(Clone, Copy)]
pub struct SimulateNames<'a> {
    pub check: CheckNames<'a>,
    pub start: u64,
    pub count: u64,
    pub ghost few: { count ≤ 1000 },
}
