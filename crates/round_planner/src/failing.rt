//! Why a change that remains doesn't qualify, and which changes touch that.
ghost use Rattle.std.specs.Prelude.{◌↔◌, IsTrue};
ghost use Rattle.round_planner.specs.Failures.{IsTouched};

use class_watch::meets;
use net_base::SwitchId;
use round_judge::UnsafeClass;
use update_model::Change;

/// Why a change doesn't qualify.
#[derive(Drop)]
pub(crate) enum Failure {
    /// Its switch has no room for it, or some mixture of it isn't clear.
    Table,
    /// A class is not safe by any evidence.
    Class(UnsafeClass),
}

impl Failure {
    /// Whether a change that was made touches what this failure of a change at a switch rests on: its table,
    /// or the packets of the class at a switch that their mixed walks come to.
    pub(crate) fn is_touched(&self, switch: SwitchId, made: &Change) -> bool
        ensures { IsTrue result ↔ IsTouched switch made.now self.now }
    {
        match self {
            Failure::Table => made.switch().0 == switch.0,
            Failure::Class(failing) => meets(made, failing.class, failing.visited),
        }
    }
}
