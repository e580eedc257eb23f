//! The path that met the chains of a class last, which is that of many classes.
ghost use Rattle.std.specs.Prelude.{◌≡◌, ◌<◌, true};
ghost use Rattle.dest_classes.specs.Classes.{class_count};
ghost use Rattle.demands.specs.Duties.{ClassDuties};
ghost use Rattle.config_check.specs.Met.{MeetsChainsOf, IsMetPath};

use demands::Duties;
use net_base::{MAX_SWITCHES, Port, Stop, SwitchId};
use std::marker::Model;

/// How many stops are kept: no network has more switches.
const MOST_STOPS: usize = MAX_SWITCHES as usize;

/// A class whose chains its path met, if any, and the stops of the path: so many of these. It is handed from one class that
/// is judged to the next.
#[derive(Drop)]
pub struct MetPath {
    class: Option<u32>,
    count: usize,
    stops: [Stop; MOST_STOPS],
}

impl Model for MetPath {
    ghost use Rattle.std.specs.Prelude.{◌≤◌, take};
    ghost use Rattle.config_check.specs.Met.{MetState};
    ghost use Rattle.net_base.specs.Switches.{most_switches};

    ghost Value = { MetState };

    ghost view = { λ m. record { class = m.class; stops = take m.count m.stops } };

    ghost invariant = { λ m. m.count ≤ most_switches };
}

impl MetPath {
    /// No class.
    pub fn none() -> MetPath
        ensures { (d : ClassDuties) → IsMetPath d result }
    {
        let stop = Stop {
            switch: SwitchId(0),
            port: Port(0),
        };
        MetPath {
            class: None,
            count: 0,
            stops: [stop; MOST_STOPS],
        }
    }

    /// The stops of the path.
    fn stops(&self) -> &[Stop]
        ensures { result.now ≡ self.now.stops }
    {
        &self.stops[..self.count]
    }

    /// Whether these are the stops that met the chains of a class with the duties of this one.
    pub(crate) fn knows(&self, duties: &Duties, class: u32, stops: &[Stop]) -> bool
        requires class { class < class_count duties.now.classes }
        requires kept { IsMetPath duties.now self.now }
        ensures { result ≡ true → MeetsChainsOf duties.now class stops.now }
    {
        match self.class {
            None => false,
            Some(met) => duties.are_shared(met, class) && self.stops() == stops,
        }
    }

    /// Keeps the stops of a class whose chains they met, or no class where there are more than `MOST_STOPS`.
    pub(crate) fn keep(&mut self, class: u32, stops: &[Stop])
        ensures { (d : ClassDuties) → class < class_count d.classes
            → MeetsChainsOf d class stops.now → IsMetPath d self.new }
    {
        if stops.len() > MOST_STOPS {
            self.class = None;
            return;
        }
        self.count = stops.len();
        self.stops[..stops.len()].copy_from_slice(stops);
        self.class = Some(class);
    }
}
