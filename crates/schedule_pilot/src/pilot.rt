//! A chooser among offered events.
ghost use Rattle.std.specs.Prelude.{◌≡◌, ◌<◌, ◌≤◌};
ghost use Rattle.schedule_pilot.specs.Driving.{IsPilot};

use std::marker::Model;

/// Chooses one of some offered events. Its chooser is asked with the number of the step, from 0, and with how many events
/// are offered, at least one, and answers the position of one of them, from 0. Contracts see a pilot as its chooser.
#[derive(Drop)]
pub struct Pilot<F> {
    choose: F,
}

impl<F> Model for Pilot<F> {
    ghost Value = { F };

    ghost view = { λ p. p.choose };
}

impl<F: Fn(u64, u64) -> u64> Pilot<F> {
    /// A pilot that asks the chooser. The chooser may be asked at every step and about any number of events, and names one
    /// of them. Takes no memory.
    pub fn new(choose: F) -> Pilot<F>
        requires names_one { IsPilot (F.pre choose) (F.post choose) }
        ensures { result ≡ choose }
    {
        Pilot { choose }
    }

    /// Which of so many offered events is made at a step.
    pub fn ask(&self, step: u64, count: u64) -> u64
        requires names_one { IsPilot (F.pre self.now) (F.post self.now) }
        requires some { 1 ≤ count }
        ensures named { F.post self.now step count result }
        ensures below { result < count }
    {
        (self.choose)(step, count)
    }
}
