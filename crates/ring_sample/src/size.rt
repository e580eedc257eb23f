//! How large a ring is.
ghost use Rattle.std.specs.Prelude.{◌≤◌};
ghost use Rattle.net_base.specs.Switches.{most_switches};

/// A number of switches in a ring, from 4 to 128.
#[derive(Clone, Copy)]
pub struct RingSize {
    pub switches: u32,
    pub ghost least: { 4 ≤ switches },
    pub ghost most: { switches ≤ most_switches },
}
