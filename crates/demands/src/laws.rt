//! What the duties of a packet are for. The law is a function that does nothing: its contract is the law.
ghost use Rattle.std.specs.Prelude.{◌↔◌, ℕ, List};
ghost use Rattle.net_base.specs.declared.ids.Place.{Place};
ghost use Rattle.path_walk.specs.Paths.{Trace};
ghost use Rattle.demands.specs.Duties.{DemandView, duties_of};
ghost use Rattle.demands.specs.Good.{IsGood, MeetsDemands};

/// A trace is good for the duties of an entry and an address exactly where it meets the demands that cover them: duties,
/// whose chains are ascending and stand once each, ask neither more nor less than the demands.
pub fn duties_are_demands()
    ensures { (demands : List DemandView) (entry : Place) (dst : ℕ) (trace : Trace)
        → IsGood (duties_of demands entry dst) trace ↔ MeetsDemands demands entry dst trace }
{}
