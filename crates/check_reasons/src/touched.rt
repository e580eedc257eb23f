//! Which addresses and classes a round touches.
ghost use Rattle.std.specs.Prelude.{◌≡◌};
ghost use Rattle.check_reasons.specs.Touched.{touches, may_cover};

use dest_classes::Class;
use flow_rules::admits_vlan;
use update_model::Change;

/// Whether some change of a round covers the address. Where none does, the outcomes there are those after the round before.
pub fn is_touched(round: &[Change], address: u32) -> bool
    ensures { result ≡ touches round.now address }
{
    round
        .iter()
        .any(|change| change.rule().key.pattern.dst.has(address))
}

/// Whether a change covers packets to the address of a class with the VLAN of its entry, at some port or at each.
pub fn may_cover(change: &Change, class: Class) -> bool
    ensures { result ≡ may_cover change.now class }
{
    let pattern = change.rule().key.pattern;
    pattern.dst.has(class.first) && admits_vlan(pattern.vlan, class.entry.vlan)
}
