//! Which switches a round changes.
ghost use Rattle.std.specs.Prelude.{◌≡◌, ◌<◌};
ghost use Rattle.std.specs.List.{AllByRecursion};
ghost use Rattle.net_base.specs.declared.ids.SwitchId.{SwitchId as Switch};
ghost use Rattle.net_base.specs.Switches.{has, most_switches};
ghost use Rattle.update_model.specs.Changes.{switch_of};
ghost use Rattle.round_messages.specs.Requests.{is_changed};

use net_base::SwitchSet;
use update_model::Change;

/// The switches that have a change among these.
pub fn changed_switches(changes: &[Change]) -> SwitchSet
    requires { AllByRecursion (λ c. (switch_of c).0 < most_switches) changes.now }
    ensures { (s : Switch) → has result s ≡ is_changed changes.now s }
{
    let mut changed = SwitchSet::none();
    for change in changes {
        changed.put(change.switch());
    }
    changed
}
