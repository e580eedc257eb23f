//! The entries that the switches need in a round.
ghost use Rattle.std.specs.Prelude.{◌≡◌, ◌<◌, ◌≤◌, ◌↔◌, List, length, IsSome, IsTrue, IfNone, IfSome};
ghost use Rattle.net_base.specs.declared.ids.SwitchId.{SwitchId as Switch};
ghost use Rattle.topology.specs.Networks.{switch_count, capacity_of};
ghost use Rattle.flow_rules.specs.declared.rules.Rule.{Rule};
ghost use Rattle.update_model.specs.Mixtures.{entries_needed, need_of};
ghost use Rattle.update_model.specs.declared.Change.{Change as ChangeOf};
ghost use Rattle.round_tables.specs.PreparedTables.{IsMixed, mix_at};
ghost use Rattle.round_tables.specs.Loading.{ArePrepared, IsFirstOver};

use crate::prepared::PreparedTables;
use crate::rollout::Rollout;
use net_base::SwitchId;

impl PreparedTables {
    /// The entries that a switch needs while the changes are made for which it is prepared.
    fn need(&self, switch: SwitchId) -> u64
        requires within { switch.0 < length self.now.mixes }
        requires prepared { IsSome (mix_at self.now.mixes switch).prepared }
        ensures { (rules : List Rule) (changes : List ChangeOf)
            → IsMixed rules changes (mix_at self.now.mixes switch)
            → result ≡ entries_needed rules changes }
    {
        self.mixes[switch.0 as usize].most_entries()
    }

    /// The first switch that needs more entries in round k, for which all are prepared, than it has room for, with its need.
    pub fn first_over(&self, update: &Rollout<'_>, k: usize) -> Option<(SwitchId, u64)>
        requires prepared { ArePrepared update.now k self.now }
        requires count { length self.now.mixes ≡ switch_count update.now.net }
        ensures none { IfNone result ((s : Switch) → s.0 < switch_count update.now.net
            → need_of update.now k s ≤ capacity_of update.now.net s) }
        ensures some { IfSome result (λ found. IsFirstOver update.now k found.0 found.1) }
    {
        let _ = k;
        for i in 0..update.net.switches() {
            let switch = SwitchId(i);
            let need = self.need(switch);
            if need > u64::from(update.net.capacity(switch)) {
                return Some((switch, need));
            }
        }
        None
    }

    /// Whether no switch needs more than so many entries in round k, for which all are prepared.
    pub fn need_at_most(&self, update: &Rollout<'_>, k: usize, most: u64) -> bool
        requires prepared { ArePrepared update.now k self.now }
        requires count { length self.now.mixes ≡ switch_count update.now.net }
        ensures { IsTrue result ↔ ((s : Switch) → s.0 < switch_count update.now.net
            → need_of update.now k s ≤ most) }
    {
        let _ = k;
        for i in 0..update.net.switches() {
            if self.need(SwitchId(i)) > most {
                return false;
            }
        }
        true
    }
}
