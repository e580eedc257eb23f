//! Switches, each of them once, in the order in which they came.
ghost use Rattle.std.specs.Prelude.{◌≡◌, ◌↔◌, ◌⊎◌, ◌<◌, [], ℕ, All, IfOk};
ghost use Rattle.net_base.specs.Members.{IsIn};
ghost use Rattle.net_base.specs.Switches.{most_switches};
ghost use Rattle.net_base.specs.declared.ids.SwitchId.{SwitchId};

use net_base::{MAX_SWITCHES, Memory, SwitchId, SwitchSet};
use std::alloc::Global;
use std::marker::Model;

/// Switches of a network, each once.
#[derive(Drop)]
pub(crate) struct WalkedSwitches {
    list: Vec<SwitchId>,
    set: SwitchSet,
}

impl Model for WalkedSwitches {
    ghost use Rattle.std.specs.Prelude.{List, vec_capacity};
    ghost use Rattle.net_base.specs.declared.ids.SwitchId.{SwitchId};
    ghost use Rattle.mixed_walks.specs.Marked.{IsSwitchList};

    ghost Value = { List SwitchId };

    ghost view = { λ a. a.list.items };

    ghost invariant = { λ a. IsSwitchList a.list.items (vec_capacity a.list) a.set };
}

impl WalkedSwitches {
    /// No switches.
    pub(crate) fn make(alloc: Global) -> Result<WalkedSwitches, Memory>
        ensures { IfOk result (λ list. list ≡ []) }
    {
        Ok(WalkedSwitches {
            list: Vec::with_capacity(alloc, MAX_SWITCHES as usize)?,
            set: SwitchSet::none(),
        })
    }

    /// The switches, in the order in which they were put.
    pub(crate) fn list(&self) -> &[SwitchId]
        ensures value { result.now ≡ self.now }
        ensures near { All (λ s. s.0 < most_switches) result.now }
    {
        &self.list
    }

    /// Puts a switch, if it doesn't stand there.
    pub(crate) fn put(&mut self, switch: SwitchId)
        requires { switch.0 < most_switches }
        ensures { (s : SwitchId) → IsIn s self.new ↔ (IsIn s self.old ⊎ (s ≡ switch)) }
    {
        if !self.set.has(switch) {
            self.set.put(switch);
            self.list.push_reserved(switch);
        }
    }

    /// Forgets the switches.
    pub(crate) fn clear(&mut self)
        ensures { self.new ≡ [] }
    {
        self.set = SwitchSet::none();
        self.list.clear();
    }
}
