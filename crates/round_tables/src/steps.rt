//! One change more than those that are taken is begun or given up, and changes are made.
ghost use Rattle.std.specs.Prelude.{◌≡◌, ◌<◌, ◌≤◌, ◌∷◌, ◌++◌, [], ℕ, List, true, false, length, ◌↔◌, IsTrue, IsSome, IfOk, OnErr, OnOk};
ghost use Rattle.net_base.specs.declared.ids.SwitchId.{SwitchId as Switch};
ghost use Rattle.topology.specs.Networks.{switch_count, capacity_of};
ghost use Rattle.flow_rules.specs.Tables.{rules_of_all};
ghost use Rattle.flow_rules.specs.declared.rules.Rule.{Rule};
ghost use Rattle.update_model.specs.Changes.{Applies, changes_at, switch_of, tables_after_change};
ghost use Rattle.update_model.specs.Mixtures.{entries_needed};
ghost use Rattle.update_model.specs.declared.Change.{Change as ChangeOf};
ghost use Rattle.round_mix.specs.Prepared.{AreClear, AreGood};
ghost use Rattle.round_tables.specs.PreparedTables.{mix_at, IsMixed, rules_there};
ghost use Rattle.round_tables.specs.Steps.{AreMixed, AreSwitchesReady, AreReadyBeside, FitTable, HasOneMore, IsBegun, taken_and};

use crate::changed::{begin_at, give_up_at, keep_at};
use crate::growing::widen_at;
use crate::loading::keeps_keys;
use crate::prepared::PreparedTables;
use flow_rules::Config;
use net_base::{Memory, SwitchId};
use round_mix::Mixed;
use std::alloc::Global;
use topology::Net;
use update_model::{Change, change_tables};

/// The changes of a round at a switch, in its order.
fn changes_there(alloc: Global, round: &[Change], switch: SwitchId) -> Result<Vec<Change>, Memory>
    ensures { IfOk result (λ list. list.items ≡ changes_at switch round.now) }
{
    let mut list = Vec::new(alloc);
    for change in round {
        if change.switch().0 == switch.0 {
            list.push(*change)?;
        }
    }
    Ok(list)
}

/// Makes a change, for which its switch is prepared and maybe for others, in the tables. After a refusal all is as
/// before.
pub(crate) fn make_change(
    tables: &mut Config,
    mixes: &mut [Mixed],
    change: &Change,
) -> Result<(), Memory>
    requires applies { Applies (rules_of_all tables.old) change.now }
    requires mixes { length tables.old ≡ length mixes.old }
    ensures rules { OnOk result
        (rules_of_all tables.new ≡ tables_after_change change.now (rules_of_all tables.old)) }
    ensures kept { OnOk result ((n : ℕ) (rest : List ChangeOf) → n ≤ length mixes.old
        → AreMixed n (rules_of_all tables.old) (change.now ∷ rest) mixes.old
        → AreMixed n (rules_of_all tables.new) rest mixes.new) }
    ensures same { OnErr result (rules_of_all tables.new ≡ rules_of_all tables.old) }
    ensures untouched { OnErr result (mixes.new ≡ mixes.old) }
    ensures room { (s : Switch) → (mix_at mixes.old s).room ≤ (mix_at mixes.new s).room }
{
    let switch = change.switch();
    keeps_keys(tables.table(switch));
    change_tables(tables, change)?;
    keep_at(mixes, switch, change);
    Ok(())
}

impl PreparedTables {
    /// Has room at a switch for one entry more than it needs for the changes that are taken there. After a refusal all is as
    /// before.
    pub(crate) fn widen(&mut self, alloc: Global, net: &Net, switch: SwitchId) -> Result<(), Memory>
        requires ready { AreSwitchesReady net.now self.old.round self.old }
        requires within { switch.0 < switch_count net.now }
        ensures rules { rules_of_all self.new.tables ≡ rules_of_all self.old.tables }
        ensures round { self.new.round ≡ self.old.round }
        ensures ready { AreSwitchesReady net.now self.new.round self.new }
        ensures room { OnOk result (HasOneMore (mix_at self.new.mixes switch)) }
    {
        let table = self.tables.table(switch);
        let changes = changes_there(alloc, &self.round, switch)?;
        widen_at(
            alloc,
            &mut self.mixes,
            &mut self.limits,
            switch,
            table,
            &changes,
        )
    }

    /// Prepares the switch of a change for it beside those that are taken there, if with them it is good and each mixture clear.
    fn mark(&mut self, net: &Net, change: &Change) -> bool
        requires ready { AreSwitchesReady net.now self.old.round self.old }
        requires within { (switch_of change.now).0 < switch_count net.now }
        requires room { HasOneMore (mix_at self.old.mixes (switch_of change.now)) }
        ensures rules { rules_of_all self.new.tables ≡ rules_of_all self.old.tables }
        ensures round { self.new.round ≡ self.old.round }
        ensures beside { AreReadyBeside net.now (switch_of change.now) self.new.round self.new }
        ensures yes { result ≡ true
            → IsMixed (rules_there self.new.tables (switch_of change.now))
            (taken_and self.new change.now) (mix_at self.new.mixes (switch_of change.now)) }
        ensures no { result ≡ false
            → AreGood (rules_there self.new.tables (switch_of change.now))
            (taken_and self.new change.now)
            → ¬ AreClear (rules_there self.new.tables (switch_of change.now))
            (taken_and self.new change.now) }
        ensures ready { result ≡ false → AreSwitchesReady net.now self.new.round self.new }
    {
        let switch = change.switch();
        keeps_keys(self.tables.table(switch));
        begin_at(&mut self.mixes, switch, change)
    }

    /// Prepares the switch of a change, which is prepared for it beside those that are taken there, for these alone again.
    pub(crate) fn unmark(&mut self, net: &Net, change: &Change)
        requires beside { AreReadyBeside net.now (switch_of change.now) self.old.round self.old }
        requires here { IsMixed (rules_there self.old.tables (switch_of change.now))
            (taken_and self.old change.now) (mix_at self.old.mixes (switch_of change.now)) }
        ensures rules { rules_of_all self.new.tables ≡ rules_of_all self.old.tables }
        ensures round { self.new.round ≡ self.old.round }
        ensures ready { AreSwitchesReady net.now self.new.round self.new }
    {
        let switch = change.switch();
        keeps_keys(self.tables.table(switch));
        give_up_at(&mut self.mixes, switch, change);
    }

    /// Whether what is prepared of a switch is within its capacity.
    fn is_within(&self, net: &Net, switch: SwitchId) -> bool
        requires beside { AreReadyBeside net.now switch self.now.round self.now }
        requires prepared { IsSome (mix_at self.now.mixes switch).prepared }
        ensures { (table : List Rule) (changes : List ChangeOf)
            → IsMixed table changes (mix_at self.now.mixes switch)
            → IsTrue result ↔ (entries_needed table changes ≤ capacity_of net.now switch) }
    {
        self.mixes[switch.0 as usize].most_entries() <= u64::from(net.capacity(switch))
    }

    /// Prepares the switch of a change, which has room for it, for it beside those that are taken there, if together they fit
    /// its table. If they don't, it is prepared for these alone.
    pub(crate) fn begin_beside(&mut self, net: &Net, change: &Change) -> bool
        requires ready { AreSwitchesReady net.now self.old.round self.old }
        requires within { (switch_of change.now).0 < switch_count net.now }
        requires room { HasOneMore (mix_at self.old.mixes (switch_of change.now)) }
        ensures rules { rules_of_all self.new.tables ≡ rules_of_all self.old.tables }
        ensures round { self.new.round ≡ self.old.round }
        ensures yes { result ≡ true → IsBegun net.now change.now self.new }
        ensures no { result ≡ false → AreSwitchesReady net.now self.new.round self.new }
        ensures never { result ≡ false
            → ¬ FitTable (rules_there self.new.tables (switch_of change.now))
            (taken_and self.new change.now) (capacity_of net.now (switch_of change.now)) }
    {
        if !self.mark(net, change) {
            return false;
        }
        if self.is_within(net, change.switch()) {
            return true;
        }
        self.unmark(net, change);
        false
    }
}
