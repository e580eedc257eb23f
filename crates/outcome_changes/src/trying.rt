//! Changes of a round that are made together, to see which outcome they give a place.
ghost use Rattle.std.specs.Prelude.{◌≡◌, ◌++◌, ◌∷◌, [], ◌&&◌, true, cond, not, filter, IfOk, OnOk};
ghost use Rattle.path_walk.specs.Outcomes.{header_at};
ghost use Rattle.update_model.specs.Changes.{AppliesTo, rule_of, changes_at, rules_after};
ghost use Rattle.round_mix.specs.Prepared.{AreGood};
ghost use Rattle.update_model.specs.Mixtures.{is_delete};
ghost use Rattle.outcome_changes.specs.Trials.{is_at, covers_packet, is_turned, is_above, is_tried, takes, numbers_where};

use flow_rules::{Key, Table};
use net_base::{ListOf, Memory, Place};
use std::alloc::Global;
use update_model::Change;

/// What is tried at a place for packets to an address: the deletes at its switch whose pattern covers the packet. If a key is
/// turned, only those of greater priority; and of the key itself, a change that doesn't delete is taken, and one that does isn't.
#[derive(Clone, Copy)]
pub(crate) struct Trial {
    pub(crate) place: Place,
    pub(crate) dst: u32,
    pub(crate) turned: Option<Key>,
}

/// Adds a number, where it is wanted.
fn add_if(numbers: &mut ListOf<usize>, number: usize, on: bool) -> Result<(), Memory>
    ensures { OnOk result (numbers.new ≡ numbers.old ++ cond on (number ∷ []) []) }
{
    if on {
        numbers.add(number)?;
    }
    Ok(())
}

impl Trial {
    /// Whether a change is at the switch of the place.
    pub(crate) fn is_here(&self, change: &Change) -> bool
        ensures { result ≡ is_at self.now.place.switch change.now }
    {
        change.switch().0 == self.place.switch.0
    }

    /// Whether the pattern of a change covers the packet.
    pub(crate) fn is_covered(&self, change: &Change) -> bool
        ensures { result ≡ covers_packet (header_at self.now.place self.now.dst) change.now }
    {
        let pattern = change.rule().key.pattern;
        pattern.covers(self.place.port, self.place.vlan, self.dst)
    }

    /// Whether a key is the turned one.
    fn turns(&self, key: &Key) -> bool
        ensures { result ≡ is_turned self.now.turned key.now }
    {
        match self.turned {
            Some(turned) => key.is_same(&turned),
            None => false,
        }
    }

    /// Whether a key has a greater priority than the turned one, if there is one.
    fn is_below(&self, key: &Key) -> bool
        ensures { result ≡ is_above self.now.turned key.now }
    {
        match self.turned {
            Some(turned) => turned.priority < key.priority,
            None => true,
        }
    }

    /// Whether a change that covers the packet is wanted: a delete above the turned key, or another change of it.
    fn wants(&self, change: &Change) -> bool
        ensures { result
            ≡ cond (is_turned self.now.turned (rule_of change.now).key) (not (is_delete change.now))
            (is_delete change.now && is_above self.now.turned (rule_of change.now).key) }
    {
        let key = change.rule().key;
        if self.turns(&key) {
            return !change.is_delete();
        }
        change.is_delete() && self.is_below(&key)
    }

    /// Whether a change is tried for the packet.
    fn tries(&self, change: &Change) -> bool
        ensures { result
            ≡ is_tried (header_at self.now.place self.now.dst) self.now.turned change.now }
    {
        self.is_covered(change) && self.wants(change)
    }

    /// Whether a change is taken.
    fn has(&self, change: &Change) -> bool
        ensures { result ≡ takes self.now change.now }
    {
        self.is_here(change) && self.tries(change)
    }

    /// The numbers of the changes of a round that are taken.
    pub(crate) fn numbers(&self, alloc: Global, round: &[Change]) -> Result<ListOf<usize>, Memory>
        ensures { IfOk result (λ numbers. numbers ≡ numbers_where 0 (takes self.now) round.now) }
    {
        let mut numbers = ListOf::make(alloc)?;
        for (i, change) in round.iter().enumerate() {
            add_if(&mut numbers, i, self.has(change))?;
        }
        Ok(numbers)
    }

    /// Makes a change in the table of the switch, if it is taken.
    fn make_one(&self, table: &mut Table, change: &Change) -> Result<(), Memory>
        requires { takes self.now change.now ≡ true → AppliesTo table.old.rules change.now }
        ensures { OnOk result
            (table.new.rules
            ≡ rules_after (filter (takes self.now) (change.now ∷ [])) table.old.rules) }
    {
        if self.has(change) {
            table.reserve(1)?;
            change.apply_to(table);
        }
        Ok(())
    }

    /// A copy of the table of the switch, after the changes of a round that are taken.
    pub(crate) fn table_after(&self, table: &Table, round: &[Change]) -> Result<Table, Memory>
        requires { AreGood table.now.rules (changes_at self.now.place.switch round.now) }
        ensures { IfOk result
            (λ t. t.rules ≡ rules_after (filter (takes self.now) round.now) table.now.rules) }
    {
        let mut tried = table.copy()?;
        for change in round {
            self.make_one(&mut tried, change)?;
        }
        Ok(tried)
    }
}
