//! The changes of a round by switch.
ghost use Rattle.std.specs.Prelude.{◌≡◌, ◌≢◌, ◌<◌, ◌≤◌, ◌↔◌, [], ◌∷◌, ◌++◌, true, length, IsTrue, vec_len, vec_capacity, IfOk};
ghost use Rattle.net_base.specs.declared.ids.SwitchId.{SwitchId as Switch};
ghost use Rattle.update_model.specs.Changes.{changes_at, switch_of};
ghost use Rattle.round_tables.specs.PreparedTables.{list_at};
ghost use Rattle.round_tables.specs.Loading.{AreSwitchesBelow};

use net_base::Memory;
use std::alloc::Global;
use std::marker::Model;
use update_model::Change;

/// The changes of a round at one switch, in the round's order.
#[derive(Drop)]
pub(crate) struct SwitchChanges {
    list: Vec<Change>,
}

impl Model for SwitchChanges {
    ghost use Rattle.std.specs.Prelude.{vec_capacity};
    ghost use Rattle.round_tables.specs.PreparedTables.{ChangesState};

    ghost Value = { ChangesState };

    ghost view = { λ c. record { changes = c.list.items; room = vec_capacity c.list } };
}

impl SwitchChanges {
    /// No changes, with room for so many.
    pub(crate) fn with_room(alloc: Global, room: usize) -> Result<SwitchChanges, Memory>
        ensures { IfOk result (λ c. room ≤ c.room) }
    {
        Ok(SwitchChanges {
            list: Vec::with_capacity(alloc, room)?,
        })
    }

    /// The changes.
    pub(crate) fn list(&self) -> &[Change]
        ensures { result.now ≡ self.now.changes }
    {
        &self.list
    }

    /// Leaves no change.
    fn clear(&mut self)
        ensures none { self.new.changes ≡ [] }
        ensures room { self.new.room ≡ self.old.room }
    {
        self.list.clear();
    }

    /// Puts a change behind the others.
    fn put(&mut self, change: Change)
        requires { length self.old.changes < self.old.room }
        ensures changes { self.new.changes ≡ self.old.changes ++ change ∷ [] }
        ensures room { self.new.room ≡ self.old.room }
    {
        self.list.push_reserved(change);
    }
}

/// Leaves no change at any switch.
fn clear_all(lists: &mut [SwitchChanges])
    ensures none { (s : Switch) → (list_at lists.new s).changes ≡ [] }
    ensures room { (s : Switch) → (list_at lists.new s).room ≡ (list_at lists.old s).room }
{
    for list in lists.iter_mut() {
        list.clear();
    }
}

/// Puts a change behind the others of its switch, if that is one of these. The answer is whether it is.
fn put_at(lists: &mut [SwitchChanges], change: &Change) -> bool
    requires { (switch_of change.now).0 < length lists.old
        → let list = list_at lists.old (switch_of change.now) in length list.changes < list.room }
    ensures within { IsTrue result ↔ ((switch_of change.now).0 < length lists.old) }
    ensures here { (switch_of change.now).0 < length lists.old
        → (list_at lists.new (switch_of change.now)).changes
        ≡ (list_at lists.old (switch_of change.now)).changes ++ change.now ∷ [] }
    ensures others { (s : Switch) → s.0 ≢ (switch_of change.now).0
        → (list_at lists.new s).changes ≡ (list_at lists.old s).changes }
    ensures room { (s : Switch) → (list_at lists.new s).room ≡ (list_at lists.old s).room }
{
    let i = change.switch().0 as usize;
    if i >= lists.len() {
        return false;
    }
    lists[i].put(*change);
    true
}

/// Has the lists of the switches hold the changes of a round, each those of its switch. It takes one look at each change. The
/// answer is whether each change is at one of these switches; the others are in no list.
pub(crate) fn gather(lists: &mut [SwitchChanges], round: &[Change]) -> bool
    requires room { (s : Switch) → s.0 < length lists.old
        → length (changes_at s round.now) ≤ (list_at lists.old s).room }
    ensures gathered { (s : Switch) → s.0 < length lists.old
        → (list_at lists.new s).changes ≡ changes_at s round.now }
    ensures within { result ≡ true → AreSwitchesBelow (length lists.old) round.now }
    ensures room { (s : Switch) → (list_at lists.new s).room ≡ (list_at lists.old s).room }
{
    clear_all(lists);
    let mut are_within = true;
    for change in round {
        if !put_at(lists, change) {
            are_within = false;
        }
    }
    are_within
}
