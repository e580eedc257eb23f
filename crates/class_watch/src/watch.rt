//! Where the walks of classes come, and which changes their packets may meet there.
ghost use Rattle.std.specs.Prelude.{◌≡◌, ◌↔◌, ◌<◌, ℕ, List, length, replicate, slice_set, IsTrue, IfOk};
ghost use Rattle.net_base.specs.Members.{IsIn};
ghost use Rattle.net_base.specs.declared.ids.SwitchId.{SwitchId as Switch};
ghost use Rattle.net_base.specs.declared.ids.Vlan.{Vlan};
ghost use Rattle.topology.specs.Networks.{switch_count};
ghost use Rattle.dest_classes.specs.declared.Class.{Class as ClassOf};
ghost use Rattle.update_model.specs.Mixtures.{Rollout};
ghost use Rattle.mixed_walks.specs.Walks.{switches_of, IsRoundOf, IsWalked, AreTogether};
ghost use Rattle.net_base.specs.Switches.{has};
ghost use Rattle.class_watch.specs.Walks.{HoldsWalks, meets, meets_any};

use check_reasons::may_cover;
use dest_classes::{Class, NumberedClass};
use mixed_walks::WalkRoom;
use net_base::{Memory, SwitchSet};
use round_mix::Mixed;
use std::alloc::Global;
use topology::Net;
use update_model::Change;

/// Whether a change may cover packets of a class, by address and VLAN, at one of these switches.
pub fn meets(change: &Change, class: Class, came: SwitchSet) -> bool
    ensures { result ≡ meets change.now class came }
{
    may_cover(change, class) && came.has(change.switch())
}

/// Whether one of the changes may.
pub fn meets_any(changes: &[Change], class: Class, came: SwitchSet) -> bool
    ensures { result ≡ meets_any changes.now class came }
{
    changes.iter().any(|change| meets(change, class, came))
}

/// The switches that the walks that were walked last come to.
pub fn switches_on(walk: &WalkRoom) -> SwitchSet
    ensures each { (s : Switch) → IsTrue (has result s) ↔ IsIn s (switches_of walk.now.places) }
    ensures held { (u : Rollout) (k : ℕ) (class : ClassOf)
        → IsWalked u k class.first class.entry walk.now
        → HoldsWalks u k class result }

    // So for each class that was walked together with others.
    ensures together { (u : Rollout) (k : ℕ) (class : ClassOf) (vlan : Vlan)
        → AreTogether u k class.first vlan walk.now → IsIn class.entry walk.now.places
        → HoldsWalks u k class result }
{
    SwitchSet::of(walk.switches())
}

/// Room to walk classes, and for each class, by its number, switches that its packets come to: those of its last walk, once it
/// was walked.
#[derive(Drop)]
pub struct ClassWatch {
    pub walk: WalkRoom,
    pub came: Vec<SwitchSet>,
}

impl ClassWatch {
    /// Room for so many classes, with these switches for each. 16 bytes for each of them, beside the room for walks.
    pub fn make(alloc: Global, count: u32, came: SwitchSet) -> Result<ClassWatch, Memory>
        ensures { IfOk result (λ watch. watch.came.items ≡ replicate count came) }
    {
        let came = vec![in alloc; came; count as usize]?;
        let walk = WalkRoom::make(alloc)?;
        Ok(ClassWatch { walk, came })
    }

    /// Walks the mixed walks of a class in the round that the switches of a network are prepared for, and notes the switches
    /// that they come to as those of the class. The answer is the set of these switches.
    pub fn walk(&mut self, net: &Net, mixes: &[Mixed], numbered: NumberedClass) -> SwitchSet
        requires round { (u : Rollout) × (k : ℕ) × IsRoundOf net.now mixes.now u k }
        requires entry { numbered.class.entry.switch.0 < switch_count net.now }
        requires number { numbered.number < length self.old.came.items }
        ensures walked { (u : Rollout) (k : ℕ) → IsRoundOf net.now mixes.now u k
            → IsWalked u k numbered.class.first numbered.class.entry self.new.walk }
        ensures held { (u : Rollout) (k : ℕ) → IsRoundOf net.now mixes.now u k
            → HoldsWalks u k numbered.class result }
        ensures noted { self.new.came.items ≡ slice_set self.old.came.items numbered.number result }
    {
        self.walk.walk(net, mixes, numbered.class);
        let came = switches_on(&self.walk);
        self.came[numbered.number as usize] = came;
        came
    }
}
