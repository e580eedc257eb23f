//! How the packing of the sample's ring ends. The law is a function that does nothing: its contract is the law.
ghost use Rattle.std.specs.Prelude.{◌≡◌, ◌-◌, List, length};
ghost use Rattle.flow_rules.specs.Tables.{rules_of_all};
ghost use Rattle.path_walk.specs.UserConfigs.{IsUserConfig};
ghost use Rattle.update_model.specs.declared.Change.{Change};
ghost use Rattle.law_packed_rounds.specs.Packing.{PacksOrdered, PacksStuck};
ghost use Rattle.law_packed_trees.specs.TreeUpdates.{task_target};
ghost use Rattle.command_base.specs.Updates.{meaning_of};
ghost use Rattle.ring_sample.specs.Ring.{ring_tables, ring_update};
ghost use Rattle.law_packed_ring.specs.RingTask.{ring_task};

use command_base::UpdateFiles;
use ring_sample::RingSize;

/// The packing of the ring takes exactly one round fewer than the ring has switches, and isn't stuck. What the law asks of the
/// update is what `ring_update` of ring_sample says of the one that it makes.
pub fn ring_takes_a_round_for_each_other_switch(update: &UpdateFiles, size: RingSize)
    requires meaning { meaning_of update.now ≡ ring_update size.switches }
    requires old_user { IsUserConfig update.now.net (rules_of_all update.now.old) }
    requires new_user { IsUserConfig update.now.net (rules_of_all update.now.new) }
    ensures rounds { (rounds : List (List Change))
        → PacksOrdered (task_target (ring_task size.switches)) (ring_tables size.switches 2)
        rounds
        → length rounds ≡ size.switches - 1 }
    ensures stuck { (rounds : List (List Change))
        → ¬ PacksStuck (task_target (ring_task size.switches)) (ring_tables size.switches 2)
        rounds }
{
    update.net.keeps_rules();
}
