//! The search of an update has one end, and what is known of a change that failed stands for a while. Each law is a function
//! that does nothing: its contract is the law.
ghost use Rattle.std.specs.Prelude.{◌≡◌, ◌≢◌, ◌<◌, List, length};
ghost use Rattle.std.specs.List.{AllByRecursion};
ghost use Rattle.flow_rules.specs.declared.rules.Rule.{Rule};
ghost use Rattle.dest_classes.specs.declared.Class.{Class};
ghost use Rattle.update_model.specs.Changes.{switch_of, rule_of, tables_after};
ghost use Rattle.update_model.specs.declared.Change.{Change};
ghost use Rattle.certificates.specs.Certified.{KeepsVlan};
ghost use Rattle.mixed_walks.specs.Walks.{TablesKeepVlans};
ghost use Rattle.table_difference.specs.Targets.{Target};
ghost use Rattle.round_planner.specs.Search.{CanBeSafe, Qualifies, EndsOrdered, EndsStuck};
ghost use Rattle.round_planner.specs.Failures.{HasRoomThere, IsApart};

/// A search ends ordered or stuck and not both, and its changes are the only ones, because the first change of a list that
/// qualifies is the only first one.
pub fn searches_end_once()
    ensures ordered { (to : Target) (old : List (List Rule)) (changes others : List Change)
        → EndsOrdered to old changes → EndsOrdered to old others → changes ≡ others }
    ensures stuck { (to : Target) (old : List (List Rule)) (changes others : List Change)
        → EndsStuck to old changes → EndsStuck to old others → changes ≡ others }
    ensures apart { (to : Target) (old : List (List Rule)) (changes others : List Change)
        → EndsOrdered to old changes → ¬ EndsStuck to old others }
{}

/// A failure of a change stands while nothing touches what it rests on: one by its table, while no change is made at its
/// switch; one by a class that no evidence keeps safe, while no change covers the class at a switch that the mixed walks
/// of the class come to when the change is tried. The walks are then the same, and so is what keeps the class safe.
pub fn failures_stand()
    ensures table { (to : Target) (tables : List (List Rule)) (c : Change)
        → ¬ HasRoomThere to.net tables c → (changes : List Change)
        → AllByRecursion (λ d. (switch_of d).0 ≢ (switch_of c).0) changes
        → ¬ Qualifies to (tables_after changes tables) c }
    ensures class { (to : Target) (tables : List (List Rule)) (c : Change) (class : Class)
        → TablesKeepVlans tables → KeepsVlan (rule_of c).action
        → ¬ CanBeSafe to tables c class → (changes : List Change)
        → AllByRecursion (λ d. KeepsVlan (rule_of d).action × ((switch_of d).0 < length tables)
        × IsApart to tables c class d) changes
        → ¬ CanBeSafe to (tables_after changes tables) c class }
{}
