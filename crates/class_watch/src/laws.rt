//! Why a class that no change meets stands. Each law is a function that does nothing: its contract is the law.
ghost use Rattle.std.specs.Prelude.{◌≡◌, ◌↔◌, ℕ, suc, List};
ghost use Rattle.net_base.specs.declared.ids.Place.{Place};
ghost use Rattle.path_walk.specs.Paths.{outcome_in};
ghost use Rattle.path_walk.specs.declared.Outcome.{Outcome};
ghost use Rattle.dest_classes.specs.declared.Class.{Class};
ghost use Rattle.demands.specs.Duties.{PacketDuties};
ghost use Rattle.update_model.specs.Mixtures.{Rollout, tables_before, IsPossible, IsOnMixedWalk};
ghost use Rattle.certificates.specs.Ordered.{IsSafe};
ghost use Rattle.class_watch.specs.Alike.{AreAlike, IsMissedAfter};

/// Where the same rules and the same changes cover packets of a class at each place that its mixed walks come to in a round,
/// its mixed walks in another round come to these places and no others, and the same numbers and before sets keep the class
/// safe in both.
pub fn alike_classes_stand()
    ensures walks { (u : Rollout) (k : ℕ) (v : Rollout) (j : ℕ) (class : Class)
        → AreAlike u k v j class
        → (place : Place) → IsOnMixedWalk v j class.first class.entry place
        ↔ IsOnMixedWalk u k class.first class.entry place }
    ensures safe { (u : Rollout) (k : ℕ) (v : Rollout) (j : ℕ) (class : Class)
        → AreAlike u k v j class
        → (duties : PacketDuties) (numbers : List ℕ) (sets : List (List ℕ))
        → IsSafe v j class.first class.entry duties numbers sets
        ↔ IsSafe u k class.first class.entry duties numbers sets }
{}

/// Where no change of a round covers packets of a class by address and VLAN at a switch that its mixed walks came to in the
/// round before, its mixed walks in the round come to no other place, each place has the one outcome that the tables before
/// the round give it, and the numbers and before sets that kept the class safe keep it safe. So its certificate stands with
/// the pick that was in force.
pub fn missed_walks_stand()
    ensures walks { (u : Rollout) (k : ℕ) (class : Class) (set : ℕ) → IsMissedAfter u k class set
        → (place : Place) → IsOnMixedWalk u (suc k) class.first class.entry place
        → IsOnMixedWalk u k class.first class.entry place }
    ensures outcomes { (u : Rollout) (k : ℕ) (class : Class) (set : ℕ) → IsMissedAfter u k class set
        → (place : Place) → IsOnMixedWalk u (suc k) class.first class.entry place
        → (found : Outcome) → IsPossible u (suc k) class.first place found
        ↔ (found ≡ outcome_in u.net (tables_before u (suc k)) place class.first) }
    ensures safe { (u : Rollout) (k : ℕ) (class : Class) (set : ℕ) → IsMissedAfter u k class set
        → (duties : PacketDuties) (numbers : List ℕ) (sets : List (List ℕ))
        → IsSafe u k class.first class.entry duties numbers sets
        → IsSafe u (suc k) class.first class.entry duties numbers sets }
{}
