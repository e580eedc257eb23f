//! The search, change by change.
ghost use Rattle.std.specs.Prelude.{◌≡◌, ◌<◌, ◌≤◌, ◌++◌, ◌∷◌, [], List, length, map, IfOk, OnOk};
ghost use Rattle.std.specs.List.{AllByRecursion};
ghost use Rattle.net_base.specs.Members.{IsIn};
ghost use Rattle.flow_rules.specs.Tables.{rules_of_all};
ghost use Rattle.flow_rules.specs.declared.rules.Rule.{Rule};
ghost use Rattle.path_walk.specs.UserConfigs.{IsUserConfig};
ghost use Rattle.dest_classes.specs.Classes.{class_count};
ghost use Rattle.update_model.specs.Changes.{tables_after, tables_after_change, with_change};
ghost use Rattle.update_model.specs.Remaining.{remaining_changes};
ghost use Rattle.update_model.specs.declared.Change.{Change as ChangeOf};
ghost use Rattle.round_tables.specs.Trials.{IsBetweenTrials, IsTrying};
ghost use Rattle.evidence_store.specs.Stored.{IsStored, no_evidence};
ghost use Rattle.round_judge.specs.declared.judging.FoundEvidence.{FoundEvidence as FoundOf};
ghost use Rattle.round_planner.specs.Search.{IsFirstQualifying, update_by};
ghost use Rattle.round_judge.specs.Judged.{AreSafeBelow};
ghost use Rattle.round_planner.specs.declared.left.RemainingChange.{RemainingChange as LeftOf};
ghost use Rattle.net_base.specs.Switches.{has};
ghost use Rattle.round_planner.specs.Failures.{HasStanding, AreLeft};
ghost use Rattle.round_planner.specs.Searching.{IsAt, IsTried, IsLeftTried, IsPlaced, IsMoved, IsTryingAt, IsEnded, IsAnswered, answer_of};

use crate::Ordered;
use crate::failing::Failure;
use crate::left::{RemainingChange, take_out, untried};
use certificates::{Evidence, OrderedEvidence, Plan};
use class_watch::{ClassWatch, LookedAtoms};
use evidence_store::EvidenceStore;
use flow_rules::Config;
use net_base::Memory;
use round_judge::{
    FoundEvidence, Goal, RoundVerdict, TriedRound, judge_all, put_picks, watch_rooms,
};
use round_tables::PreparedTables;
use std::alloc::Global;
use std::marker::Model;
use table_difference::remaining;
use topology::Net;
use update_model::{Change, Rounds};

/// A search: the tables so far with what is prepared of them, the rounds that led to them, their evidence, for each class the
/// switches that its packets come to, and which atoms are looked at.
#[derive(Drop)]
struct Search {
    trial: PreparedTables,
    rounds: Rounds,
    store: EvidenceStore,
    watch: ClassWatch,
    looked: LookedAtoms,
}

impl Model for Search {
    ghost use Rattle.round_planner.specs.Searching.{SearchState};

    ghost Value = { SearchState };

    ghost view = { λ s. record { trial = s.trial; rounds = s.rounds; store = s.store; came = s.watch.came.items; looked = s.looked } };
}

/// The tables of a configuration with what is prepared of them, no rounds, and a store of no picks, of so many classes.
fn begun(
    alloc: Global,
    net: &Net,
    old: &Config,
    count: u32,
) -> Result<(PreparedTables, Rounds, EvidenceStore), Memory>
    requires old { IsUserConfig net.now (rules_of_all old.now) }
    requires few { count ≤ 8192 }
    ensures rules { IfOk result (λ r. rules_of_all r.0.tables ≡ rules_of_all old.now) }
    ensures settled { IfOk result (λ r. IsBetweenTrials net.now r.0) }
    ensures rounds { IfOk result (λ r. r.1 ≡ []) }
    ensures store { IfOk result (λ r. r.2 ≡ record { evidence = no_evidence; classes = count }) }
{
    let rounds = Rounds::make(alloc)?;
    let trial = PreparedTables::for_trials(alloc, net, old)?;
    let store = EvidenceStore::make(alloc, count)?;
    Ok((trial, rounds, store))
}

/// Makes a change that was tried, as one round more. After a refusal the tables and the rounds may differ.
fn keep_change(
    trial: &mut PreparedTables,
    rounds: &mut Rounds,
    net: &Net,
    change: &Change,
) -> Result<(), Memory>
    requires { IsTrying net.now change.now trial.old }
    ensures tables { OnOk result (rules_of_all trial.new.tables
        ≡ tables_after_change change.now (rules_of_all trial.old.tables)) }
    ensures settled { OnOk result (IsBetweenTrials net.now trial.new) }
    ensures rounds { OnOk result (rounds.new ≡ with_change change.now (rounds.old ++ [] ∷ [])) }
{
    trial.keep(net, change)?;
    rounds.add_round()?;
    rounds.add_change(*change)?;
    Ok(())
}

/// The plan of these rounds with this evidence where no change remains, otherwise the rounds.
fn answer_of(rounds: Rounds, evidence: OrderedEvidence, none_remains: bool) -> Ordered
    ensures { result ≡ answer_of rounds evidence none_remains }
{
    if none_remains {
        Ordered::Rounds(Plan {
            rounds,
            evidence: Evidence::Ordered(evidence),
        })
    } else {
        Ordered::Stuck(rounds)
    }
}

/// The answer of a search that begins with the tables of a configuration.
pub(crate) fn answer_to(alloc: Global, goal: &Goal, old: &Config) -> Result<Ordered, Memory>
    requires { IsUserConfig goal.now.net (rules_of_all old.now) }
    ensures { IfOk result (IsAnswered goal.now (rules_of_all old.now)) }
{
    let mut search = Search::make(alloc, goal, old)?;
    let none_remains = search.run(alloc, goal);
    let (rounds, evidence) = search.into_found();
    Ok(answer_of(rounds, evidence, none_remains?))
}

impl Search {
    /// A search that has made no change.
    fn make(alloc: Global, goal: &Goal, old: &Config) -> Result<Search, Memory>
        requires { IsUserConfig goal.now.net (rules_of_all old.now) }
        ensures at { IfOk result (IsAt goal.now (rules_of_all old.now) []) }
        ensures few { IfOk result (λ s. s.store.classes ≤ 8192) }
    {
        goal.net.keeps_rules();
        let count = goal.classes.count();
        let (looked, watch) = watch_rooms(alloc, goal.classes)?;
        let (trial, rounds, store) = begun(alloc, goal.net, old, count)?;
        Ok(Search {
            trial,
            rounds,
            store,
            watch,
            looked,
        })
    }

    /// Makes a change that was tried, with new evidence for the classes that need it. After a refusal the search is lost.
    fn take(
        &mut self,
        alloc: Global,
        goal: &Goal,
        change: &Change,
        found: Vec<FoundEvidence>,
    ) -> Result<(), Memory>
        requires { (old : List (List Rule)) × (changes : List ChangeOf)
            × IsUserConfig goal.now.net old × IsTryingAt goal.now old changes change.now self.old
            × AreSafeBelow goal.now (update_by goal.now old (changes ++ change.now ∷ []))
            self.old.store.evidence (length changes) (class_count goal.now.classes) found.items }
        ensures { OnOk result ((old : List (List Rule)) (changes : List ChangeOf)
            → IsUserConfig goal.now.net old → IsTryingAt goal.now old changes change.now self.old
            → AreSafeBelow goal.now (update_by goal.now old (changes ++ change.now ∷ []))
            self.old.store.evidence (length changes) (class_count goal.now.classes) found.items
            → IsFirstQualifying goal.now (tables_after changes old)
            (remaining_changes (tables_after changes old) goal.now.new) change.now
            → IsAt goal.now old (changes ++ change.now ∷ []) self.new) }
    {
        keep_change(&mut self.trial, &mut self.rounds, goal.net, change)?;
        let round = self.rounds.count() as u32;
        put_picks(alloc, &mut self.store, round, found)?;
        Ok(())
    }

    /// Tries a change, and makes it if it qualifies. Otherwise the result says why it doesn't.
    fn try_change(
        &mut self,
        alloc: Global,
        goal: &Goal,
        change: &Change,
    ) -> Result<Option<Failure>, Memory>
        requires { (old : List (List Rule)) × (changes : List ChangeOf)
            × IsUserConfig goal.now.net old × IsAt goal.now old changes self.old
            × IsIn change.now (remaining_changes (tables_after changes old) goal.now.new) }
        ensures { IfOk result (λ failure. (old : List (List Rule)) (changes : List ChangeOf)
            → IsUserConfig goal.now.net old → IsAt goal.now old changes self.old
            → IsIn change.now (remaining_changes (tables_after changes old) goal.now.new)
            → IsTried goal.now old changes change.now self.new failure) }
    {
        goal.net.keeps_rules();
        if !self.trial.begin(alloc, goal.net, change)? {
            return Ok(Some(Failure::Table));
        }
        self.looked.look_at_touched(&goal.list, change);
        let changes = [*change];
        let tried = TriedRound {
            changes: &changes,
            mixes: self.trial.mixes(),
            store: &self.store,
        };
        match judge_all(alloc, goal, &mut self.watch, &tried, &self.looked)? {
            RoundVerdict::Safe(found) => {
                self.take(alloc, goal, change, found)?;
                Ok(None)
            }
            RoundVerdict::Unsafe(failing) => {
                self.trial.give_up(goal.net, change);
                Ok(Some(Failure::Class(failing)))
            }
        }
    }

    /// Tries a change that remains, unless its failure stands. The result says whether it is made; if it isn't, why it
    /// failed is kept.
    fn try_left(
        &mut self,
        alloc: Global,
        goal: &Goal,
        left: &mut RemainingChange,
    ) -> Result<bool, Memory>
        requires { (old : List (List Rule)) × (changes : List ChangeOf)
            × IsUserConfig goal.now.net old × IsAt goal.now old changes self.old
            × IsIn left.old.change (remaining_changes (tables_after changes old) goal.now.new)
            × HasStanding goal.now (tables_after changes old) left.old }
        ensures change { OnOk result (left.new.change ≡ left.old.change) }
        ensures tried { IfOk result (λ taken. (old : List (List Rule)) (changes : List ChangeOf)
            → IsUserConfig goal.now.net old → IsAt goal.now old changes self.old
            → IsIn left.old.change (remaining_changes (tables_after changes old) goal.now.new)
            → HasStanding goal.now (tables_after changes old) left.old
            → IsLeftTried goal.now old changes left.old self.new taken
            × HasStanding goal.now (tables_after changes old) left.new) }
    {
        if left.failure.is_some() {
            return Ok(false);
        }
        match self.try_change(alloc, goal, &left.change)? {
            None => Ok(true),
            Some(failure) => {
                left.failure = Some(failure);
                Ok(false)
            }
        }
    }

    /// Tries the changes that remain, in order, up to the first that qualifies. The result is its place, if one does.
    fn take_first(
        &mut self,
        alloc: Global,
        goal: &Goal,
        left: &mut [RemainingChange],
    ) -> Result<Option<usize>, Memory>
        requires { (old : List (List Rule)) × (changes : List ChangeOf)
            × IsUserConfig goal.now.net old × IsAt goal.now old changes self.old
            × AreLeft goal.now (tables_after changes old) left.old }
        ensures changes { OnOk result (map (λ (l : LeftOf). l.change) left.new
            ≡ map (λ (l : LeftOf). l.change) left.old) }
        ensures placed { IfOk result (λ place. (old : List (List Rule)) (changes : List ChangeOf)
            → IsUserConfig goal.now.net old → IsAt goal.now old changes self.old
            → AreLeft goal.now (tables_after changes old) left.old
            → IsPlaced goal.now old changes self.new left.new place
            × AllByRecursion (HasStanding goal.now (tables_after changes old)) left.new) }
    {
        for place in 0..left.len() {
            if self.try_left(alloc, goal, &mut left[place])? {
                return Ok(Some(place));
            }
        }
        Ok(None)
    }

    /// Makes the first of the changes that remain that qualifies. The result says whether one does.
    fn go_on(
        &mut self,
        alloc: Global,
        goal: &Goal,
        left: &mut Vec<RemainingChange>,
    ) -> Result<bool, Memory>
        requires { (old : List (List Rule)) × (changes : List ChangeOf)
            × IsUserConfig goal.now.net old × IsAt goal.now old changes self.old
            × AreLeft goal.now (tables_after changes old) left.old.items }
        ensures { IfOk result (λ taken. (old : List (List Rule)) (changes : List ChangeOf)
            → IsUserConfig goal.now.net old → IsAt goal.now old changes self.old
            → AreLeft goal.now (tables_after changes old) left.old.items
            → IsMoved goal.now old changes self.new left.new.items taken) }
    {
        goal.net.keeps_rules();
        match self.take_first(alloc, goal, left)? {
            Some(place) => {
                take_out(left, place);
                Ok(true)
            }
            None => Ok(false),
        }
    }

    /// Goes on with the changes that remain until none is left, or until none of them qualifies. The result says whether none
    /// is left.
    fn run_through(
        &mut self,
        alloc: Global,
        goal: &Goal,
        left: &mut Vec<RemainingChange>,
    ) -> Result<bool, Memory>
        requires { (old : List (List Rule)) × (changes : List ChangeOf)
            × IsUserConfig goal.now.net old × IsAt goal.now old changes self.old
            × AreLeft goal.now (tables_after changes old) left.old.items }
        ensures { IfOk result (λ none_remains. (old : List (List Rule)) (changes : List ChangeOf)
            → IsUserConfig goal.now.net old → IsAt goal.now old changes self.old
            → AreLeft goal.now (tables_after changes old) left.old.items
            → IsEnded goal.now old self.new none_remains) }
    {
        goal.net.keeps_rules();
        'searching: while !left.is_empty() {
            if !self.go_on(alloc, goal, left)? {
                return Ok(false);
            }
        }
        Ok(true)
    }

    /// Goes on until no change remains, or until none of those that remain qualifies. The result says whether none remains.
    fn run(&mut self, alloc: Global, goal: &Goal) -> Result<bool, Memory>
        requires { (old : List (List Rule)) × (changes : List ChangeOf)
            × IsUserConfig goal.now.net old × IsAt goal.now old changes self.old }
        ensures { IfOk result (λ none_remains. (old : List (List Rule)) (changes : List ChangeOf)
            → IsUserConfig goal.now.net old → IsAt goal.now old changes self.old
            → IsEnded goal.now old self.new none_remains) }
    {
        goal.net.keeps_rules();
        let changes = remaining(alloc, self.trial.tables(), goal.new)?;
        let mut left = untried(alloc, &changes)?;
        self.run_through(alloc, goal, &mut left)
    }

    /// The rounds and their evidence, in which nothing stands twice.
    fn into_found(self) -> (Rounds, OrderedEvidence)
        ensures rounds { result.0 ≡ self.rounds }
        ensures evidence { result.1 ≡ self.store.evidence }
        ensures stored { IsStored self.store.evidence }
    {
        self.store.keeps_once();
        (self.rounds, self.store.into_evidence())
    }
}
