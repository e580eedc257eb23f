//! The changes and the rounds of a plan.
ghost use Rattle.std.specs.Prelude.{◌≡◌, ◌+◌, ◌-◌, ◌<◌, ◌≤◌, slice_get, IfErr, ◌++◌, ◌∷◌, [], Ok, length, sum_by, map, option_map, IfOk, OnOk, MatchResult};
ghost use Rattle.std.specs.Option.{option_and_then};
ghost use Rattle.flat_json.specs.Trees.{data_of};
ghost use Rattle.net_base.specs.Reading.{Gives, Fails, in_turn};
ghost use Rattle.flat_json.specs.JsonTree.{list_in};
ghost use Rattle.plan_format.specs.declared.fault.PlanFault.TheVariants.{Memory};
ghost use Rattle.plan_format.specs.Changes as plan;

use crate::fault::PlanFault;
use crate::rules::{PlanRule, read_rule};
use flat_json::{Node, Tree};
use net_base::{Field, place_of};
use std::alloc::Global;
use std::marker::Model;
use topology::Net;
use update_model::{Change, Rounds};

const MAX_CHANGES: u32 = 2200000;

const MAX_RULES: u32 = 2200000;

/// What a change does.
#[derive(Clone, Copy)]
pub enum ChangeKind {
    Insert,
    Delete,
    Replace,
}

/// The rules of a plan of format 2.
#[derive(Drop)]
pub struct PlanRules {
    list: Vec<PlanRule>,
}

impl Model for PlanRules {
    ghost use Rattle.std.specs.Prelude.{List};
    ghost use Rattle.plan_format.specs.declared.rules.PlanRule.{PlanRule};

    ghost Value = { List PlanRule };

    ghost view = { λ r. r.list.items };
}

impl PlanRules {
    fn empty(alloc: Global) -> PlanRules
        ensures { result ≡ [] }
    {
        PlanRules {
            list: Vec::new(alloc),
        }
    }

    fn add(&mut self, rule: PlanRule) -> Result<(), PlanFault>
        ensures ok { OnOk result (self.new ≡ self.old ++ rule ∷ []) }
        ensures err { IfErr result (λ e. e ≡ Memory) }
    {
        self.list.push(rule)?;
        Ok(())
    }

    /// The rule of this number, from 0.
    fn get(&self, number: u64) -> Option<PlanRule>
        ensures { result ≡ slice_get self.now number }
    {
        self.list.get(number as usize).copied()
    }
}

/// How the changes of a plan are spelled: as objects, or by the numbers of these rules.
#[derive(Drop)]
pub enum Spelling {
    Objects,
    Numbers(PlanRules),
}

/// A member of a plan that lists changes: the network that they are for, how they are spelled, the member's name, and the
/// number of its first change.
#[derive(Clone, Copy)]
pub(crate) struct ChangeList<'a> {
    pub(crate) net: &'a Net,
    pub(crate) spelling: &'a Spelling,
    pub(crate) name: Field,
    pub(crate) first: usize,
}

/// Rounds, and how many changes they have.
#[derive(Drop)]
pub(crate) struct CountedRounds {
    rounds: Rounds,
    changes: usize,
}

impl Model for CountedRounds {
    ghost use Rattle.std.specs.Prelude.{◌≡◌, ◌≤◌, List, length, sum_by};
    ghost use Rattle.update_model.specs.declared.Change.{Change};

    ghost Value = { List (List Change) };

    ghost view = { λ r. r.rounds };

    ghost invariant = { λ r. (r.changes ≡ sum_by length r.rounds) × (r.changes ≤ 2200000) };
}

impl CountedRounds {
    fn make(alloc: Global) -> Result<CountedRounds, PlanFault>
        ensures ok { IfOk result (λ r. r ≡ []) }
        ensures err { IfErr result (λ e. e ≡ Memory) }
    {
        Ok(CountedRounds {
            rounds: Rounds::make(alloc)?,
            changes: 0,
        })
    }

    /// How many changes they have.
    pub fn changes(&self) -> usize
        ensures value { result ≡ sum_by length self.now }
        ensures few { result ≤ 2200000 }
    {
        self.changes
    }

    /// How many rounds there are.
    pub fn count(&self) -> usize
        ensures { result ≡ length self.now }
    {
        self.rounds.count()
    }

    fn push(&mut self, round: Vec<Change>) -> Result<(), PlanFault>
        requires { sum_by length self.old + length round.items ≤ 2200000 }
        ensures ok { OnOk result (self.new ≡ self.old ++ round.items ∷ []) }
        ensures err { IfErr result (λ e. e ≡ Memory) }
    {
        let more = round.len();
        self.rounds.push_round(round)?;
        self.changes += more;
        Ok(())
    }

    /// The rounds.
    pub fn rounds(self) -> Rounds
        ensures { result ≡ self }
    {
        self.rounds
    }
}

/// What the word says that a change does.
fn kind_of(word: &str) -> Option<ChangeKind>
    ensures { result ≡ plan.kind_of word.now }
{
    match word {
        "insert" => Some(ChangeKind::Insert),
        "delete" => Some(ChangeKind::Delete),
        "replace" => Some(ChangeKind::Replace),
        _ => None,
    }
}

/// The change of this kind with the rule.
fn change_of(kind: ChangeKind, rule: PlanRule) -> Change
    ensures { result ≡ plan.change_of kind rule }
{
    match kind {
        ChangeKind::Insert => Change::Insert(rule.switch, rule.rule),
        ChangeKind::Delete => Change::Delete(rule.switch, rule.rule),
        ChangeKind::Replace => Change::Replace(rule.switch, rule.rule),
    }
}

/// Reads a change as an object. The list is the member that it stands in.
#[tactic(auto, unfolding(crate::specs::Changes::object_change))]
fn read_object(
    net: &Net,
    list: Field,
    place: u32,
    tree: &Tree<'_>,
    item: &Node,
) -> Result<Change, PlanFault>
    ensures { Gives Memory (λ c. c) result
        (plan.object_change net.now list place (data_of tree.now item.now)) }
{
    if !tree.is_object(item) {
        return Err(PlanFault::Shape(list, place));
    }
    let kind = tree
        .text_at(item, "do")
        .and_then(kind_of)
        .ok_or(PlanFault::Shape(Field::Do, place))?;
    let rule = read_rule(net, place, tree, item)?;
    Ok(change_of(kind, rule))
}

/// What a change does, and the number of its rule.
fn kind_and_number(tree: &Tree<'_>, item: &Node) -> Option<(ChangeKind, u64)>
    ensures { result ≡ option_and_then plan.kind_and_number (list_in (data_of tree.now item.now)) }
{
    match tree.list_in(item)? {
        [word, number] => Some((kind_of(tree.as_str(word)?)?, tree.whole(number)?)),
        _ => None,
    }
}

/// Reads a change that names its rule by its number.
#[tactic(auto, unfolding(crate::specs::Changes::numbered_change))]
fn read_numbered(
    rules: &PlanRules,
    list: Field,
    place: u32,
    tree: &Tree<'_>,
    item: &Node,
) -> Result<Change, PlanFault>
    ensures { Gives Memory (λ c. c) result
        (plan.numbered_change rules.now list place (data_of tree.now item.now)) }
{
    let (kind, number) = kind_and_number(tree, item).ok_or(PlanFault::Shape(list, place))?;
    let rule = rules.get(number).ok_or(PlanFault::BadIndex(place))?;
    Ok(change_of(kind, rule))
}

/// Reads a change, by the spelling of the format.
fn read_spelled(
    list: ChangeList,
    place: u32,
    tree: &Tree<'_>,
    item: &Node,
) -> Result<Change, PlanFault>
    ensures { Gives Memory (λ c. c) result
        (plan.change_in list.entry.net.now list.entry.spelling.now list.entry.name place
        (data_of tree.now item.now)) }
{
    match list.spelling {
        Spelling::Objects => read_object(list.net, list.name, place, tree, item),
        Spelling::Numbers(rules) => read_numbered(rules, list.name, place, tree, item),
    }
}

/// Reads one more change of a round.
#[tactic(auto, unfolding(crate::specs::Changes::change_at))]
fn read_change(
    list: ChangeList,
    changes: &mut Vec<Change>,
    place: u32,
    tree: &Tree<'_>,
    item: &Node,
) -> Result<(), PlanFault>
    ensures value { MatchResult result
        (λ _. plan.change_at list.entry.net.now list.entry.spelling.now list.entry.name place
        changes.old.items (data_of tree.now item.now) ≡ Ok changes.new.items)
        (λ e. Fails Memory e
        (plan.change_at list.entry.net.now list.entry.spelling.now list.entry.name place
        changes.old.items (data_of tree.now item.now))) }
    ensures few { OnOk result (place < 2200000) }
    ensures one { OnOk result (length changes.new.items ≡ length changes.old.items + 1) }
{
    if place >= MAX_CHANGES {
        return Err(PlanFault::TooMany(list.name));
    }
    changes.push(read_spelled(list, place, tree, item)?)?;
    Ok(())
}

/// Reads a round whose first change has this number.
#[tactic(auto, using(crate::proofs::TurnLaws::turns), unfolding(crate::specs::Changes::round_in))]
fn read_round(
    alloc: Global,
    list: ChangeList,
    place: u32,
    first: usize,
    tree: &Tree<'_>,
    item: &Node,
) -> Result<Vec<Change>, PlanFault>
    ensures value { Gives Memory (λ v. v.items) result
        (plan.round_in list.entry.net.now list.entry.spelling.now list.entry.name place first
        (data_of tree.now item.now)) }
    ensures few { IfOk result (λ v. length v.items ≤ 2200000 - first) }
{
    let items = tree
        .list_in(item)
        .ok_or(PlanFault::Shape(list.name, place))?;
    let mut changes = Vec::new(alloc);
    let mut number = first;
    for change in items {
        read_change(list, &mut changes, place_of(number), tree, change)?;
        number += 1;
    }
    Ok(changes)
}

/// Reads one more round.
#[tactic(auto, unfolding(crate::specs::Changes::round_at))]
fn read_next_round(
    alloc: Global,
    list: ChangeList,
    rounds: &mut CountedRounds,
    place: u32,
    tree: &Tree<'_>,
    item: &Node,
) -> Result<(), PlanFault>
    requires { list.first ≤ 2200000 }
    ensures value { MatchResult result
        (λ _. plan.round_at list.entry.net.now list.entry.spelling.now list.entry.name
        list.entry.first place rounds.old (data_of tree.now item.now) ≡ Ok rounds.new)
        (λ e. Fails Memory e
        (plan.round_at list.entry.net.now list.entry.spelling.now list.entry.name
        list.entry.first place rounds.old (data_of tree.now item.now))) }
    ensures one { OnOk result (length rounds.new ≡ length rounds.old + 1) }
{
    let number = list.first + rounds.changes();
    let round = read_round(alloc, list, place, number, tree, item)?;
    rounds.push(round)?;
    Ok(())
}

/// Reads the member with this name: at most so many rounds.
#[tactic(auto, using(crate::proofs::TurnLaws::turns), unfolding(crate::specs::Changes::rounds_in))]
pub(crate) fn read_rounds(
    alloc: Global,
    list: ChangeList,
    most: usize,
    tree: &Tree<'_>,
    top: &Node,
) -> Result<CountedRounds, PlanFault>
    requires { list.first ≤ 2200000 }
    ensures value { Gives Memory (λ r. r) result
        (plan.rounds_in list.entry.net.now list.entry.spelling.now list.entry.name most
        list.entry.first (data_of tree.now top.now)) }
    ensures few { IfOk result (λ r. length r ≤ most) }
{
    let items = tree
        .list_at(top, list.name.name())
        .ok_or(PlanFault::Shape(list.name, 0))?;
    if items.len() > most {
        return Err(PlanFault::TooMany(list.name));
    }
    let mut rounds = CountedRounds::make(alloc)?;
    for (i, item) in items.iter().enumerate() {
        read_next_round(alloc, list, &mut rounds, place_of(i), tree, item)?;
    }
    Ok(rounds)
}

/// Reads one more rule.
#[tactic(auto, unfolding(crate::specs::Changes::rule_at))]
fn read_next_rule(
    net: &Net,
    rules: &mut PlanRules,
    place: u32,
    tree: &Tree<'_>,
    item: &Node,
) -> Result<(), PlanFault>
    ensures { MatchResult result
        (λ _. plan.rule_at net.now place rules.old (data_of tree.now item.now) ≡ Ok rules.new)
        (λ e. Fails Memory e (plan.rule_at net.now place rules.old (data_of tree.now item.now))) }
{
    if place >= MAX_RULES {
        return Err(PlanFault::TooMany(Field::Rules));
    }
    if !tree.is_object(item) {
        return Err(PlanFault::Shape(Field::Rules, place));
    }
    let rule = read_rule(net, place, tree, item)?;
    rules.add(rule)?;
    Ok(())
}

/// Reads the member `rules`.
#[tactic(auto, using(crate::proofs::TurnLaws::turns), unfolding(crate::specs::Changes::rules_in))]
pub(crate) fn read_rules(
    alloc: Global,
    net: &Net,
    tree: &Tree<'_>,
    top: &Node,
) -> Result<PlanRules, PlanFault>
    ensures { Gives Memory (λ r. r) result (plan.rules_in net.now (data_of tree.now top.now)) }
{
    let items = tree
        .list_at(top, "rules")
        .ok_or(PlanFault::Shape(Field::Rules, 0))?;
    let mut rules = PlanRules::empty(alloc);
    for (i, item) in items.iter().enumerate() {
        read_next_rule(net, &mut rules, place_of(i), tree, item)?;
    }
    Ok(rules)
}
