//! Whether an outcome agrees with a version by its label, and the label table in force.
ghost use Rattle.std.specs.Prelude.{◌≡◌, ◌↔◌, ◌<◌, ◌≤◌, ℕ, IsTrue, Some, slice_get, length};
ghost use Rattle.topology.specs.Networks.{Network};
ghost use Rattle.certificates.specs.Valid.{IsChain};
ghost use Rattle.certificates.specs.declared.LabelPick.{LabelPick};
ghost use Rattle.certificates.specs.declared.TwoPhaseEvidence.{TwoPhaseEvidence};
ghost use Rattle.two_phase_check.specs.InForce.{AreDeclared, AreBegun, IsTableOf, IsTableInForceAt, LabelsStand};
ghost use Rattle.path_walk.specs.declared.Outcome.TheVariants.{Go};
ghost use Rattle.net_base.specs.Members.{IsIn};
ghost use Rattle.two_phase_check.specs.Agreements.{AgreesWith};

use certificates::{Label, LabelPick, Labels, TwoPhaseEvidence};
use net_base::{Place, Vlan};
use path_walk::Outcome;
use topology::Net;

/// Whether a label stands in a table.
fn is_labelled(labels: &[Label], label: Label) -> bool
    ensures { IsTrue result ↔ IsIn label labels.now }
{
    labels.contains(&label)
}

/// Whether two places are the same but for the VLAN.
fn is_same_stop(a: Place, b: Place) -> bool
    ensures { IsTrue result ↔ ((a.switch ≡ b.switch) × (a.port ≡ b.port)) }
{
    a.switch == b.switch && a.port == b.port
}

/// Whether a packet that goes on is where it is expected, with a VLAN that has the label of the version and the user.
fn goes_as_labelled(
    next: Place,
    expected: Outcome,
    labels: &[Label],
    version: bool,
    user: Vlan,
) -> bool
    ensures { IsTrue result ↔ AgreesWith expected labels.now version user (Go next) }
{
    match expected {
        Outcome::Go(place) => {
            let label = Label {
                vlan: next.vlan,
                new: version,
                user,
            };
            is_same_stop(next, place) && is_labelled(labels, label)
        }
        _ => false,
    }
}

/// Whether an outcome of the entry is the one that is expected of a version: the same, but for a VLAN that has the label
/// of the version and the user.
pub(crate) fn agrees(
    found: Outcome,
    expected: Outcome,
    labels: &[Label],
    version: bool,
    user: Vlan,
) -> bool
    ensures { IsTrue result ↔ AgreesWith expected labels.now version user found }
{
    match found {
        Outcome::Go(next) => goes_as_labelled(next, expected, labels, version, user),
        _ => found == expected,
    }
}

/// The label table in force, kept up from round to round.
#[derive(Drop)]
pub(crate) struct LabelsInForce {
    /// How many picks have begun.
    pub(crate) begun: usize,
    /// The number of the label table of the last of them, where its users' VLANs are declared.
    pub(crate) table: Option<u32>,
}

/// Whether the user's VLAN of a label is declared.
fn is_user_declared(net: &Net, label: Label) -> bool
    ensures { IsTrue result ↔ IsIn label.user net.now.vlans }
{
    net.is_declared(label.user)
}

/// Whether the users' VLANs of a label table are declared.
fn are_declared(net: &Net, labels: &[Label]) -> bool
    ensures { IsTrue result ↔ AreDeclared net.now labels.now }
{
    labels.iter().all(|label| is_user_declared(net, *label))
}

/// How many picks have a round that isn't above the round, of which so many are known.
fn begun_by(picks: &[LabelPick], known: usize, round: usize) -> usize
    requires within { known ≤ length picks.now }
    requires ascending { IsChain (λ p q. p.round < q.round) picks.now }
    requires known { (i : ℕ) (pick : LabelPick) → slice_get picks.now i ≡ Some pick → i < known
        → pick.round ≤ round }
    ensures begun { AreBegun picks.now round result }
    ensures more { known ≤ result }
{
    for i in known..picks.len() {
        if picks[i].round as usize > round {
            return i;
        }
    }
    picks.len()
}

/// The number of the label table of a pick, where its users' VLANs are declared.
fn table_of(net: &Net, evidence: &TwoPhaseEvidence, pick: LabelPick) -> Option<u32>
    ensures { IsTableOf net.now evidence.now pick result }
{
    let tables = evidence.labels.list();
    let table = tables.get(pick.labels as usize)?;
    if are_declared(net, table.list()) {
        Some(pick.labels)
    } else {
        None
    }
}

impl LabelsInForce {
    /// Before the first round: no pick has begun.
    pub(crate) fn none() -> LabelsInForce
        ensures { (net : Network) (e : TwoPhaseEvidence) → LabelsStand net e 0 result }
    {
        LabelsInForce {
            begun: 0,
            table: None,
        }
    }

    /// Goes on to a round, by its number from 1. Takes time by the picks that begin, and by the table of the last of them.
    pub(crate) fn advance(&mut self, net: &Net, evidence: &TwoPhaseEvidence, round: usize)
        requires ascending { IsChain (λ p q. p.round < q.round) evidence.now.picks }
        requires stands { LabelsStand net.now evidence.now round self.old }
        ensures stands { LabelsStand net.now evidence.now round self.new }
        ensures begun { AreBegun evidence.now.picks round self.new.begun }
        ensures in_force { IsTableInForceAt net.now evidence.now round self.new.table }
    {
        let picks = evidence.picks.list();
        let begun = begun_by(picks, self.begun, round);
        if begun > self.begun {
            self.begun = begun;
            self.table = table_of(net, evidence, picks[begun - 1]);
        }
    }
}
