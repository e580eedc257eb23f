//! Whether the changes of each round can be made in any order, with one answer at each lookup.
ghost use Rattle.std.specs.Prelude.{◌≡◌, ◌+◌, ◌<◌, ◌^◌, ℕ, suc, length, IfErr, OnOk};
ghost use Rattle.flow_rules.specs.Tables.{rules_of_all};
ghost use Rattle.update_model.specs.Changes.{round_after};
ghost use Rattle.update_model.specs.Mixtures.{Rollout as RolloutView, AreGoodRounds, AreClearRounds};
ghost use Rattle.round_tables.specs.PreparedTables.{HasRoomForAll, StandsBefore};
ghost use Rattle.round_tables.specs.Loading.{ArePrepared};
ghost use Rattle.round_tables.specs.Sound.{IsFault, IsFaultIn};

use crate::loading::RoundFault;
use crate::prepared::PreparedTables;
use crate::rollout::Rollout;
use flow_rules::Config;
use net_base::{Memory, SwitchId};
use std::alloc::Global;
use topology::Net;
use update_model::Rounds;

/// Why rounds are unsound. Rounds are counted from 1, changes from 0.
#[derive(Clone, Copy, Debug, PartialEq, Eq)]
pub enum SoundFault {
    /// A change doesn't apply to the tables before its round, or an earlier one of the round names its entry.
    BadChange {
        round: u32,
        switch: SwitchId,
        change: u32,
    },
    /// While the round's changes are made, two rules of equal priority may cover one packet at the switch.
    Ambiguous {
        round: u32,
        switch: SwitchId,
    },
    /// Memory ran out.
    Memory,
}

impl From<Memory> for SoundFault {
    ghost use Rattle.std.specs.Prelude.{◌≡◌};
    ghost use Rattle.round_tables.specs.declared.sound.SoundFault.{SoundFault};

    ghost from_gives = { λ _ fault. fault ≡ SoundFault.Memory };

    fn from(_: Memory) -> SoundFault {
        SoundFault::Memory
    }
}

/// An update of a network by rounds.
fn rollout<'a>(net: &'a Net, old: &'a Config, rounds: &'a Rounds) -> Rollout<'a>
    ensures { result
        ≡ record { net = net.now; old = rules_of_all old.now; rounds = rounds.now } }
{
    Rollout { net, old, rounds }
}

/// Prepares each switch for round k, or gives the round's first fault.
fn load_next(update: &Rollout<'_>, k: usize, tables: &mut PreparedTables) -> Result<(), SoundFault>
    requires round { k < length update.now.rounds }
    requires number { k + 1 < 2 ^ 32 }
    requires few { length (round_after k update.now.rounds) < 2 ^ 32 }
    requires room { HasRoomForAll update.now tables.old }
    requires stands { StandsBefore update.now k tables.old }
    ensures ok { OnOk result (ArePrepared update.now k tables.new) }
    ensures err { IfErr result (IsFaultIn update.now k) }
    ensures room { HasRoomForAll update.now tables.new }
{
    let round = k as u32 + 1;
    match tables.load_round(update, k) {
        Ok(()) => Ok(()),
        Err(RoundFault::BadChange { switch, change }) => Err(SoundFault::BadChange {
            round,
            switch,
            change: change as u32,
        }),
        Err(RoundFault::Unclear(switch)) => Err(SoundFault::Ambiguous { round, switch }),
    }
}

/// Makes the changes of round k, for which the switches are prepared.
fn apply_next(update: &Rollout<'_>, k: usize, tables: &mut PreparedTables)
    requires round { k < length update.now.rounds }
    requires room { HasRoomForAll update.now tables.old }
    requires prepared { ArePrepared update.now k tables.old }
    ensures stands { StandsBefore update.now (suc k) tables.new }
    ensures room { HasRoomForAll update.now tables.new }
{
    tables.apply_round(update, k);
}

/// Whether each change of each round applies to the tables before the round and names an entry that no earlier one of the
/// round names, and each table that a switch may have while the changes are made, in whatever order, is clear. Otherwise
/// the first change or switch for which that isn't so. Those are the checker's reasons of the rounds' changes; capacities
/// aren't looked at. The configuration may be of any switches, and the changes too: one at a switch that there isn't is bad.
/// It costs what the checker takes to prepare the switches round by round.
pub fn sound_rounds(
    alloc: Global,
    net: &Net,
    old: &Config,
    rounds: &Rounds,
) -> Result<(), SoundFault>
    requires few_rounds { length rounds.now < 2 ^ 32 }
    requires few_changes { (k : ℕ) → length (round_after k rounds.now) < 2 ^ 32 }
    ensures good { OnOk result
        (AreGoodRounds
        (record { net = net.now; old = rules_of_all old.now; rounds = rounds.now })) }
    ensures clear { OnOk result
        (AreClearRounds
        (record { net = net.now; old = rules_of_all old.now; rounds = rounds.now })) }
    ensures err { IfErr result
        (λ fault.
        let u : RolloutView
        = record { net = net.now; old = rules_of_all old.now; rounds = rounds.now } in IsFault u
        fault) }
{
    let update = rollout(net, old, rounds);
    let mut tables = PreparedTables::make_for_all(alloc, &update)?;
    tables.start(&update);
    for k in 0..rounds.count() {
        load_next(&update, k, &mut tables)?;
        apply_next(&update, k, &mut tables);
    }
    Ok(())
}
