//! Changes at one of the switches: it is prepared for them, for its table alone again, or for the table after them.
ghost use Rattle.std.specs.Prelude.{◌≡◌, ◌≢◌, ◌+◌, ◌<◌, ◌≤◌, [], ◌∷◌, ◌++◌, List, true, false, length, IsSomeAnd};
ghost use Rattle.net_base.specs.declared.ids.SwitchId.{SwitchId as Switch};
ghost use Rattle.flow_rules.specs.Tables.{IsTable};
ghost use Rattle.flow_rules.specs.declared.rules.Rule.{Rule};
ghost use Rattle.update_model.specs.Changes.{rules_after, rules_after_change};
ghost use Rattle.update_model.specs.declared.Change.{Change as ChangeOf};
ghost use Rattle.round_mix.specs.Prepared.{AreClear, AreGood};
ghost use Rattle.round_tables.specs.PreparedTables.{mix_at, IsMixed};
ghost use Rattle.round_tables.specs.Steps.{HasOneMore};

use net_base::SwitchId;
use round_mix::Mixed;
use update_model::Change;

/// Prepares one of the switches for one change more than those of its table for which it is prepared, if that is good behind
/// them and each mixture is clear.
pub(crate) fn begin_at(mixes: &mut [Mixed], switch: SwitchId, change: &Change) -> bool
    requires within { switch.0 < length mixes.old }
    requires room { HasOneMore (mix_at mixes.old switch) }
    ensures yes { (rules : List Rule) (changes : List ChangeOf) → IsTable rules
        → IsMixed rules changes (mix_at mixes.old switch)
        → result ≡ true → IsMixed rules (changes ++ change.now ∷ []) (mix_at mixes.new switch) }
    ensures no { (rules : List Rule) (changes : List ChangeOf)
        → IsMixed rules changes (mix_at mixes.old switch)
        → result ≡ false → AreGood rules (changes ++ change.now ∷ [])
        → ¬ AreClear rules (changes ++ change.now ∷ []) }
    ensures same { result ≡ false → (mix_at mixes.new switch).prepared
        ≡ (mix_at mixes.old switch).prepared }
    ensures others { (o : Switch) → o.0 ≢ switch.0 → mix_at mixes.new o ≡ mix_at mixes.old o }
    ensures room { (mix_at mixes.old switch).room ≤ (mix_at mixes.new switch).room }
{
    mixes[switch.0 as usize].begin(change)
}

/// Prepares one of the switches, which is prepared for changes of its table, for those before the last one.
pub(crate) fn give_up_at(mixes: &mut [Mixed], switch: SwitchId, change: &Change)
    requires { switch.0 < length mixes.old }
    ensures before { (rules : List Rule) (changes : List ChangeOf) → IsTable rules
        → IsMixed rules (changes ++ change.now ∷ []) (mix_at mixes.old switch)
        → IsMixed rules changes (mix_at mixes.new switch) }
    ensures others { (o : Switch) → o.0 ≢ switch.0 → mix_at mixes.new o ≡ mix_at mixes.old o }
    ensures room { (mix_at mixes.old switch).room ≤ (mix_at mixes.new switch).room }
{
    mixes[switch.0 as usize].give_up(change);
}

/// Prepares one of the switches, which is prepared for a change of its table and maybe others, for the table after it.
pub(crate) fn keep_at(mixes: &mut [Mixed], switch: SwitchId, change: &Change)
    requires { switch.0 < length mixes.old }
    ensures after { (rules : List Rule) (changes : List ChangeOf) → IsTable rules
        → IsMixed rules (change.now ∷ changes) (mix_at mixes.old switch)
        → IsMixed (rules_after_change change.now rules) changes (mix_at mixes.new switch) }
    ensures others { (o : Switch) → o.0 ≢ switch.0 → mix_at mixes.new o ≡ mix_at mixes.old o }
    ensures room { (mix_at mixes.old switch).room ≤ (mix_at mixes.new switch).room }
{
    mixes[switch.0 as usize].keep(change);
}

/// Prepares one of the switches, which is prepared for its table alone, for changes of it, if they are good and each mixture
/// is clear.
pub(crate) fn begin_all_at(mixes: &mut [Mixed], switch: SwitchId, changes: &[Change]) -> bool
    requires within { switch.0 < length mixes.old }
    requires room { IsSomeAnd (mix_at mixes.old switch).prepared
        (λ marks. length marks + length changes.now ≤ (mix_at mixes.old switch).room) }
    ensures yes { (rules : List Rule) → IsTable rules
        → IsMixed rules [] (mix_at mixes.old switch)
        → result ≡ true → IsMixed rules changes.now (mix_at mixes.new switch) }
    ensures others { (o : Switch) → o.0 ≢ switch.0 → mix_at mixes.new o ≡ mix_at mixes.old o }
    ensures room { (mix_at mixes.old switch).room ≤ (mix_at mixes.new switch).room }
{
    let mixed = &mut mixes[switch.0 as usize];
    if !mixed.begin_all(changes) {
        return false;
    }
    mixed.index();
    true
}

/// Prepares one of the switches, which is prepared for changes of its table, for the table after them.
pub(crate) fn keep_all_at(mixes: &mut [Mixed], switch: SwitchId, changes: &[Change])
    requires { switch.0 < length mixes.old }
    ensures after { (rules : List Rule) → IsTable rules
        → IsMixed rules changes.now (mix_at mixes.old switch)
        → IsMixed (rules_after changes.now rules) [] (mix_at mixes.new switch) }
    ensures others { (o : Switch) → o.0 ≢ switch.0 → mix_at mixes.new o ≡ mix_at mixes.old o }
    ensures room { (mix_at mixes.old switch).room ≤ (mix_at mixes.new switch).room }
{
    mixes[switch.0 as usize].keep_all(changes);
}
