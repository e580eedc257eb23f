//! Single changes are tried on the tables of a network.
ghost use Rattle.std.specs.Prelude.{◌≡◌, ◌∷◌, [], List, true, false, IfOk, OnOk, OnErr};
ghost use Rattle.flow_rules.specs.Tables.{rules_of_all};
ghost use Rattle.path_walk.specs.UserConfigs.{IsUserConfig};
ghost use Rattle.update_model.specs.Changes.{Applies, tables_after_change};
ghost use Rattle.round_tables.specs.Filling.{AreTakenChanges};
ghost use Rattle.round_tables.specs.Trials.{IsBetweenTrials, IsTrying, HasRoomAlone};

use crate::alone::all_alone;
use crate::prepared::PreparedTables;
use crate::steps::make_change;
use flow_rules::Config;
use net_base::Memory;
use std::alloc::Global;
use topology::Net;
use update_model::Change;

impl PreparedTables {
    /// The tables of a configuration, each switch prepared for its table alone, to try single changes on them or to fill rounds.
    /// There is no room for the changes of rounds that are given. It takes memory by the rules of the tables, whatever the
    /// capacities.
    pub fn for_trials(alloc: Global, net: &Net, config: &Config) -> Result<PreparedTables, Memory>
        requires { IsUserConfig net.now (rules_of_all config.now) }
        ensures rules { IfOk result (λ t. rules_of_all t.tables ≡ rules_of_all config.now) }
        ensures settled { IfOk result (IsBetweenTrials net.now) }
        ensures taken { IfOk result (AreTakenChanges net.now) }
    {
        net.keeps_rules();
        let tables = config.copy()?;
        let (mixes, limits) = all_alone(alloc, net, &tables)?;
        Ok(PreparedTables {
            tables,
            mixes,
            touched: Vec::new(alloc),
            changes: Vec::new(alloc),
            limits,
            rules: Vec::new(alloc),
            round: Vec::new(alloc),
        })
    }

    /// Prepares the switch of a change for it, if as a round of its own the change is clear and within capacity. If it
    /// isn't, the switch is prepared for its table alone again. It looks at each rule of the switch three times at most.
    /// Where the table has come to fill its room, the switch is prepared anew for it before, with twice the room: so seldom that
    /// the time is that of the table's rules in all. After a refusal nothing is tried, and the tables are as before.
    pub fn begin(&mut self, alloc: Global, net: &Net, change: &Change) -> Result<bool, Memory>
        requires settled { IsBetweenTrials net.now self.old }
        requires applies { Applies (rules_of_all self.old.tables) change.now }
        ensures rules { rules_of_all self.new.tables ≡ rules_of_all self.old.tables }
        ensures yes { IfOk result (λ is_begun. is_begun ≡ true
            → IsTrying net.now change.now self.new) }
        ensures no { IfOk result (λ is_begun. is_begun ≡ false → IsBetweenTrials net.now self.new) }
        ensures never { IfOk result (λ is_begun. is_begun ≡ false
            → ¬ HasRoomAlone net.now (rules_of_all self.old.tables) change.now) }
        ensures settled { OnErr result (IsBetweenTrials net.now self.new) }
    {
        net.keeps_rules();
        self.widen(alloc, net, change.switch())?;
        Ok(self.begin_beside(net, change))
    }

    /// Prepares the switch of a change that was tried for its table alone again. It looks at each rule of the switch once.
    pub fn give_up(&mut self, net: &Net, change: &Change)
        requires { IsTrying net.now change.now self.old }
        ensures rules { rules_of_all self.new.tables ≡ rules_of_all self.old.tables }
        ensures settled { IsBetweenTrials net.now self.new }
    {
        self.unmark(net, change);
    }

    /// Makes a change that was tried. After a refusal the tables are as before and the change is still tried.
    /// What is prepared of its switch costs one look at each of its rules.
    pub fn keep(&mut self, net: &Net, change: &Change) -> Result<(), Memory>
        requires { IsTrying net.now change.now self.old }
        ensures rules { OnOk result
            (rules_of_all self.new.tables
            ≡ tables_after_change change.now (rules_of_all self.old.tables)) }
        ensures settled { OnOk result (IsBetweenTrials net.now self.new) }
        ensures same { OnErr result (rules_of_all self.new.tables ≡ rules_of_all self.old.tables) }
        ensures trying { OnErr result (IsTrying net.now change.now self.new) }
    {
        net.keeps_rules();
        make_change(&mut self.tables, &mut self.mixes, change)?;
        Ok(())
    }
}
