//! An update of a network by rounds.
use flow_rules::Config;
use std::marker::Model;
use topology::Net;
use update_model::Rounds;

/// An update of a network: the tables before it, and its rounds.
#[derive(Drop)]
pub struct Rollout<'a> {
    pub net: &'a Net,
    pub old: &'a Config,
    pub rounds: &'a Rounds,
}

impl<'a> Model for Rollout<'a> {
    ghost use Rattle.flow_rules.specs.Tables.{rules_of_all};
    ghost use Rattle.update_model.specs.Mixtures.{Rollout as RolloutView};

    ghost Value = { RolloutView };

    ghost view = { λ u. record { net = u.net.now; old = rules_of_all u.old.now; rounds = u.rounds.now } };
}
