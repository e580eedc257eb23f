//! An update whose classes are explained.
use demands::Duties;
use dest_classes::ClassMap;
use flow_rules::Config;
use topology::Net;
use update_model::Rounds;

/// An update of a network: the tables before it, its rounds, and its classes with their duties.
#[derive(Clone, Copy)]
pub(crate) struct ClassedUpdate<'a> {
    pub(crate) net: &'a Net,
    pub(crate) old: &'a Config,
    pub(crate) rounds: &'a Rounds,
    pub(crate) duties: &'a Duties,
    pub(crate) classes: &'a ClassMap,
}
