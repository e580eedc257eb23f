//! The update of the ring, as the program's readers read its texts.
ghost use Rattle.std.specs.Prelude.{◌≡◌, ◌≤◌, ◌*◌, ◌-◌, [], IfOk, length};
ghost use Rattle.flow_rules.specs.Tables.{rules_of_all};
ghost use Rattle.path_walk.specs.UserConfigs.{IsUserConfig};
ghost use Rattle.command_base.specs.Updates.{meaning_of};
ghost use Rattle.dest_classes.specs.Classes.{class_count};
ghost use Rattle.update_model.specs.Remaining.{remaining_changes};
ghost use Rattle.certificates.specs.Trees.{IsTreeUpdate};
ghost use Rattle.table_difference.specs.SameClasses.{classes_before};
ghost use Rattle.ring_sample.specs.Ring.{ring_network, ring_tables, ring_demands, ring_update as the_ring};

use crate::configuration::configuration_text;
use crate::policy::policy_text;
use crate::size::RingSize;
use crate::topology_text::{BACK_PORT, NEXT_PORT, topology_text};
use command_base::UpdateFiles;
use config_files::{ConfigFault, read_config};
use demands::{DemandFault, Demands, read_demands};
use flow_rules::Config;
use net_base::Memory;
use std::alloc::Global;
use topology::Net;
use topology_files::{NetFault, read_net};

fn read_network(alloc: Global, size: RingSize) -> Result<Net, Memory>
    ensures { IfOk result (λ net. net ≡ ring_network size.switches) }
{
    let text = topology_text(alloc, size)?;
    match read_net(alloc, &text) {
        Ok(net) => Ok(net),
        Err(NetFault::Memory) => Err(Memory),
        Err(_) => unreachable!(),
    }
}

fn read_tables(alloc: Global, net: &Net, size: RingSize, port: u16) -> Result<Config, Memory>
    requires net { net.now ≡ ring_network size.switches }
    requires least { 2 ≤ port }
    requires most { port ≤ 3 }
    ensures tables { IfOk result (λ c. rules_of_all c ≡ ring_tables size.switches port) }
    ensures user { IfOk result (λ c. IsUserConfig net.now (rules_of_all c)) }
{
    let text = configuration_text(alloc, size, port)?;
    match read_config(alloc, net, &text) {
        Ok(config) => Ok(config),
        Err(ConfigFault::Memory) => Err(Memory),
        Err(_) => unreachable!(),
    }
}

fn read_policy(alloc: Global, net: &Net, size: RingSize) -> Result<Demands, Memory>
    requires { net.now ≡ ring_network size.switches }
    ensures { IfOk result (λ d. d ≡ ring_demands size.switches) }
{
    let text = policy_text(alloc, size)?;
    match read_demands(alloc, net, &text) {
        Ok(demands) => Ok(demands),
        Err(DemandFault::Memory) => Err(Memory),
        Err(_) => unreachable!(),
    }
}

/// The update of the ring: its texts are made in memory, and read as those of files are.
pub fn ring_update(alloc: Global, size: RingSize) -> Result<UpdateFiles, Memory>
    ensures meaning { IfOk result (λ u. meaning_of u ≡ the_ring size.switches) }

    // It is an update of destination trees, with six classes for each switch, and 4 * (n - 1) rules of it differ.
    ensures tree { IfOk result (λ u. IsTreeUpdate (record { update = meaning_of u; rounds = [] })) }
    ensures classes { IfOk result
        (λ u. class_count (classes_before u.net (rules_of_all u.old) (rules_of_all u.new) u.demands)
        ≡ 6 * size.switches) }
    ensures differ { IfOk result
        (λ u. length (remaining_changes (rules_of_all u.old) (rules_of_all u.new))
        ≡ 4 * (size.switches - 1)) }
    ensures old_user { IfOk result (λ u. IsUserConfig u.net (rules_of_all u.old)) }
    ensures new_user { IfOk result (λ u. IsUserConfig u.net (rules_of_all u.new)) }
{
    let net = read_network(alloc, size)?;
    let old = read_tables(alloc, &net, size, NEXT_PORT)?;
    let new = read_tables(alloc, &net, size, BACK_PORT)?;
    let demands = read_policy(alloc, &net, size)?;
    net.keeps_rules();
    Ok(UpdateFiles {
        net,
        old,
        new,
        demands,
    })
}
