//! What the files mean: each is fetched and then read.
ghost use Rattle.std.specs.Prelude.{◌≡◌, ◌≤◌, IfOk, IfErr, OnOk, Ok, Some, Option, option_map};
ghost use Rattle.topology_files.specs.Topology.{network_in};
ghost use Rattle.flow_rules.specs.Tables.{rules_of_all};
ghost use Rattle.path_walk.specs.UserConfigs.{IsUserConfig};
ghost use Rattle.config_files.specs.Configuration.{configuration_in};
ghost use Rattle.demands.specs.Policy.{demands_in};
ghost use Rattle.certificates.specs.Valid.{IsValidPlan};
ghost use Rattle.plan_format.specs.Plans.{plan_in};
ghost use Rattle.command_base.specs.Lines.{net_words, config_words, demand_words, plan_words};
ghost use Rattle.command_base.specs.Answers.{bad_answer};
ghost use Rattle.command_base.specs.Dialogues.{FileRead, file_read, Gives, IsWhole};
ghost use Rattle.command_base.specs.Readings.{reading_topology, reading_config, reading_policy, reading_plan, after_policy};
ghost use Rattle.command_base.specs.Replies.{answer_of, words_of, IsBad, EndsEarly};

use crate::exit::Exit;
use crate::faults::{Fault, config_fault, demand_fault, net_fault, plan_fault};
use crate::files::fetch_file;
use crate::kinds::FileKind;
use crate::lines::bad_line;
use crate::reply::Reply;
use crate::status::Status;
use certificates::Plan;
use config_files::{ConfigFault, read_config};
use demands::{DemandFault, Demands, no_demands, read_demands};
use file_access::Source;
use flow_rules::Config;
use net_base::Memory;
use plan_format::{PlanFault, read_plan};
use std::alloc::Global;
use topology::Net;
use topology_files::{NetFault, read_net};

/// The reply on a file of the kind that isn't read.
pub fn bad_reply(alloc: Global, kind: FileKind, fault: Fault) -> Result<Reply, Memory>
    ensures { IfOk result (λ r. answer_of r ≡ bad_answer kind (words_of fault)) }
{
    Ok(Reply {
        status: Status::BadFile,
        text: bad_line(alloc, kind, fault)?,
    })
}

/// The network that the bytes mean.
fn network_of(alloc: Global, bytes: &[u8]) -> Result<Net, Exit>
    ensures ok { IfOk result (λ net. network_in bytes.now ≡ Ok net) }
    ensures bad { IfErr result (λ e. IsBad FileKind.Topology net_words (network_in bytes.now) e) }
{
    match read_net(alloc, bytes) {
        Ok(net) => Ok(net),
        Err(NetFault::Memory) => Err(Exit::Memory),
        Err(fault) => Err(Exit::Says(bad_reply(alloc, FileKind::Topology, net_fault(fault))?)),
    }
}

/// The configuration that the bytes mean.
fn configuration_of(alloc: Global, kind: FileKind, net: &Net, bytes: &[u8]) -> Result<Config, Exit>
    ensures ok { IfOk result (λ c. configuration_in net.now bytes.now ≡ Ok (rules_of_all c)) }
    ensures user { IfOk result (λ c. IsUserConfig net.now (rules_of_all c)) }
    ensures bad { IfErr result
        (λ e. IsBad kind config_words (configuration_in net.now bytes.now) e) }
{
    match read_config(alloc, net, bytes) {
        Ok(config) => Ok(config),
        Err(ConfigFault::Memory) => Err(Exit::Memory),
        Err(fault) => Err(Exit::Says(bad_reply(alloc, kind, config_fault(fault))?)),
    }
}

/// The policy that the bytes mean.
fn demands_of(alloc: Global, net: &Net, bytes: &[u8]) -> Result<Demands, Exit>
    ensures ok { IfOk result (λ d. demands_in net.now bytes.now ≡ Ok d) }
    ensures bad { IfErr result
        (λ e. IsBad FileKind.Policy demand_words (demands_in net.now bytes.now) e) }
{
    match read_demands(alloc, net, bytes) {
        Ok(demands) => Ok(demands),
        Err(DemandFault::Memory) => Err(Exit::Memory),
        Err(fault) => Err(Exit::Says(bad_reply(alloc, FileKind::Policy, demand_fault(fault))?)),
    }
}

/// The plan that the bytes mean.
fn plan_of(alloc: Global, net: &Net, bytes: &[u8]) -> Result<Plan, Exit>
    ensures ok { IfOk result (λ p. plan_in net.now bytes.now ≡ Ok p) }
    ensures valid { IfOk result (IsValidPlan net.now) }
    ensures bad { IfErr result (λ e. IsBad FileKind.Plan plan_words (plan_in net.now bytes.now) e) }
{
    match read_plan(alloc, net, bytes) {
        Ok(plan) => Ok(plan),
        Err(PlanFault::Memory) => Err(Exit::Memory),
        Err(fault) => Err(Exit::Says(bad_reply(alloc, FileKind::Plan, plan_fault(fault))?)),
    }
}

/// Fetches and reads a topology.
///
/// # Errors
///
/// A file that can't be read, that is too long or whose bytes mean no topology, with its line; or want of memory.
pub fn read_topology<S: Source>(alloc: Global, source: &mut S, name: &str) -> Result<Net, Exit>
    ensures gives { IfOk result (λ v. (last : Option FileRead)
        → Gives (S.held source.old) last (reading_topology name.now) v
        (Some (file_read FileKind.Topology name.now))) }
    ensures whole { OnOk result
        (IsWhole (Some (file_read FileKind.Topology name.now)) (S.selected source.new)
        (S.taken source.new)) }
    ensures stops { IfErr result (λ e. (last : Option FileRead)
        → EndsEarly (S.held source.old) last (reading_topology name.now) (S.faults source.old)
        (S.faults source.new) e (S.selected source.new) (S.taken source.new)) }
    ensures held { S.held source.new ≡ S.held source.old }
    ensures later { S.faults source.old ≤ S.faults source.new }
{
    let bytes = fetch_file(alloc, source, FileKind::Topology, name)?;
    network_of(alloc, &bytes)
}

/// Fetches and reads a configuration of the network. The kind, the old or the new one, is what a bad line names.
///
/// # Errors
///
/// A file that can't be read, that is too long or whose bytes mean no configuration, with its line; or want of memory.
pub fn read_configuration<S: Source>(
    alloc: Global,
    source: &mut S,
    kind: FileKind,
    net: &Net,
    name: &str,
) -> Result<Config, Exit>
    ensures gives { IfOk result (λ v. (last : Option FileRead)
        → Gives (S.held source.old) last (reading_config kind net.now name.now) (rules_of_all v)
        (Some (file_read kind name.now))) }
    ensures user { IfOk result (λ v. IsUserConfig net.now (rules_of_all v)) }
    ensures whole { OnOk result
        (IsWhole (Some (file_read kind name.now)) (S.selected source.new) (S.taken source.new)) }
    ensures stops { IfErr result (λ e. (last : Option FileRead)
        → EndsEarly (S.held source.old) last (reading_config kind net.now name.now)
        (S.faults source.old) (S.faults source.new) e (S.selected source.new)
        (S.taken source.new)) }
    ensures held { S.held source.new ≡ S.held source.old }
    ensures later { S.faults source.old ≤ S.faults source.new }
{
    let bytes = fetch_file(alloc, source, kind, name)?;
    configuration_of(alloc, kind, net, &bytes)
}

/// Fetches and reads a policy of the network, if one is named; otherwise nothing is demanded.
///
/// # Errors
///
/// A file that can't be read, that is too long or whose bytes mean no policy, with its line; or want of memory.
pub fn read_policy<S: Source>(
    alloc: Global,
    source: &mut S,
    net: &Net,
    name: Option<&str>,
) -> Result<Demands, Exit>
    ensures gives { let file = option_map (λ n. n.now) name.entry in
        IfOk result
        (λ v. (last : Option FileRead)
        → Gives (S.held source.old) last (reading_policy net.now file) v
        (after_policy file last)) }
    ensures whole { (last : Option FileRead)
        → IsWhole last (S.selected source.old) (S.taken source.old)
        → OnOk result
        (IsWhole (after_policy (option_map (λ n. n.now) name.entry) last) (S.selected source.new)
        (S.taken source.new)) }
    ensures stops { IfErr result (λ e. (last : Option FileRead)
        → EndsEarly (S.held source.old) last
        (reading_policy net.now (option_map (λ n. n.now) name.entry)) (S.faults source.old)
        (S.faults source.new) e (S.selected source.new) (S.taken source.new)) }
    ensures held { S.held source.new ≡ S.held source.old }
    ensures later { S.faults source.old ≤ S.faults source.new }
{
    match name {
        None => Ok(no_demands(alloc)?),
        Some(name) => {
            let bytes = fetch_file(alloc, source, FileKind::Policy, name)?;
            demands_of(alloc, net, &bytes)
        }
    }
}

/// Fetches and reads a plan of the network. It is a valid plan.
///
/// # Errors
///
/// A file that can't be read, that is too long or whose bytes mean no plan, with its line; or want of memory.
pub fn read_plan_file<S: Source>(
    alloc: Global,
    source: &mut S,
    net: &Net,
    name: &str,
) -> Result<Plan, Exit>
    ensures gives { IfOk result (λ v. (last : Option FileRead)
        → Gives (S.held source.old) last (reading_plan net.now name.now) v
        (Some (file_read FileKind.Plan name.now))) }
    ensures valid { IfOk result (IsValidPlan net.now) }
    ensures whole { OnOk result
        (IsWhole (Some (file_read FileKind.Plan name.now)) (S.selected source.new)
        (S.taken source.new)) }
    ensures stops { IfErr result (λ e. (last : Option FileRead)
        → EndsEarly (S.held source.old) last (reading_plan net.now name.now) (S.faults source.old)
        (S.faults source.new) e (S.selected source.new) (S.taken source.new)) }
    ensures held { S.held source.new ≡ S.held source.old }
    ensures later { S.faults source.old ≤ S.faults source.new }
{
    let bytes = fetch_file(alloc, source, FileKind::Plan, name)?;
    plan_of(alloc, net, &bytes)
}
