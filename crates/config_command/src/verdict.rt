//! The verdict on a configuration: too many classes, good paths, or the first class whose path isn't good.
ghost use Rattle.std.specs.Prelude.{◌≡◌, ◌++◌, map, IfOk};
ghost use Rattle.flow_rules.specs.Tables.{rules_of_all, table_blocks};
ghost use Rattle.path_walk.specs.UserConfigs.{IsUserConfig};
ghost use Rattle.config_check.specs.Classed.{AreClassed};
ghost use Rattle.command_base.specs.Replies.{answer_of};
ghost use Rattle.config_command.specs.Lines as lines;
ghost use Rattle.config_command.specs.Verdicts.{IsVerdict, classes_under};

use crate::lines::{breaks_line, holds_line};
use command_base::{Reply, Status, no_classes_reply};
use config_check::laws::classes_speak_for_addresses;
use config_check::{Classed, How, check_config};
use demands::Demands;
use dest_classes::Class;
use flow_rules::Config;
use net_base::{Memory, Prefix};
use path_walk::PathRoom;
use std::alloc::Global;
use topology::Net;

/// The prefixes of the configuration, and then of the demands: those of its classes under them.
pub fn prefixes_of(config: &Config, demands: &Demands) -> Result<Vec<Prefix>, Memory>
    ensures { IfOk result
        (λ v. v.items ≡ table_blocks (rules_of_all config.now) ++ map (λ d. d.dst) demands.now) }
{
    let mut prefixes = config.prefixes()?;
    prefixes.extend_from_slice(&demands.prefixes()?)?;
    Ok(prefixes)
}

fn holds_reply(alloc: Global, classes: u32) -> Result<Reply, Memory>
    ensures { IfOk result
        (λ r. answer_of r ≡ record { status = Status.Done; text = lines.holds_line classes }) }
{
    Ok(Reply {
        status: Status::Done,
        text: holds_line(alloc, classes)?,
    })
}

fn breaks_reply(alloc: Global, net: &Net, class: Class, how: How) -> Result<Reply, Memory>
    ensures { IfOk result
        (λ r. answer_of r
        ≡ record { status = Status.Refused; text = lines.breaks_line net.now class how }) }
{
    Ok(Reply {
        status: Status::Refused,
        text: breaks_line(alloc, net, class, how)?,
    })
}

/// The verdict on few enough classes.
fn judge(
    alloc: Global,
    net: &Net,
    config: &Config,
    demands: &Demands,
    classed: &Classed,
) -> Result<Reply, Memory>
    requires user { IsUserConfig net.now (rules_of_all config.now) }
    requires classed { AreClassed (classes_under net.now (rules_of_all config.now) demands.now)
        demands.now classed.now }
    ensures { IfOk result
        (λ r. IsVerdict net.now (rules_of_all config.now) demands.now (answer_of r)) }
{
    let classes = &classed.map;
    let mut room = PathRoom::make(alloc, net)?;
    match check_config(net, config, &classed.duties, classes, &mut room) {
        Ok(()) => {
            classes_speak_for_addresses(net, config, demands, classes);
            holds_reply(alloc, classes.count())
        }
        Err(breaks) => breaks_reply(alloc, net, classes.class(breaks.class), breaks.how),
    }
}

/// The verdict on a configuration of the network under the demands.
pub fn verdict(
    alloc: Global,
    net: &Net,
    config: &Config,
    demands: &Demands,
) -> Result<Reply, Memory>
    requires { IsUserConfig net.now (rules_of_all config.now) }
    ensures { IfOk result
        (λ r. IsVerdict net.now (rules_of_all config.now) demands.now (answer_of r)) }
{
    let prefixes = prefixes_of(config, demands)?;
    match Classed::make(alloc, net, demands, &prefixes) {
        Ok(classed) => {
            let reply = judge(alloc, net, config, demands, &classed);
            drop(classed);
            reply
        }
        Err(fault) => no_classes_reply(alloc, fault),
    }
}
