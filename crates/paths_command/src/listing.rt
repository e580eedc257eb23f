//! The listing: a line for each class, and the counts.
ghost use Rattle.std.specs.Prelude.{◌≡◌, ◌+◌, ◌≤◌, IfOk, OnOk};
ghost use Rattle.flow_rules.specs.Tables.{rules_of_all};
ghost use Rattle.dest_classes.specs.Numbered.{IsNumbered};
ghost use Rattle.path_walk.specs.UserConfigs.{IsUserConfig};
ghost use Rattle.config_check.specs.Classed.{AreClassed};
ghost use Rattle.command_base.specs.Judgements.{most_classes};
ghost use Rattle.command_base.specs.Replies.{answer_of};
ghost use Rattle.config_command.specs.Configs.{config_count};
ghost use Rattle.config_command.specs.Verdicts.{classes_under};
ghost use Rattle.paths_command.specs.Listed.{IsJudgeable, AreRooms, IsListing, IsPathsAnswer, listed_status, meaning_of};
ghost use Rattle.paths_command.specs.Rows.{IsMark};

use crate::lines::{add_counts, add_row};
use crate::marks::{Counts, Mark, Row};
use command_base::{Reply, Status, no_classes_reply};
use config_check::{Classed, MetPath, how_broken};
use config_command::prefixes_of;
use demands::{Demands, Duties};
use dest_classes::{ClassMap, NumberedClass};
use flow_rules::Config;
use net_base::Memory;
use path_walk::{PathRoom, follow};
use std::alloc::Global;
use topology::Net;

/// What is judged: a configuration of a network, under demands, and the duties of its classes.
#[derive(Clone, Copy)]
pub struct JudgedConfig<'a> {
    pub net: &'a Net,
    pub config: &'a Config,
    pub demands: &'a Demands,
    pub duties: &'a Duties,
}

/// What the walks of all classes share.
#[derive(Drop)]
pub struct Rooms {
    pub path: PathRoom,
    pub met: MetPath,
}

/// How the class is marked.
fn mark_of(judged: &JudgedConfig<'_>, numbered: NumberedClass, rooms: &mut Rooms) -> Mark
    requires ready { IsJudgeable judged.now }
    requires class { IsNumbered judged.now.duties.now.classes numbered }
    requires rooms { AreRooms judged.now.net.now judged.now.duties.now rooms.old }
    ensures mark { IsMark judged.now.net.now (rules_of_all judged.now.config.now)
        judged.now.demands.now numbered.class result }
    ensures rooms { AreRooms judged.now.net.now judged.now.duties.now rooms.new }
{
    judged.net.keeps_rules();
    let JudgedConfig {
        net,
        config,
        demands,
        duties,
    } = *judged;
    match how_broken(
        net,
        config,
        duties,
        numbered,
        &mut rooms.path,
        &mut rooms.met,
    ) {
        Some(how) => Mark::Breaks(how),
        None => {
            if demands.cover(numbered.class) {
                Mark::Good
            } else {
                Mark::Free
            }
        }
    }
}

/// Adds the line of a class, and counts its mark.
fn list_class(
    judged: &JudgedConfig<'_>,
    numbered: NumberedClass,
    rooms: &mut Rooms,
    text: &mut Vec<u8>,
    counts: &mut Counts,
) -> Result<(), Memory>
    requires ready { IsJudgeable judged.now }
    requires few { config_count (meaning_of judged.now) ≤ most_classes }
    requires class { IsNumbered judged.now.duties.now.classes numbered }
    requires rooms { AreRooms judged.now.net.now judged.now.duties.now rooms.old }
    requires listing { IsListing (meaning_of judged.now) numbered.number text.old.items counts.old }
    ensures rooms { OnOk result (AreRooms judged.now.net.now judged.now.duties.now rooms.new) }
    ensures listing { OnOk result (IsListing (meaning_of judged.now) (numbered.number + 1)
        text.new.items counts.new) }
{
    judged.net.keeps_rules();
    let class = numbered.class;
    let mark = mark_of(judged, numbered, rooms);
    let end = follow(
        judged.net,
        judged.config,
        class.entry,
        class.first,
        &mut rooms.path,
    );
    let row = Row {
        class,
        places: rooms.path.places(),
        end,
        mark,
    };
    add_row(text, judged.net, &row)?;
    counts.add(mark);
    Ok(())
}

/// Adds the lines of all classes.
fn list_classes(
    judged: &JudgedConfig<'_>,
    classes: &ClassMap,
    rooms: &mut Rooms,
    text: &mut Vec<u8>,
    counts: &mut Counts,
) -> Result<(), Memory>
    requires ready { IsJudgeable judged.now }
    requires few { config_count (meaning_of judged.now) ≤ most_classes }
    requires classes { classes.now ≡ judged.now.duties.now.classes }
    requires rooms { AreRooms judged.now.net.now judged.now.duties.now rooms.old }
    requires listing { IsListing (meaning_of judged.now) 0 text.old.items counts.old }
    ensures { OnOk result (IsListing (meaning_of judged.now) (config_count (meaning_of judged.now))
        text.new.items counts.new) }
{
    for number in 0..classes.count() {
        let class = classes.class(number);
        let numbered = NumberedClass { number, class };
        list_class(judged, numbered, rooms, text, counts)?;
    }
    Ok(())
}

/// The status of a listing in which so many classes break.
fn status_of(breaks: u32) -> Status
    ensures { result ≡ listed_status breaks }
{
    if breaks == 0 {
        Status::Done
    } else {
        Status::Refused
    }
}

/// The listing of few enough classes, with rooms for their paths.
fn list_in(
    alloc: Global,
    judged: &JudgedConfig<'_>,
    classes: &ClassMap,
    rooms: &mut Rooms,
) -> Result<Reply, Memory>
    requires ready { IsJudgeable judged.now }
    requires few { config_count (meaning_of judged.now) ≤ most_classes }
    requires classes { classes.now ≡ judged.now.duties.now.classes }
    requires rooms { AreRooms judged.now.net.now judged.now.duties.now rooms.old }
    ensures { IfOk result (λ r. IsPathsAnswer (meaning_of judged.now) (answer_of r)) }
{
    let mut text = Vec::new(alloc);
    let mut counts = Counts::none();
    list_classes(judged, classes, rooms, &mut text, &mut counts)?;
    add_counts(&mut text, classes.count(), counts)?;
    Ok(Reply {
        status: status_of(counts.breaks),
        text,
    })
}

/// The listing of few enough classes.
fn list_judged(
    alloc: Global,
    judged: &JudgedConfig<'_>,
    classes: &ClassMap,
) -> Result<Reply, Memory>
    requires ready { IsJudgeable judged.now }
    requires few { config_count (meaning_of judged.now) ≤ most_classes }
    requires classes { classes.now ≡ judged.now.duties.now.classes }
    ensures { IfOk result (λ r. IsPathsAnswer (meaning_of judged.now) (answer_of r)) }
{
    let mut rooms = Rooms {
        path: PathRoom::make(alloc, judged.net)?,
        met: MetPath::none(),
    };
    let reply = list_in(alloc, judged, classes, &mut rooms);
    drop(rooms);
    reply
}

/// The listing of few enough classes, with their duties.
fn list_all(
    alloc: Global,
    net: &Net,
    config: &Config,
    demands: &Demands,
    classed: &Classed,
) -> Result<Reply, Memory>
    requires user { IsUserConfig net.now (rules_of_all config.now) }
    requires classed { AreClassed (classes_under net.now (rules_of_all config.now) demands.now)
        demands.now classed.now }
    ensures { IfOk result (λ r. IsPathsAnswer (record {
      net = net.now;
      tables = rules_of_all config.now;
      demands = demands.now;
    }) (answer_of r)) }
{
    let judged = JudgedConfig {
        net,
        config,
        demands,
        duties: &classed.duties,
    };
    list_judged(alloc, &judged, &classed.map)
}

/// The listing of the classes of a configuration of the network under the demands: a line for each class and the counts. Done
/// where each class has a good path, otherwise Refused; a bad file where there are more than 8192 classes. Takes time as the
/// check of the configuration, and by the length of the text; the demands are gone through once for each class.
pub fn listing_of(
    alloc: Global,
    net: &Net,
    config: &Config,
    demands: &Demands,
) -> Result<Reply, Memory>
    requires { IsUserConfig net.now (rules_of_all config.now) }
    ensures { IfOk result (λ r. IsPathsAnswer (record {
      net = net.now;
      tables = rules_of_all config.now;
      demands = demands.now;
    }) (answer_of r)) }
{
    let prefixes = prefixes_of(config, demands)?;
    match Classed::make(alloc, net, demands, &prefixes) {
        Ok(classed) => {
            let reply = list_all(alloc, net, config, demands, &classed);
            drop(classed);
            reply
        }
        Err(fault) => no_classes_reply(alloc, fault),
    }
}
