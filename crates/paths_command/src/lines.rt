//! The lines of a listing.
ghost use Rattle.std.specs.Prelude.{◌≡◌, ◌++◌, codes, map, OnOk};
ghost use Rattle.command_base.specs.Lines.{class_text, switch_name};
ghost use Rattle.net_base.specs.Places.{stop_of};
ghost use Rattle.paths_command.specs.Rows.{row_seen};
ghost use Rattle.paths_command.specs.Lines as lines;

use crate::marks::{Counts, Mark, Row};
use command_base::{class_text, how_text, switch_name};
use net_base::{Memory, Place, Port, SwitchId, Vlan, vlan_text};
use path_walk::PlacesEnd;
use text_lines::{add_made, add_word};
use topology::Net;

/// Adds a port of a switch: `SWITCH:PORT`.
fn add_stop(text: &mut Vec<u8>, net: &Net, switch: SwitchId, port: Port) -> Result<(), Memory>
    ensures { OnOk result (text.new.items ≡ text.old.items
        ++ lines.stop_text net.now (record { switch = switch; port = port })) }
{
    let alloc = *text.allocator();
    let name = switch_name(net, switch);
    let number = port.0;
    add_made(text, format!(in alloc; "{name}:{number}")?.into_bytes())
}

/// Adds the stop of a place after a space.
fn add_place(text: &mut Vec<u8>, net: &Net, place: Place) -> Result<(), Memory>
    ensures { OnOk result (text.new.items ≡ text.old.items
        ++ (codes " " ++ lines.stop_text net.now (stop_of place))) }
{
    text.push(b' ')?;
    add_stop(text, net, place.switch, place.port)
}

/// Adds the stops of places, each after a space.
fn add_places(text: &mut Vec<u8>, net: &Net, places: &[Place]) -> Result<(), Memory>
    ensures { OnOk result (text.new.items ≡ text.old.items
        ++ lines.stops_text net.now (map stop_of places.now)) }
{
    for place in places {
        add_place(text, net, *place)?;
    }
    Ok(())
}

/// Adds that the packets leave: where, and with which VLAN.
fn add_left(
    text: &mut Vec<u8>,
    net: &Net,
    switch: SwitchId,
    port: Port,
    vlan: Vlan,
) -> Result<(), Memory>
    ensures { OnOk result (text.new.items ≡ text.old.items
        ++ lines.end_text net.now (PlacesEnd.Left switch port vlan)) }
{
    let alloc = *text.allocator();
    add_word(text, "left ")?;
    add_stop(text, net, switch, port)?;
    text.push(b' ')?;
    add_made(text, vlan_text(alloc, vlan)?)
}

/// Adds a word and the name of a switch.
fn add_switch(text: &mut Vec<u8>, word: &str, net: &Net, switch: SwitchId) -> Result<(), Memory>
    ensures { OnOk result (text.new.items ≡ text.old.items
        ++ (word.now ++ switch_name net.now switch)) }
{
    add_word(text, word)?;
    add_word(text, switch_name(net, switch))
}

/// Adds how a path ends.
fn add_end(text: &mut Vec<u8>, net: &Net, end: PlacesEnd) -> Result<(), Memory>
    ensures { OnOk result (text.new.items ≡ text.old.items ++ lines.end_text net.now end) }
{
    match end {
        PlacesEnd::Left(switch, port, vlan) => add_left(text, net, switch, port, vlan),
        PlacesEnd::Dropped(switch) => add_switch(text, "dropped ", net, switch),
        PlacesEnd::Again(switch) => add_switch(text, "again ", net, switch),
    }
}

/// Adds a mark.
fn add_mark(text: &mut Vec<u8>, net: &Net, mark: Mark) -> Result<(), Memory>
    ensures { OnOk result (text.new.items ≡ text.old.items ++ lines.mark_text net.now mark) }
{
    let alloc = *text.allocator();
    match mark {
        Mark::Good => add_word(text, "good"),
        Mark::Free => add_word(text, "free"),
        Mark::Breaks(how) => add_made(text, how_text(alloc, net, how)?),
    }
}

/// Adds the class and the stops of its path: `CLASS: SWITCH:PORT ..`.
fn add_path(text: &mut Vec<u8>, net: &Net, row: &Row<'_>) -> Result<(), Memory>
    ensures { OnOk result (text.new.items ≡ text.old.items ++ (class_text net.now row.now.class
        ++ codes ":" ++ lines.stops_text net.now (map stop_of row.now.places.now))) }
{
    let alloc = *text.allocator();
    add_made(text, class_text(alloc, net, row.class)?)?;
    text.push(b':')?;
    add_places(text, net, row.places)
}

/// Adds the line of a class.
pub fn add_row(text: &mut Vec<u8>, net: &Net, row: &Row<'_>) -> Result<(), Memory>
    ensures { OnOk result (text.new.items ≡ text.old.items
        ++ lines.row_line net.now (row_seen row.now)) }
{
    add_path(text, net, row)?;
    text.push(b' ')?;
    add_end(text, net, row.end)?;
    text.push(b' ')?;
    add_mark(text, net, row.mark)?;
    text.push(b'\n')?;
    Ok(())
}

/// Adds the last line: how many classes there are, and how many lines have each kind of mark.
pub fn add_counts(text: &mut Vec<u8>, classes: u32, counts: Counts) -> Result<(), Memory>
    ensures { OnOk result (text.new.items ≡ text.old.items ++ lines.counts_text classes counts) }
{
    let alloc = *text.allocator();
    let Counts { good, free, breaks } = counts;
    let line = format!(in alloc; "{classes} classes: {good} good, {free} free, {breaks} break\n")?;
    add_made(text, line.into_bytes())
}
