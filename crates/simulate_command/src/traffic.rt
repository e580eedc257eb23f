//! The packets of a simulation.
ghost use Rattle.std.specs.Prelude.{◌<◌, IfOk};
ghost use Rattle.dest_classes.specs.Classes.{class_count};
ghost use Rattle.simulate_command.specs.Simulations.{IsEntryFor, IsTraffic};

use dest_classes::ClassMap;
use net_base::Memory;
use schedule_pilot::Entry;
use std::alloc::Global;

/// A packet of the class with this number, to the first address of its atom.
fn entry_for(classes: &ClassMap, number: u32) -> Entry
    requires { number < class_count classes.now }
    ensures { IsEntryFor classes.now number result }
{
    let class = classes.class(number);
    Entry {
        place: class.entry,
        dst: class.first,
    }
}

/// So many packets of the classes in turn, from class 0 on; none where there is no class.
pub fn entries_of(alloc: Global, classes: &ClassMap, count: u64) -> Result<Vec<Entry>, Memory>
    ensures { IfOk result (λ v. IsTraffic classes.now count v.items) }
{
    let mut entries = Vec::new(alloc);
    let class_count = classes.count();
    if class_count == 0 {
        return Ok(entries);
    }
    for i in 0..count {
        let number = (i % u64::from(class_count)) as u32;
        entries.push(entry_for(classes, number))?;
    }
    Ok(entries)
}
