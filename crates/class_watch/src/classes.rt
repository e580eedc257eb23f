//! The classes of a map, as a list.
ghost use Rattle.std.specs.Prelude.{IfOk};
ghost use Rattle.class_watch.specs.Classes.{AreClasses};

use dest_classes::{Class, ClassMap};
use net_base::Memory;
use std::alloc::Global;

/// The classes of a map, in the order of their numbers: what is asked of each again and again needn't be made anew.
pub fn all_classes(alloc: Global, classes: &ClassMap) -> Result<Vec<Class>, Memory>
    ensures { IfOk result (λ list. AreClasses classes.now list.items) }
{
    let mut list = Vec::new(alloc);
    for number in 0..classes.count() {
        list.push(classes.class(number))?;
    }
    Ok(list)
}
