//! The classes that prefixes tell apart, with their duties.
ghost use Rattle.std.specs.Prelude.{IfOk, IfErr};
ghost use Rattle.dest_classes.specs.Classes.{classes_of};
ghost use Rattle.dest_classes.specs.Numbered.{IsCauseOf};
ghost use Rattle.demands.specs.OfClass.{AreCovered};
ghost use Rattle.config_check.specs.Classed.{AreClassed};

use demands::{Demands, Duties};
use dest_classes::{ClassFault, ClassMap, class_map};
use net_base::Prefix;
use std::alloc::Global;
use topology::Net;

/// The classes of a network for a list of prefixes, at most 8192, and what demands ask of each.
#[derive(Drop)]
pub struct Classed {
    pub map: ClassMap,
    pub duties: Duties,
}

impl Classed {
    /// The classes of a network that these prefixes tell apart, with their duties. The prefix of each demand is among them. It
    /// takes time n log n in the number of prefixes, and memory and time in the product of classes and demands.
    ///
    /// # Errors
    ///
    /// `TooManyClasses` with the number of classes where that exceeds 8192; `Memory`.
    pub fn make(
        alloc: Global,
        net: &Net,
        demands: &Demands,
        prefixes: &[Prefix],
    ) -> Result<Classed, ClassFault>
        requires { AreCovered demands.now (classes_of net.now prefixes.now) }
        ensures ok { IfOk result (AreClassed (classes_of net.now prefixes.now) demands.now) }
        ensures err { IfErr result (IsCauseOf (classes_of net.now prefixes.now)) }
    {
        let map = class_map(alloc, net, prefixes)?;
        let duties = Duties::make(alloc, net, demands, &map)?;
        Ok(Classed { map, duties })
    }
}
