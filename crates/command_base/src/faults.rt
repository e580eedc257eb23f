//! What is printed of a file's fault.
ghost use Rattle.std.specs.Prelude.{◌≡◌};
ghost use Rattle.command_base.specs.Lines.{net_words, config_words, demand_words, plan_words};
ghost use Rattle.command_base.specs.Replies.{words_of};

use config_files::ConfigFault;
use demands::DemandFault;
use net_base::Field;
use plan_format::PlanFault;
use topology_files::NetFault;

/// Why a file isn't read, as it is printed: a number and a name, the member that it names if it names one, and the
/// number of the item or line where it stands.
#[derive(Clone, Copy)]
pub struct Fault {
    pub number: u32,
    pub name: &'static str,
    pub field: Option<Field>,
    pub place: u32,
}

/// Of a topology.
pub fn net_fault(fault: NetFault) -> Fault
    ensures { words_of result ≡ net_words fault }
{
    Fault {
        number: fault.number(),
        name: fault.name(),
        field: fault.field(),
        place: fault.place(),
    }
}

/// Of a configuration.
pub fn config_fault(fault: ConfigFault) -> Fault
    ensures { words_of result ≡ config_words fault }
{
    Fault {
        number: fault.number(),
        name: fault.name(),
        field: fault.field(),
        place: fault.place(),
    }
}

/// Of a policy.
pub fn demand_fault(fault: DemandFault) -> Fault
    ensures { words_of result ≡ demand_words fault }
{
    Fault {
        number: fault.number(),
        name: fault.name(),
        field: fault.field(),
        place: fault.place(),
    }
}

/// Of a plan.
pub fn plan_fault(fault: PlanFault) -> Fault
    ensures { words_of result ≡ plan_words fault }
{
    Fault {
        number: fault.number(),
        name: fault.name(),
        field: fault.field(),
        place: fault.place(),
    }
}
