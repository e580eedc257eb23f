//! The reply on a plan that is refused.
ghost use Rattle.std.specs.Prelude.{◌≡◌, ◌<◌, IfOk, IfSome};
ghost use Rattle.dest_classes.specs.Classes.{class_count};
ghost use Rattle.command_base.specs.Replies.{answer_of};
ghost use Rattle.check_base.specs.Checks.{IsNamed};
ghost use Rattle.check_base.specs.ReasonLines as lines;

use crate::reason_lines::{class_named, refused_line};
use check_reasons::Reason;
use command_base::{Reply, Status};
use dest_classes::{Class, ClassMap};
use net_base::Memory;
use std::alloc::Global;
use topology::Net;

/// The reply on a plan that is refused for this reason; it names this class, if it names one.
pub fn refused_reply(
    alloc: Global,
    net: &Net,
    class: Option<Class>,
    reason: Reason,
) -> Result<Reply, Memory>
    ensures { IfOk result
        (λ r. answer_of r
        ≡ record { status = Status.Refused; text = lines.refused_line net.now class reason }) }
{
    Ok(Reply {
        status: Status::Refused,
        text: refused_line(alloc, net, class, reason)?,
    })
}

/// The class that a reason names, if it names one.
pub fn class_of(classes: &ClassMap, reason: Reason) -> Option<Class>
    requires { IfSome (lines.class_named reason) (λ n. n < class_count classes.now) }
    ensures { IsNamed classes.now (lines.class_named reason) result }
{
    match class_named(reason) {
        Some(number) => Some(classes.class(number)),
        None => None,
    }
}
