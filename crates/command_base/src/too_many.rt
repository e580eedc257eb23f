//! The reply on too many classes.
ghost use Rattle.std.specs.Prelude.{IfOk};
ghost use Rattle.dest_classes.specs.Classes.{ClassList, class_count};
ghost use Rattle.dest_classes.specs.Numbered.{IsCauseOf};
ghost use Rattle.command_base.specs.Judgements.{SaysTooMany};
ghost use Rattle.command_base.specs.Replies.{answer_of};

use crate::lines::classes_line;
use crate::reply::Reply;
use crate::status::Status;
use dest_classes::ClassFault;
use net_base::Memory;
use std::alloc::Global;

/// The reply where there are no classes to judge: on more of them than are allowed.
///
/// # Errors
///
/// `Memory`, also where that is why there are none.
pub fn no_classes_reply(alloc: Global, fault: ClassFault) -> Result<Reply, Memory>
    ensures { IfOk result (λ r. (classes : ClassList) → IsCauseOf classes fault
        → SaysTooMany (class_count classes) (answer_of r)) }
{
    match fault {
        ClassFault::TooManyClasses(classes) => Ok(Reply {
            status: Status::BadFile,
            text: classes_line(alloc, classes)?,
        }),
        ClassFault::Memory => Err(Memory),
    }
}
