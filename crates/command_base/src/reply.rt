//! What a command replies, built whole before any of it is written.
ghost use Rattle.std.specs.Prelude.{◌≢◌};
ghost use Rattle.command_base.specs.declared.status.Status.TheVariants as status_is;

use crate::status::Status;

/// A status and the whole text.
#[derive(Drop)]
pub struct Reply {
    pub status: Status,
    pub text: Vec<u8>,
    // A fault of the outside or want of memory is no reply, and wrong words are no command's.
    pub ghost no_read_fault: { status ≢ status_is.ReadFault },
    pub ghost no_write_fault: { status ≢ status_is.WriteFault },
    pub ghost no_memory: { status ≢ status_is.Memory },
    pub ghost no_usage: { status ≢ status_is.Usage },
}
