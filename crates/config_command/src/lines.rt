//! The lines of `config`.
ghost use Rattle.std.specs.Prelude.{◌≡◌, IfOk};
ghost use Rattle.config_command.specs.Lines as lines;

use command_base::{class_text, how_text};
use config_check::How;
use dest_classes::Class;
use net_base::Memory;
use std::alloc::Global;
use topology::Net;

/// The line on a configuration whose paths are all good.
pub fn holds_line(alloc: Global, classes: u32) -> Result<Vec<u8>, Memory>
    ensures { IfOk result (λ t. t.items ≡ lines.holds_line classes) }
{
    Ok(format!(in alloc; "holds: {classes} classes\n")?.into_bytes())
}

/// The line on a class whose path isn't good.
pub fn breaks_line(alloc: Global, net: &Net, class: Class, how: How) -> Result<Vec<u8>, Memory>
    ensures { IfOk result (λ t. t.items ≡ lines.breaks_line net.now class how) }
{
    let mut text = b"breaks: at ".to_vec(alloc)?;
    text.extend_from_slice(&class_text(alloc, net, class)?)?;
    text.push(b' ')?;
    text.extend_from_slice(&how_text(alloc, net, how)?)?;
    text.push(b'\n')?;
    Ok(text)
}
