//! The lines on an update for which there is no plan.
ghost use Rattle.std.specs.Prelude.{◌≡◌, IfOk};
ghost use Rattle.plan_command.specs.NoPlanLines as lines;

use command_base::switch_name;
use net_base::{Memory, SwitchId};
use plan_text::rounds_text;
use std::alloc::Global;
use topology::Net;
use update_model::Rounds;

/// The line of the rounds that were tried.
pub fn tried_line(alloc: Global, net: &Net, tried: &Rounds) -> Result<Vec<u8>, Memory>
    ensures { IfOk result (λ t. t.items ≡ lines.tried_line net.now tried.now) }
{
    let mut text = b"tried: ".to_vec(alloc)?;
    text.extend_from_slice(&rounds_text(alloc, net, tried)?)?;
    text.push(b'\n')?;
    Ok(text)
}

/// The lines on more declared VLANs than available tags.
pub fn too_few_lines(
    alloc: Global,
    net: &Net,
    need: u32,
    has: u32,
    tried: &Rounds,
) -> Result<Vec<u8>, Memory>
    ensures { IfOk result (λ t. t.items ≡ lines.too_few_lines net.now need has tried.now) }
{
    let mut text = format!(in alloc; "too few tags: need {need}, has {has}\n")?.into_bytes();
    text.extend_from_slice(&tried_line(alloc, net, tried)?)?;
    Ok(text)
}

/// The lines on a switch at which two phases need more entries than it has room for.
pub fn too_small_lines(
    alloc: Global,
    net: &Net,
    switch: SwitchId,
    need: u64,
    capacity: u32,
    tried: &Rounds,
) -> Result<Vec<u8>, Memory>
    ensures { IfOk result
        (λ t. t.items ≡ lines.too_small_lines net.now switch need capacity tried.now) }
{
    let name = switch_name(net, switch);
    let mut text = format!(in alloc;
        "too small: switch {name} need {need} capacity {capacity}\n"
    )?.into_bytes();
    text.extend_from_slice(&tried_line(alloc, net, tried)?)?;
    Ok(text)
}
