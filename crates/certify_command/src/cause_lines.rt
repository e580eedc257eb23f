//! The lines on rounds that no evidence certifies.
ghost use Rattle.std.specs.Prelude.{◌≡◌, ◌<◌, IfOk, IfSome};
ghost use Rattle.dest_classes.specs.Classes.{class_count};
ghost use Rattle.check_base.specs.Checks.{IsNamed};
ghost use Rattle.check_base.specs.ReasonLines.{at_class};
ghost use Rattle.certify_command.specs.Lines as lines;

use check_base::{class_named, refused_line};
use command_base::class_text;
use dest_classes::{Class, ClassMap};
use net_base::Memory;
use round_certifier::Refusal;
use std::alloc::Global;
use topology::Net;

/// The number of the class that a cause names, if it names one.
fn class_of_cause(cause: Refusal) -> Option<u32>
    ensures { result ≡ lines.class_of_cause cause }
{
    match cause {
        Refusal::Checked(reason) => class_named(reason),
        Refusal::TwoPhasePlan => None,
        Refusal::NoEvidence { class, .. } => Some(class),
    }
}

/// The class that a cause names, if it names one.
pub(crate) fn named_class(classes: &ClassMap, cause: Refusal) -> Option<Class>
    requires { IfSome (lines.class_of_cause cause) (λ n. n < class_count classes.now) }
    ensures { IsNamed classes.now (lines.class_of_cause cause) result }
{
    match class_of_cause(cause) {
        Some(number) => Some(classes.class(number)),
        None => None,
    }
}

/// The class, behind its word, if there is one.
fn at_class(alloc: Global, net: &Net, class: Option<Class>) -> Result<Vec<u8>, Memory>
    ensures { IfOk result (λ t. t.items ≡ at_class net.now class) }
{
    match class {
        Some(class) => {
            let mut text = b" at ".to_vec(alloc)?;
            text.extend_from_slice(&class_text(alloc, net, class)?)?;
            Ok(text)
        }
        None => Ok(Vec::new(alloc)),
    }
}

/// The line on a class that no evidence keeps safe in a round.
fn no_evidence_line(
    alloc: Global,
    net: &Net,
    round: u32,
    class: Option<Class>,
) -> Result<Vec<u8>, Memory>
    ensures { IfOk result (λ t. t.items ≡ lines.no_evidence_line net.now round class) }
{
    let mut text = format!(in alloc; "no evidence: round {round}")?.into_bytes();
    text.extend_from_slice(&at_class(alloc, net, class)?)?;
    text.push(b'\n')?;
    Ok(text)
}

/// The line on rounds that no evidence certifies for a cause.
pub(crate) fn uncertified_line(
    alloc: Global,
    net: &Net,
    class: Option<Class>,
    cause: Refusal,
) -> Result<Vec<u8>, Memory>
    ensures { IfOk result (λ t. t.items ≡ lines.uncertified_line net.now class cause) }
{
    match cause {
        Refusal::Checked(reason) => refused_line(alloc, net, class, reason),
        Refusal::TwoPhasePlan => Ok(b"no evidence: two-phase plan\n".to_vec(alloc)?),
        Refusal::NoEvidence { round, .. } => no_evidence_line(alloc, net, round, class),
    }
}
