//! A source in memory that holds the files of a command.
ghost use Rattle.std.specs.Prelude.{◌≡◌, ◌≤◌, ◌∷◌, [], None, OnOk, IfOk, codes};
ghost use Rattle.file_access.specs.Shelf.{file_of, with_file};

use command_base::{PlanNames, UpdateNames};
use file_access::MemorySource;
use net_base::Memory;
use std::alloc::Global;

/// The texts of a topology, a configuration, and a policy if there is one.
#[derive(Clone, Copy)]
pub struct ConfigTexts<'a> {
    pub topology: &'a [u8],
    pub config: &'a [u8],
    pub policy: Option<&'a [u8]>,
}

/// The texts of an update: the topology, the old and the new configuration, and the policy.
#[derive(Clone, Copy)]
pub struct UpdateTexts<'a> {
    pub topology: &'a [u8],
    pub old: &'a [u8],
    pub new: &'a [u8],
    pub policy: &'a [u8],
}

/// The words of a command line.
pub fn words(alloc: Global, texts: &[&str]) -> Result<Vec<String>, Memory> {
    let mut words = Vec::new(alloc);
    for text in texts {
        words.push(String::from_str(alloc, text)?)?;
    }
    Ok(words)
}

/// The names by which the files of an update are held.
pub fn update_names() -> UpdateNames<'static> {
    UpdateNames {
        topology: "topology",
        old: "old",
        new: "new",
        policy: "policy",
    }
}

/// The names by which a topology and a plan are held.
pub fn plan_names() -> PlanNames<'static> {
    PlanNames {
        topology: "topology",
        plan: "plan",
    }
}

/// Puts a file into a source.
fn hold(source: &mut MemorySource, alloc: Global, name: &str, text: &[u8]) -> Result<(), Memory>
    requires { file_of source.old.files name.now ≡ None }
    ensures { OnOk result (source.new ≡ with_file source.old name.now text.now) }
{
    source.add(String::from_str(alloc, name)?, text.to_vec(alloc)?)
}

/// Puts `topology`, `old`, `new`, `policy` and `plan` into a source.
fn hold_update(
    source: &mut MemorySource,
    alloc: Global,
    texts: &UpdateTexts<'_>,
    plan: &[u8],
) -> Result<(), Memory>
    requires { source.old.files ≡ [] }
    ensures { OnOk result (source.new.files ≡
        (codes "topology", texts.now.topology.now)
        ∷ (codes "old", texts.now.old.now)
        ∷ (codes "new", texts.now.new.now)
        ∷ (codes "policy", texts.now.policy.now)
        ∷ (codes "plan", plan.now)
        ∷ []) }
{
    hold(source, alloc, "topology", texts.topology)?;
    hold(source, alloc, "old", texts.old)?;
    hold(source, alloc, "new", texts.new)?;
    hold(source, alloc, "policy", texts.policy)?;
    hold(source, alloc, "plan", plan)
}

/// A source that holds nothing.
fn empty(alloc: Global, piece: usize, failing: u64) -> Result<MemorySource, Memory>
    requires { 1 ≤ piece }
    ensures { IfOk result (λ s. s.files ≡ []) }
{
    MemorySource::make(alloc, piece, vec![in alloc; failing]?)
}

/// A source that holds `topology`, `config` and, if there is one, `policy`.
///
/// A take gives at most `piece` bytes, at least 1; the call of the number `failing` fails, where calls count from 1.
pub fn config_source(
    alloc: Global,
    texts: &ConfigTexts<'_>,
    piece: usize,
    failing: u64,
) -> Result<MemorySource, Memory>
    requires { 1 ≤ piece }
{
    let mut source = empty(alloc, piece, failing)?;
    hold(&mut source, alloc, "topology", texts.topology)?;
    hold(&mut source, alloc, "config", texts.config)?;
    if let Some(policy) = texts.policy {
        hold(&mut source, alloc, "policy", policy)?;
    }
    Ok(source)
}

/// A source that holds `topology`, `old`, `new`, `policy` and `plan`.
///
/// A take gives at most `piece` bytes, at least 1; the call of the number `failing` fails, where calls count from 1.
pub fn update_source(
    alloc: Global,
    texts: &UpdateTexts<'_>,
    plan: &[u8],
    piece: usize,
    failing: u64,
) -> Result<MemorySource, Memory>
    requires { 1 ≤ piece }
{
    let mut source = empty(alloc, piece, failing)?;
    hold_update(&mut source, alloc, texts, plan)?;
    Ok(source)
}

/// A source that holds `topology`, `old`, `new`, `policy`, `plan` and `input`. A take gives at most 4096 bytes, and no call fails.
pub fn driven_source(
    alloc: Global,
    texts: &UpdateTexts<'_>,
    plan: &[u8],
    input: &[u8],
) -> Result<MemorySource, Memory> {
    let mut source = empty(alloc, 4096, 0)?;
    hold_update(&mut source, alloc, texts, plan)?;
    hold(&mut source, alloc, "input", input)?;
    Ok(source)
}

/// A source that holds `topology`, `old`, `new`, `policy` and `plan`, and these lines as the standard input. A take gives at most
/// so many bytes, and no call fails.
pub fn served_source(
    alloc: Global,
    texts: &UpdateTexts<'_>,
    plan: &[u8],
    lines: &[u8],
    piece: usize,
) -> Result<MemorySource, Memory>
    requires { 1 ≤ piece }
{
    let mut source = empty(alloc, piece, 0)?;
    hold_update(&mut source, alloc, texts, plan)?;
    hold(&mut source, alloc, "/dev/stdin", lines)?;
    Ok(source)
}
