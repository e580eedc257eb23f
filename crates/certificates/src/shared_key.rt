//! Uses as they are looked up.
ghost use Rattle.std.specs.Prelude.{◌≡◌, IfOk};
ghost use Rattle.certificates.specs.SharedKeys.{shared_of};

use crate::Shared;
use net_base::Memory;
use std::alloc::Global;

/// A use, as it is looked up in a hash table: its numbering and its before sets, by their indices.
#[derive(PartialEq, Eq, Hash, Drop)]
pub struct SharedKey {
    /// The index of the numbering.
    pub numbering: u32,
    /// The indices of the before sets.
    pub befores: Vec<u64>,
}

impl SharedKey {
    /// The key of a use. Err says that memory was wanting.
    pub fn of(alloc: Global, shared: &Shared) -> Result<SharedKey, Memory>
        ensures { IfOk result (λ key. shared_of key ≡ shared.now) }
    {
        Ok(SharedKey {
            numbering: shared.numbering,
            befores: Vec::from_slice(alloc, shared.befores.list())?,
        })
    }
}
