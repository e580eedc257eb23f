//! Why bytes give no JSON tree.
ghost use Rattle.std.specs.Prelude.{◌≡◌};
ghost use Rattle.flat_json.specs.declared.fault.JsonFault.TheVariants.{NotJson, Memory};

use std::alloc::{AllocError, AllocFailed};

/// Why bytes give no JSON tree.
#[derive(Clone, Copy, Debug, Drop, PartialEq, Eq)]
pub enum JsonFault {
    /// They are no JSON text in UTF-8 with nothing but white space round it (RFC 8259), or its nesting is more than 127 levels
    /// deep, or it has a number that is no finite float.
    NotJson,
    /// Memory was wanting for the tree.
    Memory,
}

impl From<json::Invalid> for JsonFault {
    ghost from_gives = { λ _ e. e ≡ NotJson };

    fn from(_: json::Invalid) -> JsonFault {
        JsonFault::NotJson
    }
}

impl From<AllocError> for JsonFault {
    ghost from_gives = { λ _ e. e ≡ Memory };

    fn from(_: AllocError) -> JsonFault {
        JsonFault::Memory
    }
}

impl<T: Drop> From<AllocFailed<T>> for JsonFault {
    ghost from_gives = { λ _ e. e ≡ Memory };

    fn from(_: AllocFailed<T>) -> JsonFault {
        JsonFault::Memory
    }
}
