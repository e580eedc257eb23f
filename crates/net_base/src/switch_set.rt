//! Sets of switches.
ghost use Rattle.std.specs.Prelude.{◌≡◌, ◌≢◌, ◌↔◌, ◌==◌, ◌<◌, ℕ, IsTrue, false, All};
ghost use Rattle.std.specs.Int.{bit_at};
ghost use Rattle.net_base.specs.Members.{IsIn};
ghost use Rattle.net_base.specs.declared.ids.SwitchId.{SwitchId as Switch};
ghost use Rattle.net_base.specs.Switches.{has, most_switches};

use crate::ids::SwitchId;
use std::marker::Model;

/// A set of switches with numbers below 128, in 16 bytes. Bit n is that of switch n.
#[derive(Clone, Copy)]
pub struct SwitchSet {
    bits: u128,
}

impl Model for SwitchSet {
    ghost use Rattle.std.specs.Prelude.{ℕ};

    ghost Value = { ℕ };

    ghost view = { λ s. s.bits };

    ghost inverse = { λ bits. record { bits = bits } };
}

/// The bits with one of them set.
fn with_bit(bits: u128, n: u32) -> u128
    requires { n < 128 }
    ensures there { bit_at result n ≡ 1 }
    ensures others { (i : ℕ) → i ≢ n → bit_at result i ≡ bit_at bits i }
{
    bits | (1 << n)
}

/// Whether a bit is set.
fn has_bit(bits: u128, n: u32) -> bool
    ensures { result ≡ (bit_at bits n == 1) }
{
    n < 128 && bits & (1 << n) != 0
}

impl SwitchSet {
    /// No switch.
    pub fn none() -> SwitchSet
        ensures { (s : Switch) → has result s ≡ false }
    {
        SwitchSet { bits: 0 }
    }

    /// All switches with numbers below 128.
    pub fn all() -> SwitchSet
        ensures { (s : Switch) → s.0 < most_switches → IsTrue (has result s) }
    {
        SwitchSet { bits: u128::MAX }
    }

    /// The switches of a list.
    pub fn of(switches: &[SwitchId]) -> SwitchSet
        requires { All (λ s. s.0 < most_switches) switches.now }
        ensures { (s : Switch) → IsTrue (has result s) ↔ IsIn s switches.now }
    {
        let mut set = SwitchSet::none();
        for switch in switches {
            set.put(*switch);
        }
        set
    }

    /// Puts a switch.
    pub fn put(&mut self, switch: SwitchId)
        requires { switch.0 < most_switches }
        ensures there { IsTrue (has self.new switch) }
        ensures others { (s : Switch) → s.0 ≢ switch.0 → has self.new s ≡ has self.old s }
    {
        self.bits = with_bit(self.bits, switch.0);
    }

    /// Whether the switch is one of them.
    pub fn has(self, switch: SwitchId) -> bool
        ensures { result ≡ has self switch }
    {
        has_bit(self.bits, switch.0)
    }
}
