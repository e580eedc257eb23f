//! The least of switches.
ghost use Rattle.std.specs.Prelude.{◌≡◌};
ghost use Rattle.check_reasons.specs.Least.{lesser};

use net_base::SwitchId;

/// The lesser of two switches, where there are two.
pub fn lesser(one: Option<SwitchId>, other: Option<SwitchId>) -> Option<SwitchId>
    ensures { result ≡ lesser one other }
{
    match one {
        None => other,
        Some(s) => match other {
            None => one,
            Some(t) => Some(if t.0 < s.0 { t } else { s }),
        },
    }
}
