//! What the rules of networks are worth. The law is a function that does nothing: its contract is the law.
ghost use Rattle.std.specs.Prelude.{◌≡◌};
ghost use Rattle.net_base.specs.declared.ids.Stop.{Stop};
ghost use Rattle.topology.specs.Networks.{Network, IsNetwork, end_at};
ghost use Rattle.topology.specs.declared.net.End.TheVariants.{Link};

/// Links lead both ways: whoever follows the link at a port and then the link at the port where it leads, is back.
pub fn links_lead_back()
    ensures { (net : Network) (port far : Stop) → IsNetwork net
        → end_at net port ≡ Link far.switch far.port → end_at net far ≡ Link port.switch port.port }
{}
