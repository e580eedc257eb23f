//! The members of files.
ghost use Rattle.std.specs.Prelude.{◌≡◌};
ghost use Rattle.net_base.specs.Fields.{field_name};

/// A member of a file, as the refusal of a bad shape names it.
#[derive(Clone, Copy, Debug, PartialEq, Eq)]
pub enum Field {
    Top,
    Switches,
    Name,
    Capacity,
    Links,
    Hosts,
    Vlans,
    Tags,
    Fields,
    Rules,
    Switch,
    Priority,
    InPort,
    Vlan,
    Dst,
    Out,
    Demands,
    From,
    Through,
    Deliver,
    To,
    Deny,
    Format,
    Kind,
    Rounds,
    Do,
    Set,
    Strip,
    Numberings,
    Befores,
    Labels,
    Picks,
    Tried,
    Uses,
}

impl Field {
    /// The member's name, as files and messages spell it.
    pub fn name(self) -> &'static str
        ensures { result.now ≡ field_name self }
    {
        match self {
            Field::Top => "top",
            Field::Switches => "switches",
            Field::Name => "name",
            Field::Capacity => "capacity",
            Field::Links => "links",
            Field::Hosts => "hosts",
            Field::Vlans => "vlans",
            Field::Tags => "tags",
            Field::Fields => "fields",
            Field::Rules => "rules",
            Field::Switch => "switch",
            Field::Priority => "priority",
            Field::InPort => "in_port",
            Field::Vlan => "vlan",
            Field::Dst => "dst",
            Field::Out => "out",
            Field::Demands => "demands",
            Field::From => "from",
            Field::Through => "through",
            Field::Deliver => "deliver",
            Field::To => "to",
            Field::Deny => "deny",
            Field::Format => "format",
            Field::Kind => "kind",
            Field::Rounds => "rounds",
            Field::Do => "do",
            Field::Set => "set",
            Field::Strip => "strip",
            Field::Numberings => "numberings",
            Field::Befores => "befores",
            Field::Labels => "labels",
            Field::Picks => "picks",
            Field::Tried => "tried",
            Field::Uses => "uses",
        }
    }
}
