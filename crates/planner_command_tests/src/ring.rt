//! A ring of switches with a host at each, whose way to the first one is turned round.

use example_files::UpdateTexts;
use net_base::Memory;
use std::alloc::Global;

/// The texts of an update of a ring.
#[derive(Drop)]
pub struct Ring {
    topology: Vec<u8>,
    old: Vec<u8>,
    new: Vec<u8>,
    policy: Vec<u8>,
}

/// A ring of so many switches, where port 2 leads to the next one and port 3 to the one before, with these tags.
fn topology(alloc: Global, switches: u32, tags: &str) -> Result<Vec<u8>, Memory> {
    let mut names = String::new(alloc);
    let mut links = String::new(alloc);
    let mut hosts = String::new(alloc);
    for i in 0..switches {
        let comma = if i == 0 { "" } else { "," };
        let next = if i + 1 == switches { 0 } else { i + 1 };
        names.push_str(&format!(in alloc; "{comma}{{\"name\":\"r{i}\",\"capacity\":8}}")?)?;
        links.push_str(&format!(in alloc; "{comma}[\"r{i}:2\",\"r{next}:3\"]")?)?;
        hosts.push_str(&format!(in alloc; "{comma}\"r{i}:1\"")?)?;
    }
    let front = format!(in alloc;
        "{{\"switches\":[{names}],\"links\":[{links}],\"hosts\":[{hosts}]"
    )?;
    Ok(format!(in alloc; "{front},\"vlans\":[\"untagged\"],\"tags\":{tags}}}")?.into_bytes())
}

/// All switches send what is for the host of the first one out of the port, and that one sends it to its host.
fn configuration(alloc: Global, switches: u32, port: u16) -> Result<Vec<u8>, Memory> {
    let mut rules = String::new(alloc);
    for i in 0..switches {
        let comma = if i == 0 { "" } else { "," };
        let out = if i == 0 { 1 } else { port };
        let head = format!(in alloc; "{comma}{{\"switch\":\"r{i}\",\"priority\":100,")?;
        rules.push_str(&format!(in alloc; "{head}\"dst\":\"10.0.0.0/24\",\"out\":{out}}}")?)?;
    }
    Ok(format!(in alloc; "{{\"rules\":[{rules}]}}")?.into_bytes())
}

/// What enters at the other switches must arrive.
fn policy(alloc: Global, switches: u32) -> Result<Vec<u8>, Memory> {
    let mut demands = String::new(alloc);
    for i in 1..switches {
        let comma = if i == 1 { "" } else { "," };
        let head = format!(in alloc; "{comma}{{\"from\":\"r{i}:1\",")?;
        demands.push_str(&format!(in alloc; "{head}\"dst\":\"10.0.0.0/24\",\"deliver\":true}}")?)?;
    }
    Ok(format!(in alloc; "{{\"demands\":[{demands}]}}")?.into_bytes())
}

impl Ring {
    /// A ring of so many switches, which is turned round.
    pub fn make(alloc: Global, switches: u32, tags: &str) -> Result<Ring, Memory> {
        Ok(Ring {
            topology: topology(alloc, switches, tags)?,
            old: configuration(alloc, switches, 2)?,
            new: configuration(alloc, switches, 3)?,
            policy: policy(alloc, switches)?,
        })
    }

    /// Its update.
    pub fn update(&self) -> UpdateTexts<'_> {
        UpdateTexts {
            topology: &self.topology,
            old: &self.old,
            new: &self.new,
            policy: &self.policy,
        }
    }
}
