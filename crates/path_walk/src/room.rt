//! The room for the places of a path.
ghost use Rattle.std.specs.Prelude.{◌≡◌, ◌<◌, ◌≤◌, ◌++◌, ◌∷◌, [], length, map, IfOk};
ghost use Rattle.net_base.specs.Places.{stop_of};
ghost use Rattle.topology.specs.Networks.{switch_count};
ghost use Rattle.path_walk.specs.Walked.{is_visited};

use net_base::{Memory, Place, Stop, SwitchSet};
use std::alloc::Global;
use std::marker::Model;
use topology::Net;

/// Room for the places of one path of a network and their stops: one more than it has switches.
#[derive(Drop)]
pub struct PathRoom {
    places: Vec<Place>,
    stops: Vec<Stop>,
    switches: u32,
    visited: SwitchSet,
}

impl Model for PathRoom {
    ghost use Rattle.path_walk.specs.Walked.{RoomState, IsRoom};

    ghost Value = { RoomState };

    ghost view = { λ r. record { places = r.places.items; switches = r.switches } };

    ghost invariant = { λ r. IsRoom r.places r.stops r.switches r.visited };
}

impl PathRoom {
    /// Room for the paths of a network, and of each other with as many switches.
    pub fn make(alloc: Global, net: &Net) -> Result<PathRoom, Memory>
        ensures switches { IfOk result (λ room. room.switches ≡ switch_count net.now) }
        ensures empty { IfOk result (λ room. room.places ≡ []) }
    {
        let switches = net.switches();
        let most = switches as usize + 1;
        Ok(PathRoom {
            places: Vec::with_capacity(alloc, most)?,
            stops: Vec::with_capacity(alloc, most)?,
            switches,
            visited: SwitchSet::none(),
        })
    }

    /// The places of the path that was followed last, in order.
    pub fn places(&self) -> &[Place]
        ensures { result.now ≡ self.now.places }
    {
        &self.places
    }

    /// The stops of the path that was followed last, in order.
    pub fn stops(&self) -> &[Stop]
        ensures { result.now ≡ map stop_of self.now.places }
    {
        &self.stops
    }

    /// Forgets the places.
    pub(crate) fn clear(&mut self)
        ensures { self.new ≡ record self.old { places = [] } }
    {
        self.places.clear();
        self.stops.clear();
        self.visited = SwitchSet::none();
    }

    /// Adds a place, and tells whether its switch was visited before.
    pub(crate) fn visit(&mut self, place: Place) -> bool
        requires switch { place.switch.0 < self.old.switches }
        requires room { length self.old.places ≤ self.old.switches }
        ensures seen { result ≡ is_visited self.old.places place.switch }
        ensures added { self.new ≡ record self.old { places = self.old.places ++ place ∷ [] } }
    {
        let seen = self.visited.has(place.switch);
        self.visited.put(place.switch);
        self.places.push_reserved(place);
        self.stops.push_reserved(Stop {
            switch: place.switch,
            port: place.port,
        });
        seen
    }
}
