//! Stations of full trees: where their members hang on their spines.

ghost use Rattle.std.specs.Prelude.{◌≡◌, ◌<◌, ◌≤◌, [], ◌∷◌, ◌++◌, length};

use std::marker::Model;

/// Where a member of a tree hangs on its spine.
#[derive(Clone, Copy)]
pub struct Station {
    /// The member's place.
    pub member: u8,
    /// The length of the spine from the station before this one.
    pub before: u128,
    /// The length of the piece by which the member hangs.
    pub leg: u128,
}

/// At most 8 stations in an array. Contracts see the list of the stations.
#[derive(Drop)]
pub struct Stations {
    items: [Station; 8],
    count: usize,
}

impl Model for Stations {
    ghost use Rattle.std.specs.Prelude.{◌≤◌, List, take};
    ghost use Rattle.full_tree.specs.declared.station.Station.{Station};

    ghost Value = { List Station };

    ghost view = { λ s. take s.count s.items };

    ghost invariant = { λ s. s.count ≤ 8 };
}

impl Stations {
    /// No stations.
    pub fn empty() -> Stations
        ensures { result ≡ [] }
    {
        let none = Station {
            member: 0,
            before: 0,
            leg: 0,
        };
        Stations {
            items: [none; 8],
            count: 0,
        }
    }

    /// Appends a station.
    pub fn push(&mut self, station: Station)
        requires { length self.old < 8 }
        ensures { self.new ≡ self.old ++ station ∷ [] }
    {
        self.items[self.count] = station;
        self.count += 1;
    }

    /// A list of the same stations.
    pub fn copy(&self) -> Stations
        ensures { result ≡ self.now }
    {
        Stations {
            items: self.items,
            count: self.count,
        }
    }

    /// The stations, in order.
    pub fn as_slice(&self) -> &[Station]
        ensures stations { result.now ≡ self.now }
        ensures few { length result.now ≤ 8 }
    {
        &self.items[..self.count]
    }
}
