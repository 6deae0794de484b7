//! The ports of all replicas.
ghost use Rattle.std.specs.Prelude.{◌≡◌};
ghost use Rattle.shared_fabric.specs.Gathering.{AreAllPorts};

use crate::port::SharedPort;
use std::marker::Model;

/// The ports of all replicas, in the order of their numbers. Contracts see the list of them.
#[derive(Drop)]
pub struct SharedPorts {
    ports: Vec<SharedPort>,
}

impl Model for SharedPorts {
    ghost use Rattle.std.specs.Prelude.{List};
    ghost use Rattle.shared_fabric.specs.Gathering.{AreAllPorts, PortValue};

    ghost Value = { List PortValue };

    ghost view = { λ s. s.ports.items };

    ghost invariant = { λ s. AreAllPorts s.ports.items };
}

impl SharedPorts {
    /// The list of these ports, one for each replica, in order, and all of one table. Takes no
    /// memory.
    pub fn of_ports(ports: Vec<SharedPort>) -> SharedPorts
        requires { AreAllPorts ports.items }
        ensures { result ≡ ports.items }
    {
        SharedPorts { ports }
    }

    /// The ports. Takes no memory.
    pub fn into_ports(self) -> Vec<SharedPort>
        ensures ports { result.items ≡ self }
        ensures all { AreAllPorts self }
    {
        let SharedPorts { ports } = self;
        ports
    }
}
