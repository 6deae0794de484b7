//! The words of all replicas, and what isn't in the ports.
ghost use Rattle.std.specs.Prelude.{IfOk, List, OnErr, Some, [], map, reverse, vec_capacity, vec_len, All, ℕ, ◌≡◌};
ghost use Rattle.std.specs.Arc.{arc_value};
ghost use Rattle.std.specs.List.{slice_get};
ghost use Rattle.mu_model.specs.Contents.{IsConfig};
ghost use Rattle.mu_model.specs.declared.event.Event.{Event};
ghost use Rattle.shared_steps.specs.Rule.{empty_entries, entry, entry_of};
ghost use Rattle.shared_steps.specs.Seats.{IsRootOf};
ghost use Rattle.shared_fabric.specs.Gathering.{ArePorts, IsFresh, PortValue, fresh_ports};
ghost use Rattle.shared_fabric.specs.Rooms.{IsRoom};

use crate::gathered::Gathered;
use crate::port::SharedPort;
use crate::ports::SharedPorts;
use crate::rooms::{Room, rooms};
use mu_model::{Config, NoMemory};
use shared_steps::{RootSeat, Words};
use std::alloc::Global;
use std::marker::Model;
use std::sync::Arc;

/// The words of all replicas, and the entries that no port has. Contracts see the table, the
/// configuration and these entries.
#[derive(Drop)]
pub struct Shared {
    words: Arc<Words, Global>,
    root: RootSeat,
    config: Config,
}

impl Model for Shared {
    ghost use Rattle.std.specs.Arc.{arc_value};
    ghost use Rattle.shared_fabric.specs.Gathering.{Fabric, IsFabric};

    ghost Value = { Fabric };

    ghost view = { λ s. record {
      table = s.root.table;
      config = s.config;
      entries = s.root.entries;
    } };

    ghost invariant = { λ s. IsFabric (arc_value s.words) s.root s.config };
}

impl Shared {
    /// The words before any event, and no port yet. Takes memory for the words and the
    /// configuration.
    pub fn start(alloc: Global, config: &Config) -> Result<Shared, NoMemory>
        requires { IsConfig config.now }
        ensures config { IfOk result (λ s. s.config ≡ config.now) }
        ensures fresh { IfOk result (λ s. IsFresh s) }
    {
        let copy = config.try_clone()?;
        let (words, root) = Words::start(alloc, config)?;
        Ok(Shared {
            words: Arc::new(alloc, words)?,
            root,
            config: copy,
        })
    }

    /// A port for each replica, in order, each with an empty part. Takes all memory that their
    /// steps need.
    pub fn ports(&mut self, alloc: Global) -> Result<SharedPorts, NoMemory>
        requires { IsFresh self.old }
        ensures same { (self.new.table ≡ self.old.table) × (self.new.config ≡ self.old.config) }
        ensures ports { IfOk result
            (λ p. p ≡ fresh_ports self.old.table self.old.config self.old.config.replicas) }
        ensures are { IfOk result (λ p. ArePorts self.new.table self.new.config p) }
        ensures err { OnErr result (self.new ≡ self.old) }
    {
        let rooms = rooms(&self.words, &self.config, alloc)?;
        let ports = Vec::with_capacity(alloc, usize::from(self.config.replicas))?;
        let ports = seated(&self.words, &mut self.root, &self.config, rooms, ports);
        Ok(SharedPorts::of_ports(ports))
    }

    /// The parts of all ports: one legal list of events has exactly these. Takes no memory.
    pub fn gather(self, ports: SharedPorts) -> Gathered
        requires { ArePorts self.table self.config ports }
        ensures { result
            ≡ record { config = self.config; parts = map (λ p. reverse p.part) ports } }
    {
        let Shared {
            words,
            mut root,
            config,
        } = self;
        take_in(&words, &mut root, &config, ports.into_ports());
        root.learn(&words);
        Gathered { config, root }
    }
}

/// Cuts off a seat for each room.
fn seated(
    words: &Arc<Words, Global>,
    root: &mut RootSeat,
    config: &Config,
    mut rooms: Vec<Room>,
    mut ports: Vec<SharedPort>,
) -> Vec<SharedPort>
    requires of { IsRootOf (arc_value words.now) root.old }
    requires key { (arc_value words.now).key ≡ config.now }
    requires fresh { root.old.entries ≡ empty_entries config.now.replicas }
    requires rooms { (vec_len rooms ≡ config.now.replicas)
        × All (IsRoom (arc_value words.now) config.now) rooms.items }
    requires ports { (ports.items ≡ []) × (vec_capacity ports ≡ config.now.replicas) }
    ensures same { (root.new.table ≡ root.old.table) × (root.new.config ≡ root.old.config) }
    ensures ports { result.items ≡ fresh_ports root.old.table config.now config.now.replicas }
{
    let mut id = 0;
    while let Some(room) = rooms.pop() {
        let Room {
            words: shared,
            found,
        } = room;
        let seat = root.split(words, id, found);
        ports.push_reserved(SharedPort {
            words: shared,
            seat,
            newest: None,
        });
        id += 1;
    }
    ports
}

/// Takes each seat in. The configuration is only for the clauses.
fn take_in(
    words: &Arc<Words, Global>,
    root: &mut RootSeat,
    _config: &Config,
    ports: Vec<SharedPort>,
)
    requires of { IsRootOf (arc_value words.now) root.old }
    requires ports { ArePorts root.old.table _config.now ports.items }
    requires key { (arc_value words.now).key ≡ _config.now }
    ensures same { (root.new.table ≡ root.old.table) × (root.new.config ≡ root.old.config) }
    ensures taken { (r : ℕ) (p : PortValue) → slice_get ports.items r ≡ Some p
        → (seen : List (Event × ℕ)) × (entry_of r root.new.entries ≡ Some (entry r p.part seen)) }
{
    for port in ports {
        let SharedPort {
            words: _shared,
            seat,
            newest: _,
        } = port;
        root.join(words, seat);
    }
}
