//! Three ports in threads of their own, and the scripts of events through three ports.
ghost use Rattle.std.specs.Prelude.{All, IfOk, IfSome, IsTrue, [], length, ◌<◌, ◌∷◌, ◌≡◌};
ghost use Rattle.mu_model.specs.Allowed.{Allowed};
ghost use Rattle.mu_model.specs.Histories.{history};
ghost use Rattle.shared_fabric.specs.Gathering.{IsSamePort, StayPorts};
ghost use Rattle.worked_rows.specs.SharedPorts.{AreOf};

use crate::event_scripts::{JOB, LONG_JOB, SCRIPTS, config, events_of};
use mu_model::{Answer, Config, Event, Verb};
use mu_oracle::allows;
use mu_port::Port;
use shared_fabric::{Shared, SharedPort, SharedPorts};
use std::alloc::Global;
use std::marker::Model;
use std::process::Abort;
use std::test::Fail;
use std::thread;
use std::thread::Threads;

/// The most events that a port keeps.
const MOST: usize = 1_000;

/// A port that keeps the events of its replica for the judge: a shared port keeps only the newest.
/// Contracts see the port.
#[derive(Drop)]
struct KeptPort {
    port: SharedPort,
    events: Vec<Event>,
}

impl Model for KeptPort {
    ghost use Rattle.std.specs.Prelude.{vec_capacity, ◌≡◌, ◌≤◌};
    ghost use Rattle.mu_model.specs.Histories.{history};
    ghost use Rattle.shared_fabric.specs.Gathering.{PortValue};

    ghost Value = { PortValue };

    ghost view = { λ k. k.port };

    ghost invariant = { λ k. (history k.events.items ≡ k.port.part)
        × (1_000 ≤ vec_capacity k.events) };
}

impl KeptPort {
    /// A port that has made no step.
    fn new(alloc: Global, port: SharedPort) -> Result<KeptPort, Fail>
        ensures { IfOk result (λ k. k ≡ port) }
    {
        if port.newest().is_none() {
            Ok(KeptPort {
                port,
                events: Vec::with_capacity(alloc, MOST)?,
            })
        } else {
            Err(Fail::from("steps were made"))
        }
    }

    /// The events of the replica, in true order.
    fn events(&self) -> &[Event]
        ensures { history result.now ≡ self.now.part }
    {
        self.events.as_slice()
    }

    /// Whether the step is allowed after the part of the port, and there is room for it.
    fn is_allowed(&self, config: &Config, verb: &Verb) -> bool
        requires config { self.now.config ≡ config.now }
        requires ring { 0 < config.now.ring }
        ensures { IsTrue result → Allowed self.now.config self.now.id self.now.part verb.now
            × (length self.now.part < 1_000) }
    {
        let part = self.events();
        part.len() < MOST && allows(config, self.port.id(), part, verb)
    }

    /// Makes a step if it is allowed.
    fn try_step(&mut self, config: &Config, verb: Verb) -> Option<Answer>
        requires config { self.old.config ≡ config.now }
        requires ring { 0 < config.now.ring }
        ensures { IsSamePort self.old self.new }
    {
        if self.is_allowed(config, &verb) {
            let by = self.port.id();
            let answer = self.port.step(verb);
            self.events.push_reserved(Event { by, verb, answer });
            Some(answer)
        } else {
            None
        }
    }
}

/// The ports, which keep their events from now on.
fn kept(alloc: Global, ports: Vec<SharedPort>) -> Result<Vec<KeptPort>, Fail>
    ensures { IfOk result (λ k. k.items ≡ ports.items) }
{
    let mut list = Vec::new(alloc);
    for port in ports {
        list.push(KeptPort::new(alloc, port)?)?;
    }
    Ok(list)
}

/// The ports without their events.
fn bare(alloc: Global, ports: Vec<KeptPort>) -> Result<Vec<SharedPort>, Fail>
    ensures { IfOk result (λ b. b.items ≡ ports.items) }
{
    let mut list = Vec::new(alloc);
    for one in ports {
        let KeptPort { port, events: _ } = one;
        list.push(port)?;
    }
    Ok(list)
}

/// The ports of three replicas.
#[derive(Drop)]
struct Three {
    first: KeptPort,
    second: KeptPort,
    third: KeptPort,
}

/// The ports one by one, if there are three.
fn apart(mut list: Vec<KeptPort>) -> Option<Three>
    ensures { IfSome result (λ t. list.items ≡ t.first ∷ t.second ∷ t.third ∷ []) }
{
    let third = list.pop()?;
    let second = list.pop()?;
    let first = list.pop()?;
    if list.is_empty() {
        Some(Three {
            first,
            second,
            third,
        })
    } else {
        None
    }
}

/// A hundred beats and reads of the beats of the next replica, and one ask.
fn act_on(config: &Config, port: &mut KeptPort, index: usize)
    requires config { port.old.config ≡ config.now }
    requires ring { 0 < config.now.ring }
    ensures { IsSamePort port.old port.new }
{
    let other = if index < 2 { index as u8 + 1 } else { 0 };
    port.try_step(config, Verb::Ask(0));
    for _ in 0..100 {
        port.try_step(config, Verb::Beat);
        port.try_step(config, Verb::ReadBeat(other));
    }
}

/// Checks that a part has its beats and its reads, and that no read is below an earlier one.
fn check_part(rt: &impl Abort, part: &[Event]) {
    let (mut beats, mut reads, mut asks, mut last) = (0u64, 0u64, 0u64, 0u64);
    for event in part {
        match (event.verb, event.answer) {
            (Verb::Beat, Answer::Done) => beats = beats.wrapping_add(1),
            (Verb::Ask(0), Answer::Done) => asks = asks.wrapping_add(1),
            (Verb::ReadBeat(_), Answer::Number(count)) => {
                reads = reads.wrapping_add(1);
                assert!(rt; last <= count);
                last = count;
            }
            _ => assert!(rt; false),
        }
    }
    assert_eq!(rt; (beats, reads, asks), (100, 100, 1));
}

/// All ports act, each in a thread of its own.
fn act_all<R: Threads + Sync>(rt: &R, config: &Config, ports: &mut [KeptPort])
    requires config { All (λ p. p.config ≡ config.now) ports.old }
    requires ring { 0 < config.now.ring }
    ensures { StayPorts ports.old ports.new }
{
    let count = ports.len();
    if count > 0 {
        thread::for_each_mut(rt, ports, count, &|index, port| act_on(config, port, index));
    }
}

/// The ports after all of them acted.
fn acted<R: Threads + Sync>(rt: &R, config: &Config, mut ports: Vec<KeptPort>) -> Vec<KeptPort>
    requires config { All (λ p. p.config ≡ config.now) ports.items }
    requires ring { 0 < config.now.ring }
    ensures { StayPorts ports.items result.items }
{
    act_all(rt, config, ports.as_mut_slice());
    ports
}

/// Checks the parts of all ports.
fn check_parts(rt: &impl Abort, ports: &[KeptPort]) {
    assert_eq!(rt; ports.len(), 3);
    for port in ports {
        check_part(rt, port.events());
    }
}

#[test]
fn threads_keep_one_list(rt: HostRuntime) -> Result<(), Fail> {
    let alloc = rt.alloc();
    let config = config(alloc, LONG_JOB)?;
    let mut shared = Shared::start(alloc, &config)?;
    let ports = shared.ports(alloc)?;
    let ports = acted(&rt, &config, kept(alloc, ports.into_ports())?);
    check_parts(&rt, ports.as_slice());
    shared.gather(SharedPorts::of_ports(bare(alloc, ports)?));
    Ok(())
}

/// The first event of a script that isn't allowed, or that the ports answer otherwise.
fn first_wrong(config: &Config, three: &mut Three, script: &[Event]) -> Option<usize>
    requires config { AreOf config.now three.old.first three.old.second three.old.third }
    requires ring { 0 < config.now.ring }
{
    for (index, event) in script.iter().enumerate() {
        let answer = match event.by {
            0 => three.first.try_step(config, event.verb),
            1 => three.second.try_step(config, event.verb),
            _ => three.third.try_step(config, event.verb),
        };
        if answer != Some(event.answer) {
            return Some(index);
        }
    }
    None
}

/// Three ports before any event, with their configuration.
fn started(alloc: Global) -> Result<Option<(Config, Three)>, Fail>
    ensures { IfOk result
        (λ o. IfSome o (λ t. AreOf t.0 t.1.first t.1.second t.1.third × (0 < t.0.ring))) }
{
    let config = config(alloc, JOB)?;
    let mut shared = Shared::start(alloc, &config)?;
    let ports = shared.ports(alloc)?;
    Ok(match apart(kept(alloc, ports.into_ports())?) {
        Some(three) => Some((config, three)),
        None => None,
    })
}

/// The first event of a script that new ports don't allow or answer otherwise.
fn first_wrong_of_new(alloc: Global, script: &[Event]) -> Result<Option<usize>, Fail> {
    let Some((config, mut three)) = started(alloc)? else {
        return Err(Fail::from("no ports"));
    };
    Ok(first_wrong(&config, &mut three, script))
}

#[test]
fn ports_step_by_the_scripts(rt: HostRuntime) -> Result<(), Fail> {
    for (name, _, pieces) in SCRIPTS {
        let events = events_of(rt.alloc(), pieces)?;
        assert_eq!(rt;
            first_wrong_of_new(rt.alloc(), events.as_slice())?,
            None,
            "{name}"
        );
    }
    Ok(())
}
