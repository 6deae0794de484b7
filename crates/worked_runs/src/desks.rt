//! Clients that send at once, held for each other by a gate.
use crate::replays::TWO_CLIENTS;
use front_desk::collect;
use kv_store::{Command, Key, Op, Text};
use mu_cluster::Gate;
use mu_input::{Job, desk_line, read};
use std::alloc::Global;
use std::sync::Wait;
use std::sync::atomic::{AtomicU64, Ordering};
use std::test::Fail;
use std::thread;
use std::thread::Threads;

/// Holds the first command of client 0 until two of client 1 were sent, and the first of client 1
/// until client 0 comes to its first. So the first two to arrive are those of client 1, if each is
/// sent behind the gate.
#[derive(Drop)]
struct Crossed {
    first: AtomicU64,
    third: AtomicU64,
    failures: AtomicU64,
}

impl Crossed {
    /// Waits until the other was called, for this many turns at most.
    fn hold(&self, until: &AtomicU64) {
        for _ in 0..100_000_000u64 {
            if until.load(Ordering::SeqCst) > 0 {
                return;
            }
            thread::yield_now();
        }
        self.failures.store(1, Ordering::SeqCst);
    }
}

impl Gate for Crossed {
    fn pass(&self, client: u8, sent: u32) {
        if client == 0 && sent == 0 {
            self.first.store(1, Ordering::SeqCst);
            self.hold(&self.third);
        }
        if client == 1 && sent == 0 {
            self.hold(&self.first);
        }
        if client == 1 && sent == 2 {
            self.third.store(1, Ordering::SeqCst);
        }
    }
}

impl Crossed {
    fn new() -> Crossed {
        Crossed {
            first: AtomicU64::new(0),
            third: AtomicU64::new(0),
            failures: AtomicU64::new(0),
        }
    }
}

/// The second client's first two commands, which are sent before any of the first.
fn first_two() -> Option<[Command; 2]> {
    let put = Op::Put(Key::new(b"b")?, Text::new(b"7")?);
    let swap = Op::Swap(Key::new(b"a")?, Text::new(b"9")?);
    Some([Command::new(1, 1, put)?, Command::new(1, 2, swap)?])
}

/// What a desk collects of a job.
fn collected<R: Threads + Wait + Sync, G: Gate + Sync>(
    rt: &R,
    alloc: Global,
    text: &str,
    gate: &G,
) -> Result<Job, Fail> {
    if desk_line(text.as_bytes()).is_some() {
        return Err(Fail::from("no job for a desk"));
    }
    match read(alloc, text.as_bytes()) {
        Ok(job) => Ok(collect(rt, alloc, job, gate)?),
        Err(_) => Err(Fail::from("no job")),
    }
}

/// Whether six commands with their rows are collected of a text, and these two are the first.
fn begins<R: Threads + Wait + Sync, G: Gate + Sync>(
    rt: &R,
    alloc: Global,
    text: &str,
    gate: &G,
    first: &[Command],
) -> Result<bool, Fail> {
    let job = collected(rt, alloc, text, gate)?;
    let commands = job.commands.as_slice();
    Ok((commands.len(), job.config.rows.len()) == (6, 6) && commands.starts_with(first))
}

#[test]
fn clients_send_at_once(rt: HostRuntime) -> Result<(), Fail> {
    let first = first_two().ok_or("no command")?;
    let gate = Crossed::new();
    let is_right = begins(&rt, rt.alloc(), TWO_CLIENTS, &gate, &first)?;
    assert!(rt; is_right && gate.failures.load(Ordering::SeqCst) == 0);
    Ok(())
}
