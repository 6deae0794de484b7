//! Whole jobs, whose replicas run in threads.
use crate::replays::{ONE_PUT, TWO_CLIENTS, job_of};
use kv_store::Reply;
use mu_cluster::{Gate, OpenGate, Outcome, rows_spell_commands, run};
use mu_model::End;
use mu_outcome::Log;
use std::alloc::Global;
use std::sync::Wait;
use std::sync::atomic::{AtomicU64, Ordering};
use std::test::Fail;
use std::thread;
use std::thread::Threads;
use std::time::Clock;

/// Two calls of a gate, and which of them were entered.
#[derive(Drop)]
struct Pair {
    one: AtomicU64,
    other: AtomicU64,
}

/// Holds each of three pairs of calls until both calls of the pair were entered.
#[derive(Drop)]
struct Crossed {
    first: Pair,
    second: Pair,
    third: Pair,
    failures: AtomicU64,
}

impl Pair {
    fn new() -> Pair {
        Pair {
            one: AtomicU64::new(0),
            other: AtomicU64::new(0),
        }
    }
}

/// Waits until a count has come so far. Whether it has.
pub(crate) fn reaches(count: &AtomicU64, least: u64) -> bool {
    for _ in 0..100_000_000u64 {
        if count.load(Ordering::SeqCst) >= least {
            return true;
        }
        thread::yield_now();
    }
    false
}

/// Marks that a call was entered, and waits for the other one of its pair. Whether that one came.
fn meet(mine: &AtomicU64, other: &AtomicU64) -> bool {
    mine.store(1, Ordering::SeqCst);
    reaches(other, 1)
}

impl Gate for Crossed {
    fn pass(&self, replica: u8, step: u32) {
        let met = match (replica, step) {
            (0, 9) => meet(&self.first.one, &self.first.other),
            (1, 5) => meet(&self.first.other, &self.first.one),
            (1, 20) => meet(&self.second.one, &self.second.other),
            (2, 20) => meet(&self.second.other, &self.second.one),
            (2, 30) => meet(&self.third.one, &self.third.other),
            (0, 40) => meet(&self.third.other, &self.third.one),
            _ => true,
        };
        if !met {
            self.failures.fetch_add(1, Ordering::SeqCst);
        }
    }
}

/// Holds the first turn of replica 0 until that of replica 1 is entered, and that one until replica
/// 0 has taken nine.
#[derive(Drop)]
struct Ahead {
    first: Pair,
    ninth: AtomicU64,
    failures: AtomicU64,
}

impl Gate for Ahead {
    fn pass(&self, replica: u8, step: u32) {
        let met = match (replica, step) {
            (0, 0) => meet(&self.first.one, &self.first.other),
            (1, 0) => meet(&self.first.other, &self.ninth),
            (0, 9) => meet(&self.ninth, &self.ninth),
            _ => true,
        };
        if !met {
            self.failures.fetch_add(1, Ordering::SeqCst);
        }
    }
}

/// How many steps each of two replicas takes alone, the one after the other: longer than it takes to
/// hold the others to be failed.
const ALONE: u64 = 1_000;
/// For how many rounds all three take turns after that: replica 0 leads by then and has every command
/// (in plain Rust it puts the last entry in round 575), and nobody has ended (that does so in round
/// 680). The bound of such a run is 6,874 steps.
const IN_TURNS: u64 = 640;

/// Holds three replicas to an order that is fair from some moment on: first replica 2 goes on alone,
/// then replica 1, and then all three take turns.
#[derive(Drop)]
struct FairAtLast {
    zero: AtomicU64,
    one: AtomicU64,
    two: AtomicU64,
    failures: AtomicU64,
}

/// The step after those that a replica takes alone and those in turns.
const HELD: u64 = ALONE + IN_TURNS;

impl Gate for FairAtLast {
    fn pass(&self, replica: u8, step: u32) {
        let step = u64::from(step);
        let held = match replica {
            0 => {
                self.zero.store(step, Ordering::SeqCst);
                step >= IN_TURNS
                    || reaches(&self.one, ALONE + step) && reaches(&self.two, ALONE + step)
            }
            1 => {
                self.one.store(step, Ordering::SeqCst);
                if step < ALONE {
                    step > 0 || reaches(&self.two, ALONE)
                } else {
                    step >= HELD
                        || reaches(&self.zero, step - ALONE + 1) && reaches(&self.two, step)
                }
            }
            _ => {
                self.two.store(step, Ordering::SeqCst);
                step < ALONE
                    || step >= HELD
                    || reaches(&self.zero, step - ALONE + 1) && reaches(&self.one, step + 1)
            }
        };
        if !held {
            self.failures.fetch_add(1, Ordering::SeqCst);
        }
    }
}

/// What the job of a text leaves, whose replicas run in threads.
fn ran<R: Threads + Wait + Clock + Sync, G: Gate + Sync>(
    rt: &R,
    alloc: Global,
    text: &str,
    gate: &G,
) -> Result<Outcome, Fail> {
    let job = job_of(alloc, text)?;
    rows_spell_commands(&job);
    Ok(run(rt, alloc, job, gate)?)
}

/// Whether one list begins the other.
fn is_prefix(one: &[u16], other: &[u16]) -> bool {
    let both = one.len().min(other.len());
    one[..both] == other[..both]
}

/// Whether these are three replicas' logs of a run on threads: of any two, one begins the other.
fn are_three(outcome: &Outcome) -> bool {
    let logs = outcome.logs.as_slice();
    let agree = |one: &Log| logs
        .iter()
        .all(|other| is_prefix(one.as_slice(), other.as_slice()));
    outcome.order.is_none()
        && outcome.gathered.is_some()
        && logs.len() == 3
        && logs.iter().all(agree)
}

/// Whether three replicas' logs of a run of the two clients' job are so.
fn three_agree<R: Threads + Wait + Clock + Sync, G: Gate + Sync>(
    rt: &R,
    alloc: Global,
    gate: &G,
) -> Result<bool, Fail> {
    let outcome = ran(rt, alloc, TWO_CLIENTS, gate)?;
    Ok(are_three(&outcome))
}

#[test]
fn three_replicas_run_at_once(rt: HostRuntime) -> Result<(), Fail> {
    let gate = Crossed {
        first: Pair::new(),
        second: Pair::new(),
        third: Pair::new(),
        failures: AtomicU64::new(0),
    };
    let are_right = three_agree(&rt, rt.alloc(), &gate)?;
    assert!(rt; are_right && gate.failures.load(Ordering::SeqCst) == 0);
    Ok(())
}

/// Whether replica 0 has all commands of the two clients' job, which is done on threads.
fn all_is_done<R: Threads + Wait + Clock + Sync, G: Gate + Sync>(
    rt: &R,
    alloc: Global,
    gate: &G,
) -> Result<bool, Fail> {
    let outcome = ran(rt, alloc, TWO_CLIENTS, gate)?;
    let first = outcome.logs.as_slice().first();
    Ok(are_three(&outcome) && first.is_some_and(|log| log.len() == 6))
}

#[test]
fn a_run_that_is_fair_at_last_has_every_command(rt: HostRuntime) -> Result<(), Fail> {
    let gate = FairAtLast {
        zero: AtomicU64::new(0),
        one: AtomicU64::new(0),
        two: AtomicU64::new(0),
        failures: AtomicU64::new(0),
    };
    let is_done = all_is_done(&rt, rt.alloc(), &gate)?;
    assert!(rt; is_done && gate.failures.load(Ordering::SeqCst) == 0);
    Ok(())
}

#[test]
fn gate_comes_before_the_turn(rt: HostRuntime) -> Result<(), Fail> {
    let gate = Ahead {
        first: Pair::new(),
        ninth: AtomicU64::new(0),
        failures: AtomicU64::new(0),
    };
    let are_right = three_agree(&rt, rt.alloc(), &gate)?;
    let entered = [&gate.first.one, &gate.first.other, &gate.ninth]
        .iter()
        .all(|count| count.load(Ordering::SeqCst) == 1);
    assert!(rt; are_right && entered && gate.failures.load(Ordering::SeqCst) == 0);
    Ok(())
}

/// Whether this is what one replica leaves of one put.
fn is_of_one_put(outcome: &Outcome) -> bool {
    let logs = outcome.logs.as_slice().iter().map(|log| log.len());
    let commits = outcome.commits.as_slice().iter();
    logs.eq([1])
        && commits.map(|commits| commits.len()).eq([1])
        && matches!(outcome.ends.as_slice(), [End::Finished { .. }])
        && matches!(outcome.replies.as_slice(), [Reply::Done])
}

/// Counts the steps of one replica: each passing of the gate has one step more than the one before.
#[derive(Drop)]
struct Counted {
    passings: AtomicU64,
    failures: AtomicU64,
}

impl Gate for Counted {
    fn pass(&self, _replica: u8, step: u32) {
        if self.passings.fetch_add(1, Ordering::SeqCst) != u64::from(step) {
            self.failures.fetch_add(1, Ordering::SeqCst);
        }
    }
}

#[test]
fn one_replica_runs(rt: HostRuntime) -> Result<(), Fail> {
    let gate = Counted {
        passings: AtomicU64::new(0),
        failures: AtomicU64::new(0),
    };
    let outcome = ran(&rt, rt.alloc(), ONE_PUT, &gate)?;
    let is_right = is_of_one_put(&outcome);
    assert!(rt; is_right && gate.failures.load(Ordering::SeqCst) == 0);
    // Ninety-three steps, and the turn that finds the end.
    assert_eq!(rt; gate.passings.load(Ordering::SeqCst), 94);
    Ok(())
}

#[test]
fn open_gate_does_nothing(rt: HostRuntime) -> Result<(), Fail> {
    let outcome = ran(&rt, rt.alloc(), ONE_PUT, &OpenGate)?;
    let is_right = is_of_one_put(&outcome);
    assert!(rt; is_right);
    Ok(())
}
