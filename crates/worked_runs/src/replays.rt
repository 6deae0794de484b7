//! Whole jobs, whose replicas take turns on one thread, and what they leave; what is said of them is
//! in `cases/reports.table` too.
ghost use Rattle.std.specs.Prelude.{IfOk, ◌≡◌};
ghost use Rattle.mu_input.specs.Batches.{rows_of};
ghost use Rattle.mu_input.specs.Heads.{HaveHeads};
ghost use Rattle.mu_model.specs.Contents.{IsConfig};

use kv_store::Reply;
use mu_cluster::{Outcome, replay, rows_spell_commands};
use mu_input::{InputEnd, Job, read};
use mu_model::{Config, Journal};
use std::alloc::Global;
use std::test::Fail;

/// One command of one replica.
pub(crate) const ONE_PUT: &str = "mu 1\nreplicas 1\nring 8\nbudget 1000\nclient 0\nput a 5\nend\n";

/// Six commands of two clients.
pub(crate) const TWO_CLIENTS: &str =
    "mu 1\nreplicas 3\nring 8\nbudget 20000\nclient 0\nput a 5\nget a\ncas a 5 6\nclient 1\n\
        put b 7\nswap a 9\ncas a 9 1\nend\n";

/// Jobs, and what is said of each.
pub(crate) const SAID: [(&str, &str, &str); 9] = [
    (
        "one_put",
        ONE_PUT,
        "report 1\nlog 0 entries 1 commits 1 finished\n0 0.1 put a 5\nreplies 1\n0.1 done\n\
            status 0\n",
    ),
    (
        "no_commands",
        "mu 1\nreplicas 3\nring 8\nbudget 1000\nend\n",
        "report 1\nlog 0 entries 0 commits 0 finished\nlog 1 entries 0 commits 0 finished\n\
            log 2 entries 0 commits 0 finished\nreplies 0\nstatus 0\n",
    ),
    (
        "two_clients",
        TWO_CLIENTS,
        "report 1\nlog 0 entries 6 commits 6 finished\n0 0.1 put a 5\n1 1.1 put b 7\n2 0.2 get a\n\
            3 1.2 swap a 9\n4 0.3 cas a 5 6\n5 1.3 cas a 9 1\nlog 1 entries 6 commits 0 finished\n\
            0 0.1 put a 5\n1 1.1 put b 7\n2 0.2 get a\n3 1.2 swap a 9\n4 0.3 cas a 5 6\n\
            5 1.3 cas a 9 1\nlog 2 entries 6 commits 0 finished\n0 0.1 put a 5\n1 1.1 put b 7\n\
            2 0.2 get a\n3 1.2 swap a 9\n4 0.3 cas a 5 6\n5 1.3 cas a 9 1\nreplies 6\n0.1 done\n\
            1.1 done\n0.2 value 5\n1.2 value 5\n0.3 kept 9\n1.3 done\nstatus 0\n",
    ),
    (
        "never_confirmed",
        "mu 1\nreplicas 3\nring 8\nbudget 500\nclient 0\nput a 5\nscript\nstop 1 0\nstop 2 0\n\
            end\n",
        "report 1\nlog 0 entries 0 commits 0 budget\nlog 1 entries 0 commits 0 stopped\n\
            log 2 entries 0 commits 0 stopped\nreplies 0\nstatus 3\n",
    ),
    (
        "no_room",
        "mu 1\nreplicas 3\nring 8\nbudget 5000\nclient 0\nput a 1\nput a 1\nput a 1\nput a 1\n\
            put a 1\nput a 1\nput a 1\nput a 1\nput a 1\nscript\nstop 2 0\nend\n",
        "report 1\nlog 0 entries 8 commits 8 budget\n0 0.1 put a 1\n1 0.2 put a 1\n2 0.3 put a 1\n\
            3 0.4 put a 1\n4 0.5 put a 1\n5 0.6 put a 1\n6 0.7 put a 1\n7 0.8 put a 1\n\
            log 1 entries 8 commits 0 budget\n0 0.1 put a 1\n1 0.2 put a 1\n2 0.3 put a 1\n\
            3 0.4 put a 1\n4 0.5 put a 1\n5 0.6 put a 1\n6 0.7 put a 1\n7 0.8 put a 1\n\
            log 2 entries 0 commits 0 stopped\nreplies 8\n0.1 done\n0.2 done\n0.3 done\n0.4 done\n\
            0.5 done\n0.6 done\n0.7 done\n0.8 done\nstatus 3\n",
    ),
    (
        "batches",
        "mu 2\nreplicas 3\nring 8\nbudget 20000\nbatch 4\nclient 0\nput a 5\nget a\ncas a 5 6\n\
            client 1\nput b 7\nswap a 9\ncas a 9 1\nend\n",
        "report 2\nlog 0 entries 2 commits 2 finished\n0 0.1 put a 5\n0 0.2 get a\n\
            0 0.3 cas a 5 6\n1 1.1 put b 7\n1 1.2 swap a 9\n1 1.3 cas a 9 1\n\
            log 1 entries 2 commits 0 finished\n0 0.1 put a 5\n0 0.2 get a\n0 0.3 cas a 5 6\n\
            1 1.1 put b 7\n1 1.2 swap a 9\n1 1.3 cas a 9 1\nlog 2 entries 2 commits 0 finished\n\
            0 0.1 put a 5\n0 0.2 get a\n0 0.3 cas a 5 6\n1 1.1 put b 7\n1 1.2 swap a 9\n\
            1 1.3 cas a 9 1\nreplies 6\n0.1 done\n0.2 value 5\n0.3 done\n1.1 done\n1.2 value 6\n\
            1.3 done\nstatus 0\n",
    ),
    (
        "rests",
        "mu 2\nreplicas 1\nring 8\nbudget 100\nbatch 5\nend\n",
        "refused line 5 cause 15\n",
    ),
    (
        "outrun_replica",
        "mu 2\nreplicas 3\nring 8\nbudget 20000\nbatch 1\nclient 0\nput a 1\nput a 1\nput a 1\n\
            put a 1\nput a 1\nput a 1\nput a 1\nput a 1\nput a 1\nput a 1\nput a 1\nput a 1\n\
            script\npause 2 60 3000\nend\n",
        "report 2\nlog 0 entries 13 commits 13 finished\n0 0.1 put a 1\n1 0.2 put a 1\n\
            2 0.3 put a 1\n3 0.4 put a 1\n4 0.5 put a 1\n5 gone 2\n6 0.6 put a 1\n7 0.7 put a 1\n\
            8 0.8 put a 1\n9 0.9 put a 1\n10 0.10 put a 1\n11 0.11 put a 1\n12 0.12 put a 1\n\
            log 1 entries 13 commits 0 finished\n0 0.1 put a 1\n1 0.2 put a 1\n2 0.3 put a 1\n\
            3 0.4 put a 1\n4 0.5 put a 1\n5 gone 2\n6 0.6 put a 1\n7 0.7 put a 1\n8 0.8 put a 1\n\
            9 0.9 put a 1\n10 0.10 put a 1\n11 0.11 put a 1\n12 0.12 put a 1\n\
            log 2 entries 0 commits 0 outrun 2 1\nreplies 12\n0.1 done\n0.2 done\n0.3 done\n\
            0.4 done\n0.5 done\n0.6 done\n0.7 done\n0.8 done\n0.9 done\n0.10 done\n0.11 done\n\
            0.12 done\nstatus 0\n",
    ),
    (
        "leader_stopped",
        "mu 1\nreplicas 3\nring 8\nbudget 20000\nclient 0\nput a 5\nget a\ncas a 5 6\n\
            client 1\nput b 7\nswap a 9\ncas a 9 1\nscript\nstop 0 186\nend\n",
        "report 1\nlog 0 entries 3 commits 3 stopped\n0 0.1 put a 5\n1 1.1 put b 7\n\
            2 0.2 get a\nlog 1 entries 6 commits 4 finished\n0 0.1 put a 5\n1 1.1 put b 7\n\
            2 0.2 get a\n3 0.3 cas a 5 6\n4 1.2 swap a 9\n5 1.3 cas a 9 1\n\
            log 2 entries 6 commits 0 finished\n0 0.1 put a 5\n1 1.1 put b 7\n2 0.2 get a\n\
            3 0.3 cas a 5 6\n4 1.2 swap a 9\n5 1.3 cas a 9 1\nreplies 6\n0.1 done\n1.1 done\n\
            0.2 value 5\n0.3 done\n1.2 value 6\n1.3 done\nstatus 0\n",
    ),
];

/// The job that a text spells, with the commands and their rows in order.
pub(crate) fn read_job(alloc: Global, text: &str) -> Result<Job, InputEnd>
    ensures { IfOk result (λ job. IsConfig job.config
        × HaveHeads job.config.width job.commands job.config.rows
        × (job.config.rows ≡ rows_of job.config.width job.commands)) }
{
    let job = read(alloc, text.as_bytes())?;
    Ok(job)
}

/// The job of a text that spells one.
pub(crate) fn job_of(alloc: Global, text: &str) -> Result<Job, Fail>
    ensures { IfOk result (λ job. IsConfig job.config
        × HaveHeads job.config.width job.commands job.config.rows
        × (job.config.rows ≡ rows_of job.config.width job.commands)) }
{
    match read_job(alloc, text) {
        Ok(job) => Ok(job),
        Err(_) => Err(Fail::from("no job")),
    }
}

/// What a job leaves.
pub(crate) fn replayed(alloc: Global, job: Job) -> Result<Outcome, Fail>
    requires { IsConfig job.config × HaveHeads job.config.width job.commands job.config.rows
        × (job.config.rows ≡ rows_of job.config.width job.commands) }
{
    rows_spell_commands(&job);
    Ok(replay(alloc, job)?)
}

/// What the job of a text leaves.
pub(crate) fn outcome_of(alloc: Global, text: &str) -> Result<Outcome, Fail> {
    let job = job_of(alloc, text)?;
    replayed(alloc, job)
}

/// What a replica's own store replied.
fn own_replies(outcome: &Outcome, replica: u8) -> &[Reply] {
    outcome
        .own_replies
        .as_slice()
        .get(usize::from(replica))
        .map_or(&[], |replies| replies.as_slice())
}

/// The configuration of the job of a text.
pub(crate) fn config_of(alloc: Global, text: &str) -> Result<Config, Fail>
    ensures { IfOk result IsConfig }
{
    match read_job(alloc, text) {
        Ok(job) => Ok(job.config),
        Err(_) => Err(Fail::from("no job")),
    }
}

/// The events in their order of a replay of the job of a text.
pub(crate) fn order_of(alloc: Global, text: &str) -> Result<Option<Journal>, Fail> {
    Ok(outcome_of(alloc, text)?.order)
}

/// Jobs of three replicas, and how many commands each replica applied: all if each finished, and
/// none if it was stopped at once or outrun at position 1. One job has batches, in one a mark
/// stands between the commands, and in one the leader stops after it has applied three.
const APPLIED: [(&str, [usize; 3]); 5] = [
    ("two_clients", [6, 6, 6]),
    ("no_room", [8, 8, 0]),
    ("batches", [6, 6, 6]),
    ("outrun_replica", [12, 12, 0]),
    ("leader_stopped", [3, 6, 6]),
];

/// The job of this name, or the empty text.
fn named(name: &str) -> &'static str {
    SAID.iter()
        .find(|row| row.0 == name)
        .map_or("", |row| row.1)
}

/// Whether each replica replied to this many commands, with the replies that are printed.
fn replied_to(outcome: &Outcome, counts: [usize; 3]) -> bool {
    let lists = [0, 1, 2].map(|replica| own_replies(outcome, replica));
    lists.map(|replies| replies.len()) == counts
        && lists
            .iter()
            .all(|replies| outcome.replies.as_slice().starts_with(replies))
}

/// The same of the job of this name.
fn each_replied(alloc: Global, name: &str, counts: [usize; 3]) -> Result<bool, Fail> {
    let outcome = outcome_of(alloc, named(name))?;
    Ok(replied_to(&outcome, counts))
}

#[test]
fn each_replica_replies(rt: HostRuntime) -> Result<(), Fail> {
    for (name, counts) in APPLIED {
        assert!(rt; each_replied(rt.alloc(), name, counts)?, "{name}");
    }
    Ok(())
}
