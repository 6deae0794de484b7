//! What stands behind a handle.

use lone_replica::Replica;
use mu_eras::Eras;
use mu_verdict::LineJudge;

/// What a C program holds by a handle.
pub enum Held {
    /// A judge of events that come line by line.
    Judge(LineJudge),
    /// A live engine without an end.
    Engine(Eras),
    /// One replica.
    Replica(Replica),
}

/// Written by hand, so that whoever drops what is held calls one function: a judge and an engine
/// have many parts, whose drops would be proved at each place at which one is dropped.
impl Drop for Held {
    fn drop(self) {
        match self {
            Held::Judge(judge) => let_judge_go(judge),
            Held::Engine(engine) => let_engine_go(engine),
            Held::Replica(replica) => let_replica_go(replica),
        }
    }
}

/// Drops a judge.
fn let_judge_go(_judge: LineJudge) {}

/// Drops an engine.
fn let_engine_go(_engine: Eras) {}

/// Drops a replica.
fn let_replica_go(_replica: Replica) {}
