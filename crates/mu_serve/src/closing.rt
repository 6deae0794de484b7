//! The report at the end of a session.
ghost use Rattle.std.specs.Prelude.{IfOk, ◌≡◌};
ghost use Rattle.mu_engine.specs.Moments.{IsMoment};
ghost use Rattle.mu_outcome.specs.Outcomes.{IsWithinJob};
ghost use Rattle.mu_serve.specs.Closing.{ClosesLive, ComesTo, stops_so_far as stops_of_live};
ghost use Rattle.mu_serve.specs.Sessions.{IsAfter};
ghost use Rattle.mu_serve.specs.declared.closing.TheConstants.{CLOSING_ROUNDS as LAST_ROUNDS};

use mu_course::walk_of;
use mu_engine::Engine;
use mu_input::Job;
use mu_model::{Event, NoMemory, Script, Sequence, Stop};
use mu_outcome::Account;
use mu_telling::{account_of, steps_of};
use std::alloc::Global;

/// For how many rounds the replicas go on after the last line: so that they learn what the others
/// have, and finish.
pub const CLOSING_ROUNDS: u32 = 2_000;

/// What the events of a session come to, after [`CLOSING_ROUNDS`] more rounds.
///
/// # Errors
///
/// Only for want of memory.
pub fn account_at_end(alloc: Global, engine: Engine) -> Result<Account, NoMemory>
    ensures closes { IfOk result (ClosesLive engine) }
    ensures within { IfOk result (λ account. IsWithinJob account.outcome) }
{
    let mut engine = engine;
    play_out(&mut engine);
    account_of_engine(alloc, engine)
}

/// The rounds after the last line.
fn play_out(engine: &mut Engine)
    ensures { IsAfter LAST_ROUNDS engine.old engine.new }
{
    for _ in 0..CLOSING_ROUNDS {
        engine.round();
    }
}

/// What the events come to, with the stops so far as a script.
fn account_of_engine(alloc: Global, engine: Engine) -> Result<Account, NoMemory>
    ensures comes_to { IfOk result (ComesTo engine) }
    ensures within { IfOk result (λ account. IsWithinJob account.outcome) }
{
    let events = engine.events().to_vec(alloc)?;
    let stops = stops_so_far(alloc, &engine, events.as_slice())?;
    let Job {
        config,
        commands,
        script: _,
    } = engine.into_session().job;
    let job = Job {
        config,
        commands,
        script: Script {
            stops: Sequence::from_vec(stops),
            pauses: Sequence::from_vec(Vec::new(alloc)),
        },
    };
    let (walk, _) = walk_of(alloc, &job.config, events.as_slice())?;
    account_of(alloc, job, &walk)
}

/// The stops so far, in order of id.
fn stops_so_far(alloc: Global, engine: &Engine, events: &[Event]) -> Result<Vec<Stop>, NoMemory>
    requires moment { IsMoment engine.now.job events.now }
    requires all { events.now ≡ engine.now.events }
    ensures { IfOk result (λ stops. stops.items ≡ stops_of_live engine.now) }
{
    let mut stops = Vec::new(alloc);
    for replica in 0..engine.config().replicas {
        if engine.hold_of(replica).stopped {
            stops.push(Stop {
                replica,
                steps: steps_of(replica, events) as u32,
            })?;
        }
    }
    Ok(stops)
}
