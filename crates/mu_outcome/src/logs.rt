//! Which of the logs is told of, and that logs agree.
ghost use Rattle.std.specs.Prelude.{◌≡◌};
ghost use Rattle.mu_outcome.specs.Entries.{longest as longest_of};
ghost use Rattle.mu_outcome.specs.LogsAfter.{LogsAgree};

use mu_knowledge::Log;

/// The longest log, the first at a tie, and the empty one if there is none. Takes no memory.
pub fn longest(logs: &[Log]) -> &[u16]
    ensures { result.now ≡ longest_of logs.now }
{
    let mut best: &[u16] = &[];
    for log in logs {
        if log.len() > best.len() {
            best = log.as_slice();
        }
    }
    best
}

/// At each moment of a legal list of events the replicas agree on what they have applied, and the
/// replies over it begin those over the longest log.
pub fn logs_agree()
    ensures { LogsAgree }
{}
