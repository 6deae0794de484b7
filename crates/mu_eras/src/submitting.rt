//! A command is taken, and its reply is told.
ghost use Rattle.std.specs.Prelude.{Err, IfErr, IfOk, IfSome, List, None, Some, length, vec_capacity, ◌+◌, ◌↔◌, ◌≡◌, ◌≤◌};
ghost use Rattle.std.specs.List.{slice_get};
ghost use Rattle.kv_store.specs.Commands.{HasShortTexts};
ghost use Rattle.kv_store.specs.Tables.{Table};
ghost use Rattle.mu_engine.specs.Laws.{order_after};
ghost use Rattle.mu_engine.specs.Live.{submitted};
ghost use Rattle.mu_engine.specs.Moments.{GoesOn, IsMoment};
ghost use Rattle.mu_engine.specs.declared.refusal.Refusal.TheVariants.{Full};
ghost use Rattle.mu_model.specs.Contents.{row_count};
ghost use Rattle.mu_eras.specs.declared.applied.Applied.{Applied};
ghost use Rattle.mu_eras.specs.Applied.{IsKept, TellsOrder};
ghost use Rattle.mu_eras.specs.Holding.{AreFollowed, HoldStores};

use kv_store::{Op, Reply};
use mu_engine::{Engine, Refusal};

/// Takes the next command of a client, and tells its row. It has no reply yet.
pub(crate) fn take_command(
    engine: &mut Engine,
    replies: &mut Vec<Option<Reply>>,
    client: u8,
    op: Op,
) -> Result<u16, Refusal>
    requires client { client ≤ 15 }
    requires texts { HasShortTexts op }
    requires places { length replies.old.items ≡ length engine.old.job.commands }
    requires space { length replies.old.items + engine.old.room ≤ vec_capacity replies.old }
    ensures row { IfOk result (λ row. row ≡ row_count engine.old.job.config) }
    ensures taken { IfOk result (λ row. engine.new ≡ submitted engine.old client op) }
    ensures refused { IfErr result (λ refusal. engine.new ≡ engine.old) }
    ensures same { IfErr result (λ refusal. replies.new ≡ replies.old) }
    ensures full { (result ≡ Err Full) ↔ (engine.old.room ≡ 0) }
    ensures held { engine.new.holds ≡ engine.old.holds }
    ensures places { length replies.new.items ≡ length engine.new.job.commands }
    ensures capacity { vec_capacity replies.new ≡ vec_capacity replies.old }
    ensures space { length replies.new.items + engine.new.room ≤ vec_capacity replies.new }
    ensures moment { IsMoment engine.new.job engine.new.events }
    ensures goes { GoesOn engine.old.job engine.old.events engine.new.job engine.new.events }
    ensures holds { (base : Table) → (stores : List Applied) → HoldStores base engine.old stores
        → HoldStores base engine.new stores }
    ensures tells { (base : Table) → TellsOrder base engine.old.job.commands
        (order_after engine.old.job engine.old.events) replies.old.items
        → TellsOrder base engine.new.job.commands
        (order_after engine.new.job engine.new.events) replies.new.items }
    ensures kept { AreFollowed engine.old replies.old.items
        → AreFollowed engine.new replies.new.items }
{
    // Before and after it the events are a legal list of the commands.
    engine.events();
    let row = engine.submit(client, op)?;
    engine.events();
    replies.push_reserved(None);
    Ok(row)
}

/// The reply to the command of a row, if there is one.
pub(crate) fn told(replies: &[Option<Reply>], row: u64) -> Option<Reply>
    ensures some { IfSome result (λ reply. slice_get replies.now row ≡ Some (Some reply)) }
    ensures none { result ≡ None → IsKept replies.now row → ⊥ }
{
    match replies.get(row as usize) {
        Some(reply) => *reply,
        None => None,
    }
}
