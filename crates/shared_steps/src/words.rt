//! The words of all replicas.
ghost use Rattle.std.specs.Prelude.{IfOk, ◌≡◌};
ghost use Rattle.mu_model.specs.Contents.{IsConfig};
ghost use Rattle.shared_steps.specs.Opening.{AreWrittenBelow};
ghost use Rattle.shared_steps.specs.Seats.{opening_root};

use crate::root::RootSeat;
use crate::rule::{OneListRule, View};
use atomic_table::Table;
use mu_model::{Config, NoMemory, Target};
use mu_words::{FenceWord, Layout};
use std::alloc::Global;
use std::marker::Model;

/// The words of all replicas, which any thread may share. Contracts see the table and its
/// configuration.
#[derive(Drop)]
pub struct Words {
    pub(crate) table: Table<(), View, Config, OneListRule, Global>,
    pub(crate) layout: Layout,
}

impl Model for Words {
    ghost use Rattle.shared_steps.specs.Insides.{IsBoard, board_of};
    ghost use Rattle.shared_steps.specs.Seats.{Board};

    ghost Value = { Board };

    ghost view = { board_of };

    ghost invariant = { IsBoard };
}

impl Words {
    /// The words before any event, and a seat that has an empty entry for each replica. Takes
    /// memory for the words.
    pub fn start(alloc: Global, config: &Config) -> Result<(Words, RootSeat), NoMemory>
        requires { IsConfig config.now }
        ensures key { IfOk result (λ t. t.0.key ≡ config.now) }
        ensures root { IfOk result (λ t. t.1 ≡ opening_root t.0.table config.now) }
    {
        let layout = Layout::new(config);
        let first = first_words(alloc, &layout, config.replicas)?;
        let (table, seat) = Table::of_words(alloc, first.as_slice(), config)?;
        Ok((Words { table, layout }, RootSeat { seat }))
    }
}

/// The words before any event: fences without an owner, and all else 0.
fn first_words(alloc: Global, layout: &Layout, replicas: u8) -> Result<Vec<u64>, NoMemory>
    requires { replicas ≡ layout.now.replicas }
    ensures { IfOk result (λ v. AreWrittenBelow layout.now replicas v.items) }
{
    let fence = FenceWord {
        grant: 0,
        closing: false,
        owner: None,
        target: Target::None,
    };
    let mut words = vec![in alloc; 0; layout.words()]?;
    for p in 0..replicas {
        words[layout.fence_of(p)] = fence.pack();
    }
    Ok(words)
}
