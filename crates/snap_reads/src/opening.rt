//! A writer and its readers.
ghost use Rattle.std.specs.Prelude.{IfOk, replicate, ◌≡◌, ◌≤◌};
ghost use Rattle.snap_reads.specs.Seats.{fresh_reader, fresh_writer};

use crate::board::Board;
use crate::reader::SnapReader;
use crate::writer::SnapWriter;
use kv_store::Store;
use mu_model::NoMemory;
use std::alloc::Global;
use std::sync::Arc;

/// The readers of one writer.
pub type SnapReaders = Vec<SnapReader>;

/// A writer for `commands` commands, 0 to 1,500, and its readers, 1 to 4. All memory is taken here.
///
/// # Errors
///
/// Only for want of memory.
pub fn start(
    alloc: Global,
    commands: usize,
    readers: u8,
) -> Result<(SnapWriter, SnapReaders), NoMemory>
    requires commands { commands ≤ 1500 }
    requires readers { (1 ≤ readers) × (readers ≤ 4) }
    ensures writer { IfOk result (λ t. t.0 ≡ fresh_writer t.0.table commands) }
    ensures readers { IfOk result
        (λ t. t.1.items ≡ replicate readers (fresh_reader t.0.table commands)) }
{
    let (board, mut seat) = Board::start(alloc, commands)?;
    let board = Arc::new(alloc, board)?;
    let list = Vec::with_capacity(alloc, commands)?;
    let mut all = Vec::new(alloc);
    for _ in 0..readers {
        let share = Arc::try_clone(&board)?;
        let store = Store::with_room(alloc, commands)?;
        let seat = board.begin(&mut seat);
        all.push(SnapReader {
            board: share,
            seat,
            store,
            seen: 0,
        })?;
    }
    let writer = SnapWriter {
        board,
        seat,
        list,
        published: 0,
    };
    Ok((writer, all))
}
