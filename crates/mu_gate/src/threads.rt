//! A thread for each of some items.
ghost use Rattle.std.specs.Fork.{AcceptsEach, ChangesEach};

use std::thread;
use std::thread::Threads;

/// Changes each item in a thread of its own, as far as threads can be made; without them one after
/// another. Waits for all of them.
pub fn change_at_once<R: Threads + Sync, T: Send, F: Fn(usize, &mut T) + Sync>(
    rt: &R,
    items: &mut [T],
    change: &F,
)
    requires { AcceptsEach F.Fn change.now items.old }
    ensures { ChangesEach F.Fn change.now items.old items.new }
{
    let threads = items.len().max(1);
    thread::for_each_mut(rt, items, threads, change);
}
