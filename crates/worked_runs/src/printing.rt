//! What is printed, out of a sink in memory.
ghost use Rattle.mu_report.specs.Said.{IsShort};

use mu_io::MemSink;
use mu_report::{Said, print};
use std::alloc::{AllocError, Global};

/// The most bytes that a row prints.
const ROOM: usize = 8192;

/// Whether this text is printed.
pub(crate) fn prints(alloc: Global, said: &Said, text: &str) -> Result<bool, AllocError>
    requires { IsShort said.now }
{
    let mut sink = MemSink::new(vec![in alloc; 0; ROOM]?, ROOM, Vec::new(alloc));
    Ok(print(&mut sink, said).is_ok() && sink.written() == text.as_bytes())
}
