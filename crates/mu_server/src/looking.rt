//! What stands in front of the bytes of a connection.
ghost use Rattle.std.specs.Prelude.{◌≡◌, [], IfOk};
ghost use Rattle.mu_server.specs.Looking.{Sees};

use mu_redis::{Asked, asking_of, put_alone};
use mu_resp::{Fault, Stop, request, what_is_read_is_spelled_so};
use std::alloc::AllocError;

/// What stands in front of bytes.
#[derive(Clone, Copy)]
pub enum Look {
    /// Less than a whole request.
    Short,
    /// No request.
    Wrong(Fault),
    /// A request: what it asks, and how many bytes it has.
    Request(Asked, usize),
}

/// What stands in front of the bytes. Puts what is told to it without the store, if it is a
/// request.
pub(crate) fn look_at(bytes: &[u8], replicas: u8, text: &mut Vec<u8>) -> Result<Look, AllocError>
    requires { text.old.items ≡ [] }
    ensures { IfOk result (λ look. Sees replicas bytes.now look text.new.items) }
{
    match request(bytes) {
        Ok((words, rest)) => {
            // The bytes are those of the request, and the rest.
            what_is_read_is_spelled_so();
            let asked = asking_of(words.as_slice(), replicas);
            put_alone(text, &asked, words.as_slice())?;
            Ok(Look::Request(asked, bytes.len() - rest.len()))
        }
        Err(Stop::Short) => Ok(Look::Short),
        Err(Stop::Wrong(fault)) => Ok(Look::Wrong(fault)),
    }
}
