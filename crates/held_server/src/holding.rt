//! What stands behind a handle.

use mu_server::Server;
use ordered_eras::OrderedEras;

/// What a C program holds by a handle: a server over an engine without an end.
pub struct Held {
    /// The server.
    pub(crate) server: Server<OrderedEras>,
}

/// Written by hand, so that whoever drops what is held calls one function: a server has many parts,
/// whose drops would be proved at each place at which one is dropped.
impl Drop for Held {
    fn drop(self) {
        let Held { server } = self;
        let_server_go(server);
    }
}

/// Drops a server.
fn let_server_go(_server: Server<OrderedEras>) {}
