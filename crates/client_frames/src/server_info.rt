//! What a server tells all its clients of itself.

ghost use Rattle.std.specs.Prelude.{◌≡◌, IfOk};

use std::alloc::{AllocError, Global};
use std::marker::Model;
use std::sync::Arc;
use subj::{HostText, Incarnation, NodeId};

/// What is told of a server.
#[derive(Clone, Copy)]
struct ServerParts {
    name: NodeId,
    inc: Incarnation,
    host: HostText,
    port: u16,
}

/// What a server tells all its clients of itself. A copy shares all of it, behind one count, and takes no memory.
pub struct ServerInfo {
    shared: Arc<ServerParts, Global>,
}

/// One call, also for crates above: `docs/PROVING.md`, "What a proof costs".
impl Drop for ServerInfo {
    fn drop(self) {
        let ServerInfo { shared: _ } = self;
    }
}

impl Model for ServerInfo {
    ghost use Rattle.std.specs.Arc.{arc_value};
    ghost use Rattle.client_frames.specs.ServerFacts.{ServerFacts};

    ghost Value = { ServerFacts };

    ghost view = { λ info. record {
      name = (arc_value info.shared).name;
      inc = (arc_value info.shared).inc;
      host = (arc_value info.shared).host.bytes;
      port = (arc_value info.shared).port;
    } };
}

impl ServerInfo {
    /// A server of this name in this of its lives, which takes clients of this host at this port; the port is 0 where it takes none.
    pub fn new(
        alloc: Global,
        name: NodeId,
        inc: Incarnation,
        host: HostText,
        port: u16,
    ) -> Result<ServerInfo, AllocError>
        ensures { IfOk result (λ info.
            info ≡ record { name = name; inc = inc; host = host.bytes; port = port }) }
    {
        let parts = ServerParts {
            name,
            inc,
            host,
            port,
        };
        let shared = Arc::new(alloc, parts)?;
        Ok(ServerInfo { shared })
    }

    /// The server's name.
    pub fn name(&self) -> NodeId
        ensures { result ≡ self.now.name }
    {
        self.shared.name
    }

    /// Which of its lives this is.
    pub fn inc(&self) -> Incarnation
        ensures { result ≡ self.now.inc }
    {
        self.shared.inc
    }

    /// The host where it takes clients.
    pub fn host(&self) -> &str
        ensures { result.now ≡ self.now.host }
    {
        self.shared.host.as_str()
    }

    /// The port where it takes clients; 0 where it takes none.
    pub fn port(&self) -> u16
        ensures { result ≡ self.now.port }
    {
        self.shared.port
    }

    /// A copy that shares all of it.
    pub fn try_clone(&self) -> Result<ServerInfo, AllocError>
        ensures { IfOk result (λ info. info ≡ self.now) }
    {
        let shared = Arc::try_clone(&self.shared)?;
        Ok(ServerInfo { shared })
    }
}
