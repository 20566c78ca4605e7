//! Names and addresses of hosts, as texts.

use arrayvec::ArrayString;

/// The most bytes of a host's name. (RFC 1123, 2.1; RFC 1035, 2.3.4.)
pub const MAX_HOST: usize = 253;

/// The text of a host: its name, or an IP address.
pub type HostText = ArrayString<MAX_HOST>;
