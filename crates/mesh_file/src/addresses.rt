//! Addresses, where clients and other servers connect, and names of hosts.

ghost use Rattle.std.specs.Prelude.{◌≡◌, false, MatchOption, ◌≤◌, not, nat_eq, IfSome, None, option_map};
ghost use Rattle.std.specs.List.{list_all};
ghost use Rattle.subj.specs.Names.{tokens};
ghost use Rattle.mesh_file.specs.Hosts.{is_label_byte as label_byte, is_label as label_of_name, is_host_name as name_of_host, IsHostName, has_letter as some_letter};
ghost use Rattle.std.specs.Str.{bytes_eq};
ghost use Rattle.std.specs.Net.Addr.{ipv4_octets};
ghost use Rattle.std.specs.Net.Socket.{socket_scope_id};
ghost use Rattle.mesh_file.specs.Addresses.{IsSocket, IsNoSocket, IsNamed, IsRoute, IsNoRoute, IsHost, named_address as address_named, port_of, octets_in, segments_in, is_wildcard as wildcard, is_loopback as loopback, is_same_ip as same_ip, is_same_host as same_host, is_same_route as same_route, is_same_clients as same_clients, is_at as host_is_at, may_clash as clash};
ghost use Rattle.mesh_file.specs.Entries.{IsNoHost};

use line_fields::read_digits;
use std::fmt;
use std::fmt::{Display, Formatter, Write};
use std::net::{IpAddr, Ipv4Addr, SocketAddr};
use subj::{HostText, MAX_HOST, split_token};

/// The most bytes of a label of a host's name: of a part between its dots. (RFC 1035, 2.3.4.)
pub const MAX_LABEL: usize = 63;

/// Whether a label may have the byte.
fn is_label_byte(byte: u8) -> bool
    ensures { result ≡ label_byte byte }
{
    byte.is_ascii_alphanumeric() || byte == b'-'
}

/// Whether a label may have each of the bytes.
fn are_label_bytes(label: &[u8]) -> bool
    ensures { result ≡ list_all label_byte label.now }
{
    label.iter().all(|byte| is_label_byte(*byte))
}

/// Whether the bytes are a label.
fn is_label(label: &[u8]) -> bool
    ensures { result ≡ label_of_name label.now }
{
    if label.is_empty() || label.len() > MAX_LABEL {
        return false;
    }
    if label[0] == b'-' || label[label.len() - 1] == b'-' {
        return false;
    }
    are_label_bytes(label)
}

/// Whether all parts between the dots of a text are labels.
fn are_labels(text: &[u8]) -> bool
    ensures { result ≡ list_all label_of_name (tokens text.now) }
{
    let (label, rest) = split_token(text);
    if !is_label(label) {
        return false;
    }
    match rest {
        None => true,
        Some(rest) => are_labels(rest),
    }
}

/// Whether there is a letter.
fn has_letter(text: &[u8]) -> bool
    ensures { result ≡ some_letter text.now }
{
    text.iter().any(|byte| byte.is_ascii_alphabetic())
}

/// Whether the bytes are the name of a host: 1 to [`MAX_HOST`] of them, labels of 1 to [`MAX_LABEL`] letters, digits and `-` with dots
/// between them, none of which begins or ends with `-`. One byte is a letter, so that an IPv4 address with a slip of the pen is no
/// name. (RFC 1123, 2.1.)
pub(crate) fn is_host_name(text: &[u8]) -> bool
    ensures { result ≡ name_of_host text.now }
{
    text.len() <= MAX_HOST && has_letter(text) && are_labels(text)
}

/// The name of a host, or None just where the text is none. Takes no memory.
pub(crate) fn host_name(text: &str) -> Option<HostText>
    ensures { MatchOption result (name_of_host text.now ≡ false)
        (λ name. (name.bytes ≡ text.now) × IsHostName name.bytes) }
{
    if !is_host_name(text.as_bytes()) {
        return None;
    }
    HostText::from(text).ok()
}

/// The most digits of a port behind a host's name.
const PORT_DIGITS: usize = 5;

/// The host of a server's routes: an IP address, or a name that the system resolves.
#[derive(Clone, Copy)]
pub enum RouteHost {
    Ip(IpAddr),
    Name(HostText),
}

/// Where the other servers connect to a server: a host and a port. Of a server of a mesh, the host is no wildcard address, and the port is
/// from 1.
#[derive(Clone, Copy)]
pub struct RouteAddress {
    pub host: RouteHost,
    pub port: u16,
}

impl Display for RouteAddress {
    fn fmt<W: Write>(&self, f: &mut Formatter<W>) -> fmt::Result {
        let port = self.port;
        match self.host {
            RouteHost::Ip(ip) => write!(f, "{}", SocketAddr::new(ip, port)),
            RouteHost::Name(name) => write!(f, "{name}:{port}"),
        }
    }
}

/// Whether an IPv6 address has a zone: it is of one link of the machine alone. (RFC 4007, 6.)
fn has_scope(address: SocketAddr) -> bool
    ensures { result ≡ not (nat_eq (socket_scope_id address) 0) }
{
    match address {
        SocketAddr::V4(_) => false,
        SocketAddr::V6(address) => address.scope_id() != 0,
    }
}

/// An IP address and a port from 1, without a zone. None just where the text is no such address.
pub(crate) fn socket_address(text: &str) -> Option<SocketAddr>
    ensures { MatchOption result (IsNoSocket text.now) (IsSocket text.now) }
{
    let Ok(address) = text.parse::<SocketAddr>() else {
        return None;
    };
    if address.port() == 0 || has_scope(address) {
        return None;
    }
    Some(address)
}

/// A port from 1. None just where the digits write none.
fn port(digits: &str) -> Option<u16>
    ensures same { result ≡ port_of digits.now }
    ensures some { IfSome result (λ number. 1 ≤ number) }
{
    match read_digits(digits.as_bytes(), PORT_DIGITS) {
        Some(number) if number > 0 && number <= u16::MAX as u64 => Some(number as u16),
        _ => None,
    }
}

/// A host's name and a port from 1. None just where the text is none.
fn named_address(text: &str) -> Option<RouteAddress>
    ensures same { MatchOption result (address_named text.now ≡ None)
        (λ route. IsNamed text.now route.host route.port) }
    ensures some { IfSome result (λ route. 1 ≤ route.port) }
{
    let (host, digits) = text.split_once(':')?;
    let name = host_name(host)?;
    let port = port(digits)?;
    Some(RouteAddress {
        host: RouteHost::Name(name),
        port,
    })
}

/// Where other servers connect: an IP address or the name of a host, and a port from 1. None just where the text is neither.
pub(crate) fn route_address(text: &str) -> Option<RouteAddress>
    ensures same { MatchOption result (IsNoRoute text.now) (IsRoute text.now) }
    ensures some { IfSome result (λ route. 1 ≤ route.port) }
{
    match socket_address(text) {
        Some(address) => Some(RouteAddress {
            host: RouteHost::Ip(address.ip()),
            port: address.port(),
        }),
        None => named_address(text),
    }
}

/// A host's name, or an IP address without brackets. None just where the text is neither, or has more than [`MAX_HOST`](subj::MAX_HOST)
/// bytes.
pub(crate) fn advertised_host(text: &str) -> Option<HostText>
    ensures { MatchOption result (IsNoHost text.now)
        (λ host. (host.bytes ≡ text.now) × IsHost host.bytes) }
{
    let Ok(host) = HostText::from(text) else {
        return None;
    };
    if is_host_name(text.as_bytes()) || text.parse::<IpAddr>().is_ok() {
        return Some(host);
    }
    None
}

/// The IPv4 address, in its own form or in that of an IPv6 one (`::ffff:10.0.0.1`: RFC 4291, 2.5.5.2). None just where it is another.
fn ipv4_of(ip: IpAddr) -> Option<Ipv4Addr>
    ensures { option_map ipv4_octets result ≡ octets_in ip }
{
    match ip {
        IpAddr::V4(ip) => Some(ip),
        IpAddr::V6(ip) => ip.to_ipv4_mapped(),
    }
}

/// Whether the address stands for all of the machine.
pub(crate) fn is_wildcard(ip: IpAddr) -> bool
    ensures { result ≡ wildcard ip }
{
    match ipv4_of(ip) {
        Some(ipv4) => ipv4.is_unspecified(),
        None => ip.is_unspecified(),
    }
}

fn is_loopback(ip: IpAddr) -> bool
    ensures { result ≡ loopback ip }
{
    match ipv4_of(ip) {
        Some(ipv4) => ipv4.is_loopback(),
        None => ip.is_loopback(),
    }
}

/// Whether both are the same IPv6 address.
fn is_same_ipv6(a: IpAddr, b: IpAddr) -> bool
    requires { (octets_in a ≡ None) × (octets_in b ≡ None) }
    ensures { result ≡ bytes_eq (segments_in a) (segments_in b) }
{
    match (a, b) {
        (IpAddr::V6(a), IpAddr::V6(b)) => a.segments() == b.segments(),
        _ => false,
    }
}

/// Whether both are the same address; one of IPv4 is the same in either form.
fn is_same_ip(a: IpAddr, b: IpAddr) -> bool
    ensures { result ≡ same_ip a b }
{
    match (ipv4_of(a), ipv4_of(b)) {
        (Some(a), Some(b)) => a.octets() == b.octets(),
        (None, None) => is_same_ipv6(a, b),
        _ => false,
    }
}

fn is_same_host(a: &RouteHost, b: &RouteHost) -> bool
    ensures { result ≡ same_host a.now b.now }
{
    match (a, b) {
        (RouteHost::Ip(a), RouteHost::Ip(b)) => is_same_ip(*a, *b),
        (RouteHost::Name(a), RouteHost::Name(b)) => a.as_str().eq_ignore_ascii_case(b.as_str()),
        _ => false,
    }
}

/// Whether two servers have the same address for routes; the case of a name's letters is ignored.
pub(crate) fn is_same_route(a: &RouteAddress, b: &RouteAddress) -> bool
    ensures { result ≡ same_route a.now b.now }
{
    a.port == b.port && is_same_host(&a.host, &b.host)
}

/// Whether two servers have the same address for clients, which is that of one machine.
pub(crate) fn is_same_clients(a: SocketAddr, b: SocketAddr) -> bool
    ensures { result ≡ same_clients a b }
{
    let ip = a.ip();
    a.port() == b.port() && is_same_ip(ip, b.ip()) && !is_wildcard(ip) && !is_loopback(ip)
}

/// Whether the host is of this IP address.
fn is_at(host: &RouteHost, ip: IpAddr) -> bool
    ensures { result ≡ host_is_at host.now ip }
{
    match host {
        RouteHost::Ip(other) => is_same_ip(*other, ip),
        RouteHost::Name(_) => false,
    }
}

/// Whether the routes of a server want the port that its clients have.
pub(crate) fn may_clash(clients: SocketAddr, routes: &RouteAddress) -> bool
    ensures { result ≡ clash clients routes.now }
{
    let ip = clients.ip();
    clients.port() == routes.port && (is_wildcard(ip) || is_at(&routes.host, ip))
}
