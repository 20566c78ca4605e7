//! Meshes of servers over sockets of this machine, and clients that wait for what they read.

ghost use Rattle.router_command.specs.Ranges.{AreWithin};

use mesh_serve::{ServeFault, ready_line, serve};
use rand_core::SeedableRng;
use rand_core::utils::NextWord;
use rand_pcg::Pcg64;
use router_command::{Given, Options};
use std::alloc::Global;
use std::io::{BufRead, BufReader, Read, Write};
use std::net::{Ipv4Addr, Net, SocketAddr, TcpListener, TcpStream};
use std::process::Abort;
use std::rt::Clock;
use std::test::Fail;
use std::thread::join;
use std::time::Duration;
use std::{io, thread};

/// How often a client tries to connect.
const TRIES: usize = 500;

/// How long a client waits between two tries, and how long for bytes, in milliseconds.
const PAUSE: u64 = 10;

const PATIENCE: u64 = 20_000;

/// A client of a server of this machine.
type Client = BufReader<TcpStream>;

/// Connects to this port, as soon as something listens there.
fn stream_to<R: Net<Stream = TcpStream> + Clock>(rt: &R, port: u16) -> Option<TcpStream> {
    let address = SocketAddr::from((Ipv4Addr::LOCALHOST, port));
    for _try in 0..TRIES {
        if let Ok(stream) = TcpStream::connect(rt, address) {
            return Some(stream);
        }
        thread::sleep(rt, Duration::from_millis(PAUSE));
    }
    None
}

/// A client that has said nothing yet.
fn connected<R: Net<Stream = TcpStream> + Clock + Abort>(
    rt: &R,
    alloc: Global,
    port: u16,
) -> Client {
    let stream = stream_to(rt, port).expect(rt, "a connection");
    let patience = Some(Duration::from_millis(PATIENCE));
    assert!(rt; stream.set_read_timeout(patience).is_ok());
    BufReader::new(alloc, stream).ok().expect(rt, "memory")
}

/// A client that wants no `+OK`, and that the server has answered.
fn greeted<R: Net<Stream = TcpStream> + Clock + Abort>(rt: &R, alloc: Global, port: u16) -> Client {
    let mut client = connected(rt, alloc, port);
    send(rt, &client, b"CONNECT {\"verbose\":false}\r\n");
    let _first = heard(rt, alloc, &mut client);
    client
}

/// Sends these bytes.
fn send<R: Abort>(rt: &R, client: &Client, bytes: &[u8]) {
    assert!(rt; client.get_ref().write_all(bytes).is_ok());
}

/// Reads the next line.
fn read_line<R: Abort>(rt: &R, client: &mut Client, line: &mut Vec<u8>) {
    line.clear();
    let count = client.read_until(b'\n', line).ok();
    assert!(rt; count.expect(rt, "a line") > 0);
}

/// The number that the line is.
fn number_in(line: &[u8]) -> Option<u64> {
    str::from_utf8(line).ok()?.trim_end().parse::<u64>().ok()
}

/// The numbers that came as payloads before the answer to a PING that is sent now: the lines that are digits alone.
fn heard<R: Abort>(rt: &R, alloc: Global, client: &mut Client) -> Vec<u64> {
    send(rt, client, b"PING\r\n");
    let mut all = Vec::new(alloc);
    let mut line = Vec::new(alloc);
    for _line in 0..u64::MAX {
        read_line(rt, client, &mut line);
        if line.as_slice() == b"PONG\r\n".as_slice() {
            break;
        }
        if let Some(number) = number_in(line.as_slice()) {
            assert!(rt; all.push(number).is_ok());
        }
    }
    all
}

/// Reads until the server closes the connection; a failed read is an end too, but none that has waited too long.
fn ends(client: &Client) -> bool {
    let mut buffer = [0; 4_096];
    for _read in 0..u64::MAX {
        match client.get_ref().read(&mut buffer) {
            Ok(0) => return true,
            Ok(_) => {}
            Err(error) => {
                return !matches!(
                    error.kind(),
                    io::ErrorKind::WouldBlock | io::ErrorKind::TimedOut
                );
            }
        }
    }
    false
}

/// Publishes the number, below 10,000.
fn publish<R: Abort>(rt: &R, alloc: Global, says: &Client, number: u64) {
    let bytes = format!(in alloc; "PUB foo 4\r\n{number:04}\r\n").ok();
    send(rt, says, bytes.expect(rt, "memory").as_bytes());
}

/// The last of these numbers, which rise from 0 on; 0 where there are none.
fn last_of<R: Abort>(rt: &R, numbers: &[u64]) -> u64 {
    let mut last = 0;
    for number in numbers {
        assert!(rt; *number > last);
        last = *number;
    }
    last
}

/// The first client publishes until a message comes to the second one.
fn publishes_until_heard<R: Clock + Abort>(
    rt: &R,
    alloc: Global,
    says: &mut Client,
    hears: &mut Client,
) -> bool {
    for number in 1..1_001 {
        publish(rt, alloc, says, number);
        let _none = heard(rt, alloc, says);
        if last_of(rt, heard(rt, alloc, hears).as_slice()) > 0 {
            return true;
        }
        thread::sleep(rt, Duration::from_millis(1));
    }
    false
}

/// How many large messages are published, and how many bytes each has.
const LARGE: usize = 80;

const LARGE_BYTES: usize = 100_000;

/// Publishes more than a socket takes.
fn publishes_large<R: Abort>(rt: &R, alloc: Global, says: &mut Client) {
    let payload = vec![in alloc; b'a'; LARGE_BYTES].ok().expect(rt, "memory");
    for _message in 0..LARGE {
        send(rt, says, b"PUB foo 100000\r\n");
        send(rt, says, payload.as_slice());
        send(rt, says, b"\r\n");
    }
    let _none = heard(rt, alloc, says);
}

/// Reads all that was published so, and nothing else.
fn hears_large<R: Abort>(rt: &R, alloc: Global, hears: &mut Client) {
    let mut line = Vec::new(alloc);
    for _message in 0..LARGE {
        read_line(rt, hears, &mut line);
        assert!(rt; line.as_slice() == b"MSG foo 1 100000\r\n".as_slice());
        read_line(rt, hears, &mut line);
        assert!(rt; line.len() == LARGE_BYTES + 2);
    }
    assert!(rt; heard(rt, alloc, hears).is_empty());
}

/// One client subscribes at the second server, another one publishes at the first, until a message comes, and then large ones, while the first
/// one reads nothing.
fn hears_the_other<R: Net<Stream = TcpStream> + Clock + Abort>(rt: &R, alloc: Global) {
    let mut hears = greeted(rt, alloc, 17_411);
    send(rt, &hears, b"SUB foo 1\r\n");
    let _none = heard(rt, alloc, &mut hears);
    let mut says = greeted(rt, alloc, 17_410);
    assert!(rt; publishes_until_heard(rt, alloc, &mut says, &mut hears));
    publishes_large(rt, alloc, &mut says);
    hears_large(rt, alloc, &mut hears);
}

/// A member of the queue group at the server of this port.
fn member<R: Net<Stream = TcpStream> + Clock + Abort>(rt: &R, alloc: Global, port: u16) -> Client {
    let mut member = greeted(rt, alloc, port);
    send(rt, &member, b"SUB foo crew 7\r\n");
    let _none = heard(rt, alloc, &mut member);
    member
}

/// A member at each of three servers.
fn members<R: Net<Stream = TcpStream> + Clock + Abort>(rt: &R, alloc: Global) -> Vec<Client> {
    let mut members = Vec::new(alloc);
    for port in 17_420..17_423 {
        assert!(rt; members.push(member(rt, alloc, port)).is_ok());
    }
    members
}

/// Counts how often each number was heard, by the members together: how many of them have heard one now.
fn count<R: Abort>(rt: &R, alloc: Global, members: &mut [Client], times: &mut [u64]) -> u64 {
    let mut served = 0_u64;
    for member in members {
        let numbers = heard(rt, alloc, member);
        served = served.saturating_add(u64::from(!numbers.is_empty()));
        for number in &numbers {
            if let Some(time) = times.get_mut(*number as usize) {
                *time = time.saturating_add(1);
            }
        }
    }
    served
}

/// Publishes 0 until each of the three members has heard it, and until no more of it comes.
fn warms_up<R: Clock + Abort>(
    rt: &R,
    alloc: Global,
    says: &mut Client,
    members: &mut [Client],
    times: &mut [u64],
) {
    let mut served = 0;
    for _try in 0..1_000 {
        for _message in 0..30 {
            publish(rt, alloc, says, 0);
        }
        let _none = heard(rt, alloc, says);
        thread::sleep(rt, Duration::from_millis(20));
        served = count(rt, alloc, members, times);
        if served == 3 {
            break;
        }
    }
    assert_eq!(rt; served, 3);
    thread::sleep(rt, Duration::from_millis(300));
    count(rt, alloc, members, times);
}

/// Publishes 1 to 1,000, and waits until each came, and a while longer.
fn publishes_all<R: Clock + Abort>(
    rt: &R,
    alloc: Global,
    says: &mut Client,
    members: &mut [Client],
    times: &mut [u64],
) {
    for number in 1..1_001 {
        publish(rt, alloc, says, number);
    }
    for _try in 0..1_000 {
        count(rt, alloc, members, times);
        if !times.contains(&0) {
            break;
        }
        thread::sleep(rt, Duration::from_millis(5));
    }
    thread::sleep(rt, Duration::from_millis(50));
    count(rt, alloc, members, times);
}

/// A queue group with a member at each of three servers is served each of a thousand messages once.
fn serves_once<R: Net<Stream = TcpStream> + Clock + Abort>(rt: &R, alloc: Global) {
    let mut members = members(rt, alloc);
    let mut says = greeted(rt, alloc, 17_420);
    let mut times = [0_u64; 1_001];
    warms_up(rt, alloc, &mut says, members.as_mut_slice(), &mut times);
    publishes_all(rt, alloc, &mut says, members.as_mut_slice(), &mut times);
    assert!(rt; times.iter().skip(1).all(|time| *time == 1));
}

/// Ten thousand bytes of noise.
fn noise_bytes<R: Abort>(rt: &R, alloc: Global) -> Vec<u8> {
    let mut random = Pcg64::seed_from_u64(1);
    let mut noise = Vec::new(alloc);
    for _byte in 0..10_000 {
        assert!(rt; noise.push((random.next_word() & 0xff) as u8).is_ok());
    }
    noise
}

/// Noise to a client port or to a route port, of which the server takes what it likes: the connection ends.
fn ends_by_noise<R: Net<Stream = TcpStream> + Clock + Abort>(
    rt: &R,
    alloc: Global,
    port: u16,
    noise: &[u8],
) {
    let client = connected(rt, alloc, port);
    let _taken = client.get_ref().write_all(noise);
    assert!(rt; ends(&client));
}

/// Noise to client ports and to route ports; another client is served before and after.
fn makes_noise<R: Net<Stream = TcpStream> + Clock + Abort>(rt: &R, alloc: Global) {
    let noise = noise_bytes(rt, alloc);
    let mut stays = greeted(rt, alloc, 17_430);
    for port in 17_430..17_434 {
        ends_by_noise(rt, alloc, port, noise.as_slice());
        let _none = heard(rt, alloc, &mut stays);
    }
}

/// The lines that three servers tell their first clients of themselves.
const INFOS: [&str; 3] = [
    "INFO {\"client_id\":1,\"headers\":true,\"host\":\"127.0.0.1\",\"max_payload\":1048576,\"port\":17450,\
    \"proto\":1,\"server_id\":\"n1-1\",\"server_name\":\"n1\",\"version\":\"1.0.0\"}\r\n",
    "INFO {\"client_id\":1,\"headers\":true,\"host\":\"127.0.0.1\",\"max_payload\":1048576,\"port\":17451,\
    \"proto\":1,\"server_id\":\"n2-1\",\"server_name\":\"n2\",\"version\":\"1.0.0\"}\r\n",
    "INFO {\"client_id\":1,\"headers\":true,\"host\":\"127.0.0.1\",\"max_payload\":1048576,\"port\":17452,\
    \"proto\":1,\"server_id\":\"n3-1\",\"server_name\":\"n3\",\"version\":\"1.0.0\"}\r\n",
];

/// Each of three servers is told by its own name and port to the first client that comes to it.
fn tell_of_themselves<R: Net<Stream = TcpStream> + Clock + Abort>(rt: &R, alloc: Global) {
    let mut line = Vec::new(alloc);
    for port in 17_450..17_453 {
        let mut client = connected(rt, alloc, port);
        read_line(rt, &mut client, &mut line);
        assert!(rt; line.as_slice() == INFOS[(port - 17_450) as usize].as_bytes());
    }
}

/// The options of a mesh of so many servers, with so many loops for two shards each, which ends after so many clients.
fn options(rt: &impl Abort, nodes: u64, loops: u64, port: u64, stop_after: u64) -> Options<'static>
    ensures { AreWithin result }
{
    let given = Given {
        nodes,
        port,
        shards: 2,
        inc: 1,
        word: 0,
        stop_after: Some(stop_after),
        loops,
        log_level: "error",
        drain_seconds: 30,
        control: None,
    };
    match Options::new(given) {
        Ok(options) => options,
        Err(fault) => panic!(rt; "{fault}"),
    }
}

#[test]
fn serve_two_nodes(rt: HostRuntime) {
    let alloc = rt.alloc();
    let options = options(&rt, 2, 1, 17_410, 2);
    let (served, ()) = join(
        &rt,
        || serve(&rt, alloc, &options).is_ok(),
        || hears_the_other(&rt, alloc),
    );
    assert!(rt; served);
}

/// Each server has two loops.
#[test]
fn a_queue_group_over_three_nodes(rt: HostRuntime) {
    let alloc = rt.alloc();
    let options = options(&rt, 3, 2, 17_420, 4);
    let (served, ()) = join(
        &rt,
        || serve(&rt, alloc, &options).is_ok(),
        || serves_once(&rt, alloc),
    );
    assert!(rt; served);
}

/// Each server has two loops.
#[test]
fn noise(rt: HostRuntime) {
    let alloc = rt.alloc();
    let options = options(&rt, 2, 2, 17_430, 3);
    let (served, ()) = join(
        &rt,
        || serve(&rt, alloc, &options).is_ok(),
        || makes_noise(&rt, alloc),
    );
    assert!(rt; served);
}

/// The line that standard output has of the first of these servers.
fn the_first_is_ready(rt: &impl Abort, alloc: Global) {
    let options = options(rt, 3, 1, 17_450, 3);
    let line = ready_line(alloc, &options, 0).ok().expect(rt, "a line");
    assert_eq!(rt;
        line.as_str(),
        "n1 clients 127.0.0.1:17450 routes 127.0.0.1:17453"
    );
}

/// Each server has a name and ports of its own: what the first line of standard output tells of n1, and what each tells its clients.
#[test]
fn servers_have_names_and_ports_of_their_own(rt: HostRuntime) {
    let alloc = rt.alloc();
    the_first_is_ready(&rt, alloc);
    let options = options(&rt, 3, 1, 17_450, 3);
    let (served, ()) = join(
        &rt,
        || serve(&rt, alloc, &options).is_ok(),
        || tell_of_themselves(&rt, alloc),
    );
    assert!(rt; served);
}

/// An address that is taken is told: port 17,441 is that of the first route, behind one of clients.
#[test]
fn a_port_that_is_taken(rt: HostRuntime) -> Result<(), Fail> {
    let alloc = rt.alloc();
    let options = options(&rt, 1, 1, 17_440, 1);
    let address = SocketAddr::from((Ipv4Addr::LOCALHOST, 17_441));
    let _taken = TcpListener::bind(&rt, address)?;
    let refused = serve(&rt, alloc, &options);
    assert!(rt;
        matches!(refused, Err(ServeFault::Address { address: told, .. }) if told == address)
    );
    Ok(())
}
