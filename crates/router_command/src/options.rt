//! What the command line says of a mesh, and of one server of a mesh.

ghost use Rattle.std.specs.Prelude.{◌≡◌, ◌≤◌, ◌<◌, ◌+◌, ◌*◌, IfOk, IfSome, Some, option_and_then};
ghost use Rattle.router_command.specs.Ranges.{range_of, AreNumbers, AreWithin, IsPath, AreNodeValues, IsDrainTime, IsLoopCount};
ghost use Rattle.std.specs.Result.{result_err};
ghost use Rattle.router_command.specs.Levels.{level_named};
ghost use Rattle.router_command.specs.Refusals.{given_fault, path_fault, ports_fault, loops_fault, value_fault, name_fault, node_fault};

use log::LevelFilter;
use std::fmt;
use std::fmt::{Display, Formatter, Write};
use subj::{Incarnation, MAX_INCARNATION, MAX_NODE_NAME, MAX_NODES, MAX_SHARDS, NodeId};

/// The most seconds that a drain may take.
pub const MOST_DRAIN_SECONDS: u64 = 3_600;

/// The most bytes of the path of a socket: the system has room for one more, which ends it.
pub const MOST_PATH_BYTES: usize = 107;

/// An option of the command line.
#[derive(Clone, Copy)]
pub enum OptionName {
    Nodes,
    Port,
    Shards,
    Inc,
    StopAfter,
    LeastInc,
    Loops,
    DrainSeconds,
}

impl OptionName {
    /// How it is spelt.
    pub fn text(self) -> &'static str {
        match self {
            OptionName::Nodes => "--nodes",
            OptionName::Port => "--port",
            OptionName::Shards => "--shards",
            OptionName::Inc => "--inc",
            OptionName::StopAfter => "--stop-after",
            OptionName::LeastInc => "--least-inc",
            OptionName::Loops => "--loops",
            OptionName::DrainSeconds => "--drain-seconds",
        }
    }

    /// The least value that it takes, and the greatest.
    pub fn range(self) -> (u64, u64)
        ensures { result ≡ range_of self }
    {
        let most = match self {
            OptionName::Nodes => MAX_NODES,
            OptionName::Port => u16::MAX as u64,
            OptionName::Shards | OptionName::Loops => MAX_SHARDS,
            OptionName::Inc | OptionName::LeastInc => MAX_INCARNATION,
            OptionName::StopAfter => u64::MAX,
            OptionName::DrainSeconds => MOST_DRAIN_SECONDS,
        };
        (1, most)
    }
}

/// Why the options are none. (Profile.)
#[derive(Clone, Copy)]
pub enum OptionFault {
    /// The value of the option is not in its range.
    BadValue(OptionName),
    /// The last port would be above the greatest one.
    TooManyPorts,
    /// Each server would have more loops than shards.
    TooManyLoops,
    /// The text is no level of what standard error tells.
    NoLevel,
    /// The path of the socket is empty, or has more than [`MOST_PATH_BYTES`].
    BadPath,
    /// The text is no name of a server.
    BadName,
}

impl Display for OptionFault {
    fn fmt<W: Write>(&self, f: &mut Formatter<W>) -> fmt::Result {
        match self {
            OptionFault::BadValue(name) => {
                let (least, most) = name.range();
                write!(f, "{} takes a number from {least} to {most}", name.text())
            }
            OptionFault::TooManyPorts => write!(
                f,
                "the last port, that of --port and 2 * --nodes - 1 more, is above {}",
                u16::MAX
            ),
            OptionFault::TooManyLoops => {
                f.write_str("--loops is above --shards: each loop has a shard of its own")
            }
            OptionFault::NoLevel => f.write_str("--log-level takes error, warn, info or debug"),
            OptionFault::BadPath => {
                write!(f, "--control takes a path of 1 to {MOST_PATH_BYTES} bytes")
            }
            OptionFault::BadName => write!(
                f,
                "NAME takes a name of 1 to {MAX_NODE_NAME} ASCII letters, digits, - and _"
            ),
        }
    }
}

/// What the command line says of a mesh: each number and text as it was given.
#[derive(Clone, Copy)]
pub struct Given<'a> {
    pub nodes: u64,
    pub port: u64,
    pub shards: u64,
    pub inc: u64,
    pub word: u64,
    pub stop_after: Option<u64>,
    pub loops: u64,
    pub log_level: &'a str,
    pub drain_seconds: u64,
    pub control: Option<&'a str>,
}

/// What a mesh is told: N servers, the first port P, K shards each, their incarnation I, the seed R, after
/// how many clients it ends, how many loops share a server's shards, which events standard error tells, how many seconds a drain may take, and at
/// which path it is told to drain, where it is. (Profile.)
#[derive(Clone, Copy)]
pub struct Options<'a> {
    pub nodes: u16,
    pub port: u16,
    pub shards: u64,
    pub inc: Incarnation,
    pub word: u64,
    pub stop_after: Option<u64>,
    pub loops: u64,
    pub log_level: LevelFilter,
    pub drain_seconds: u64,
    pub control: Option<&'a str>,
}

/// The level that a text names.
pub(crate) fn level_named(text: &str) -> Option<LevelFilter>
    ensures { result ≡ level_named text.now }
{
    if text == "error" {
        Some(LevelFilter::Error)
    } else if text == "warn" {
        Some(LevelFilter::Warn)
    } else if text == "info" {
        Some(LevelFilter::Info)
    } else if text == "debug" {
        Some(LevelFilter::Debug)
    } else {
        None
    }
}

/// The value of an option, where it is in its range.
#[tactic(auto, unfolding(crate::specs::Refusals::value_fault))]
pub(crate) fn within(value: u64, name: OptionName) -> Result<u64, OptionFault>
    ensures range { IfOk result (λ taken.
        ((range_of name).0 ≤ taken) × (taken ≤ (range_of name).1)) }
    ensures same { IfOk result (λ taken. taken ≡ value) }
    ensures refused { result_err result ≡ value_fault name value }
{
    let (least, most) = name.range();
    if value < least || value > most {
        return Err(OptionFault::BadValue(name));
    }
    Ok(value)
}

/// Refused where there is a number of clients that is out of its range.
fn stop_within(stop_after: Option<u64>) -> Result<(), OptionFault>
    ensures { result_err result
        ≡ option_and_then (λ count. value_fault OptionName.StopAfter count) stop_after }
{
    if let Some(count) = stop_after {
        within(count, OptionName::StopAfter)?;
    }
    Ok(())
}

/// Refused where the last port would be above the greatest one.
#[tactic(auto, unfolding(crate::specs::Refusals::ports_fault))]
fn ports_within(port: u16, nodes: u16) -> Result<(), OptionFault>
    requires { 1 ≤ nodes }
    ensures last { IfOk result (λ _. port + 2 * nodes ≤ 65536) }
    ensures refused { result_err result ≡ ports_fault port nodes }
{
    if port as u64 + 2 * nodes as u64 - 1 > u16::MAX as u64 {
        return Err(OptionFault::TooManyPorts);
    }
    Ok(())
}

/// Refused where a server would have more loops than shards.
#[tactic(auto, unfolding(crate::specs::Refusals::loops_fault))]
fn loops_within(loops: u64, shards: u64) -> Result<(), OptionFault>
    ensures few { IfOk result (λ _. loops ≤ shards) }
    ensures refused { result_err result ≡ loops_fault loops shards }
{
    if loops > shards {
        return Err(OptionFault::TooManyLoops);
    }
    Ok(())
}

/// Refused where there is a path that the system does not take as that of a socket.
#[tactic(auto, unfolding(crate::specs::Refusals::path_fault))]
pub(crate) fn control_within(path: Option<&str>) -> Result<(), OptionFault>
    ensures taken { IfOk result (λ _. IfSome path.entry (λ text. IsPath text.now)) }
    ensures refused { result_err result ≡ option_and_then (λ text. path_fault text.now) path.entry }
{
    let Some(path) = path else {
        return Ok(());
    };
    if path.is_empty() || path.len() > MOST_PATH_BYTES {
        return Err(OptionFault::BadPath);
    }
    Ok(())
}

impl<'a> Options<'a> {
    /// The options of these numbers, this level and this path. Refused by the first number that is out of its range, in the order of
    /// [`OptionName`], then where the last port would be above the greatest one, then where there are more loops than shards, then where the text
    /// names no level, and then where the path of the socket is empty or too long. (Profile.)
    pub fn new(given: Given<'a>) -> Result<Options<'a>, OptionFault>
        ensures within { IfOk result AreWithin }
        ensures level { IfOk result (λ options.
            level_named given.entry.log_level.now ≡ Some options.log_level) }
        ensures numbers { IfOk result (λ options. AreNumbers given.entry options) }
        ensures seconds { IfOk result (λ options.
            options.drain_seconds ≡ given.entry.drain_seconds) }
        ensures control { IfOk result (λ options. options.control ≡ given.entry.control) }
        ensures refused { result_err result ≡ given_fault given.entry }
    {
        let nodes = within(given.nodes, OptionName::Nodes)? as u16;
        let port = within(given.port, OptionName::Port)? as u16;
        let shards = within(given.shards, OptionName::Shards)?;
        let Some(inc) = Incarnation::new(given.inc) else {
            return Err(OptionFault::BadValue(OptionName::Inc));
        };
        stop_within(given.stop_after)?;
        let loops = within(given.loops, OptionName::Loops)?;
        let drain_seconds = within(given.drain_seconds, OptionName::DrainSeconds)?;
        ports_within(port, nodes)?;
        loops_within(loops, shards)?;
        let Some(log_level) = level_named(given.log_level) else {
            return Err(OptionFault::NoLevel);
        };
        control_within(given.control)?;
        Ok(Options {
            nodes,
            port,
            shards,
            inc,
            word: given.word,
            stop_after: given.stop_after,
            loops,
            log_level,
            drain_seconds,
            control: given.control,
        })
    }

    /// The port where clients of the server at this place, counted from 0, connect.
    pub fn client_port(&self, place: u16) -> u16
        requires within { AreWithin self.now }
        requires place { place < self.now.nodes }
        ensures { result ≡ self.now.port + place }
    {
        self.port + place
    }

    /// The port where other servers connect to the server at this place, counted from 0.
    pub fn route_port(&self, place: u16) -> u16
        requires within { AreWithin self.now }
        requires place { place < self.now.nodes }
        ensures { result ≡ self.now.port + self.now.nodes + place }
    {
        self.port + self.nodes + place
    }
}

/// What the command line says of one server of a mesh: each text and number as it was given.
#[derive(Clone, Copy)]
pub struct NodeGiven<'a> {
    pub name: &'a str,
    pub mesh: &'a str,
    pub state: &'a str,
    pub least_inc: Option<u64>,
    pub loops: u64,
    pub log_level: &'a str,
    pub drain_seconds: u64,
    pub control: Option<&'a str>,
}

/// What one server of a mesh is told: its name, the path of the file that describes the mesh, the
/// path of the folder that keeps its incarnation, a first incarnation, where there is one, how many
/// loops share its shards, 1 to [`MAX_SHARDS`], which events standard error tells, how many seconds
/// a drain may take, 1 to [`MOST_DRAIN_SECONDS`](crate::MOST_DRAIN_SECONDS), and at which path it is
/// told to drain, where it is. (Profile.)
#[derive(Clone, Copy)]
pub struct NodeOptions<'a> {
    pub name: NodeId,
    pub mesh: &'a str,
    pub state: &'a str,
    pub least_inc: Option<Incarnation>,
    pub loops: u64,
    pub log_level: LevelFilter,
    pub drain_seconds: u64,
    pub control: Option<&'a str>,
}

/// The name of a server that a text is.
#[tactic(auto, unfolding(crate::specs::Refusals::name_fault))]
fn name_read(text: &str) -> Result<NodeId, OptionFault>
    ensures same { IfOk result (λ name. name ≡ text.now) }
    ensures refused { result_err result ≡ name_fault text.now }
{
    match NodeId::read(text.as_bytes()) {
        Ok(name) => Ok(name),
        Err(_) => Err(OptionFault::BadName),
    }
}

/// The first incarnation of this number, where there is one: refused where it is out of its range.
#[tactic(auto, unfolding(crate::specs::Refusals::value_fault))]
fn least_inc_within(number: Option<u64>) -> Result<Option<Incarnation>, OptionFault>
    ensures same { IfOk result (λ least_inc. least_inc ≡ number) }
    ensures refused { result_err result ≡ option_and_then (value_fault OptionName.LeastInc) number }
{
    let Some(number) = number else {
        return Ok(None);
    };
    match Incarnation::new(number) {
        Some(inc) => Ok(Some(inc)),
        None => Err(OptionFault::BadValue(OptionName::LeastInc)),
    }
}

impl<'a> NodeOptions<'a> {
    /// The options of these texts and numbers. Refused where the name is none of a server, then by
    /// the first number that is out of its range, in the order of [`OptionName`], then where the
    /// text names no level, and then where the path of the socket is empty or too long. (Profile.)
    pub fn new(given: NodeGiven<'a>) -> Result<NodeOptions<'a>, OptionFault>
        ensures time { IfOk result (λ options. IsDrainTime options.drain_seconds) }
        ensures loops { IfOk result (λ options. IsLoopCount options.loops) }
        ensures values { IfOk result (λ options. AreNodeValues given.entry options) }
        ensures refused { result_err result ≡ node_fault given.entry }
    {
        let name = name_read(given.name)?;
        let least_inc = least_inc_within(given.least_inc)?;
        let loops = within(given.loops, OptionName::Loops)?;
        let drain_seconds = within(given.drain_seconds, OptionName::DrainSeconds)?;
        let Some(log_level) = level_named(given.log_level) else {
            return Err(OptionFault::NoLevel);
        };
        control_within(given.control)?;
        Ok(NodeOptions {
            name,
            mesh: given.mesh,
            state: given.state,
            least_inc,
            loops,
            log_level,
            drain_seconds,
            control: given.control,
        })
    }
}
