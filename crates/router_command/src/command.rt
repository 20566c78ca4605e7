//! What the command line asks for.

ghost use Rattle.std.specs.Prelude.{◌≡◌, IfErr, IfOk, IsSomeAnd, codes, map, true};
ghost use Rattle.std.specs.String.{string_bytes};
ghost use Rattle.clap.specs.Words.{App, FailsBy, Rule, fault_of, found_of, kind_of, new_app, new_rule, rows_of, subcommand_rows_of, takes, with_rule, with_subcommand};
ghost use Rattle.router_command.specs.Command.{AreNodeOptions, AreOptions, AskFor, HasNodeOptions, HasOptions, IsWhole, Names};
ghost use Rattle.router_command.specs.Line.{HasRule, IsLine, check_command, control_rule, drain_command, level_rule, loops_rule, match_command, node_command, number_rule, program, required_rule, router, script_command, seconds_rule, serve_command, text_rule, tools, with_running, with_value};

use crate::options::{Given, NodeGiven};
use clap::builder::ValueParser;
use clap::error::ErrorKind;
use clap::{Arg, ArgAction, ArgMatches, Error};
use std::alloc::{AllocError, Global};

/// What the command line asks for.
#[derive(Clone, Copy)]
pub enum Command<'a> {
    /// To serve one client on standard input and output.
    Pipe,
    /// To tell whether the pattern matches the subject.
    Match {
        pattern: &'a str,
        subject: &'a str,
    },
    /// To play the script on standard input, and perhaps to write what was published, subscribed and placed behind its text.
    Script {
        audit: bool,
    },
    /// To audit the log on standard input.
    Audit,
    /// To serve a mesh on sockets.
    Serve(Given<'a>),
    /// To have the servers drain that are controlled at this path, or the one of this name alone.
    Drain {
        path: &'a str,
        server: Option<&'a str>,
    },
    /// To serve one server of the mesh that a file describes.
    Node(NodeGiven<'a>),
    /// To tell what the file of a mesh means.
    Check {
        path: &'a str,
    },
}

/// The option of this name, which is a text.
fn text<'a>(alloc: Global, name: &'a str, value_name: &'a str, help: &'a str) -> Arg<'a>
    ensures { HasRule result (text_rule name.entry.now) }
{
    Arg::new(alloc, name)
        .long(name)
        .value_name(value_name)
        .help(help)
}

/// The option of this name, which is a number.
fn number<'a>(alloc: Global, name: &'a str, help: &'a str) -> Arg<'a>
    ensures { HasRule result (number_rule name.entry.now) }
{
    text(alloc, name, "N", help).value_parser(ValueParser::Unsigned(0, u64::MAX))
}

/// The word at a place of the line, which has to be there.
fn place<'a>(alloc: Global, name: &'a str, help: &'a str) -> Arg<'a>
    ensures { HasRule result (required_rule (new_rule name.entry.now)) }
{
    Arg::new(alloc, name).required(true).help(help)
}

/// The option of after how many clients a mesh ends.
fn stop_after<'a>(alloc: Global) -> Arg<'a>
    ensures { HasRule result (number_rule (codes "stop-after")) }
{
    number(
        alloc,
        "stop-after",
        "Ends once so many clients have come and all of them have gone",
    )
}

/// The option of how long a drain may take.
fn drain_seconds<'a>(alloc: Global) -> Arg<'a>
    ensures { HasRule result seconds_rule }
{
    number(
        alloc,
        "drain-seconds",
        "How many seconds a drain may take, 1 to 3600",
    )
    .default_value("30")
}

/// The option of how many loops share the shards of a server.
fn loops<'a>(alloc: Global) -> Arg<'a>
    ensures { HasRule result loops_rule }
{
    number(
        alloc,
        "loops",
        "How many threads share the shards of each server, 1 to its shards",
    )
    .default_value("1")
}

/// The option of how grave an event has to be to be told.
fn log_level<'a>(alloc: Global) -> Arg<'a>
    ensures { HasRule result level_rule }
{
    text(
        alloc,
        "log-level",
        "LEVEL",
        "What standard error tells: error, warn, info or debug",
    )
    .default_value("info")
}

/// The option of the path where servers are told to drain.
fn control<'a>(alloc: Global) -> Arg<'a>
    ensures { HasRule result control_rule }
{
    text(
        alloc,
        "control",
        "PATH",
        "Takes `drain` on a Unix socket at this path",
    )
}

/// The option of the file that describes a mesh.
fn mesh_file<'a>(alloc: Global) -> Arg<'a>
    ensures { HasRule result (required_rule (text_rule (codes "mesh"))) }
{
    text(alloc, "mesh", "FILE", "The file that describes the mesh").required(true)
}

/// The option of the folder that keeps a server's incarnation.
fn state_folder<'a>(alloc: Global) -> Arg<'a>
    ensures { HasRule result (with_value (text_rule (codes "state")) (codes ".")) }
{
    text(
        alloc,
        "state",
        "DIR",
        "The folder that keeps the server's incarnation",
    )
    .default_value(".")
}

/// The option of a first incarnation.
fn least_inc<'a>(alloc: Global) -> Arg<'a>
    ensures { HasRule result (number_rule (codes "least-inc")) }
{
    number(
        alloc,
        "least-inc",
        "The least incarnation: 1 at the first start, one above all before where DIR was lost",
    )
}

/// A command of this name, without arguments.
fn bare<'a>(alloc: Global, name: &'a str, about: &'a str) -> clap::Command<'a>
    ensures { IsLine result (new_app name.entry.now) }
{
    clap::Command::new(alloc, name).about(about)
}

/// The option of how many servers a mesh has.
fn nodes<'a>(alloc: Global) -> Arg<'a>
    ensures { HasRule result (required_rule (number_rule (codes "nodes"))) }
{
    number(alloc, "nodes", "How many servers: n1 to n16 at most").required(true)
}

/// The option of the first port of a mesh.
fn port<'a>(alloc: Global) -> Arg<'a>
    ensures { HasRule result (required_rule (number_rule (codes "port"))) }
{
    number(
        alloc,
        "port",
        "Clients of server i come to this port + i - 1, other servers to this port + nodes + i - 1",
    )
    .required(true)
}

/// The option of how many shards each server has.
fn shards<'a>(alloc: Global) -> Arg<'a>
    ensures { HasRule result (with_value (number_rule (codes "shards")) (codes "2")) }
{
    number(alloc, "shards", "How many shards each server has, 1 to 16").default_value("2")
}

/// The option of the incarnation of all servers.
fn inc<'a>(alloc: Global) -> Arg<'a>
    ensures { HasRule result (with_value (number_rule (codes "inc")) (codes "1")) }
{
    number(
        alloc,
        "inc",
        "In which incarnation all servers start, from 1",
    )
    .default_value("1")
}

/// The option of the seed of a mesh.
fn word<'a>(alloc: Global) -> Arg<'a>
    ensures { HasRule result (with_value (number_rule (codes "word")) (codes "0")) }
{
    number(
        alloc,
        "word",
        "The seed of the words that choose who serves a queue group",
    )
    .default_value("0")
}

/// The command with one more argument, where there was memory for the command.
fn with_arg<'a>(
    command: Result<clap::Command<'a>, AllocError>,
    arg: Arg<'a>,
) -> Result<clap::Command<'a>, AllocError>
    ensures { (app : App) (rule : Rule) → IfOk command.entry (λ command. IsLine command app)
        → HasRule arg.entry rule → IfOk result (λ command. IsLine command (with_rule app rule)) }
{
    command?.arg(arg)
}

/// The command with the options of every server that runs: how many loops it has, what it tells of events, and how it drains.
fn with_running<'a>(
    alloc: Global,
    command: Result<clap::Command<'a>, AllocError>,
) -> Result<clap::Command<'a>, AllocError>
    ensures { (app : App) → IfOk command.entry (λ command. IsLine command app)
        → IfOk result (λ command. IsLine command (with_running app)) }
{
    let command = with_arg(command, loops(alloc));
    let command = with_arg(command, log_level(alloc));
    let command = with_arg(command, drain_seconds(alloc));
    with_arg(command, control(alloc))
}

/// The command that serves a mesh.
fn serve_line<'a>(alloc: Global) -> Result<clap::Command<'a>, AllocError>
    ensures { IfOk result (λ command. IsLine command serve_command) }
{
    let command = bare(alloc, "serve", "Serves a mesh of servers at 127.0.0.1").arg(nodes(alloc));
    let command = with_arg(command, port(alloc));
    let command = with_arg(command, shards(alloc));
    let command = with_arg(command, inc(alloc));
    let command = with_arg(command, word(alloc));
    let command = with_arg(command, stop_after(alloc));
    with_running(alloc, command)
}

/// The command that has servers drain.
fn drain_line<'a>(alloc: Global) -> Result<clap::Command<'a>, AllocError>
    ensures { IfOk result (λ command. IsLine command drain_command) }
{
    let command = bare(
        alloc,
        "drain",
        "Has the servers drain that serve with --control PATH, or the one of this name",
    )
    .arg(place(
        alloc,
        "PATH",
        "The path that the servers were given as --control",
    ));
    let server = Arg::new(alloc, "NAME").help("The server that drains alone, as n2");
    with_arg(command, server)
}

/// The command that serves one server of a mesh.
fn node_line<'a>(alloc: Global) -> Result<clap::Command<'a>, AllocError>
    ensures { IfOk result (λ command. IsLine command node_command) }
{
    let command = bare(
        alloc,
        "node",
        "Serves one server of the mesh that a file describes",
    )
    .arg(place(alloc, "NAME", "The server's name in the file"));
    let command = with_arg(command, mesh_file(alloc));
    let command = with_arg(command, state_folder(alloc));
    let command = with_arg(command, least_inc(alloc));
    with_running(alloc, command)
}

/// The command that tells what the file of a mesh means.
fn check_line<'a>(alloc: Global) -> Result<clap::Command<'a>, AllocError>
    ensures { IfOk result (λ command. IsLine command check_command) }
{
    bare(alloc, "check", "Tells what the file of a mesh means").arg(place(
        alloc,
        "FILE",
        "The file that describes the mesh",
    ))
}

/// The command that plays scripts.
fn script_line<'a>(alloc: Global) -> Result<clap::Command<'a>, AllocError>
    ensures { IfOk result (λ command. IsLine command script_command) }
{
    let audit = Arg::new(alloc, "audit")
        .long("audit")
        .action(ArgAction::SetTrue)
        .help("Writes what was published, subscribed and placed too, as audit reads it");
    bare(
        alloc,
        "script",
        "Plays the script on standard input in a cluster of its own",
    )
    .arg(audit)
}

/// The command that answers one question of matching.
fn match_line<'a>(alloc: Global) -> Result<clap::Command<'a>, AllocError>
    ensures { IfOk result (λ command. IsLine command match_command) }
{
    let command = bare(alloc, "match", "Tells whether a pattern matches a subject").arg(Arg::new(
        alloc, "PATTERN",
    ).required(true));
    with_arg(command, Arg::new(alloc, "SUBJECT").required(true))
}

/// The program, without its commands.
fn program<'a>(alloc: Global) -> clap::Command<'a>
    ensures { IsLine result program }
{
    bare(
        alloc,
        "nats_mesh",
        "A NATS router that gives no publication to two members of a queue group",
    )
    .version("1.0.0")
    .subcommand_required(true)
}

/// The program with one more command, where there was memory for both.
fn with_command<'a>(
    program: Result<clap::Command<'a>, AllocError>,
    command: Result<clap::Command<'a>, AllocError>,
) -> Result<clap::Command<'a>, AllocError>
    ensures { (app part : App) → IfOk program.entry (λ command. IsLine command app)
        → IfOk command.entry (λ command. IsLine command part)
        → IfOk result (λ command. IsLine command (with_subcommand app part.top)) }
{
    program?.subcommand(command?)
}

/// The program with the commands that need no socket.
fn tools<'a>(alloc: Global) -> Result<clap::Command<'a>, AllocError>
    ensures { IfOk result (λ command. IsLine command tools) }
{
    let pipe = bare(
        alloc,
        "pipe",
        "Serves one client on standard input and output",
    );
    let audit = bare(
        alloc,
        "audit",
        "Tells the first placement of the log on standard input that breaks the clause",
    );
    let program = program(alloc).subcommand(pipe);
    let program = with_command(program, match_line(alloc));
    let program = with_command(program, script_line(alloc));
    with_command(program, Ok(audit))
}

/// The program with its commands.
fn line<'a>(alloc: Global) -> Result<clap::Command<'a>, AllocError>
    ensures { IfOk result (λ command. IsLine command router) }
{
    let program = with_command(tools(alloc), serve_line(alloc));
    let program = with_command(program, drain_line(alloc));
    let program = with_command(program, node_line(alloc));
    with_command(program, check_line(alloc))
}

/// What the line says of a mesh.
fn given_in<'a>(values: &ArgMatches<'a>) -> Given<'a>
    requires { AreOptions (rows_of (found_of values.now)) }
    ensures { HasOptions (rows_of (found_of values.now)) result }
{
    Given {
        nodes: values.get_one("nodes").unwrap(),
        port: values.get_one("port").unwrap(),
        shards: values.get_one("shards").unwrap(),
        inc: values.get_one("inc").unwrap(),
        word: values.get_one("word").unwrap(),
        stop_after: values.get_one("stop-after"),
        loops: values.get_one("loops").unwrap(),
        log_level: values.get_str("log-level").unwrap(),
        drain_seconds: values.get_one("drain-seconds").unwrap(),
        control: values.get_str("control"),
    }
}

/// What the line says of one server of a mesh.
fn node_given_in<'a>(values: &ArgMatches<'a>) -> NodeGiven<'a>
    requires { AreNodeOptions (rows_of (found_of values.now)) }
    ensures { HasNodeOptions (rows_of (found_of values.now)) result }
{
    NodeGiven {
        name: values.get_str("NAME").unwrap(),
        mesh: values.get_str("mesh").unwrap(),
        state: values.get_str("state").unwrap(),
        least_inc: values.get_one("least-inc"),
        loops: values.get_one("loops").unwrap(),
        log_level: values.get_str("log-level").unwrap(),
        drain_seconds: values.get_one("drain-seconds").unwrap(),
        control: values.get_str("control"),
    }
}

/// What was found in the command line.
fn command_in<'a>(found: &ArgMatches<'a>) -> Command<'a>
    requires { IsSomeAnd (subcommand_rows_of found.now) IsWhole }
    ensures { Names (subcommand_rows_of found.now) result }
{
    let (name, values) = found.subcommand().unwrap();
    match name {
        "pipe" => Command::Pipe,
        "match" => Command::Match {
            pattern: values.get_str("PATTERN").unwrap(),
            subject: values.get_str("SUBJECT").unwrap(),
        },
        "script" => Command::Script {
            audit: values.get_flag("audit"),
        },
        "audit" => Command::Audit,
        "serve" => Command::Serve(given_in(values)),
        "drain" => Command::Drain {
            path: values.get_str("PATH").unwrap(),
            server: values.get_str("NAME"),
        },
        "node" => Command::Node(node_given_in(values)),
        "check" => Command::Check {
            path: values.get_str("FILE").unwrap(),
        },
        // required: the line names one of the eight
        _ => unreachable!(),
    }
}

/// What these words ask for, of which the first is the name of the program: the command that they name, with the
/// values that they give it.
///
/// The error is that of the line: what is wrong with it, or that help or the version is asked for. Where nothing is
/// wrong with it, memory was refused.
pub fn command_of<'a>(alloc: Global, words: &'a [String]) -> Result<Command<'a>, Error>
    ensures asked { IfOk result (AskFor (map string_bytes words.entry.now)) }
    ensures refused { FailsBy (fault_of router (map string_bytes words.entry.now)) result }
    ensures taken { IfErr result (λ e. takes router (map string_bytes words.entry.now) ≡ true
        → kind_of e ≡ ErrorKind.OutOfMemory) }
{
    let found = line(alloc)?.try_get_matches_from(words)?;
    Ok(command_in(&found))
}
