//! What servers start with: the words of a command line, the options of a mesh and of one server, and how the program ends; the file of a mesh; and
//! the incarnations that a server takes, over a disk in memory.

use clap::Error;
use clap::error::ErrorKind;
use command_line::{line_status, status_of};
use golden::{Answer, Words, bytes_of, number, put};
use incarnation_file::{Crashes, End, Failing, Life, MemoryDisk, all_lives, raise};
use mesh_file::MeshFile;
use mesh_pipe::{PipeEnd, PipeFault, pipe_complaint, pipe_status};
use router_command::{Command, Given, NodeGiven, NodeOptions, Options, command_of};
use std::alloc::{AllocError, Global};
use subj::{Incarnation, NodeId};

/// Puts a word behind the others.
fn push_word(all: &mut Vec<String>, alloc: Global, word: &str) -> Result<(), AllocError> {
    let word = String::from_str(alloc, word)?;
    all.push(word)?;
    Ok(())
}

/// Puts the program's name, and the words of this text, which has none where it is empty.
fn push_line(all: &mut Vec<String>, alloc: Global, words: &str) -> Result<(), AllocError> {
    push_word(all, alloc, "nats_mesh")?;
    if words.is_empty() {
        return Ok(());
    }
    for word in words.split('|') {
        push_word(all, alloc, word)?;
    }
    Ok(())
}

/// The program's name, and the words of this text, which has none where it is empty.
fn line_of(alloc: Global, words: &str) -> Result<Vec<String>, AllocError> {
    let mut all = Vec::new(alloc);
    push_line(&mut all, alloc, words)?;
    Ok(all)
}

/// Tells these numbers, and one that may be left out, with a blank behind each.
fn numbers_told(answer: &mut Answer, numbers: &[u64], choice: Option<u64>) -> Option<()> {
    for number in numbers {
        answer.tell_number("", *number);
        answer.tell(" ");
    }
    answer.tell_choice("", choice);
    answer.tell(" ")
}

/// Tells how many loops a server has, with a blank behind.
fn loops_told(answer: &mut Answer, loops: u64) -> Option<()> {
    answer.tell_number("", loops);
    answer.tell(" ")
}

/// Tells how many seconds a drain may take, and where it is told.
fn drain_told(answer: &mut Answer, seconds: u64, control: Option<&str>) -> Option<()> {
    answer.tell_number(" ", seconds);
    answer.tell(" ");
    answer.tell(control.unwrap_or("none"))
}

/// Tells what is asked of a mesh.
fn mesh_told(answer: &mut Answer, given: &Given<'_>) -> Option<()> {
    let numbers = [given.nodes, given.port, given.shards, given.inc, given.word];
    answer.tell("serve ");
    numbers_told(answer, &numbers, given.stop_after);
    loops_told(answer, given.loops);
    answer.tell(given.log_level);
    drain_told(answer, given.drain_seconds, given.control)
}

/// Tells a text between quotes, behind a word.
fn tell_quoted(answer: &mut Answer, word: &str, text: &str) -> Option<()> {
    answer.tell(word);
    answer.tell(" '");
    answer.tell(text);
    answer.tell("'")
}

/// Tells two texts so.
fn tell_both(answer: &mut Answer, word: &str, first: &str, second: &str) -> Option<()> {
    tell_quoted(answer, word, first);
    tell_quoted(answer, "", second)
}

/// Tells what is asked of one server of a mesh.
fn node_told(answer: &mut Answer, given: &NodeGiven<'_>) -> Option<()> {
    tell_both(answer, "node", given.name, given.mesh);
    tell_quoted(answer, "", given.state);
    answer.tell(" ");
    numbers_told(answer, &[], given.least_inc);
    loops_told(answer, given.loops);
    answer.tell(given.log_level);
    drain_told(answer, given.drain_seconds, given.control)
}

/// Tells that a server, or all of a mesh, is asked to drain.
fn drain_asked(answer: &mut Answer, path: &str, server: Option<&str>) -> Option<()> {
    match server {
        None => tell_quoted(answer, "drain", path),
        Some(server) => tell_both(answer, "drain", path, server),
    }
}

/// Tells what the words ask for.
fn command_told(answer: &mut Answer, command: &Command<'_>) -> Option<()> {
    match command {
        Command::Pipe => answer.tell("pipe"),
        Command::Match { pattern, subject } => tell_both(answer, "match", pattern, subject),
        Command::Script { audit: false } => answer.tell("script"),
        Command::Script { audit: true } => answer.tell("script with its lists"),
        Command::Audit => answer.tell("audit"),
        Command::Serve(given) => mesh_told(answer, given),
        Command::Drain { path, server } => drain_asked(answer, path, *server),
        Command::Node(given) => node_told(answer, given),
        Command::Check { path } => tell_quoted(answer, "check", path),
    }
}

/// The kind of a refusal.
fn kind_word(kind: ErrorKind) -> &'static str {
    match kind {
        ErrorKind::InvalidValue => "invalid value",
        ErrorKind::UnknownArgument => "unknown argument",
        ErrorKind::InvalidSubcommand => "invalid subcommand",
        ErrorKind::ValueValidation => "value validation",
        ErrorKind::ArgumentConflict => "argument conflict",
        ErrorKind::MissingRequiredArgument => "missing argument",
        ErrorKind::MissingSubcommand => "missing subcommand",
        ErrorKind::DisplayHelp => "help",
        ErrorKind::DisplayVersion => "version",
        ErrorKind::OutOfMemory => "out of memory",
        _ => "another kind",
    }
}

/// Tells why the words ask for nothing, and the program's exit status.
fn kind_told(answer: &mut Answer, kind: ErrorKind) -> Option<()> {
    answer.tell(kind_word(kind));
    answer.tell_number(", status ", u64::from(line_status(kind)))
}

/// Tells the kind and the status, where this part is told of the error; else all that is told, behind `before`.
fn error_told(
    answer: &mut Answer,
    alloc: Global,
    error: &Error,
    part: Option<&str>,
    before: &str,
) -> Option<()> {
    let told = error.to_string(alloc).ok()?;
    match part {
        Some(part) if told.as_str().contains(part) => kind_told(answer, error.kind()),
        _ => answer.tell_bytes(before, told.as_bytes()),
    }
}

/// Reads the words, and tells what they ask for, or else the error.
fn line_told(
    answer: &mut Answer,
    alloc: Global,
    words: &str,
    part: Option<&str>,
    before: &str,
) -> Option<()> {
    let line = line_of(alloc, words).ok()?;
    match command_of(alloc, &line) {
        Ok(command) => command_told(answer, &command),
        Err(error) => {
            let is_told = error_told(answer, alloc, &error, part, before);
            drop(error);
            is_told
        }
    }
}

/// Reads the words behind the first one, which is told of them.
fn refuses(answer: &mut Answer, alloc: Global, words: &str) -> Option<()> {
    let (part, rest) = words.split_once('|').unwrap_or((words, ""));
    line_told(answer, alloc, rest, Some(part), "tells ")
}

/// How a pipe ended.
fn pipe_end(word: &str) -> Option<Result<PipeEnd, PipeFault>> {
    match word {
        "ended" => Some(Ok(PipeEnd::Ended)),
        "closed" => Some(Ok(PipeEnd::Closed)),
        "reading" => Some(Err(PipeFault::Read)),
        "writing" => Some(Err(PipeFault::Write)),
        "memory" => Some(Err(PipeFault::OutOfMemory)),
        _ => None,
    }
}

/// Tells the exit status of a pipe that ended so, and what is told of it.
fn pipe_end_told(answer: &mut Answer, ended: Result<PipeEnd, PipeFault>) -> Option<()> {
    answer.tell_number("status ", u64::from(pipe_status(ended)));
    match pipe_complaint(ended) {
        None => Some(()),
        Some(complaint) => answer.tell_value(", ", &complaint),
    }
}

/// Tells the exit status of a pipe, and what is told of it.
fn pipe_told(answer: &mut Answer, word: &str) -> Option<()> {
    match pipe_end(word) {
        Some(ended) => pipe_end_told(answer, ended),
        None => answer.tell("no such end"),
    }
}

/// Tells the exit status of anything else, by whether it was done.
fn status_told(answer: &mut Answer, is_done: bool) -> Option<()> {
    let ended = is_done.then_some(()).ok_or(AllocError);
    answer.tell_number("status ", u64::from(status_of(&ended)))
}

/// A text that may be left out.
fn choice<'a>(word: &'a str) -> Option<&'a str> {
    (word != "none").then_some(word)
}

/// A number that may be left out.
fn number_choice(word: &str) -> Option<u64> {
    (word != "none").then_some(number(word))
}

/// What a command line says of a mesh, in the order of `serve`: servers, port, shards, incarnation, word, after how many clients it ends,
/// loops, what standard error tells, how many seconds a drain may take, and where it is told.
fn given_of<'a>(words: &Words<'a>) -> Given<'a> {
    Given {
        nodes: words.number(0),
        port: words.number(1),
        shards: words.number(2),
        inc: words.number(3),
        word: words.number(4),
        stop_after: number_choice(words.at(5)),
        loops: words.number(6),
        log_level: words.at(7),
        drain_seconds: words.number(8),
        control: choice(words.at(9)),
    }
}

/// Tells what the options are.
fn options_told(answer: &mut Answer, options: &Options<'_>) -> Option<()> {
    let numbers = [
        u64::from(options.nodes),
        u64::from(options.port),
        options.shards,
        options.inc.get(),
        options.word,
    ];
    numbers_told(answer, &numbers, options.stop_after);
    loops_told(answer, options.loops);
    answer.tell_value("", &options.log_level);
    drain_told(answer, options.drain_seconds, options.control)
}

/// Tells the options of these numbers and this level.
fn options(answer: &mut Answer, words: &Words<'_>) -> Option<()> {
    match Options::new(given_of(words)) {
        Ok(options) => options_told(answer, &options),
        Err(fault) => answer.tell_value("", &fault),
    }
}

/// What a command line says of one server, in the order of `node`: its name, the file of its mesh, the folder of its
/// incarnation, a first incarnation, loops, what standard error tells, how many seconds a drain may take, and where it is told.
fn node_given_of<'a>(words: &Words<'a>) -> NodeGiven<'a> {
    NodeGiven {
        name: words.at(0),
        mesh: words.at(1),
        state: words.at(2),
        least_inc: number_choice(words.at(3)),
        loops: words.number(4),
        log_level: words.at(5),
        drain_seconds: words.number(6),
        control: choice(words.at(7)),
    }
}

/// Tells what the options of one server are.
fn node_options_told(answer: &mut Answer, options: &NodeOptions<'_>) -> Option<()> {
    answer.tell(options.name.text());
    answer.tell(" ");
    answer.tell(options.mesh);
    answer.tell(" ");
    answer.tell(options.state);
    answer.tell(" ");
    numbers_told(answer, &[], options.least_inc.map(Incarnation::get));
    loops_told(answer, options.loops);
    answer.tell_value("", &options.log_level);
    drain_told(answer, options.drain_seconds, options.control)
}

/// Tells the options of one server of these texts and numbers.
fn node_options(answer: &mut Answer, words: &Words<'_>) -> Option<()> {
    match NodeOptions::new(node_given_of(words)) {
        Ok(options) => node_options_told(answer, &options),
        Err(fault) => answer.tell_value("", &fault),
    }
}

/// Tells the ports of the server at this place, counted from 0, of a mesh with these options.
fn ports(answer: &mut Answer, words: &Words<'_>) -> Option<()> {
    let place = words.number(10).min(u64::from(u16::MAX)) as u16;
    match Options::new(given_of(words)) {
        Ok(options) if place < options.nodes => {
            let (client, route) = (options.client_port(place), options.route_port(place));
            answer.tell_number("clients ", u64::from(client));
            answer.tell_number(", routes ", u64::from(route))
        }
        _ => answer.tell("no such server"),
    }
}

/// `asks WORDS`, `refuses PART|WORDS` (what is told has the part), `tells WORDS` (all that is told), `pipe END`, `end done` or `end failed`, with
/// what a mesh is asked for `options GIVEN` and `ports GIVEN|PLACE`, and with what one server is asked for `node_options GIVEN`.
fn line_call(answer: &mut Answer, alloc: Global, call: &str, words: &Words<'_>) -> Option<()> {
    match call {
        "asks" => line_told(answer, alloc, words.text, Some(""), ""),
        "refuses" => refuses(answer, alloc, words.text),
        "tells" => line_told(answer, alloc, words.text, None, ""),
        "pipe" => pipe_told(answer, words.at(0)),
        "end" => status_told(answer, words.at(0) == "done"),
        "options" => options(answer, words),
        "ports" => ports(answer, words),
        "node_options" => node_options(answer, words),
        _ => answer.tell("no such call"),
    }
}

/// What is told of a text: its mesh, or why it describes none.
fn mesh_of(alloc: Global, file: &str) -> Result<String, AllocError> {
    match MeshFile::read(alloc, file) {
        Ok(mesh) => {
            let told = mesh.to_string(alloc);
            drop(mesh);
            told
        }
        Err(failure) => failure.to_string(alloc),
    }
}

/// Tells what is told of the file of a mesh that the words are.
fn mesh_call(answer: &mut Answer, alloc: Global, words: &Words<'_>) -> Option<()> {
    let bytes = bytes_of(alloc, words.text).ok()?;
    let Ok(file) = str::from_utf8(&bytes) else {
        return answer.tell("no text");
    };
    let told = mesh_of(alloc, file).ok()?;
    answer.tell_bytes("", told.as_bytes())
}

/// The line of `n1` with the incarnation 7.
const SEVEN: &[u8] = b"3744266532 0000000000000007 n1\n";

/// The disk has the file of these bytes from now on.
fn put_file(disk: &mut MemoryDisk, alloc: Global, file: &str) -> Option<()> {
    let file = bytes_of(alloc, file).ok()?;
    put(disk, MemoryDisk::new(alloc, Some(file)));
    Some(())
}

/// Tells what the next start of the server tells: its incarnation, or why it has none. No least number is given where it is 0.
fn started(
    answer: &mut Answer,
    disk: &mut MemoryDisk,
    alloc: Global,
    server: NodeId,
    least: u64,
) -> Option<()> {
    match raise(alloc, disk, server, Incarnation::new(least)) {
        Ok(incarnation) => answer.tell_number("", incarnation.get()),
        Err(fault) => answer.tell_value("", &fault),
    }
}

/// The step behind so many fails, before its effect or after it.
fn fail(disk: &mut MemoryDisk, steps: u64, is_before: bool) {
    let how = if is_before {
        Failing::Before
    } else {
        Failing::After
    };
    disk.fail_after(steps, how);
}

/// How a life of this word ends.
fn end_of(word: &str) -> End {
    match word {
        "stops" => End::Stops,
        "crashes" => End::Crashes,
        _ => End::CutOff,
    }
}

/// A life ends so, and takes back so many renames.
fn end(disk: &mut MemoryDisk, how: End, lost: usize) {
    disk.lose(lost);
    match how {
        End::Stops => disk.restart(),
        End::Crashes => disk.crash(),
        End::CutOff => disk.cut_off(),
    }
}

/// The number of the next start, 0 where there is none.
fn next(disk: &mut MemoryDisk, alloc: Global, server: NodeId) -> u64 {
    match raise(alloc, disk, server, None) {
        Ok(incarnation) => incarnation.get(),
        Err(_) => 0,
    }
}

/// A start fails at the step and in the way that the number says. Whether it was not answered.
fn fails(disk: &mut MemoryDisk, alloc: Global, server: NodeId, number: u64) -> bool {
    fail(disk, number / 2 % 5, number % 2 == 0);
    next(disk, alloc, server) == 0
}

/// Whether two starts behind 7 are not answered, each of which fails at any of its steps, with its effect or without, and the start behind
/// them has a number from 8 to 10: their life ends in any way, and takes back as many renames as it may.
fn is_above(disk: &mut MemoryDisk, alloc: Global, server: NodeId, case: u64) -> bool {
    if !fails(disk, alloc, server, case) || !fails(disk, alloc, server, case / 10) {
        return false;
    }
    let ends = [End::Stops, End::Crashes, End::CutOff];
    end(disk, ends[(case / 100 % 3) as usize], (case / 300) as usize);
    let number = next(disk, alloc, server);
    number > 7 && number <= 10
}

/// Tells whether that is so of a disk with the incarnation 7.
fn rises(answer: &mut Answer, alloc: Global, server: NodeId, case: u64) -> Option<()> {
    let seven = SEVEN.to_vec(alloc).ok()?;
    let mut disk = MemoryDisk::new(alloc, Some(seven));
    let is_above = is_above(&mut disk, alloc, server, case);
    drop(disk);
    answer.tell_whether(is_above)
}

/// The life of a word: how it ends, and behind a blank the least incarnation that it is given, where it is given one.
fn life_of(word: &str) -> Life {
    let (end, least) = word.split_once(' ').unwrap_or((word, ""));
    let least = Incarnation::new(number(least));
    Life {
        least,
        end: end_of(end),
    }
}

/// Tells what five lives are answered, one after another.
fn lives(
    answer: &mut Answer,
    disk: &mut MemoryDisk,
    alloc: Global,
    server: NodeId,
    words: &Words<'_>,
) -> Option<()> {
    let lives = [
        life_of(words.at(0)),
        life_of(words.at(1)),
        life_of(words.at(2)),
        life_of(words.at(3)),
        life_of(words.at(4)),
    ];
    let numbers = all_lives(alloc, disk, server, &lives).ok()?;
    for number in &numbers {
        let between = if answer.is_empty() { "" } else { " " };
        answer.tell(between);
        answer.tell_choice("", number.map(Incarnation::get));
    }
    Some(())
}

/// Makes a call of the disk alone: it is empty, or has a file, a step fails, or a life ends.
fn lone_disk_call(
    answer: &mut Answer,
    disk: &mut MemoryDisk,
    alloc: Global,
    call: &str,
    words: &Words<'_>,
) -> Option<()> {
    match call {
        "none" => put(disk, MemoryDisk::new(alloc, None)),
        "file" => return put_file(disk, alloc, words.text),
        "fails" => fail(disk, words.number(0), words.at(1) == "before"),
        "ends" => end(disk, end_of(words.at(0)), words.number(1) as usize),
        _ => return answer.tell("no such call"),
    }
    Some(())
}

/// `none`, `file BYTES`, `fails STEPS|HOW`, `ends HOW|RENAMES`, `starts LEAST`, `rises CASE` or `lives` with five lives, of the server `n1`.
fn disk_call(
    answer: &mut Answer,
    disk: &mut MemoryDisk,
    alloc: Global,
    call: &str,
    words: &Words<'_>,
) -> Option<()> {
    let server = NodeId::read(b"n1").ok()?;
    match call {
        "starts" => started(answer, disk, alloc, server, words.number(0)),
        "rises" => rises(answer, alloc, server, words.number(0)),
        "lives" => lives(answer, disk, alloc, server, words),
        _ => lone_disk_call(answer, disk, alloc, call, words),
    }
}

/// Makes a call of a command line, of the file of a mesh, or of the disk.
pub fn start_call(
    answer: &mut Answer,
    disk: &mut MemoryDisk,
    alloc: Global,
    of: &str,
    call: &str,
    words: &Words<'_>,
) -> Option<()> {
    match of {
        "line" => line_call(answer, alloc, call, words),
        "mesh" => mesh_call(answer, alloc, words),
        _ => disk_call(answer, disk, alloc, call, words),
    }
}
