//! Calls of what a client and its server tell each other: refusals, lines of clients, frames of the server, and what a connection asks.

use client_conn::{ClientAction, Conn, Refusal};
use client_frames::{
    ClientLine, Delivery, ErrText, InfoData, LineFault, MessageLines, Options, PubHead, ReplyFrame,
    ServerFrame, ServerInfo, SharedTexts, decode_line, encode, info_text, message_line, reply_line,
};
use golden::{Answer, Words, bytes_of, life_in, message_with, named, number, put, sid_of};
use std::alloc::Global;
use subj::{ConnId, Failure, HostText, Key, Message, Pattern, Pub, QueueName, Reply, Sid};
use wire_cut::CutFault;

/// The texts by their names.
static TEXTS: [(&str, ErrText); 11] = [
    (
        "MaximumControlLineExceeded",
        ErrText::MaximumControlLineExceeded,
    ),
    ("MaximumPayloadViolation", ErrText::MaximumPayloadViolation),
    ("ParserError", ErrText::ParserError),
    (
        "UnknownProtocolOperation",
        ErrText::UnknownProtocolOperation,
    ),
    ("SlowConsumer", ErrText::SlowConsumer),
    ("InvalidSubject", ErrText::InvalidSubject),
    ("BadHeaders", ErrText::BadHeaders),
    ("TooManyQueueGroups", ErrText::TooManyQueueGroups),
    ("TooManySubscriptions", ErrText::TooManySubscriptions),
    ("Draining", ErrText::Draining),
    ("NumbersSpent", ErrText::NumbersSpent),
];

/// Tells the line of a text, and whether the connection ends behind it.
fn text_told(answer: &mut Answer, told: ErrText) -> Option<()> {
    let before = if told.closes() { "closes: " } else { "stays: " };
    answer.tell_bytes(before, told.line())
}

/// Tells the number of a refused line, and what the client is told.
fn line_fault(answer: &mut Answer, fault: LineFault) -> Option<()> {
    answer.tell_number("", u64::from(fault.number()));
    answer.tell_bytes(", ", ErrText::of_line(fault).line())
}

/// Tells the number of the cause for which bytes are no line or no payload, and what the client is told.
fn cut_fault(answer: &mut Answer, fault: CutFault) -> Option<()> {
    answer.tell_number("", u64::from(fault.number()));
    answer.tell_bytes(", ", ErrText::of_cut(fault).line())
}

/// Makes a call of the fault or the text of this name.
pub fn fault_call(answer: &mut Answer, call: &str, name: &str) -> Option<()> {
    match name {
        _ if call == "text" => text_told(answer, named(&TEXTS, name)?),
        "UnknownOp" => line_fault(answer, LineFault::UnknownOp),
        "BadArgs" => line_fault(answer, LineFault::BadArgs),
        "BadJson" => line_fault(answer, LineFault::BadJson),
        "BadSubject" => line_fault(answer, LineFault::BadSubject),
        "BadHeader" => line_fault(answer, LineFault::BadHeader),
        "LineTooLong" => cut_fault(answer, CutFault::LineTooLong),
        "PayloadTooLong" => cut_fault(answer, CutFault::PayloadTooLong),
        "NoCrLfAfterPayload" => cut_fault(answer, CutFault::NoCrLfAfterPayload),
        _ => None,
    }
}

/// What a server tells all its clients of itself: its name and incarnation, its port, and its host where that is another than 127.0.0.1.
fn server_info(alloc: Global, life: &str, rest: &str) -> Option<ServerInfo> {
    let (port, host) = rest.split_once(", ").unwrap_or((rest, "127.0.0.1"));
    let life = life_in(life)?;
    let host = HostText::from(host).ok()?;
    ServerInfo::new(alloc, life.name, life.inc, host, port.parse().ok()?).ok()
}

/// What a server tells a client first: its name and incarnation, the number of the connection, the port and perhaps the host.
fn info_of(alloc: Global, word: &str) -> Option<InfoData> {
    let (life, rest) = word.split_once(", ")?;
    let (conn, rest) = rest.split_once(", ")?;
    let server = server_info(alloc, life, rest)?;
    Some(InfoData {
        server,
        client_id: ConnId::new(number(conn)),
    })
}

/// The reply that a word is: `pong`, `ok`, `err` and the name of its text, or `info` and
/// what a server tells of itself, as in `info n1 1, 1, 4222` or `info n1 1, 1, 4222, n1.example.com`.
pub fn reply_of(alloc: Global, word: &str) -> Option<ReplyFrame> {
    let (kind, rest) = word.split_once(' ').unwrap_or((word, ""));
    match kind {
        "pong" => Some(ReplyFrame::Pong),
        "ok" => Some(ReplyFrame::Ok),
        "err" => Some(ReplyFrame::Err(named(&TEXTS, rest)?)),
        "info" => Some(ReplyFrame::Info(info_of(alloc, rest)?)),
        _ => None,
    }
}

/// Encodes a frame behind other bytes, once more where there was no memory, and these have to stay as they were.
fn encode_behind(out: &mut Vec<u8>, frame: &ServerFrame) -> Option<()> {
    if encode(frame, out).is_ok() {
        return Some(());
    }
    if out.as_slice() != b"before ".as_slice() {
        return None;
    }
    encode(frame, out).ok()
}

/// Tells the bytes of a frame behind other ones.
fn frame_told(answer: &mut Answer, alloc: Global, frame: &ServerFrame) -> Option<()> {
    let mut out = Vec::from_slice(alloc, b"before ").ok()?;
    encode_behind(&mut out, frame)?;
    answer.tell_bytes("", &out)
}

/// Tells the line of a reply.
fn line_of_reply(answer: &mut Answer, alloc: Global, reply: &ReplyFrame) -> Option<()> {
    let line = reply_line(alloc, reply).ok()?;
    answer.tell_bytes("", &line)
}

/// Makes a call of a reply.
pub fn reply_call(answer: &mut Answer, alloc: Global, call: &str, word: &str) -> Option<()> {
    let reply = reply_of(alloc, word)?;
    match call {
        "line" => line_of_reply(answer, alloc, &reply),
        "bytes" => frame_told(answer, alloc, &ServerFrame::Reply(reply)),
        "copy" => line_of_reply(answer, alloc, &reply.try_clone().ok()?),
        _ => None,
    }
}

/// Tells the text of what a server tells of itself.
pub fn info_call(answer: &mut Answer, alloc: Global, word: &str) -> Option<()> {
    let told = info_text(alloc, &info_of(alloc, word)?).ok()?;
    answer.tell(told.as_str())
}

/// The message that the words are: its subject, its reply and its payload, and its header block, which the fifth is.
fn message_in(alloc: Global, words: &Words<'_>) -> Option<Message> {
    message_with(alloc, words.at(0), words.at(1), words.at(4), words.at(2))
}

/// The delivery of a message to a subscription, which is the fourth word, of a client that takes headers where the sixth one is `on`.
fn delivery_of(alloc: Global, words: &Words<'_>) -> Option<Delivery> {
    let sid = sid_of(alloc, words.at(3))?;
    let message = message_in(alloc, words)?;
    Some(Delivery {
        message,
        sid,
        takes_headers: words.at(5) == "on",
    })
}

/// Tells the line of a message, made for this subscription alone.
fn lone_line(answer: &mut Answer, alloc: Global, delivery: &Delivery) -> Option<()> {
    let (message, takes_headers) = (&delivery.message, delivery.takes_headers);
    let line = message_line(alloc, message, &delivery.sid, takes_headers).ok()?;
    answer.tell_bytes("", &line)
}

/// Tells the line of a message, of those made for all its subscriptions.
fn shared_line(answer: &mut Answer, alloc: Global, delivery: &Delivery) -> Option<()> {
    let lines = MessageLines::new(alloc, &delivery.message).ok()?;
    let line = lines.line(&delivery.sid, delivery.takes_headers).ok()?;
    answer.tell_bytes("", &line)
}

/// Makes a call of the delivery of a message: its subject, its reply, its payload, the subscription, perhaps a header block, and whether
/// the client takes headers.
pub fn delivery_call(
    answer: &mut Answer,
    alloc: Global,
    call: &str,
    words: &Words<'_>,
) -> Option<()> {
    let delivery = delivery_of(alloc, words)?;
    match call {
        "line" => lone_line(answer, alloc, &delivery),
        "shared_line" => shared_line(answer, alloc, &delivery),
        "bytes" => frame_told(answer, alloc, &ServerFrame::Msg(delivery)),
        _ => None,
    }
}

/// Tells this text, and whether an option is on.
fn option_told(answer: &mut Answer, before: &str, option: bool) -> Option<()> {
    answer.tell(before);
    answer.tell(if option { "on" } else { "off" })
}

/// Tells where an answer is awaited. A bar stands where it is nowhere.
fn reply_place_told(answer: &mut Answer, reply: Option<&Reply>) -> Option<()> {
    match reply {
        None => answer.tell(" |"),
        Some(reply) => answer.tell_bytes(" ", reply.bytes()),
    }
}

/// Tells what is published, but for its headers and its payload.
fn head_told(answer: &mut Answer, head: &PubHead) -> Option<()> {
    let operation = if head.headers.is_some() {
        "hpub "
    } else {
        "pub "
    };
    answer.tell_bytes(operation, head.subject.bytes());
    reply_place_told(answer, head.reply.as_ref());
    answer.tell_any(" ", head.headers);
    answer.tell_number(" ", head.size)
}

/// Tells what is subscribed to. A bar stands where there is no queue name.
fn sub_told<'a>(
    answer: &mut Answer,
    pattern: &'a Pattern,
    queue: &'a Option<QueueName>,
    sid: &'a Sid,
) -> Option<()> {
    answer.tell_bytes("sub ", pattern.bytes());
    match queue {
        None => answer.tell(" |"),
        Some(queue) => answer.tell_bytes(" ", queue.bytes()),
    };
    answer.tell_bytes(" ", sid.bytes())
}

/// Tells the end of a subscription, now or behind so many messages.
fn unsub_told(answer: &mut Answer, before: &str, sid: &Sid, max: Option<u64>) -> Option<()> {
    answer.tell_bytes(before, sid.bytes());
    answer.tell_any(" ", max)
}

/// Tells which options are on.
fn options_told(answer: &mut Answer, options: &Options) -> Option<()> {
    option_told(answer, "connect ", options.verbose);
    option_told(answer, " ", options.echo);
    option_told(answer, " ", options.headers)
}

/// Tells what a line asks for.
fn line_told(answer: &mut Answer, line: &ClientLine) -> Option<()> {
    match line {
        ClientLine::Connect(options) => options_told(answer, options),
        ClientLine::Pub(head) => head_told(answer, head),
        ClientLine::PubBad { size } => answer.tell_number("bad ", *size),
        ClientLine::Sub {
            pattern,
            queue,
            sid,
        } => sub_told(answer, pattern, queue, sid),
        ClientLine::Unsub { sid, max } => unsub_told(answer, "unsub ", sid, *max),
        ClientLine::Ping => answer.tell("ping"),
        ClientLine::Pong => answer.tell("pong"),
    }
}

/// Keeps the subject of a publication for the lines behind it.
fn keep_subject(texts: &mut SharedTexts, line: ClientLine) {
    if let ClientLine::Pub(PubHead { subject, .. }) = line {
        texts.keep(subject);
    }
}

/// Tells what a line asks for, which is then used up.
fn use_line(answer: &mut Answer, texts: &mut SharedTexts, line: ClientLine) -> Option<()> {
    let told = line_told(answer, &line);
    keep_subject(texts, line);
    told
}

/// Tells what the bytes ask for, or the number of the refusal.
fn read(answer: &mut Answer, texts: &mut SharedTexts, bytes: &[u8]) -> Option<()> {
    match decode_line(texts, bytes) {
        Ok(line) => use_line(answer, texts, line),
        Err(Failure::Refused(fault)) => answer.tell_refusal(fault.number()),
        Err(Failure::OutOfMemory) => None,
    }
}

/// Reads the line that a word is, of a client with these texts.
fn read_word(
    answer: &mut Answer,
    texts: &mut SharedTexts,
    alloc: Global,
    word: &str,
) -> Option<()> {
    let bytes = bytes_of(alloc, word).ok()?;
    read(answer, texts, &bytes)
}

/// Makes a call of a line, of a client of its own or of the one whose texts these are.
pub fn line_call(
    answer: &mut Answer,
    texts: &mut SharedTexts,
    alloc: Global,
    call: &str,
    word: &str,
) -> Option<()> {
    match call {
        "read" => read_word(answer, &mut SharedTexts::new(alloc), alloc, word),
        "next" => read_word(answer, texts, alloc, word),
        _ => None,
    }
}

/// Tells the line that a client is to be told; of the first one its operation.
fn reply_told(answer: &mut Answer, reply: &ReplyFrame) -> Option<()> {
    match reply {
        ReplyFrame::Info(_) => answer.tell("INFO"),
        ReplyFrame::Ok => answer.tell("+OK"),
        ReplyFrame::Pong => answer.tell("PONG"),
        ReplyFrame::Err(told) => answer.tell_bytes("", told.line()),
    }
}

/// Tells of a subscription to be opened.
fn subscription_told(answer: &mut Answer, key: &Key, sid: &Sid) -> Option<()> {
    answer.tell_key("subscribe ", key);
    answer.tell_bytes(" ", sid.bytes())
}

/// Tells where an answer to a message is awaited, its header block and its payload, where it has such a block.
fn headed_told(answer: &mut Answer, message: &Message) -> Option<()> {
    let Some(block) = message.headers() else {
        return Some(());
    };
    reply_place_told(answer, message.reply());
    answer.tell_bytes(" [", block);
    answer.tell_bytes("] [", message.payload());
    answer.tell("]")
}

/// Tells of a publication to be made, and whether the client's own subscriptions may get it.
fn publication_told(answer: &mut Answer, publication: &Pub) -> Option<()> {
    let what = if publication.echo {
        "publish "
    } else {
        "publish to others "
    };
    answer.tell_bytes(what, publication.message.subject().bytes());
    headed_told(answer, &publication.message)
}

/// Tells what is asked, where anything is.
fn ask_told(answer: &mut Answer, ask: Option<&ClientAction>) -> Option<()> {
    let Some(ask) = ask else {
        return answer.tell("nothing");
    };
    match ask {
        ClientAction::Reply(reply) => reply_told(answer, reply),
        ClientAction::SetHeaders(on) => option_told(answer, "headers ", *on),
        ClientAction::Shut(told) => answer.tell_bytes("shut ", told.line()),
        ClientAction::Subscribe { key, sid } => subscription_told(answer, key, sid),
        ClientAction::Unsubscribe { sid, max } => unsub_told(answer, "unsubscribe ", sid, *max),
        ClientAction::Publish(publication) => publication_told(answer, publication),
    }
}

/// The refusals by the words that they are.
static REFUSALS: [(&str, Refusal); 6] = [
    ("busy", Refusal::Busy),
    ("too many subscriptions", Refusal::TooManySubscriptions),
    ("numbers spent", Refusal::NumbersSpent),
    ("too many queue groups", Refusal::TooManyQueueGroups),
    ("draining", Refusal::Draining),
    ("other", Refusal::Other),
];

/// The answer that a word is.
fn answer_in(word: &str) -> Result<(), Refusal> {
    match named(&REFUSALS, word) {
        None => Ok(()),
        Some(refusal) => Err(refusal),
    }
}

/// Answers the next ask, and tells it; where there is none, the answer is given all the same.
fn ask(answer: &mut Answer, conn: &mut Conn, word: &str) -> Option<()> {
    ask_told(answer, conn.next().ok()?);
    conn.answer(answer_in(word));
    Some(())
}

/// Feeds the connection.
fn feed(answer: &mut Answer, conn: &mut Conn, alloc: Global, word: &str) -> Option<()> {
    let bytes = bytes_of(alloc, word).ok()?;
    conn.feed(&bytes).ok()?;
    answer.tell("ok")
}

/// Whether the client is to be told who serves it; it is told then.
fn greet(conn: &mut Conn) -> bool {
    let is_asked = matches!(conn.next(), Ok(Some(_)));
    conn.answer(Ok(()));
    is_asked
}

/// Whether something is asked.
fn asks(conn: &mut Conn) -> Option<bool> {
    Some(conn.next().ok()?.is_some())
}

/// Feeds one more byte, unless something is asked before it. Gives whether it is fed.
fn feed_unasked(conn: &mut Conn, byte: u8) -> Option<bool> {
    if asks(conn)? {
        return Some(false);
    }
    conn.feed(&[byte]).ok()?;
    Some(true)
}

/// Tells how many beginnings of a stream there are, if nothing is asked behind any of them; else the first behind which something is.
fn beginnings(answer: &mut Answer, conn: &mut Conn, stream: &[u8]) -> Option<()> {
    for (len, byte) in stream.iter().enumerate() {
        if !feed_unasked(conn, *byte)? {
            answer.tell_number("asks behind ", len as u64);
            return answer.tell(" bytes");
        }
    }
    answer.tell_number("", stream.len() as u64);
    answer.tell(" beginnings, nothing asked")
}

/// The same of a stream that a client sends once it is told who serves it.
fn greeted_beginnings(
    answer: &mut Answer,
    conn: &mut Conn,
    alloc: Global,
    word: &str,
) -> Option<()> {
    let stream = bytes_of(alloc, word).ok()?;
    if !greet(conn) {
        return None;
    }
    beginnings(answer, conn, &stream)
}

/// The same of a stream on a connection of its own.
fn first_beginnings(answer: &mut Answer, alloc: Global, word: &str) -> Option<()> {
    let told = info_of(alloc, "n1 1, 1, 0")?;
    let mut conn = Conn::new(alloc, told);
    greeted_beginnings(answer, &mut conn, alloc, word)
}

/// A connection of a client that is told this first takes the place of the one that stands.
fn renew(answer: &mut Answer, conn: &mut Option<Conn>, alloc: Global, word: &str) -> Option<()> {
    put(conn, Some(Conn::new(alloc, info_of(alloc, word)?)));
    answer.tell("ok")
}

/// Makes a call of the connection.
pub fn conn_call(
    answer: &mut Answer,
    conn: &mut Option<Conn>,
    alloc: Global,
    call: &str,
    word: &str,
) -> Option<()> {
    match conn {
        _ if call == "new" => renew(answer, conn, alloc, word),
        _ if call == "beginnings" => first_beginnings(answer, alloc, word),
        Some(conn) if call == "feed" => feed(answer, conn, alloc, word),
        Some(conn) if call == "ask" => ask(answer, conn, word),
        _ => None,
    }
}
