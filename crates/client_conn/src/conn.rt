//! One client's connection: what its stream tells is read, and items of it ask for something.

ghost use Rattle.client_conn.specs.declared.ask.ClientAction.TheVariants as ask;
ghost use Rattle.client_frames.specs.declared.client_line.Awaited.TheVariants as awaits;
ghost use Rattle.client_frames.specs.declared.client_line.ClientLine.TheVariants as lines;
ghost use Rattle.client_conn.specs.declared.conn.Looked.TheVariants as looks;
ghost use Rattle.std.specs.Prelude.{◌≡◌, [], drop, is_some, not, slice_get, option_copied, ◌≤◌, length, false, true, None, Some, IfOk, OnOk, OnErr, IsSome, IsOkAnd, Err, if◌then◌else◌};
ghost use Rattle.client_frames.specs.Streams.{asked, client_grammar, command_told, refusal_told};
ghost use Rattle.client_frames.specs.ErrTexts.{line_fault_text};
ghost use Rattle.client_conn.specs.declared.ask.ClientAction.{ClientAction};
ghost use Rattle.client_conn.specs.Asks.{no_asks, first_asking, asks_after_bytes, asks_after_answer, is_finished};
ghost use Rattle.subj.specs.Messages.{split_body};
ghost use Rattle.client_conn.specs.Items.{refusal_asks, body_in};
ghost use Rattle.wire_cut.specs.Cut.{cut_of, piece_length, after_next};
ghost use Rattle.wire_cut.specs.Reading.{waits, finding_before};
ghost use Rattle.std.specs.Io.KnownBytes.{Keeps};
ghost use Rattle.subj.specs.declared.limits.TheConstants.{MAX_PAYLOAD};
ghost use Rattle.client_conn.specs.Feeding.{CountsRead, ClosedWhere, HasRead, AnswersClosed};
ghost use Rattle.client_conn.specs.Streams.{end_of, longer, IsInStep, IsBehindLine, AwaitsPayload, AwaitsLostPayload, IsMessageOf, TellsFound, HasLooked, HasLookedAt, HasFilled, asking_at};
ghost use Rattle.std.specs.Borrow.{sem};
ghost use Rattle.client_conn.specs.Shown.{Stays};

mod lending;

use crate::ask::{ClientAction, Refusal};
use crate::faults::ReadFault;
use crate::open_asks::OpenAsks;
use client_frames::{
    Awaited, ClientLine, ErrText, InfoData, LineFault, PubHead, ReplyFrame, SharedTexts,
    decode_line,
};
use publication_runs::may_be_on;
use std::alloc::{AllocError, AllocFailed, Global};
use std::marker::Model;
use std::mem;
use subj::{
    CLIENT_LINE, Failure, MAX_PAYLOAD, Message, MessageBody, MessageParts, Subject, is_header_block,
};
use wire_cut::{Cutter, FeedFault, FillFault, Piece, Source};

/// Reads the items of a client's stream, each of which asks for something. An item is read only once there is memory
/// for it, so none is lost.
pub struct ItemReader {
    alloc: Global,
    cutter: Cutter,
    texts: SharedTexts,
    awaited: Awaited,
    /// Whether nothing is read any more.
    ended: bool,
}

/// One call, also for crates above: `docs/PROVING.md`, "What a proof costs".
impl Drop for ItemReader {
    fn drop(self) {
        let ItemReader {
            alloc: _,
            cutter: _,
            texts: _,
            awaited: _,
            ended: _,
        } = self;
    }
}

/// What a look at the bytes has found.
#[derive(Clone, Copy)]
pub enum Looked {
    /// More bytes are needed.
    Waits,
    /// The line of a publication, which tells nothing before its payload is there.
    Announced,
    /// An item.
    Told,
}

/// A copy of the bytes behind a line that announces so many bytes of headers, or none. None where the headers do not begin with
/// `NATS/1.0`, which takes no memory.
#[tactic(auto, using(crate::proofs::Bodies::body_split))]
fn copy_body(
    texts: &mut SharedTexts,
    headers: Option<u64>,
    bytes: &[u8],
) -> Result<Option<MessageBody>, AllocError>
    requires { length bytes.now ≤ MAX_PAYLOAD }
    ensures body { IfOk result (λ body. body ≡ body_in headers bytes.now) }
    ensures err { OnErr result (is_some (body_in headers bytes.now) ≡ true) }
{
    let Some(size) = headers else {
        return Ok(Some(MessageBody::plain(texts.copy(bytes)?)));
    };
    copy_headed(texts, (size as usize).min(bytes.len()), bytes)
}

/// A copy of bytes of which so many are headers.
fn copy_headed(
    texts: &mut SharedTexts,
    size: usize,
    bytes: &[u8],
) -> Result<Option<MessageBody>, AllocError>
    requires within { size ≤ length bytes.now }
    requires fits { length bytes.now ≤ MAX_PAYLOAD }
    ensures body { IfOk result (λ body. body ≡ split_body bytes.now size) }
    ensures err { OnErr result (is_some (split_body bytes.now size) ≡ true) }
{
    if !is_header_block(&bytes[..size]) {
        return Ok(None);
    }
    MessageBody::split(texts.copy(bytes)?, size)
}

/// The message of the head that is awaited, with this body; a line is awaited behind it. Want of memory leaves the head.
fn message_with(
    alloc: Global,
    awaited: &mut Awaited,
    body: MessageBody,
) -> Result<Message, AllocError>
    requires due { AwaitsPayload awaited.old }
    ensures ok { IfOk result (λ message.
        IsMessageOf awaited.old body message × (awaited.new ≡ awaits.Line)) }
    ensures err { OnErr result (awaited.new ≡ awaited.old) }
{
    let Awaited::Payload(head) = mem::replace(awaited, Awaited::Line) else {
        // required: a payload is awaited
        unreachable!()
    };
    let PubHead {
        subject,
        reply,
        headers,
        size,
    } = head;
    let parts = MessageParts {
        subject,
        reply,
        body,
    };
    match Message::from_parts(alloc, parts) {
        Ok(message) => Ok(message),
        Err(AllocFailed { value }) => {
            let MessageParts { subject, reply, .. } = value;
            *awaited = Awaited::Payload(PubHead {
                subject,
                reply,
                headers,
                size,
            });
            Err(AllocError)
        }
    }
}

/// The subject of a message, which is its own where no copy of the message is left, and else a copy.
fn subject_of(message: Message) -> Option<Subject> {
    match message.into_parts() {
        Ok(parts) => {
            let MessageParts { subject, .. } = parts;
            Some(subject)
        }
        Err(message) => message.subject().try_clone().ok(),
    }
}

impl ItemReader {
    /// A reader to which nothing was fed.
    pub fn new(alloc: Global) -> ItemReader
        ensures end { end_of result ≡ waits awaits.Line [] }
        ensures step { IsInStep result }
    {
        ItemReader {
            alloc,
            cutter: Cutter::new(alloc, CLIENT_LINE, MAX_PAYLOAD as u64),
            texts: SharedTexts::new(alloc),
            awaited: Awaited::Line,
            ended: false,
        }
    }

    /// Takes back the message of a publication that was answered, if it was one: the next is on its subject most often. A new subject
    /// is not kept where the next is seen to be on another.
    pub fn take_back(&mut self, message: Option<Message>)
        ensures { self.new ≡ self.old }
    {
        let Some(message) = message else {
            return;
        };
        if !self.texts.is_again() && !may_be_on(self.cutter.unread(), message.subject()) {
            return;
        }
        if let Some(subject) = subject_of(message) {
            self.texts.keep(subject);
        }
    }

    /// Whether nothing is read any more.
    pub fn has_ended(&self) -> bool
        ensures { result ≡ self.now.ended }
    {
        self.ended
    }

    /// Nothing is read any more.
    pub fn close(&mut self)
        ensures ended { self.new ≡ record self.old { ended = true } }
    {
        self.ended = true;
    }

    /// Takes the next bytes of the stream. Nothing is kept once the stream has ended.
    pub fn feed(&mut self, bytes: &[u8]) -> Result<(), AllocError>
        requires { IsInStep self.old }
        ensures ok { OnOk result (end_of self.new ≡ longer bytes.now (end_of self.old)) }
        ensures err { OnErr result (end_of self.new ≡ end_of self.old) }
        ensures step { IsInStep self.new }
    {
        if self.ended {
            return Ok(());
        }
        match self.cutter.feed(bytes) {
            Ok(()) => Ok(()),
            Err(FeedFault::OutOfMemory) => Err(AllocError),
            // the reader ends with the first fault of its cutter
            Err(FeedFault::Cut(_)) => unreachable!(),
        }
    }

    /// Reads the next bytes of the stream, at most `most`, straight into the buffer of the cutter, and answers how many.
    pub fn read_from<S: Source>(&mut self, source: &mut S, most: usize) -> Result<usize, ReadFault>
        requires { IsInStep self.old }
        ensures ok { IfOk result (λ n.
            HasFilled (end_of self.old) (end_of self.new) (S.remaining source.old)
            (S.remaining source.new) most n) }
        ensures err { OnErr result (end_of self.new ≡ end_of self.old) }
        ensures kept { OnErr result (Keeps (S.remaining source.old) (S.remaining source.new)) }
        ensures read { CountsRead result (source.new ≡ source.old) (S.reads source.old)
            (S.reads source.new) (S.failures source.old) (S.failures source.new) }
        ensures closed { ClosedWhere self.old.ended result }
        ensures step { IsInStep self.new }
    {
        if self.ended {
            return Err(ReadFault::Closed);
        }
        match self.cutter.read_from(source, most) {
            Ok(count) => Ok(count),
            Err(FillFault::Read) => Err(ReadFault::Failed),
            Err(FillFault::OutOfMemory) => Err(ReadFault::OutOfMemory),
            // the reader ends with the first fault of its cutter
            Err(FillFault::Cut(_)) => unreachable!(),
        }
    }

    /// Looks at the next piece, and puts what an item asks for in place of what is asked. Want of memory changes nothing.
    pub fn look(&mut self, open_asks: &mut OpenAsks) -> Result<Looked, AllocError>
        requires { IsInStep self.old }
        ensures ok { IfOk result (λ looked.
            HasLooked looked open_asks.old open_asks.new (end_of self.old) (end_of self.new)) }
        ensures err { OnErr result ((self.new ≡ self.old) × (open_asks.new ≡ open_asks.old)) }
        ensures step { IsInStep self.new }
    {
        if self.ended {
            return Ok(Looked::Waits);
        }
        match &self.awaited {
            Awaited::Line => self.line(open_asks),
            Awaited::Payload(_) => self.publication(open_asks),
            Awaited::LostPayload { .. } => Ok(self.lost_publication(open_asks)),
        }
    }

    /// Looks at the next line.
    fn line(&mut self, open_asks: &mut OpenAsks) -> Result<Looked, AllocError>
        requires step { IsInStep self.old }
        requires reads { self.old.ended ≡ false }
        requires due { self.old.awaited ≡ awaits.Line }
        ensures ok { IfOk result (λ looked.
            HasLookedAt looked open_asks.old open_asks.new self.old self.new) }
        ensures err { OnErr result ((self.new ≡ self.old) × (open_asks.new ≡ open_asks.old)) }
        ensures step { IsInStep self.new }
    {
        let (size, meaning) = match self.cutter.peek() {
            Ok(None) => return Ok(Looked::Waits),
            Ok(Some(Piece::Line(line))) => (line.len(), decode_line(&mut self.texts, line)),
            // a payload comes only where one was announced
            Ok(Some(Piece::Payload(_))) => unreachable!(),
            Err(fault) => return Ok(self.end_with(ErrText::of_cut(fault), open_asks)),
        };
        match meaning {
            Ok(command) => Ok(self.take(size, command, open_asks)),
            Err(Failure::Refused(fault)) => {
                self.cutter.consume(size);
                Ok(self.refuse(fault, open_asks))
            }
            Err(Failure::OutOfMemory) => Err(AllocError),
        }
    }

    /// The client is told this text, and nothing is read behind it.
    fn end_with(&mut self, text: ErrText, open_asks: &mut OpenAsks) -> Looked
        ensures told { result ≡ looks.Told }
        ensures asks { open_asks.new ≡ record open_asks.old { asks = refusal_asks text } }
        ensures ended { self.new ≡ record self.old { ended = true } }
    {
        self.ended = true;
        open_asks.refuse(text);
        Looked::Told
    }

    /// Uses up the line of a command, and does what that tells. A publication is told apart first: there are most of them.
    #[inline(always)]
    fn take(&mut self, size: usize, command: ClientLine, open_asks: &mut OpenAsks) -> Looked
        requires line { piece_length (cut_of self.old.cutter) ≡ Some size }
        requires behind { IsBehindLine (record self.old { cutter = after_next self.old.cutter }) }
        ensures tells { TellsFound result open_asks.old open_asks.new
            (finding_before client_grammar (after_next self.old.cutter).unread
            (command_told command))
            (end_of self.new) }
        ensures step { IsInStep self.new }
    {
        match command {
            ClientLine::Pub(head) => {
                self.cutter.consume(size);
                self.announce(head, open_asks)
            }
            command => {
                self.cutter.consume(size);
                self.tell(command, open_asks)
            }
        }
    }

    /// The line of a publication was used up: what it announces comes next, where that is within the limit.
    #[inline(always)]
    fn announce(&mut self, head: PubHead, open_asks: &mut OpenAsks) -> Looked
        requires behind { IsBehindLine self.old }
        ensures tells { TellsFound result open_asks.old open_asks.new
            (finding_before client_grammar self.old.cutter.unread (command_told (lines.Pub head)))
            (end_of self.new) }
        ensures step { IsInStep self.new }
    {
        if let Err(fault) = self.cutter.expect(head.size) {
            return self.end_with(ErrText::of_cut(fault), open_asks);
        }
        self.awaited = Awaited::Payload(head);
        Looked::Announced
    }

    /// What a command tells whose line was used up.
    #[inline(never)]
    fn tell(&mut self, command: ClientLine, open_asks: &mut OpenAsks) -> Looked
        requires behind { IsBehindLine self.old }
        ensures tells { TellsFound result open_asks.old open_asks.new
            (finding_before client_grammar self.old.cutter.unread (command_told command))
            (end_of self.new) }
        ensures step { IsInStep self.new }
    {
        match command {
            ClientLine::Pub(head) => self.announce(head, open_asks),
            ClientLine::PubBad { size } => {
                if let Err(fault) = self.cutter.expect(size) {
                    return self.end_with(ErrText::of_cut(fault), open_asks);
                }
                self.awaited = Awaited::LostPayload { size };
                Looked::Announced
            }
            command => {
                open_asks.ask_command(command);
                Looked::Told
            }
        }
    }

    /// A line is refused, and nothing is read behind it where its text closes.
    fn refuse(&mut self, fault: LineFault, open_asks: &mut OpenAsks) -> Looked
        requires behind { IsBehindLine self.old }
        ensures tells { TellsFound result open_asks.old open_asks.new
            (finding_before client_grammar self.old.cutter.unread (refusal_told fault))
            (end_of self.new) }
        ensures step { IsInStep self.new }
    {
        let text = ErrText::of_line(fault);
        if text.closes() {
            return self.end_with(text, open_asks);
        }
        open_asks.refuse(text);
        Looked::Told
    }

    /// Passes over what a publication has announced, and tells the client why it is refused.
    fn lose(&mut self, size: usize, fault: LineFault, open_asks: &mut OpenAsks) -> Looked
        requires { piece_length (cut_of self.old.cutter) ≡ Some size }
        ensures told { result ≡ looks.Told }
        ensures asks { open_asks.new
            ≡ record open_asks.old { asks = refusal_asks (line_fault_text fault) } }
        ensures passed { self.new
            ≡ record self.old { cutter = after_next self.old.cutter; awaited = awaits.Line } }
    {
        self.cutter.consume(size);
        self.awaited = Awaited::Line;
        open_asks.refuse(ErrText::of_line(fault));
        Looked::Told
    }

    /// Looks at what a publication has announced, and copies it.
    fn publication(&mut self, open_asks: &mut OpenAsks) -> Result<Looked, AllocError>
        requires step { IsInStep self.old }
        requires reads { self.old.ended ≡ false }
        requires due { AwaitsPayload self.old.awaited }
        ensures ok { IfOk result (λ looked.
            HasLookedAt looked open_asks.old open_asks.new self.old self.new) }
        ensures err { OnErr result ((self.new ≡ self.old) × (open_asks.new ≡ open_asks.old)) }
        ensures step { IsInStep self.new }
    {
        let headers = self.awaited.headers();
        let (size, body) = match self.cutter.peek() {
            Ok(None) => return Ok(Looked::Waits),
            Ok(Some(Piece::Payload(bytes))) => {
                (bytes.len(), copy_body(&mut self.texts, headers, bytes)?)
            }
            // a line comes only where no payload was announced
            Ok(Some(Piece::Line(_))) => unreachable!(),
            Err(fault) => return Ok(self.end_with(ErrText::of_cut(fault), open_asks)),
        };
        let Some(body) = body else {
            return Ok(self.lose(size, LineFault::BadHeader, open_asks));
        };
        let message = message_with(self.alloc, &mut self.awaited, body)?;
        self.cutter.consume(size);
        open_asks.ask_publication(message);
        Ok(Looked::Told)
    }

    /// Looks at what a publication has announced that is refused.
    fn lost_publication(&mut self, open_asks: &mut OpenAsks) -> Looked
        requires step { IsInStep self.old }
        requires reads { self.old.ended ≡ false }
        requires due { AwaitsLostPayload self.old.awaited }
        ensures looked { HasLookedAt result open_asks.old open_asks.new self.old self.new }
        ensures step { IsInStep self.new }
    {
        let size = match self.cutter.peek() {
            Ok(None) => return Looked::Waits,
            Ok(Some(Piece::Payload(payload))) => payload.len(),
            // a line comes only where no payload was announced
            Ok(Some(Piece::Line(_))) => unreachable!(),
            Err(fault) => return self.end_with(ErrText::of_cut(fault), open_asks),
        };
        self.lose(size, LineFault::BadSubject, open_asks)
    }
}

/// One client's connection: its bytes go in, what it asks of its server comes out, and the answers to that go in.
///
/// `INFO` is asked for first. Then each command asks for its `+OK`, where it is due, and for what it is;
/// of a refused line or payload the client is told, and a closing refusal shuts the connection. What
/// stands to be asked is a function of all bytes and of all answers, whatever parts the bytes come in.
/// (NATS documentation, "Client Protocol"; the order is this project's profile.)
pub struct Conn {
    reader: ItemReader,
    open_asks: OpenAsks,
}

/// One call, also for crates above: `docs/PROVING.md`, "What a proof costs".
impl Drop for Conn {
    fn drop(self) {
        let Conn {
            reader: _,
            open_asks: _,
        } = self;
    }
}

impl Model for Conn {
    ghost use Rattle.std.specs.Prelude.{not};
    ghost use Rattle.client_conn.specs.Asks.{ConnState, no_asks};
    ghost use Rattle.client_conn.specs.Lent.{lends_at};
    ghost use Rattle.client_conn.specs.Streams.{IsInStep, end_of, asking_at};

    ghost Value = { ConnState };

    ghost view = { λ c. record {
      asking = asking_at c.open_asks (end_of c.reader);
      given = not (no_asks c.open_asks.asks);
      lends = lends_at c.open_asks (end_of c.reader);
    } };

    ghost invariant = { λ c. IsInStep c.reader };
}

/// Reads on until something stands to be asked, or more bytes are needed.
fn advance(reader: &mut ItemReader, open_asks: &mut OpenAsks) -> Result<(), AllocError>
    requires { IsInStep reader.old }
    ensures same { asking_at open_asks.new (end_of reader.new)
        ≡ asking_at open_asks.old (end_of reader.old) }
    ensures first { OnOk result
        (open_asks.new.asks ≡ [] → (asking_at open_asks.new (end_of reader.new)).asks ≡ []) }
    ensures kept { OnErr result (open_asks.new.asks ≡ []) }
    ensures step { IsInStep reader.new }
{
    while open_asks.is_empty() {
        match reader.look(open_asks)? {
            Looked::Waits => return Ok(()),
            Looked::Announced | Looked::Told => {}
        }
    }
    Ok(())
}

impl Conn {
    /// The connection of a client that is told this first. It takes no memory before bytes come.
    pub fn new(alloc: Global, info: InfoData) -> Conn
        ensures { result.asking ≡ first_asking info }
    {
        Conn {
            reader: ItemReader::new(alloc),
            open_asks: OpenAsks::of(ClientAction::Reply(ReplyFrame::Info(info))),
        }
    }

    /// Takes the next bytes of the client, of any number. Nothing is kept where nothing is read any more.
    /// Want of memory changes nothing.
    pub fn feed(&mut self, bytes: &[u8]) -> Result<(), AllocError>
        ensures ok { OnOk result (self.new.asking ≡ asks_after_bytes bytes.now self.old.asking) }
        ensures given { self.new.given ≡ self.old.given }
        ensures err { OnErr result (self.new ≡ self.old) }
    {
        self.reader.feed(bytes)
    }

    /// Reads the client's next bytes from a source, at most `most`, straight into the connection's
    /// buffer, and answers how many: 0, where `most` is not, is the source's end.
    ///
    /// An error changes nothing. `Closed` where nothing is read any more: always once all is asked and
    /// answered, and else at most where a closing text stands to be asked.
    pub fn read_from<S: Source>(&mut self, source: &mut S, most: usize) -> Result<usize, ReadFault>
        ensures ok { IfOk result (λ n.
            HasRead self.old.asking self.new.asking (S.remaining source.old)
            (S.remaining source.new) most n) }
        ensures given { self.new.given ≡ self.old.given }
        ensures err { OnErr result (self.new ≡ self.old) }
        ensures kept { OnErr result (Keeps (S.remaining source.old) (S.remaining source.new)) }
        ensures read { CountsRead result (source.new ≡ source.old)
            (S.reads source.old) (S.reads source.new)
            (S.failures source.old) (S.failures source.new) }
        ensures closed { AnswersClosed self.old.asking result }
    {
        self.reader.read_from(source, most)
    }

    /// What is asked next, and until it is answered, lent from the connection; None where more bytes are needed,
    /// or where nothing is asked any more.
    ///
    /// Want of memory changes nothing: no command is lost by it.
    pub fn next(&mut self) -> Result<Option<&ClientAction>, AllocError>
        ensures first { IfOk result (λ ask. option_copied ask ≡ slice_get self.old.asking.asks 0) }
        ensures* rest { sem 𝓛 (Stays (IsOkAnd result (λ ask. IsSome ask)) self.entry) }
    {
        advance(&mut self.reader, &mut self.open_asks)?;
        Ok(self.open_asks.first())
    }

    /// The server's answer to what `next` gave last. Done: the next comes. `Busy`: the same is asked again.
    /// Where the client is told of a refusal, the `-ERR` is asked for next, and then what comes behind. After
    /// any other refusal nothing is asked any more. Nothing comes of an answer where `next` gave nothing that still
    /// waits for one. Takes no memory.
    pub fn answer(&mut self, answer: Result<(), Refusal>)
        ensures { self.new.asking
            ≡ (if self.old.given then asks_after_answer answer self.old.asking
            else self.old.asking) }
    {
        match answer {
            Ok(()) => {
                let done = self.open_asks.advance();
                self.reader.take_back(done);
            }
            Err(refusal) => self.refuse(refusal),
        }
    }

    /// What was asked is refused, where anything was.
    fn refuse(&mut self, refusal: Refusal)
        ensures { self.new.asking
            ≡ (if self.old.given then asks_after_answer (Err refusal) self.old.asking
            else self.old.asking) }
    {
        if self.open_asks.is_empty() {
            return;
        }
        match refusal {
            Refusal::Busy => {}
            Refusal::TooManySubscriptions => self.open_asks.tell(ErrText::TooManySubscriptions),
            Refusal::NumbersSpent => self.open_asks.tell(ErrText::NumbersSpent),
            Refusal::TooManyQueueGroups => self.open_asks.tell(ErrText::TooManyQueueGroups),
            Refusal::Draining => self.open_asks.tell(ErrText::Draining),
            Refusal::Other => {
                self.open_asks.clear();
                self.reader.close();
            }
        }
    }

    /// Whether all is asked and answered, and nothing is read any more.
    pub fn is_closed(&self) -> bool
        ensures { result ≡ is_finished self.now.asking }
    {
        self.open_asks.is_empty() && self.reader.has_ended()
    }
}
