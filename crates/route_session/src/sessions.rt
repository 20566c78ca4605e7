//! The sessions of a server.

ghost use Rattle.std.specs.Prelude.{◌≡◌, nat_eq, true, IfOk, IfSome, ⊤};
ghost use Rattle.subj.specs.Answers.{IsAnswered, IsDecided};
ghost use Rattle.subj.specs.Servers.{place, is_peer as peer};
ghost use Rattle.route_values.specs.Records.{is_serial};
ghost use Rattle.route_session.specs.State.{number_kept, kept_for, has_session};
ghost use Rattle.route_session.specs.Events.{Dial, Accept, OnInfo, OnConnect, Cut, Dialed, Accepted, KeptAfterInfo, Kept as WasKept, WasCut};
ghost use Rattle.route_session.specs.Steps.{duplicate_fault, after_completion, without_peer, own_connect as connect_to};
ghost use Rattle.route_session.specs.Calls.{new_sessions, refusal, DoesStep, AreSessions, is_dial, peer_of, open_session, IsInfoOffer, IsConnectOffer};

use crate::faults::SessionFault;
use crate::offers::Offer;
use crate::session::{Session, complete, drop_kept, duplicate, end, is_kept, kept_id, session_at};
use crate::session_ids::SessionId;
use route_values::{RouteConnect, RouteInfo};
use std::alloc::Global;
use std::marker::Model;
use subj::{Failure, Incarnation, MAX_COUNTER, MAX_SESSIONS, NodeId, ServerIdentity};

/// What a `CONNECT` of this peer offers.
fn offer_of_connect(connect: &RouteConnect, peer: usize) -> Offer
    ensures { result ≡ record {
      peer = peer;
      inc = connect.now.inc;
      dialer = peer;
      serial = connect.now.serial;
    } }
{
    Offer {
        peer,
        inc: connect.inc(),
        dialer: peer,
        serial: connect.serial(),
    }
}

/// The `CONNECT` of the server that answers an `INFO`, on a dial of this serial.
fn own_connect(server: &ServerIdentity, info: &RouteInfo, serial: u64) -> RouteConnect
    requires { is_serial serial ≡ true }
    ensures { result ≡ connect_to server.now info.now serial }
{
    RouteConnect::new(
        server.name(),
        server.inc(),
        info.server_name(),
        info.inc(),
        serial,
    )
    .unwrap()
}

/// What a session that is kept took the place of.
#[derive(Clone, Copy, PartialEq, Eq)]
pub struct Kept {
    /// The session that was kept for the peer before, and stands no more.
    pub instead_of: Option<SessionId>,
}

/// The sessions of a server with its peers. (Profile; `INFO` and `CONNECT`: NATS documentation, "Cluster
/// Protocol".)
///
/// A server that dials another makes a session, and so does the one that accepts, which sends its `INFO`.
/// The dialing side completes its session on the `INFO`, and answers a `CONNECT`, on which the accepting
/// side completes its own. Of the completed sessions with a peer one is kept, the best: of the greater
/// incarnation of the peer, then of the dialer with the smaller place, then of the greater serial.
///
/// Seen as the server and its sessions. Each call is a step of these: it is refused by the first cause, or
/// does what the step says. Only [`Sessions::dial`] and [`Sessions::accept`] take memory.
pub struct Sessions {
    server: ServerIdentity,
    /// How many sessions there were.
    numbers: u64,
    /// How many of them were dialed.
    dials: u64,
    /// Those that stand, in order of their numbers.
    standing: Vec<Session>,
}

/// One call, also for crates above: `docs/PROVING.md`, "What a proof costs".
impl Drop for Sessions {
    fn drop(self) {
        let Sessions {
            server: _,
            numbers: _,
            dials: _,
            standing: _,
        } = self;
    }
}

impl Model for Sessions {
    ghost use Rattle.route_session.specs.Calls.{Served, AreSessions};

    ghost Value = { Served };

    ghost view = { λ s. record {
      server = s.server;
      state = record { numbers = s.numbers; dials = s.dials; standing = s.standing.items };
    } };

    ghost invariant = { λ s.
        AreSessions s.server
        (record { numbers = s.numbers; dials = s.dials; standing = s.standing.items }) };
}

impl Sessions {
    /// No sessions of this server.
    pub fn new(alloc: Global, server: ServerIdentity) -> Sessions
        ensures { result ≡ new_sessions server }
    {
        Sessions {
            server,
            numbers: 0,
            dials: 0,
            standing: Vec::new(alloc),
        }
    }

    /// The server.
    pub fn server(&self) -> &ServerIdentity
        ensures { result.now ≡ self.now.server }
    {
        &self.server
    }

    /// What always holds of the sessions.
    pub fn are_sound(&self)
        ensures { AreSessions self.now.server self.now.state }
    {
        let _ = &self.numbers;
    }

    /// Whether a session with this incarnation of the peer at this place is kept. Takes no memory.
    pub fn keeps(&self, place: usize, inc: Incarnation) -> bool
        ensures { result ≡ has_session place inc self.now.state.standing }
    {
        is_kept(&self.standing, place, inc)
    }

    /// Why a [`Sessions::accept`] is refused.
    pub fn accept_fault(&self) -> Option<SessionFault>
        ensures { result ≡ refusal self.now Accept }
    {
        if self.standing.len() as u64 >= MAX_SESSIONS {
            return Some(SessionFault::TooManySessions);
        }
        if self.numbers >= MAX_COUNTER {
            return Some(SessionFault::Spent);
        }
        None
    }

    /// Why a [`Sessions::dial`] is refused.
    pub fn dial_fault(&self, place: usize) -> Option<SessionFault>
        ensures { result ≡ refusal self.now (Dial place) }
    {
        if !self.server.is_peer(place) {
            return Some(SessionFault::WrongName);
        }
        self.accept_fault()
    }

    /// Dials the server at this place: a session with the next serial of a dial. Gives its number.
    ///
    /// Refused: 70 where the place is of no other server of the cluster; 74 where [`MAX_SESSIONS`] stand;
    /// 75 where the numbers have come to [`MAX_COUNTER`]. Any `Err` leaves all as it was.
    pub fn dial(&mut self, place: usize) -> Result<SessionId, Failure<SessionFault>>
        ensures { IsAnswered (refusal self.old (Dial place))
            (λ session. DoesStep self.old (Dial place) (Dialed session) self.new)
            (self.new ≡ self.old) result }
    {
        if let Some(fault) = self.dial_fault(place) {
            return Err(Failure::Refused(fault));
        }
        let number = self.numbers + 1;
        let serial = self.dials + 1;
        self.standing.push(Session {
            number,
            dialed: Some(place),
            serial,
            kept: None,
        })?;
        self.numbers = number;
        self.dials = serial;
        Ok(SessionId::new(number))
    }

    /// Accepts a session. Gives its number, and the `INFO` to send.
    ///
    /// Refused: 74 where [`MAX_SESSIONS`] stand; 75 where the numbers have come to [`MAX_COUNTER`]. Any
    /// `Err` leaves all as it was.
    pub fn accept(&mut self) -> Result<(SessionId, RouteInfo), Failure<SessionFault>>
        ensures { IsAnswered (refusal self.old Accept)
            (λ given. DoesStep self.old Accept (Accepted given.0 given.1) self.new)
            (self.new ≡ self.old) result }
    {
        if let Some(fault) = self.accept_fault() {
            return Err(Failure::Refused(fault));
        }
        let number = self.numbers + 1;
        self.standing.push(Session {
            number,
            dialed: None,
            serial: 0,
            kept: None,
        })?;
        self.numbers = number;
        let info = RouteInfo::new(self.server.name(), self.server.inc());
        Ok((SessionId::new(number), info))
    }

    /// The session that is kept for the peer at this place.
    pub fn kept_session(&self, place: usize) -> Option<SessionId>
        ensures { result ≡ number_kept place self.now.state.standing }
    {
        kept_id(&self.standing, place)
    }

    /// The place of the peer of this name.
    #[tactic(auto, using(crate::proofs::Judged::nobody, crate::proofs::Judged::at_place))]
    fn peer_named(&self, name: NodeId) -> Option<usize>
        ensures { result ≡ peer_of self.now.server name }
    {
        let place = self.server.place(name)?;
        self.server.is_peer(place).then_some(place)
    }

    /// Whether this is the server of the name.
    fn is_for_this(&self, name: NodeId) -> bool
        ensures { result ≡ nat_eq (place self.now.server name) self.now.server.me }
    {
        self.server.place(name) == Some(self.server.me())
    }

    /// The session of this number, which is not completed yet.
    fn open_at(&self, session: SessionId) -> Option<Session>
        ensures same { result ≡ open_session session self.now.state.standing }
        ensures dial { IfSome result (λ session.
            is_dial MAX_COUNTER session.serial session.dialed ≡ true) }
    {
        let session = session_at(&self.standing, session.get())?;
        if session.kept.is_some() {
            return None;
        }
        Some(session)
    }

    /// What an `INFO` offers on a dialed session.
    fn offer_of_info(&self, session: Session, info: &RouteInfo, peer: usize) -> Offer
        ensures { result ≡ record {
          peer = peer;
          inc = info.now.inc;
          dialer = self.now.server.me;
          serial = session.serial;
        } }
    {
        Offer {
            peer,
            inc: info.inc(),
            dialer: self.server.me(),
            serial: session.serial,
        }
    }

    /// What is offered, where no session that is as good or better is kept.
    fn if_better(&self, offer: Offer) -> Result<Offer, SessionFault>
        ensures { IsDecided (duplicate_fault offer (kept_for offer.peer self.now.state.standing))
            (λ kept. kept ≡ offer) ⊤ result }
    {
        match duplicate(&self.standing, offer) {
            Some(fault) => Err(fault),
            None => Ok(offer),
        }
    }

    /// What an `INFO` offers on a dialed session, where nothing is against it.
    fn info_offer(
        &self,
        session: SessionId,
        info: &RouteInfo,
        least: u64,
    ) -> Result<Offer, SessionFault>
        ensures { IsDecided (refusal self.now (OnInfo session info.now least))
            (λ offer. IsInfoOffer self.now session info.now offer) ⊤ result }
    {
        let Some(session) = self.open_at(session) else {
            return Err(SessionFault::UnknownSession);
        };
        let Some(dialed) = session.dialed else {
            return Err(SessionFault::UnknownSession);
        };
        if self.peer_named(info.server_name()) != Some(dialed) {
            return Err(SessionFault::WrongName);
        }
        if info.inc().get() < least {
            return Err(SessionFault::OldIncarnation);
        }
        self.if_better(self.offer_of_info(session, info, dialed))
    }

    /// What a `CONNECT` offers on an accepted session, where nothing is against it.
    fn connect_offer(
        &self,
        session: SessionId,
        connect: &RouteConnect,
        least: u64,
    ) -> Result<Offer, SessionFault>
        ensures { IsDecided (refusal self.now (OnConnect session connect.now least))
            (λ offer. IsConnectOffer self.now connect.now offer) ⊤ result }
    {
        let Some(session) = self.open_at(session) else {
            return Err(SessionFault::UnknownSession);
        };
        if session.dialed.is_some() {
            return Err(SessionFault::UnknownSession);
        }
        if !self.is_for_this(connect.to()) {
            return Err(SessionFault::WrongName);
        }
        let Some(peer) = self.peer_named(connect.server_name()) else {
            return Err(SessionFault::WrongName);
        };
        if connect.inc().get() < least || connect.to_inc() != self.server.inc() {
            return Err(SessionFault::OldIncarnation);
        }
        self.if_better(offer_of_connect(connect, peer))
    }

    /// The session keeps what is offered, in place of the one that was kept for the peer, which it gives.
    fn complete(&mut self, session: SessionId, offer: Offer) -> Kept
        requires { peer self.old.server offer.peer ≡ true }
        ensures given { result.instead_of ≡ number_kept offer.peer self.old.state.standing }
        ensures kept { self.new ≡ record {
          server = self.old.server;
          state = after_completion session offer self.old.state;
        } }
    {
        let instead_of = kept_id(&self.standing, offer.peer);
        complete(&mut self.standing, session.get(), offer);
        Kept { instead_of }
    }

    /// Why an [`Sessions::on_info`] is refused.
    pub fn info_fault(
        &self,
        session: SessionId,
        info: &RouteInfo,
        least: u64,
    ) -> Option<SessionFault>
        ensures { result ≡ refusal self.now (OnInfo session info.now least) }
    {
        self.info_offer(session, info, least).err()
    }

    /// Completes a dialed session on the `INFO` of the server that was dialed: it is kept in place of the
    /// one that was. Gives that one, and the `CONNECT` to send. `least` is the greatest incarnation seen
    /// of that server, 0 before the first.
    ///
    /// Refused: 73 where the session doesn't stand, was accepted, or is completed; 70 where the name is
    /// not that of the server dialed; 71 where the incarnation is below `least`; 72, with the kept
    /// session, where that is as good or better. Any `Err` leaves all as it was. Takes no memory.
    pub fn on_info(
        &mut self,
        session: SessionId,
        info: &RouteInfo,
        least: u64,
    ) -> Result<(Kept, RouteConnect), SessionFault>
        ensures { IsDecided (refusal self.old (OnInfo session info.now least))
            (λ done.
            DoesStep self.old (OnInfo session info.now least)
            (KeptAfterInfo done.0.instead_of done.1) self.new)
            (self.new ≡ self.old) result }
    {
        let offer = self.info_offer(session, info, least)?;
        let kept = self.complete(session, offer);
        let connect = own_connect(&self.server, info, offer.serial);
        Ok((kept, connect))
    }

    /// Why an [`Sessions::on_connect`] is refused.
    pub fn connect_fault(
        &self,
        session: SessionId,
        connect: &RouteConnect,
        least: u64,
    ) -> Option<SessionFault>
        ensures { result ≡ refusal self.now (OnConnect session connect.now least) }
    {
        self.connect_offer(session, connect, least).err()
    }

    /// Completes an accepted session on the `CONNECT` of the server that dialed: it is kept in place of
    /// the one that was. Gives that one. `least` is the greatest incarnation seen of that server, 0 before
    /// the first.
    ///
    /// Refused: 73 where the session doesn't stand, was dialed, or is completed; 70 where the name is not
    /// that of another server of the cluster, or the frame is not for this one; 71 where the incarnation
    /// is below `least`, or the frame is for another incarnation of this server; 72, with the kept
    /// session, where that is as good or better. Any `Err` leaves all as it was. Takes no memory.
    pub fn on_connect(
        &mut self,
        session: SessionId,
        connect: &RouteConnect,
        least: u64,
    ) -> Result<Kept, SessionFault>
        ensures { IsDecided (refusal self.old (OnConnect session connect.now least))
            (λ kept.
            DoesStep self.old (OnConnect session connect.now least) (WasKept kept.instead_of)
            self.new)
            (self.new ≡ self.old) result }
    {
        let offer = self.connect_offer(session, connect, least)?;
        Ok(self.complete(session, offer))
    }

    /// Why a [`Sessions::cut`] is refused.
    pub fn cut_fault(&self, session: SessionId) -> Option<SessionFault>
        ensures { result ≡ refusal self.now (Cut session) }
    {
        match session_at(&self.standing, session.get()) {
            None => Some(SessionFault::UnknownSession),
            Some(_) => None,
        }
    }

    /// Ends a session. Gives the place of the peer whose kept session it was.
    ///
    /// Refused: 73 where the session doesn't stand; that leaves all as it was. Takes no memory.
    pub fn cut(&mut self, session: SessionId) -> Result<Option<usize>, SessionFault>
        ensures done { IsDecided (refusal self.old (Cut session))
            (λ place. DoesStep self.old (Cut session) (WasCut place) self.new) (self.new ≡ self.old)
            result }
        ensures peer { IfOk result (λ cut.
            IfSome cut (λ place. peer self.old.server place ≡ true)) }
    {
        let Some(ended) = session_at(&self.standing, session.get()) else {
            return Err(SessionFault::UnknownSession);
        };
        end(&mut self.standing, session.get());
        Ok(ended.peer())
    }

    /// Ends the kept session of the peer at this place, where there is one. Takes no memory.
    pub fn drop_kept(&mut self, place: usize)
        ensures { self.new
            ≡ record { server = self.old.server; state = without_peer place self.old.state } }
    {
        drop_kept(&mut self.standing, place);
    }
}
