//! The asks of one item of a client's stream, which are asked one at a time.

ghost use Rattle.client_frames.specs.declared.server_frames.ReplyFrame.TheVariants as reply;
ghost use Rattle.client_conn.specs.declared.ask.ClientAction.TheVariants as ask;
ghost use Rattle.client_conn.specs.declared.ask.ClientAction.{ClientAction};
ghost use Rattle.std.specs.Prelude.{◌≡◌, ◌∷◌, ◌++◌, List, [], drop, is_some, not, slice_get, option_copied, option_to_list, None, Some};
ghost use Rattle.client_frames.specs.Streams.{asked};
ghost use Rattle.client_conn.specs.Asks.{no_asks};
ghost use Rattle.client_conn.specs.Items.{asked_by, with_confirmation, first_options, publication_of, refusal_asks};

use crate::ask::ClientAction;
use client_frames::{ClientLine, ErrText, Options, ReplyFrame};
use std::marker::Model;
use subj::{Key, Message, Pub};

/// The asks of one item that are not answered yet, of which there are at most two, and the options by which the next
/// items ask.
///
/// Seen as the list of the asks, and the options.
pub struct OpenAsks {
    pub(crate) options: Options,
    /// What is asked before the item's own, where that is asked too.
    confirmation: Option<ClientAction>,
    own: Option<ClientAction>,
}

/// One call, also for crates above: `docs/PROVING.md`, "What a proof costs".
impl Drop for OpenAsks {
    fn drop(self) {
        let OpenAsks {
            options: _,
            confirmation: _,
            own: _,
        } = self;
    }
}

impl Model for OpenAsks {
    ghost use Rattle.std.specs.Prelude.{◌++◌, option_to_list};
    ghost use Rattle.client_conn.specs.Items.{OpenState};

    ghost Value = { OpenState };

    ghost view = { λ s. record {
      asks = option_to_list s.confirmation ++ option_to_list s.own;
      options = s.options;
    } };
}

/// Asks for nothing in the place. Most often nothing was asked there, and nothing is dropped then.
#[inline(always)]
fn empty(place: &mut Option<ClientAction>)
    ensures { place.new ≡ None }
{
    if place.is_some() {
        *place = None;
    }
}

/// Asks for this in the place.
fn replace(place: &mut Option<ClientAction>, ask: ClientAction)
    ensures { place.new ≡ Some ask }
{
    *place = Some(ask);
}

/// Asks for `+OK` in verbose mode, before what a command asks for itself.
#[inline(always)]
fn confirm(confirmation: &mut Option<ClientAction>, options: Options)
    ensures { (own : List ClientAction)
        → option_to_list confirmation.new ++ own ≡ with_confirmation options own }
{
    empty(confirmation);
    if options.verbose {
        *confirmation = Some(ClientAction::Reply(ReplyFrame::Ok));
    }
}

/// The message that it asks to publish, if it does.
fn message_in(ask: Option<ClientAction>) -> Option<Message> {
    match ask {
        Some(ClientAction::Publish(publication)) => {
            let Pub { message, .. } = publication;
            Some(message)
        }
        _ => None,
    }
}

impl OpenAsks {
    /// This alone is asked, of a client that has chosen no options yet.
    pub fn of(ask: ClientAction) -> OpenAsks
        ensures { result ≡ record { asks = ask ∷ []; options = first_options } }
    {
        OpenAsks {
            options: Options {
                verbose: true,
                echo: true,
                headers: false,
            },
            confirmation: None,
            own: Some(ask),
        }
    }

    /// What a command asks for stands in place of what stood. It may change the options first.
    pub fn ask_command(&mut self, command: ClientLine)
        ensures { self.new ≡ asked_by (asked command) self.old.options }
    {
        match command {
            ClientLine::Connect(chosen) => {
                self.options = chosen;
                self.ask_own(ClientAction::SetHeaders(chosen.headers))
            }
            ClientLine::Sub {
                pattern,
                queue,
                sid,
            } => self.ask_own(ClientAction::Subscribe {
                key: Key { pattern, queue },
                sid,
            }),
            ClientLine::Unsub { sid, max } => {
                self.ask_own(ClientAction::Unsubscribe { sid, max })
            }
            ClientLine::Ping => self.ask_alone(ClientAction::Reply(ReplyFrame::Pong)),
            ClientLine::Pong | ClientLine::Pub(_) | ClientLine::PubBad { .. } => self.clear(),
        }
    }

    /// A command's own ask stands behind its confirmation, in place of what stood.
    fn ask_own(&mut self, ask: ClientAction)
        ensures { self.new
            ≡ record self.old { asks = with_confirmation self.old.options (ask ∷ []) } }
    {
        confirm(&mut self.confirmation, self.options);
        replace(&mut self.own, ask);
    }

    /// What a publication asks for stands in place of what stood.
    pub fn ask_publication(&mut self, message: Message)
        ensures { self.new ≡ record self.old {
          asks =
              with_confirmation self.old.options
              (ask.Publish (publication_of message self.old.options) ∷ []);
        } }
    {
        let publication = Pub {
            message,
            echo: self.options.echo,
        };
        confirm(&mut self.confirmation, self.options);
        empty(&mut self.own);
        self.own = Some(ClientAction::Publish(publication));
    }

    /// What a refusal with this text asks for stands in place of what stood.
    pub fn refuse(&mut self, text: ErrText)
        ensures { self.new ≡ record self.old { asks = refusal_asks text } }
    {
        if text.closes() {
            self.ask_alone(ClientAction::Shut(text));
        } else {
            self.ask_alone(ClientAction::Reply(ReplyFrame::Err(text)));
        }
    }

    fn ask_alone(&mut self, ask: ClientAction)
        ensures { self.new ≡ record self.old { asks = ask ∷ [] } }
    {
        empty(&mut self.confirmation);
        replace(&mut self.own, ask);
    }

    /// Whether nothing is asked.
    pub fn is_empty(&self) -> bool
        ensures { result ≡ no_asks self.now.asks }
    {
        self.confirmation.is_none() && self.own.is_none()
    }

    /// What is asked first.
    pub fn first(&self) -> Option<&ClientAction>
        ensures value { option_copied result ≡ slice_get self.now.asks 0 }
        ensures some { is_some result ≡ not (no_asks self.now.asks) }
    {
        match &self.confirmation {
            Some(confirmation) => Some(confirmation),
            None => self.own.as_ref(),
        }
    }

    /// The first was answered. Gives its message, where it was a publication.
    pub fn advance(&mut self) -> Option<Message>
        ensures { self.new ≡ record self.old { asks = drop 1 self.old.asks } }
    {
        if self.confirmation.is_some() {
            self.confirmation = None;
            return None;
        }
        message_in(self.own.take())
    }

    /// The client is told this in place of the first.
    pub fn tell(&mut self, text: ErrText)
        ensures { self.new
            ≡ record self.old { asks = ask.Reply (reply.Err text) ∷ drop 1 self.old.asks } }
    {
        let told = ClientAction::Reply(ReplyFrame::Err(text));
        if self.confirmation.is_some() {
            replace(&mut self.confirmation, told)
        } else {
            replace(&mut self.own, told)
        }
    }

    /// Nothing is asked any more.
    pub fn clear(&mut self)
        ensures { self.new ≡ record self.old { asks = [] } }
    {
        empty(&mut self.confirmation);
        empty(&mut self.own);
    }
}
