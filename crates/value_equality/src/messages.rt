//! Messages and publications.

ghost use Rattle.std.specs.Prelude.{◌≡◌, ◌↔◌, IsTrue};
ghost use Rattle.std.specs.Option.{option_copied};

use subj::{Message, Pub, Reply};

/// Whether an answer is awaited on the same subject, or on none twice.
fn is_same_reply(a: Option<&Reply>, b: Option<&Reply>) -> bool
    ensures { IsTrue result ↔ (option_copied a.entry ≡ option_copied b.entry) }
{
    match (a, b) {
        (None, None) => true,
        (Some(a), Some(b)) => a.bytes() == b.bytes(),
        (None, Some(_)) | (Some(_), None) => false,
    }
}

/// Whether it is the same header block, or none twice.
fn is_same_block(a: Option<&[u8]>, b: Option<&[u8]>) -> bool
    ensures { IsTrue result ↔ (option_copied a.entry ≡ option_copied b.entry) }
{
    match (a, b) {
        (Some(a), Some(b)) => a == b,
        _ => a.is_none() && b.is_none(),
    }
}

/// Whether the messages have the same subject, the same reply, the same header block and the same payload.
pub fn is_same_message(a: &Message, b: &Message) -> bool
    ensures { IsTrue result ↔ (a.now ≡ b.now) }
{
    a.subject().bytes() == b.subject().bytes()
        && is_same_reply(a.reply(), b.reply())
        && is_same_block(a.headers(), b.headers())
        && a.payload().as_slice() == b.payload().as_slice()
}

/// Whether it is the same publication as a client hands it in: the message, and whether the client gets it too.
pub fn is_same_pub(a: &Pub, b: &Pub) -> bool
    ensures { IsTrue result ↔ (a.now ≡ b.now) }
{
    a.echo == b.echo && is_same_message(&a.message, &b.message)
}
