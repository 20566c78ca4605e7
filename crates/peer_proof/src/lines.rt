//! The words of 32 bytes that go over the wire, and the lines of a handshake, written and read. Fields are separated as in all lines of servers; none
//! of these has the CR LF that ends it.

ghost use Rattle.std.specs.Prelude.{◌≡◌, ◌++◌, None, Some, MatchOption, OnOk, option_map};
ghost use Rattle.std.specs.Str.{bytes_eq};
ghost use Rattle.hex.specs.Hex.{encode_lower};
ghost use Rattle.line_fields.specs.Fields.{fields, line_fields};
ghost use Rattle.line_fields.specs.LineEnd.{line_end};
ghost use Rattle.peer_proof.specs.Lines.{fields_behind, hello_of, answer_of, proof_of, hello_line, answer_line, proof_line, name_in, spaced, three_in, two_in, one_in};
ghost use Rattle.peer_proof.specs.Words.{word_in};

use line_fields::{CR_LF, is_word, split_field, split_line};
use std::alloc::AllocError;
use subj::NodeId;

/// How many bytes a digest has, and each word that goes over the wire: L of RFC 2104.
pub const WORD: usize = 32;

/// How many digits such a word has.
const DIGITS: usize = 64;

/// A word that its sender drew at random for one connection. It goes over the wire as it is.
#[derive(Clone, Copy)]
pub struct FreshWord(pub [u8; WORD]);

/// A proof that its sender has the secret: HMAC-SHA256 of what both ends know of their handshake.
#[derive(Clone, Copy)]
pub struct Mac(pub [u8; WORD]);

impl Mac {
    /// Whether it is that other one. All bytes are compared, wherever the first difference stands, so that the time which that takes says nothing
    /// of where it stands.
    pub fn is(&self, other: &Mac) -> bool
        ensures { result ≡ bytes_eq self.now.0 other.now.0 }
    {
        let mut differing = 0;
        for place in 0..WORD {
            differing |= self.0[place] ^ other.0[place];
        }
        differing == 0
    }
}

/// The digits of a word, hexadecimal, the letters in lower case.
fn digits_of(word: &[u8; WORD]) -> [u8; DIGITS]
    ensures { result ≡ encode_lower word.now }
{
    let mut digits = [0; DIGITS];
    let encoded = hex::encode_to_slice(word, &mut digits);
    prove!(encoded.is_ok());
    digits
}

/// The word of which these are the digits. None where they are of none: 64 hexadecimal digits are wanted, the letters in lower case.
fn read_word(digits: &[u8]) -> Option<[u8; WORD]>
    ensures { result ≡ word_in digits.now }
{
    let mut word = [0; WORD];
    hex::decode_to_slice(digits, &mut word).ok()?;
    (digits_of(&word).as_slice() == digits).then_some(word)
}

/// The most bytes of a line of a handshake, without its CR LF.
pub const HANDSHAKE_LINE: usize = 256;

/// The word of the dialer's first line.
const HELLO: &[u8] = b"HELLO";

/// The word of the two lines behind it.
const PROOF: &[u8] = b"PROOF";

/// What the dialer says first: who it is, whom it has dialed, and the word that it has drawn.
#[derive(Clone, Copy)]
pub struct Hello {
    pub me: NodeId,
    pub you: NodeId,
    pub word: FreshWord,
}

/// What the acceptor answers: the word that it has drawn, and its proof.
#[derive(Clone, Copy)]
pub struct Answer {
    pub word: FreshWord,
    pub mac: Mac,
}

/// What stands behind a line's first field, where that is this word.
fn behind<'a>(word: &[u8], line: &'a [u8]) -> Option<&'a [u8]>
    ensures { MatchOption result (fields_behind word.now (line_fields line.now) ≡ None)
        (λ rest. fields_behind word.now (line_fields line.now) ≡ Some (fields rest.now)) }
{
    let (first, rest) = split_line(line)?;
    is_word(word, first).then_some(rest)
}

/// The only field of a text; None where there are others or none.
fn one_field(text: &[u8]) -> Option<&[u8]>
    ensures { MatchOption result (one_in (fields text.now) ≡ None)
        (λ field. one_in (fields text.now) ≡ Some field.now) }
{
    let (field, rest) = split_field(text)?;
    match split_field(rest) {
        None => Some(field),
        Some(_) => None,
    }
}

/// The two fields of a text; None where there are more or fewer.
fn two_fields(text: &[u8]) -> Option<(&[u8], &[u8])>
    ensures { MatchOption result (two_in (fields text.now) ≡ None)
        (λ both. two_in (fields text.now) ≡ Some (both.0.now, both.1.now)) }
{
    let (first, rest) = split_field(text)?;
    let second = one_field(rest)?;
    Some((first, second))
}

/// The three fields of a text; None where there are more or fewer.
fn three_fields(text: &[u8]) -> Option<(&[u8], &[u8], &[u8])>
    ensures { MatchOption result (three_in (fields text.now) ≡ None)
        (λ all. three_in (fields text.now) ≡ Some (all.0.now, all.1.now, all.2.now)) }
{
    let (first, rest) = split_field(text)?;
    let (second, third) = two_fields(rest)?;
    Some((first, second, third))
}

/// The server's name that a field is; None where it is none.
fn name(field: &[u8]) -> Option<NodeId>
    ensures { result ≡ name_in field.now }
{
    match NodeId::read(field) {
        Ok(name) => Some(name),
        Err(_) => None,
    }
}

/// Puts a field behind what stands there, and a space before it.
fn put_field(out: &mut Vec<u8>, field: &[u8]) -> Result<(), AllocError>
    ensures { OnOk result (out.new.items ≡ out.old.items ++ spaced field.now) }
{
    out.extend_from_slice(b" ")?;
    out.extend_from_slice(field)
}

impl Hello {
    /// What the line says; None where it is no such line.
    pub fn read(line: &[u8]) -> Option<Hello>
        ensures { result ≡ hello_of line.now }
    {
        let text = behind(HELLO, line)?;
        let (me, you, word) = three_fields(text)?;
        let me = name(me)?;
        let you = name(you)?;
        let word = read_word(word)?;
        Some(Hello {
            me,
            you,
            word: FreshWord(word),
        })
    }

    /// Puts its line behind what stands there, with its CR LF. An error leaves a beginning of it.
    pub fn write(&self, out: &mut Vec<u8>) -> Result<(), AllocError>
        ensures { OnOk result (out.new.items ≡ out.old.items ++ hello_line self.now ++ line_end) }
    {
        out.extend_from_slice(HELLO)?;
        put_field(out, self.me.bytes())?;
        put_field(out, self.you.bytes())?;
        put_field(out, &digits_of(&self.word.0))?;
        out.extend_from_slice(CR_LF)
    }
}

impl Answer {
    /// What the line says; None where it is no such line.
    pub fn read(line: &[u8]) -> Option<Answer>
        ensures { result ≡ answer_of line.now }
    {
        let text = behind(PROOF, line)?;
        let (word, mac) = two_fields(text)?;
        let word = read_word(word)?;
        let mac = read_word(mac)?;
        Some(Answer {
            word: FreshWord(word),
            mac: Mac(mac),
        })
    }

    /// Puts its line behind what stands there, with its CR LF. An error leaves a beginning of it.
    pub fn write(&self, out: &mut Vec<u8>) -> Result<(), AllocError>
        ensures { OnOk result (out.new.items ≡ out.old.items ++ answer_line self.now ++ line_end) }
    {
        out.extend_from_slice(PROOF)?;
        put_field(out, &digits_of(&self.word.0))?;
        put_field(out, &digits_of(&self.mac.0))?;
        out.extend_from_slice(CR_LF)
    }
}

impl Mac {
    /// What the dialer's last line says; None where it is no such line.
    pub fn read(line: &[u8]) -> Option<Mac>
        ensures { result ≡ proof_of line.now }
    {
        let text = behind(PROOF, line)?;
        let digits = one_field(text)?;
        let mac = read_word(digits)?;
        Some(Mac(mac))
    }

    /// Puts the dialer's last line behind what stands there, with its CR LF. An error leaves a beginning of it.
    pub fn write(&self, out: &mut Vec<u8>) -> Result<(), AllocError>
        ensures { OnOk result (out.new.items ≡ out.old.items ++ proof_line self.now ++ line_end) }
    {
        out.extend_from_slice(PROOF)?;
        put_field(out, &digits_of(&self.0))?;
        out.extend_from_slice(CR_LF)
    }
}
