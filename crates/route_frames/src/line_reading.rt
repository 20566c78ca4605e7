//! Judging the lines of numbered frames, without memory: the operations, the five fields behind them, the fields behind those, and
//! what they say.

ghost use Rattle.std.specs.Prelude.{◌≡◌, ◌≤◌, None, Some, MatchOption, IfOk, ◌∷◌, [], length, option_map};
ghost use Rattle.route_frames.specs.Operations.{operation_of};
ghost use Rattle.std.specs.Option.{ok_or, option_copied};
ghost use Rattle.line_fields.specs.Fields.{fields};
ghost use Rattle.subj.specs.Names.{node_name_fault, pattern_fault, subject_fault, queue_name_fault};
ghost use Rattle.route_frames.specs.CommonFields.{CommonFields, common_fields, digits_of, within as in_range, name_of, numbers_of, numbers_in_range};
ghost use Rattle.route_frames.specs.TextViews.{names_view, common_view, numbers_view, message_view, key_view, weighted_view, numbered_view};
ghost use Rattle.route_frames.specs.Arguments.{plus_fields, minus_fields, snapshot_field, form_of, form_by_mark as marked_form, message_fields as fields_of_message, header_fields as fields_with_headers, split_last as last_split_off};
ghost use Rattle.std.specs.List.{list_all};
ghost use Rattle.subj.specs.QueueNames.{is_before_first as before_first, are_rising as rising};
ghost use Rattle.route_values.specs.Snapshots.{weighted_key};
ghost use Rattle.route_frames.specs.declared.faults.RouteFault.TheVariants.{BadArgs};
ghost use Rattle.route_frames.specs.Meaning.{Says, Checks};
ghost use Rattle.route_frames.specs.NumberedLines.{account_of, optional as optionally, key_of, queue_names_in, is_queue_name, weight_digits, plus_line, minus_line, snapshot_line, few_fields, header_digits, headers_within, publication_with, publication_by, publication_line};

use crate::faults::RouteFault;
use crate::reading::{BodyText, KeyText, NumberedText, WeightedText};
use line_fields::{MAX_DIGITS, is_word, read_digits, split_field};
use subj::{
    HEADER_START, Incarnation, MAX_COUNTER, MAX_PAYLOAD, MAX_QUEUE_NAMES, MAX_SNAPSHOT, MAX_WEIGHT,
    NameFault, NodeId, Pattern, QueueName, Subject,
};

/// The first field of a route's line. (NATS documentation, "Cluster Protocol"; snapshots and `RHMSG`: profile.)
#[derive(Clone, Copy)]
pub(crate) enum Operation {
    Info,
    Connect,
    /// That of a numbered frame.
    Numbered(NumberedOperation),
}

/// The operation of a numbered frame.
#[derive(Clone, Copy)]
pub(crate) enum NumberedOperation {
    Plus,
    Minus,
    Snapshot,
    Msg,
    HeaderMsg,
}

impl Operation {
    /// The operation that a field names. The most frequent one is tried first.
    pub(crate) fn read(field: &[u8]) -> Option<Operation>
        ensures { result ≡ operation_of field.now }
    {
        if is_word(b"RMSG", field) {
            return Some(Operation::Numbered(NumberedOperation::Msg));
        }
        if is_word(b"RHMSG", field) {
            return Some(Operation::Numbered(NumberedOperation::HeaderMsg));
        }
        if is_word(b"RS+", field) {
            return Some(Operation::Numbered(NumberedOperation::Plus));
        }
        if is_word(b"RS-", field) {
            return Some(Operation::Numbered(NumberedOperation::Minus));
        }
        if is_word(b"RSS", field) {
            return Some(Operation::Numbered(NumberedOperation::Snapshot));
        }
        if is_word(b"INFO", field) {
            return Some(Operation::Info);
        }
        if is_word(b"CONNECT", field) {
            return Some(Operation::Connect);
        }
        None
    }
}

/// The most digits of an incarnation. (Profile.)
pub(crate) const INCARNATION_DIGITS: usize = 16;

/// The most digits of the number of a frame. (Profile.)
pub(crate) const NUMBER_DIGITS: usize = 15;

/// The one account that there is. (Profile.)
pub(crate) const ACCOUNT: &[u8] = b"$G";

/// The number that a field spells.
pub(crate) fn spelt_number(field: &[u8], most: usize) -> Result<u64, RouteFault>
    requires { most ≤ MAX_DIGITS }
    ensures { result ≡ digits_of most field.now }
{
    read_digits(field, most).ok_or(RouteFault::BadArgs)
}

/// A number that has to be in a range.
pub(crate) fn within(least: u64, most: u64, number: u64) -> Result<u64, RouteFault>
    ensures { result ≡ in_range least most number }
{
    if least <= number && number <= most {
        Ok(number)
    } else {
        Err(RouteFault::BadNumber)
    }
}

/// The server's name that a field is.
pub(crate) fn node(field: &[u8]) -> Result<NodeId, RouteFault>
    ensures means { result ≡ name_of node_name_fault field.now }
    ensures same { IfOk result (λ node. node ≡ field.now) }
{
    match NodeId::read(field) {
        Ok(node) => Ok(node),
        Err(_) => Err(RouteFault::BadArgs),
    }
}

/// The numbers of the common fields, as they are spelt.
#[derive(Clone, Copy)]
pub(crate) struct Digits {
    pub(crate) inc: u64,
    pub(crate) to_inc: u64,
    pub(crate) number: u64,
}

/// The numbers of the common fields, in their ranges.
#[derive(Clone, Copy)]
pub(crate) struct Numbers {
    pub(crate) inc: Incarnation,
    pub(crate) to_inc: Incarnation,
    pub(crate) number: u64,
}

impl Digits {
    /// The same, where each is in its range; that of the frame's number begins with `least`.
    #[tactic(auto, unfolding(crate::specs::CommonFields::numbers_in_range))]
    pub(crate) fn in_range(self, least: u64) -> Result<Numbers, RouteFault>
        ensures means { result ≡ numbers_in_range least self }
        ensures same { IfOk result (λ numbers.
            numbers ≡ record { inc = self.inc; to_inc = self.to_inc; number = self.number }) }
    {
        let inc = Incarnation::new(self.inc).ok_or(RouteFault::BadNumber)?;
        let to_inc = Incarnation::new(self.to_inc).ok_or(RouteFault::BadNumber)?;
        let number = within(least, MAX_COUNTER, self.number)?;
        Ok(Numbers {
            inc,
            to_inc,
            number,
        })
    }
}

/// The five fields behind the operation of a numbered frame: who sends it, in which incarnation, to
/// whom, in which incarnation, and the frame's number. (Profile.)
#[derive(Clone, Copy)]
pub(crate) struct Common<'a> {
    pub(crate) from: &'a [u8],
    pub(crate) inc: &'a [u8],
    pub(crate) to: &'a [u8],
    pub(crate) to_inc: &'a [u8],
    pub(crate) number: &'a [u8],
}

impl<'a> Common<'a> {
    ghost use Rattle.route_frames.specs.TextViews.{common_view};

    /// The fields of which these two come first, and what stands behind them, where there are so many.
    fn read_others(from: &'a [u8], inc: &'a [u8], text: &'a [u8]) -> Option<(Common<'a>, &'a [u8])>
        ensures { MatchOption result (common_fields (from.now ∷ inc.now ∷ fields text.now) ≡ None)
            (λ read.
            common_fields (from.now ∷ inc.now ∷ fields text.now)
            ≡ Some (common_view read.0, fields read.1.now)) }
    {
        let (to, behind) = split_field(text)?;
        let (to_inc, behind) = split_field(behind)?;
        let (number, behind) = split_field(behind)?;
        let common = Common {
            from,
            inc,
            to,
            to_inc,
            number,
        };
        Some((common, behind))
    }

    /// The first five fields of a text, and what stands behind them, where there are so many.
    pub(crate) fn read(text: &'a [u8]) -> Option<(Common<'a>, &'a [u8])>
        ensures { MatchOption result (common_fields (fields text.now) ≡ None) (λ read.
            common_fields (fields text.now) ≡ Some (common_view read.0, fields read.1.now)) }
    {
        let (from, behind) = split_field(text)?;
        let (inc, behind) = split_field(behind)?;
        Common::read_others(from, inc, behind)
    }

    /// The numbers that the fields spell.
    #[tactic(auto, unfolding(crate::specs::CommonFields::numbers_of))]
    pub(crate) fn digits(self) -> Result<Digits, RouteFault>
        ensures { result ≡ numbers_of (common_view self.entry) }
    {
        let inc = spelt_number(self.inc, INCARNATION_DIGITS)?;
        let to_inc = spelt_number(self.to_inc, INCARNATION_DIGITS)?;
        let number = spelt_number(self.number, NUMBER_DIGITS)?;
        Ok(Digits {
            inc,
            to_inc,
            number,
        })
    }
}

/// The first so many fields of a text. They are found each time they are looked at, so that a line is
/// judged without memory.
#[derive(Clone, Copy)]
pub(crate) struct Names<'a> {
    pub(crate) text: &'a [u8],
    pub(crate) count: usize,
}

impl<'a> Names<'a> {
    pub(crate) fn none() -> Names<'a>
        ensures { names_view result ≡ [] }
    {
        Names {
            text: &[],
            count: 0,
        }
    }

    /// All fields of a text.
    #[tactic(auto, using(crate::proofs::Meaning::Forms::all_fields))]
    pub(crate) fn all(text: &'a [u8]) -> Names<'a>
        ensures { names_view result ≡ fields text.now }
    {
        let count = text.len() + 1;
        Names { text, count }
    }

    /// The first of them, and the others.
    pub(crate) fn split_first(self) -> Option<(&'a [u8], Names<'a>)>
        ensures { MatchOption result (names_view self.entry ≡ [])
            (λ split. names_view self.entry ≡ split.0.now ∷ names_view split.1) }
    {
        if self.count == 0 {
            return None;
        }
        let (first, text) = split_field(self.text)?;
        let others = Names {
            text,
            count: self.count - 1,
        };
        Some((first, others))
    }

    /// How many they are.
    #[tactic(auto, using(crate::proofs::Meaning::Forms::few_names))]
    pub(crate) fn len(self) -> usize
        ensures { result ≡ length (names_view self.entry) }
    {
        let mut len = 0;
        let mut rest = self;
        while let Some((_, others)) = rest.split_first() {
            len += 1;
            rest = others;
        }
        len
    }
}

/// What stands in front of queue names alone. (NATS documentation, "Cluster Protocol": `RMSG`.)
pub(crate) const NAMES_MARK: &[u8] = b"|";

/// What stands in front of a reply and queue names.
pub(crate) const REPLY_MARK: &[u8] = b"+";

/// What stands behind `RS+` and the common fields.
#[derive(Clone, Copy)]
pub(crate) struct PlusFields<'a> {
    pub(crate) account: &'a [u8],
    pub(crate) pattern: &'a [u8],
    pub(crate) queue: Option<&'a [u8]>,
    pub(crate) weight: Option<&'a [u8]>,
}

impl<'a> PlusFields<'a> {
    /// The fields of a text, where these are two or four.
    pub(crate) fn read(text: &'a [u8]) -> Option<PlusFields<'a>>
        ensures { MatchOption result (plus_fields (fields text.now) ≡ None) (λ f.
            plus_fields (fields text.now)
            ≡ Some (record {
              account = f.account.now;
              pattern = f.pattern.now;
              queue = option_copied f.queue;
              weight = option_copied f.weight;
            })) }
    {
        let (account, behind) = split_field(text)?;
        let (pattern, behind) = split_field(behind)?;
        let Some((queue, behind)) = split_field(behind) else {
            return Some(PlusFields {
                account,
                pattern,
                queue: None,
                weight: None,
            });
        };
        let (weight, behind) = split_field(behind)?;
        match split_field(behind) {
            None => Some(PlusFields {
                account,
                pattern,
                queue: Some(queue),
                weight: Some(weight),
            }),
            Some(_) => None,
        }
    }
}

/// What stands behind `RS-` and the common fields.
#[derive(Clone, Copy)]
pub(crate) struct MinusFields<'a> {
    pub(crate) account: &'a [u8],
    pub(crate) pattern: &'a [u8],
    pub(crate) queue: Option<&'a [u8]>,
}

impl<'a> MinusFields<'a> {
    /// The fields of a text, where these are two or three.
    pub(crate) fn read(text: &'a [u8]) -> Option<MinusFields<'a>>
        ensures { MatchOption result (minus_fields (fields text.now) ≡ None) (λ f.
            minus_fields (fields text.now)
            ≡ Some (record {
              account = f.account.now;
              pattern = f.pattern.now;
              queue = option_copied f.queue;
            })) }
    {
        let (account, behind) = split_field(text)?;
        let (pattern, behind) = split_field(behind)?;
        let Some((queue, behind)) = split_field(behind) else {
            return Some(MinusFields {
                account,
                pattern,
                queue: None,
            });
        };
        match split_field(behind) {
            None => Some(MinusFields {
                account,
                pattern,
                queue: Some(queue),
            }),
            Some(_) => None,
        }
    }
}

/// The one field of a text, where it has one: the size behind `RSS` and the common fields.
pub(crate) fn size_alone(text: &[u8]) -> Option<&[u8]>
    ensures { option_copied result ≡ snapshot_field (fields text.now) }
{
    let (size, behind) = split_field(text)?;
    match split_field(behind) {
        None => Some(size),
        Some(_) => None,
    }
}

/// All fields but the last, and the last.
#[tactic(auto, using(crate::proofs::Meaning::Forms::last_at, crate::proofs::Meaning::Forms::drop_more, crate::proofs::Meaning::Forms::count_at, crate::proofs::Meaning::Forms::few_names, crate::proofs::Meaning::Forms::first_of_first))]
fn split_last(fields: Names<'_>) -> Option<(Names<'_>, &[u8])>
    ensures { MatchOption result (last_split_off (names_view fields.entry) ≡ None) (λ split.
        last_split_off (names_view fields.entry) ≡ Some (names_view split.0, split.1.now)) }
{
    let (mut last, mut rest) = fields.split_first()?;
    let mut count = 0;
    while let Some((field, others)) = rest.split_first() {
        last = field;
        rest = others;
        count += 1;
    }
    let text = fields.text;
    Some((Names { text, count }, last))
}

/// What stands behind the subject of an `RMSG`.
#[derive(Clone, Copy)]
pub(crate) struct Form<'a> {
    pub(crate) reply: Option<&'a [u8]>,
    pub(crate) names: Names<'a>,
    pub(crate) size: &'a [u8],
}

impl<'a> Form<'a> {
    ghost use Rattle.route_frames.specs.TextViews.{form_view};

    /// The form of a message by its first field, those between, and its last.
    fn of_mark(mark: &[u8], between: Names<'a>, size: &'a [u8]) -> Option<Form<'a>>
        ensures { option_map form_view result
            ≡ marked_form mark.now (names_view between.entry) size.now }
    {
        if mark == NAMES_MARK {
            return Some(Form {
                reply: None,
                names: between,
                size,
            });
        }
        if mark != REPLY_MARK {
            return None;
        }
        let (reply, names) = between.split_first()?;
        let _first = names.split_first()?;
        Some(Form {
            reply: Some(reply),
            names,
            size,
        })
    }

    /// The form that the fields have, where they have one.
    pub(crate) fn read(fields: Names<'a>) -> Option<Form<'a>>
        ensures { option_map form_view result ≡ form_of (names_view fields.entry) }
    {
        let (first, behind) = fields.split_first()?;
        let Some((between, size)) = split_last(behind) else {
            return Some(Form {
                reply: None,
                names: Names::none(),
                size: first,
            });
        };
        match between.split_first() {
            None => Some(Form {
                reply: Some(first),
                names: Names::none(),
                size,
            }),
            Some(_) => Form::of_mark(first, between, size),
        }
    }
}

/// What stands behind `RMSG` or `RHMSG` and the common fields.
#[derive(Clone, Copy)]
pub(crate) struct MessageFields<'a> {
    pub(crate) account: &'a [u8],
    pub(crate) subject: &'a [u8],
    /// The size of the header block, where there is one.
    pub(crate) headers: Option<&'a [u8]>,
    pub(crate) form: Form<'a>,
}

impl<'a> MessageFields<'a> {
    ghost use Rattle.route_frames.specs.TextViews.{message_view};

    /// Those of an `RMSG`, where their number is that of one of the forms.
    pub(crate) fn read(fields: Names<'a>) -> Option<MessageFields<'a>>
        ensures { option_map message_view result ≡ fields_of_message (names_view fields.entry) }
    {
        let (account, behind) = fields.split_first()?;
        let (subject, behind) = behind.split_first()?;
        let form = Form::read(behind)?;
        Some(MessageFields {
            account,
            subject,
            headers: None,
            form,
        })
    }

    /// Those of an `RHMSG`: of an `RMSG` that has the size of the header block for its size, and behind them the size of all that
    /// follows the line.
    pub(crate) fn read_with_headers(fields: Names<'a>) -> Option<MessageFields<'a>>
        ensures { option_map message_view result ≡ fields_with_headers (names_view fields.entry) }
    {
        let (front, size) = split_last(fields)?;
        let message = MessageFields::read(front)?;
        let MessageFields {
            account,
            subject,
            form,
            ..
        } = message;
        let Form {
            reply,
            names,
            size: headers,
        } = form;
        Some(MessageFields {
            account,
            subject,
            headers: Some(headers),
            form: Form { reply, names, size },
        })
    }
}

/// The most digits of a weight. (Profile.)
pub(crate) const WEIGHT_DIGITS: usize = 5;

/// The most digits of a size. (Profile.)
pub(crate) const SIZE_DIGITS: usize = 10;

fn check_account(field: &[u8]) -> Result<(), RouteFault>
    ensures { result ≡ account_of field.now }
{
    if field == ACCOUNT {
        Ok(())
    } else {
        Err(RouteFault::BadArgs)
    }
}

/// A field that has to be a name, which has this fault as one, or none.
fn name(field: &[u8], fault: Option<NameFault>) -> Result<&[u8], RouteFault>
    ensures { Says (λ name. name.now) (name_of (λ field. fault) field.now) result }
{
    if fault.is_some() {
        return Err(RouteFault::BadArgs);
    }
    Ok(field)
}

fn queue_name(field: Option<&[u8]>) -> Result<Option<&[u8]>, RouteFault>
    ensures { Says option_copied (optionally (name_of queue_name_fault) (option_copied field.entry))
        result }
{
    match field {
        None => Ok(None),
        Some(field) => Ok(Some(name(field, QueueName::fault(field))?)),
    }
}

fn reply_name(field: Option<&[u8]>) -> Result<Option<&[u8]>, RouteFault>
    ensures { Says option_copied (optionally (name_of subject_fault) (option_copied field.entry))
        result }
{
    match field {
        None => Ok(None),
        Some(field) => Ok(Some(name(field, Subject::fault(field))?)),
    }
}

/// The key of a pattern and a queue name.
#[tactic(auto, unfolding(crate::specs::NumberedLines::key_of))]
pub(crate) fn key<'a>(pattern: &'a [u8], queue: Option<&'a [u8]>) -> Result<KeyText<'a>, RouteFault>
    ensures { Says key_view (key_of pattern.now (option_copied queue.entry)) result }
{
    let pattern = name(pattern, Pattern::fault(pattern))?;
    let queue = queue_name(queue)?;
    Ok(KeyText { pattern, queue })
}

/// A key with its weight.
pub(crate) fn weighted_text(key: KeyText<'_>, weight: u64) -> Result<WeightedText<'_>, RouteFault>
    ensures { Says weighted_view (ok_or (weighted_key (key_view key.entry) weight) BadArgs) result }
{
    let weighs = match key.queue {
        None => weight == 1,
        Some(_) => 1 <= weight && weight <= MAX_WEIGHT,
    };
    if weighs {
        Ok(WeightedText { key, weight })
    } else {
        Err(RouteFault::BadArgs)
    }
}

fn weight(field: Option<&[u8]>) -> Result<u64, RouteFault>
    ensures { result ≡ weight_digits (option_copied field.entry) }
{
    match field {
        None => Ok(1),
        Some(field) => spelt_number(field, WEIGHT_DIGITS),
    }
}

/// `RS+`, behind the common fields.
#[tactic(auto, unfolding(crate::specs::NumberedLines::plus_line))]
pub(crate) fn read_plus<'a>(
    common: Common<'a>,
    text: &'a [u8],
) -> Result<NumberedText<'a>, RouteFault>
    ensures { Says numbered_view (plus_line (common_view common.entry) (fields text.now)) result }
{
    let fields = PlusFields::read(text).ok_or(RouteFault::BadArgs)?;
    let digits = common.digits()?;
    let weight = weight(fields.weight)?;
    let _numbers = digits.in_range(1)?;
    let weight = within(1, MAX_WEIGHT, weight)?;
    check_account(fields.account)?;
    let _from = node(common.from)?;
    let _to = node(common.to)?;
    let key = key(fields.pattern, fields.queue)?;
    let weighted = weighted_text(key, weight)?;
    Ok(NumberedText {
        from: common.from,
        to: common.to,
        numbers: digits,
        body: BodyText::Plus(weighted),
    })
}

/// `RS-`, behind the common fields.
#[tactic(auto, unfolding(crate::specs::NumberedLines::minus_line))]
pub(crate) fn read_minus<'a>(
    common: Common<'a>,
    text: &'a [u8],
) -> Result<NumberedText<'a>, RouteFault>
    ensures { Says numbered_view (minus_line (common_view common.entry) (fields text.now)) result }
{
    let fields = MinusFields::read(text).ok_or(RouteFault::BadArgs)?;
    let digits = common.digits()?;
    let _numbers = digits.in_range(1)?;
    check_account(fields.account)?;
    let _from = node(common.from)?;
    let _to = node(common.to)?;
    let key = key(fields.pattern, fields.queue)?;
    Ok(NumberedText {
        from: common.from,
        to: common.to,
        numbers: digits,
        body: BodyText::Minus(key),
    })
}

/// `RSS`, behind the common fields.
#[tactic(auto, unfolding(crate::specs::NumberedLines::snapshot_line))]
pub(crate) fn read_snapshot<'a>(
    common: Common<'a>,
    text: &'a [u8],
) -> Result<NumberedText<'a>, RouteFault>
    ensures { Says numbered_view (snapshot_line (common_view common.entry) (fields text.now))
        result }
{
    let field = size_alone(text).ok_or(RouteFault::BadArgs)?;
    let digits = common.digits()?;
    let size = spelt_number(field, SIZE_DIGITS)?;
    let _numbers = digits.in_range(0)?;
    let size = within(0, MAX_SNAPSHOT as u64, size)?;
    let _from = node(common.from)?;
    let _to = node(common.to)?;
    Ok(NumberedText {
        from: common.from,
        to: common.to,
        numbers: digits,
        body: BodyText::Snapshot(size),
    })
}

/// Whether each is a queue name.
fn are_queue_names(names: Names<'_>) -> bool
    ensures { result ≡ list_all is_queue_name (names_view names.entry) }
{
    let mut names = names;
    while let Some((name, others)) = names.split_first() {
        if QueueName::fault(name).is_some() {
            return false;
        }
        names = others;
    }
    true
}

/// Whether the name stands before the first of the others.
fn is_before_first(name: &[u8], others: Names<'_>) -> bool
    ensures { result ≡ before_first name.now (names_view others.entry) }
{
    match others.split_first() {
        None => true,
        Some((other, _)) => name.cmp(other).is_lt(),
    }
}

/// Whether they stand in strictly rising order.
fn are_rising(names: Names<'_>) -> bool
    ensures { result ≡ rising (names_view names.entry) }
{
    let mut names = names;
    while let Some((name, others)) = names.split_first() {
        if !is_before_first(name, others) {
            return false;
        }
        names = others;
    }
    true
}

#[tactic(auto, using(crate::proofs::Spelt::QueueNames::names_read))]
fn check_names(names: Names<'_>) -> Result<(), RouteFault>
    ensures { Checks (names_view names.entry) (queue_names_in (names_view names.entry)) result }
{
    if names.len() as u64 <= MAX_QUEUE_NAMES && are_queue_names(names) && are_rising(names) {
        Ok(())
    } else {
        Err(RouteFault::BadArgs)
    }
}

/// The fields, of which not too many are queue names.
#[tactic(auto, unfolding(crate::specs::NumberedLines::few_fields))]
fn with_few_names(found: Option<MessageFields<'_>>) -> Result<MessageFields<'_>, RouteFault>
    ensures { Says message_view (few_fields (option_map message_view found.entry)) result }
{
    let message = found.ok_or(RouteFault::BadArgs)?;
    if message.form.names.len() as u64 > MAX_QUEUE_NAMES {
        return Err(RouteFault::TooManyQueues);
    }
    Ok(message)
}

/// The size of a header block, as it is spelt.
fn spelt_headers(field: Option<&[u8]>) -> Result<Option<u64>, RouteFault>
    ensures { result ≡ header_digits (option_copied field.entry) }
{
    match field {
        None => Ok(None),
        Some(field) => Ok(Some(spelt_number(field, SIZE_DIGITS)?)),
    }
}

/// The same, in its range.
fn headers_in_range(size: u64, headers: Option<u64>) -> Result<Option<u64>, RouteFault>
    ensures { result ≡ headers_within size headers }
{
    match headers {
        None => Ok(None),
        Some(headers) => Ok(Some(within(HEADER_START.len() as u64, size, headers)?)),
    }
}

/// A publication with numbers in their ranges, by its other fields.
#[inline(always)]
fn read_names<'a>(
    common: Common<'a>,
    digits: Digits,
    message: MessageFields<'a>,
    headers: Option<u64>,
    size: u64,
) -> Result<NumberedText<'a>, RouteFault>
    ensures { Says numbered_view
        (publication_with (common_view common.entry) (numbers_view digits)
        (message_view message.entry) headers size)
        result }
{
    check_account(message.account)?;
    let _from = node(common.from)?;
    let _to = node(common.to)?;
    let subject = name(message.subject, Subject::fault(message.subject))?;
    let reply = reply_name(message.form.reply)?;
    check_names(message.form.names)?;
    Ok(NumberedText {
        from: common.from,
        to: common.to,
        numbers: digits,
        body: BodyText::Msg {
            subject,
            reply,
            names: message.form.names,
            headers,
            size,
        },
    })
}

/// A publication, by the numbers that it spells and its other fields.
#[inline(always)]
fn read_numbers<'a>(
    common: Common<'a>,
    digits: Digits,
    message: MessageFields<'a>,
    headers: Option<u64>,
    size: u64,
) -> Result<NumberedText<'a>, RouteFault>
    ensures { Says numbered_view
        (publication_by (common_view common.entry) digits (message_view message.entry) headers size)
        result }
{
    let _numbers = digits.in_range(1)?;
    let size = within(0, MAX_PAYLOAD as u64, size)?;
    let headers = headers_in_range(size, headers)?;
    read_names(common, digits, message, headers, size)
}

/// `RMSG` or `RHMSG`, behind the common fields, by the fields that it has there.
#[tactic(auto, unfolding(crate::specs::NumberedLines::publication_line))]
pub(crate) fn read_message<'a>(
    common: Common<'a>,
    found: Option<MessageFields<'a>>,
) -> Result<NumberedText<'a>, RouteFault>
    ensures { Says numbered_view
        (publication_line (common_view common.entry) (option_map message_view found.entry)) result }
{
    let message = with_few_names(found)?;
    let digits = common.digits()?;
    let size = spelt_number(message.form.size, SIZE_DIGITS)?;
    let headers = spelt_headers(message.headers)?;
    read_numbers(common, digits, message, headers, size)
}
