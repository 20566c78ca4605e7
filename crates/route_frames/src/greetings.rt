//! Reading the texts of `INFO` and `CONNECT`.

ghost use Rattle.std.specs.Prelude.{◌≡◌, true};
ghost use Rattle.std.specs.Option.{ok_or};
ghost use Rattle.serde_json.specs.View.{view};
ghost use Rattle.route_frames.specs.Meaning.{RouteMeans, MeansBy};
ghost use Rattle.route_frames.specs.Greetings.{json_of, object_of, whole_at, whole_in_range, whole_number, incarnation_in, node_at, info_in, dial_in, connect_in, info_of, connect_text_of};
ghost use Rattle.route_frames.specs.declared.faults.RouteFault.TheVariants.{BadArgs};

use crate::faults::RouteFault;
use crate::line_reading::node;
use route_values::{RouteConnect, RouteInfo};
use serde_json::Value;
use std::alloc::Global;
use subj::{Failure, Incarnation, MAX_COUNTER, MAX_INCARNATION, NodeId};

/// What a member of an object is, as a whole number.
#[derive(Clone, Copy)]
pub(crate) enum Whole {
    /// It is absent, or no whole number.
    Other,
    /// A whole number below 0.
    Negative,
    /// Another whole number.
    Number(u64),
}

/// The JSON that a text is.
fn read_json(alloc: Global, text: &[u8]) -> Result<Value, Failure<RouteFault>>
    ensures { MeansBy view true (ok_or (json_of text.now) BadArgs) result }
{
    match Value::from_slice(alloc, text) {
        Ok(value) => Ok(value),
        Err(error) => {
            if error.is_memory() {
                return Err(Failure::OutOfMemory);
            }
            Err(Failure::Refused(RouteFault::BadArgs))
        }
    }
}

/// The JSON object that a text is.
#[tactic(auto, unfolding(crate::specs::Greetings::object_of))]
fn read_object(alloc: Global, text: &[u8]) -> Result<Value, Failure<RouteFault>>
    ensures { MeansBy view true (object_of text.now) result }
{
    let value = read_json(alloc, text)?;
    if value.is_object() {
        return Ok(value);
    }
    Err(Failure::Refused(RouteFault::BadArgs))
}

/// The member of this name as a whole number.
fn read_whole(object: &Value, name: &str) -> Whole
    ensures { result ≡ whole_at name.now (view object.now) }
{
    let Some(number) = object.get(name).and_then(Value::as_number) else {
        return Whole::Other;
    };
    if let Some(number) = number.as_u64() {
        return Whole::Number(number);
    }
    if number.is_i64() {
        return Whole::Negative;
    }
    Whole::Other
}

impl Whole {
    /// The same, where it is no whole number out of the range from 1.
    fn in_range(self, most: u64) -> Result<Whole, RouteFault>
        ensures { result ≡ whole_in_range most self }
    {
        match self {
            Whole::Other => Ok(Whole::Other),
            Whole::Negative => Err(RouteFault::BadNumber),
            Whole::Number(number) => {
                if 1 <= number && number <= most {
                    Ok(Whole::Number(number))
                } else {
                    Err(RouteFault::BadNumber)
                }
            }
        }
    }

    fn number(self) -> Result<u64, RouteFault>
        ensures { result ≡ whole_number self }
    {
        match self {
            Whole::Other | Whole::Negative => Err(RouteFault::BadArgs),
            Whole::Number(number) => Ok(number),
        }
    }

    #[tactic(auto, unfolding(crate::specs::Greetings::incarnation_in))]
    fn incarnation(self) -> Result<Incarnation, RouteFault>
        ensures { result ≡ incarnation_in self }
    {
        let number = self.number()?;
        Incarnation::new(number).ok_or(RouteFault::BadNumber)
    }
}

/// The member of this name as a server's name.
#[tactic(auto, unfolding(crate::specs::Greetings::node_at))]
fn read_node(object: &Value, name: &str) -> Result<NodeId, RouteFault>
    ensures { result ≡ node_at name.now (view object.now) }
{
    let text = object
        .get(name)
        .and_then(Value::as_str)
        .ok_or(RouteFault::BadArgs)?;
    node(text.as_bytes())
}

/// What the object of an `INFO` tells.
#[tactic(auto, unfolding(crate::specs::Greetings::info_in))]
fn info_from(object: &Value) -> Result<RouteInfo, RouteFault>
    ensures { result ≡ info_in (view object.now) }
{
    let inc = read_whole(object, "inc").in_range(MAX_INCARNATION)?;
    let inc = inc.incarnation()?;
    let server_name = read_node(object, "server_name")?;
    Ok(RouteInfo::new(server_name, inc))
}

/// The numbers of a `CONNECT`.
#[derive(Clone, Copy)]
struct Dial {
    inc: Incarnation,
    to_inc: Incarnation,
    serial: u64,
}

#[tactic(auto, unfolding(crate::specs::Greetings::dial_in))]
fn dial_from(object: &Value) -> Result<Dial, RouteFault>
    ensures { result ≡ dial_in (view object.now) }
{
    let inc = read_whole(object, "inc").in_range(MAX_INCARNATION)?;
    let to_inc = read_whole(object, "to_inc").in_range(MAX_INCARNATION)?;
    let serial = read_whole(object, "serial").in_range(MAX_COUNTER)?;
    let inc = inc.incarnation()?;
    let to_inc = to_inc.incarnation()?;
    let serial = serial.number()?;
    Ok(Dial {
        inc,
        to_inc,
        serial,
    })
}

/// What the object of a `CONNECT` tells.
#[tactic(auto, unfolding(crate::specs::Greetings::connect_in))]
fn connect_from(object: &Value) -> Result<RouteConnect, RouteFault>
    ensures { result ≡ connect_in (view object.now) }
{
    let dial = dial_from(object)?;
    let server_name = read_node(object, "server_name")?;
    let to = read_node(object, "to")?;
    RouteConnect::new(server_name, dial.inc, to, dial.to_inc, dial.serial).ok_or(
        RouteFault::BadNumber,
    )
}

/// What stands behind `INFO`.
pub(crate) fn read_info(alloc: Global, text: &[u8]) -> Result<RouteInfo, Failure<RouteFault>>
    ensures { RouteMeans true (info_of text.now) result }
{
    let object = read_object(alloc, text)?;
    let info = info_from(&object)?;
    Ok(info)
}

/// What stands behind `CONNECT`.
pub(crate) fn read_connect(alloc: Global, text: &[u8]) -> Result<RouteConnect, Failure<RouteFault>>
    ensures { RouteMeans true (connect_text_of text.now) result }
{
    let object = read_object(alloc, text)?;
    let connect = connect_from(&object)?;
    Ok(connect)
}
