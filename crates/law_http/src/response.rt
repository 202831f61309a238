//! Responses: how they are laid out and put.

ghost use Rattle.std.specs.Prelude.{◌≡◌, ◌++◌, None, length, string_bytes, IfOk, OnOk};
ghost use Rattle.desk_base.specs.Streams.{Appended, HasCause};
ghost use Rattle.law_http.specs.Refusals.{message_reply, request_reply, object_text, form_text};
ghost use Rattle.law_http.specs.Responses as spec;

use crate::{Allow, Bytes, MessageRefusal, RequestRefusal, Status};
use desk_base::{Failed, Link, Memory};
use itoa::Buffer;
use std::alloc::Global;

/// Room for a head and a short body, which are laid out piece by piece.
pub(crate) const ROOM: usize = 256;

// A body up to so many bytes is copied behind its head. To turn a longer one in its own memory clears so much of the stack.
const SHORT_BODY: usize = 65_536;

// The fixed responses, which take no memory.
const MEMORY_FAULT: &[u8] = b"HTTP/1.1 500 Internal Server Error\r\nConnection: close\r\n\
    Content-Length: 18\r\nContent-Type: application/json\r\n\r\n{\"fault\":\"memory\"}";

const KEEPER_FAULT: &[u8] = b"HTTP/1.1 503 Service Unavailable\r\n\
    Content-Length: 18\r\nContent-Type: application/json\r\n\r\n{\"fault\":\"keeper\"}";

const CLOSING_KEEPER_FAULT: &[u8] = b"HTTP/1.1 503 Service Unavailable\r\nConnection: close\r\n\
    Content-Length: 18\r\nContent-Type: application/json\r\n\r\n{\"fault\":\"keeper\"}";

/// A response (RFC 9110), laid out so that it is put by one call that takes no memory.
#[derive(Debug, Drop)]
pub enum Response {
    /// Its head and its body, and whether the stream is closed after it.
    Made { message: Bytes, closes: bool },
    /// 500: there was not enough memory. The stream is closed.
    MemoryFault,
    /// 503: the keeper failed.
    KeeperFault { closes: bool },
}

pub(crate) fn put_first_lines(
    message: &mut Vec<u8>,
    status: Status,
    allow: Option<Allow>,
    closes: bool,
) -> Result<(), Memory>
    ensures { OnOk result (message.new.items ≡ message.old.items ++ spec.first_lines status allow closes) }
{
    message.extend_from_slice(status.line())?;
    put_field(message, allow_field(allow).as_bytes())?;
    put_field(message, close_field(closes).as_bytes())?;
    Ok(())
}

// Most responses have neither of these fields, and then nothing is called.
fn put_field(message: &mut Vec<u8>, field: &[u8]) -> Result<(), Memory>
    ensures { OnOk result (message.new.items ≡ message.old.items ++ field.now) }
{
    if !field.is_empty() {
        message.extend_from_slice(field)?;
    }
    Ok(())
}

fn allow_field(allow: Option<Allow>) -> &'static str
    ensures { result.now ≡ spec.allow_field allow }
{
    match allow {
        None => "",
        Some(Allow::Get) => "Allow: GET\r\n",
        Some(Allow::Post) => "Allow: POST\r\n",
    }
}

fn close_field(closes: bool) -> &'static str
    ensures { result.now ≡ spec.close_field closes }
{
    if closes { "Connection: close\r\n" } else { "" }
}

fn put_body_lines(message: &mut Vec<u8>, length: usize) -> Result<(), Memory>
    ensures { OnOk result (message.new.items ≡ message.old.items ++ spec.body_lines length) }
{
    message.extend_from_slice(b"Content-Length: ")?;
    message.extend_from_slice(Buffer::new().format(length).as_bytes())?;
    message.extend_from_slice(b"\r\nContent-Type: application/json\r\n\r\n")?;
    Ok(())
}

fn laid_out(
    alloc: Global,
    status: Status,
    allow: Option<Allow>,
    closes: bool,
    body: &[u8],
) -> Result<Bytes, Memory>
    ensures { IfOk result (λ message. message
        ≡ spec.reply_bytes (spec.reply status allow closes body.now)) }
{
    let mut message = Vec::with_capacity(alloc, body.len().saturating_add(ROOM))?;
    put_first_lines(&mut message, status, allow, closes)?;
    put_body_lines(&mut message, body.len())?;
    message.extend_from_slice(body)?;
    Ok(Bytes::from_vec(message))
}

// Puts a head in front of a body, in the body's own memory: no second memory of its length is taken.
fn put_in_front(body: &mut Vec<u8>, head: &[u8]) -> Result<(), Memory>
    ensures { OnOk result (body.new.items ≡ head.now ++ body.old.items) }
{
    let length = body.len();
    body.extend_from_slice(head)?;
    body.rotate_left(length);
    Ok(())
}

fn laid_around(alloc: Global, status: Status, closes: bool, body: Vec<u8>) -> Result<Bytes, Memory>
    ensures { IfOk result (λ message. message
        ≡ spec.reply_bytes (spec.reply status None closes body.items)) }
{
    if body.len() <= SHORT_BODY {
        return laid_out(alloc, status, None, closes, body.as_slice());
    }
    let mut head = Vec::with_capacity(alloc, ROOM)?;
    put_first_lines(&mut head, status, None, closes)?;
    put_body_lines(&mut head, body.len())?;
    let mut message = body;
    put_in_front(&mut message, head.as_slice())?;
    Ok(Bytes::from_vec(message))
}

fn memory_fault() -> &'static [u8]
    ensures { result.now ≡ spec.reply_bytes spec.memory_fault }
{
    MEMORY_FAULT
}

fn keeper_fault(closes: bool) -> &'static [u8]
    ensures { result.now ≡ spec.reply_bytes (spec.keeper_fault closes) }
{
    if closes {
        CLOSING_KEEPER_FAULT
    } else {
        KEEPER_FAULT
    }
}

impl Response {
    /// A response with a status, the method that the path has where the request had another, and a body that is JSON;
    /// `closes` says whether the stream is closed after it. It is the fixed 500 where there is not enough memory.
    pub fn of(
        alloc: Global,
        status: Status,
        allow: Option<Allow>,
        closes: bool,
        body: &[u8],
    ) -> Response
        ensures { spec.Says (spec.reply status allow closes body.now) result }
    {
        match laid_out(alloc, status, allow, closes, body) {
            Ok(message) => Response::Made { message, closes },
            Err(_) => Response::MemoryFault,
        }
    }

    /// The same with a body that is given away: a long one is laid out in the memory that it has.
    pub fn around(alloc: Global, status: Status, closes: bool, body: Vec<u8>) -> Response
        ensures { spec.Says (spec.reply status None closes body.items) result }
    {
        match laid_around(alloc, status, closes, body) {
            Ok(message) => Response::Made { message, closes },
            Err(_) => Response::MemoryFault,
        }
    }

    /// Whether the stream is closed after it.
    pub fn is_closing(&self) -> bool
        ensures { result ≡ spec.is_closing self.now }
    {
        match self {
            Response::Made { closes, .. } => *closes,
            Response::MemoryFault => true,
            Response::KeeperFault { closes } => *closes,
        }
    }

    // Its bytes.
    fn bytes(&self) -> &[u8]
        ensures { result.now ≡ spec.response_bytes self.now }
    {
        match self {
            Response::Made { message, .. } => message.as_slice(),
            Response::MemoryFault => memory_fault(),
            Response::KeeperFault { closes } => keeper_fault(*closes),
        }
    }
}

/// Writes a response to a link, by one call. It takes no memory.
pub fn put_response<L: Link>(link: &mut L, response: &Response) -> Result<(), Failed>
    ensures appended { Appended (L.written link.old) (L.written link.new) (spec.response_bytes response.now) result }
    ensures cause { HasCause (L.write_faults link.old) (L.write_faults link.new) result }
    ensures left { L.left link.new ≡ L.left link.old }
    ensures room { L.room link.new ≡ L.room link.old }
    ensures read_faults { L.read_faults link.new ≡ L.read_faults link.old }
    ensures origin { L.origin link.new ≡ L.origin link.old }
{
    link.write_all(response.bytes())
}

fn object_of(alloc: Global, number: u8, name: &str) -> Result<String, Memory>
    ensures { IfOk result (λ text. string_bytes text ≡ object_text number name.now) }
{
    Ok(format!(in alloc; "{{\"http\":{number},\"name\":\"{name}\"}}")?)
}

fn form_object_of(alloc: Global, form: u8, place: u32) -> Result<String, Memory>
    ensures { IfOk result (λ text. string_bytes text ≡ form_text form place) }
{
    Ok(format!(in alloc; "{{\"form\":{form},\"http\":8,\"name\":\"BadForm\",\"place\":{place}}}")?)
}

/// The response where no request can be read. The stream is closed after it.
pub fn refused_message(alloc: Global, refusal: MessageRefusal) -> Response
    ensures { spec.Says (message_reply refusal) result }
{
    match object_of(alloc, refusal.number(), refusal.name()) {
        Ok(object) => Response::of(alloc, refusal.status(), None, true, object.as_bytes()),
        Err(_) => Response::MemoryFault,
    }
}

/// The response to a request that gets no answer of the desk.
pub fn refused_request(alloc: Global, refusal: RequestRefusal, closes: bool) -> Response
    ensures { spec.Says (request_reply refusal closes) result }
{
    let (status, allow, object) = match refusal {
        RequestRefusal::NoRoute => (Status::NotFound, None, object_of(alloc, 6, "NoRoute")),
        RequestRefusal::WrongMethod(allow) => (
            Status::MethodNotAllowed,
            Some(allow),
            object_of(alloc, 7, "WrongMethod"),
        ),
        RequestRefusal::BadForm { form, place } => {
            (Status::BadRequest, None, form_object_of(alloc, form, place))
        }
    };
    match object {
        Ok(object) => Response::of(alloc, status, allow, closes, object.as_bytes()),
        Err(_) => Response::MemoryFault,
    }
}
