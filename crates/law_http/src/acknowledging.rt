//! Acknowledging: the response to a command that is accepted stands in room that was made before the command was done.
//! Each response whose body is an object of one number is laid out so.

ghost use Rattle.std.specs.Prelude.{◌≡◌, ◌≤◌, ◌+◌, ◌++◌, None, length, codes, vec_capacity, IfOk};
ghost use Rattle.std.specs.Fmt.{decimal};
ghost use Rattle.law_http.specs.Responses as spec;
ghost use Rattle.law_http.specs.Serving.{accepted_reply};
ghost use Rattle.law_http.specs.declared.response.Response.TheVariants.{Made};
ghost use Rattle.law_http.specs.declared.status.Status.TheVariants as status;

use crate::response::{ROOM, put_first_lines};
use crate::{Bytes, Response, Status};
use desk_base::Memory;
use itoa::Buffer;
use law_register::Reply;
use std::alloc::Global;

/// The first lines of a response whose body is an object of one number, with room for what comes behind them.
pub(crate) fn begun(alloc: Global, status: Status, closes: bool) -> Result<Vec<u8>, Memory>
    ensures lines { IfOk result (λ message. message.items ≡ spec.first_lines status None closes) }
    ensures room { IfOk result (λ message. length message.items + 160 ≤ vec_capacity message) }
{
    let mut message = Vec::with_capacity(alloc, ROOM)?;
    put_first_lines(&mut message, status, None, closes)?;
    message.reserve(160)?;
    Ok(message)
}

// Puts bytes behind those that are there, for which there is room.
fn put_behind(message: &mut Vec<u8>, bytes: &[u8])
    requires { length message.old.items + length bytes.now ≤ vec_capacity message.old }
    ensures items { message.new.items ≡ message.old.items ++ bytes.now }
    ensures room { vec_capacity message.old ≤ vec_capacity message.new }
{
    match message.extend_from_slice(bytes) {
        Ok(()) => {}
        Err(_) => unreachable!(),
    }
}

// Puts the lines about a body, for which there is room.
fn put_body_lines(message: &mut Vec<u8>, size: usize)
    requires { length message.old.items + 100 ≤ vec_capacity message.old }
    ensures items { message.new.items ≡ message.old.items ++ spec.body_lines size }
    ensures growth { length message.new.items ≤ length message.old.items + 100 }
    ensures room { vec_capacity message.old ≤ vec_capacity message.new }
{
    put_behind(message, b"Content-Length: ");
    put_behind(message, Buffer::new().format(size).as_bytes());
    put_behind(message, b"\r\nContent-Type: application/json\r\n\r\n");
}

/// A response whose body is an object of one number, for which there is room. It takes no memory.
pub(crate) fn numbered(
    message: Vec<u8>,
    status: Status,
    closes: bool,
    key: &str,
    number: u32,
) -> Response
    requires key { length key.now ≤ 10 }
    requires room { length message.items + 160 ≤ vec_capacity message }
    requires begun { message.items ≡ spec.first_lines status None closes }
    ensures { result ≡ Made (spec.reply_bytes
        (spec.reply status None closes (key.now ++ decimal number ++ codes "}"))) closes }
{
    let mut message = message;
    let mut buffer = Buffer::new();
    let digits = buffer.format(number);
    put_body_lines(&mut message, key.len() + digits.len() + 1);
    put_behind(&mut message, key.as_bytes());
    put_behind(&mut message, digits.as_bytes());
    put_behind(&mut message, b"}");
    Response::Made {
        message: Bytes::from_vec(message),
        closes,
    }
}

/// The response to a command that is accepted, in the room that was made for it. It takes no memory.
pub(crate) fn acknowledged(message: Vec<u8>, closes: bool, reply: Reply) -> Response
    requires room { length message.items + 160 ≤ vec_capacity message }
    requires begun { message.items ≡ spec.first_lines status.Created None closes }
    ensures { result ≡ Made (spec.reply_bytes (accepted_reply closes reply)) closes }
{
    match reply {
        Reply::Law(number) => numbered(message, Status::Created, closes, "{\"law\":", number),
        Reply::Draft(number) => numbered(message, Status::Created, closes, "{\"draft\":", number),
    }
}
