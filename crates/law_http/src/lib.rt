//! HTTP/1.1 messages: the requests that are heard of a stream, however its bytes come, and the responses that are put.
#![tactic(auto)]

mod acknowledging;
mod asking;
mod buffer;
mod bytes;
mod connection;
mod cutting;
mod drafts;
mod framing;
mod head;
mod heard;
mod hearing;
pub mod laws;
mod putting;
mod query;
mod reading;
mod refusal;
mod responding;
mod response;
mod rest;
mod route;
mod status;
mod streaming;
mod target;
mod telling;

pub use asking::{Asking, TextAsked};
pub use bytes::Bytes;
pub use connection::serve_connection;
pub use drafts::PreviewAsked;
pub use heard::{HearFault, Heard, Request};
pub use hearing::read_request;
pub use query::Query;
pub use refusal::{MessageRefusal, RequestRefusal};
pub use responding::respond;
pub use response::{Response, put_response, refused_message, refused_request};
pub use rest::Rest;
pub use route::{Route, Routes};
pub use status::{Allow, Status};
pub use streaming::{Served, StreamEnd, serve_stream};
pub use target::Target;
