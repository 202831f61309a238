//! TcpGate: a gate of this machine's own address, 127.0.0.1. It counts each refusal, and tells no bytes.

ghost use Rattle.std.specs.Prelude.{◌≡◌, None, is_some};
ghost use Rattle.desk_gates.specs.Tallies.{IsTally};

use crate::{Gate, TcpLink};
use desk_base::{Failed, count_fault};
use std::io;
use std::net::{Ipv4Addr, Net, OpenListener, OpenStream, SocketAddr, SocketAddrV4};
use std::sync::OnceLock;
use std::time::Duration;

/// For how many seconds the peer of a connection may send nothing that is waited for, or take nothing that is sent.
pub const MOST_SILENT_SECONDS: u64 = 30;

/// A gate at a port of 127.0.0.1. Several of them share one socket: the first that listens binds it.
#[derive(Drop)]
pub struct TcpGate<'a, R: Net> {
    net: &'a R,
    shared: &'a OnceLock<R::Listener>,
    listener: Option<&'a R::Listener>,
    given: u64,
    taken: u64,
    faults: u64,
}

impl<'a, R: Net> TcpGate<'a, R> {
    /// A gate that does not listen yet, over the socket that it shares with others.
    pub fn new(net: &'a R, shared: &'a OnceLock<R::Listener>) -> TcpGate<'a, R>
        ensures listens { result.listener ≡ None }
        ensures given { result.given ≡ 0 }
        ensures taken { result.taken ≡ 0 }
        ensures faults { result.faults ≡ 0 }
    {
        TcpGate {
            net,
            shared,
            listener: None,
            given: 0,
            taken: 0,
            faults: 0,
        }
    }
}

// The socket that is shared, if it is bound to this port; it is bound where it is not bound yet.
fn bound<'a, R: Net>(
    net: &R,
    shared: &'a OnceLock<R::Listener>,
    port: u16,
) -> Option<&'a R::Listener> {
    if shared.get().is_none() {
        let own = SocketAddr::V4(SocketAddrV4::new(Ipv4Addr::LOCALHOST, port));
        let _ = shared.try_set(net.bind(own).ok()?);
    }
    let listener = shared.get()?;
    if listener.local_addr().ok()?.port() == port {
        Some(listener)
    } else {
        None
    }
}

// The next connection, which sends at once what is written, and whose peer may not be silent for longer than the limit.
fn next_stream<L: OpenListener>(listener: &L) -> io::Result<L::Stream>
where
    L::Stream: OpenStream,
{
    let (stream, _) = listener.accept()?;
    let silence = Some(Duration::from_secs(MOST_SILENT_SECONDS));
    stream.set_nodelay(true)?;
    stream.set_read_timeout(silence)?;
    stream.set_write_timeout(silence)?;
    Ok(stream)
}

impl<'a, R: Net> Gate for TcpGate<'a, R> {
    type Conn = TcpLink<R::Stream>;

    ghost listens = { λ gate. is_some gate.listener };

    ghost tally = { λ gate. record { given = gate.given; taken = gate.taken; lefts = None; ends = None } };

    ghost faults = { λ gate. gate.faults };

    fn listen(&mut self, port: u16) -> Result<(), Failed> {
        match bound(self.net, self.shared, port) {
            Some(listener) => {
                self.listener = Some(listener);
                Ok(())
            }
            None => Err(count_fault(&mut self.faults)),
        }
    }

    fn accept(&mut self) -> Result<TcpLink<R::Stream>, Failed> {
        let Some(listener) = self.listener else {
            unreachable!()
        };
        // It gives at most 2^64 - 1 connections in all.
        if self.given == u64::MAX {
            return Err(count_fault(&mut self.faults));
        }
        match next_stream(listener) {
            Ok(stream) => {
                self.given += 1;
                Ok(TcpLink::new(stream))
            }
            Err(_) => Err(count_fault(&mut self.faults)),
        }
    }

    fn done(&mut self, conn: TcpLink<R::Stream>) {
        conn.close();
        self.taken += 1;
    }

    ghost is_tally = { λ gate. record { lefts = tt; ends = tt } };
}
