ghost use Rattle.std.specs.Prelude.{◌≡◌, true};

use crate::{Gate, ListGate};
use desk_base::{Failed, Link, MemoryLink};
use std::test::Fail;

// Writes to the next connection, and hands it back, as a server does.
fn serve<G: Gate>(gate: &mut G, bytes: &[u8]) -> Result<(), Failed>
    requires listens { G.listens gate.old ≡ true }
    requires settled { (G.tally gate.old).given ≡ (G.tally gate.old).taken }
    ensures listens { G.listens gate.new ≡ true }
    ensures settled { (G.tally gate.new).given ≡ (G.tally gate.new).taken }
{
    let mut conn = gate.accept()?;
    let answer = conn.write_all(bytes);
    gate.done(conn);
    answer
}

// Any thread may be handed one.
fn crosses_threads<T: Send>(_value: &T) {}

#[test]
fn links_are_given_and_kept(rt: HostRuntime) -> Result<(), Fail> {
    let alloc = rt.alloc();
    let links = vec![in alloc;
        MemoryLink::new(alloc, b"ab", 2, 4, &[], &[])?,
        MemoryLink::new(alloc, b"cd", 2, 4, &[], &[])?,
    ]?;
    let mut gate = ListGate::new(alloc, links, &[1, 3])?;
    crosses_threads(&gate);
    assert_eq!(rt; gate.listen(8080), Err(Failed));
    if let Ok(()) = gate.listen(8080) {
        assert_eq!(rt; serve(&mut gate, b"x"), Err(Failed));
        assert_eq!(rt; serve(&mut gate, b"y"), Ok(()));
        assert_eq!(rt; serve(&mut gate, b"z"), Ok(()));
        assert_eq!(rt; serve(&mut gate, b"w"), Err(Failed));
    }
    let mut written = Vec::new(alloc);
    for i in 0..3 {
        if let Some(link) = gate.link(i) {
            written.extend_from_slice(link.written())?;
        }
    }
    assert_eq!(rt; written.as_slice(), b"yz".as_slice());
    Ok(())
}
