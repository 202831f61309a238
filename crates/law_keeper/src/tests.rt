//! A keeper in memory and one over a journal, driven through their bound.

ghost use Rattle.std.specs.Prelude.{◌≡◌, All, IfOk, IsTrue, length};
ghost use Rattle.law_journal.specs.Grammar.{is_size};

use crate::{JournalKeeper, KeepFault, Keeper, MapKeeper, payloads, settle};
use desk_base::LoadFault;
use law_journal::MemoryDisk;
use std::alloc::AllocGlobal;
use std::test::Fail;

#[test]
fn list_is_what_was_appended(rt: HostRuntime) -> Result<(), Fail> {
    let mut keeper = MapKeeper::new(rt.alloc(), &[])?;
    assert_eq!(rt; keeper.reopen(rt.alloc()), Ok(()));
    assert_eq!(rt; keeper.append(rt.alloc(), b"ab"), Ok(1));
    assert_eq!(rt; keeper.append(rt.alloc(), b"c"), Ok(2));
    let list = payloads(rt.alloc(), &mut keeper)?;
    assert_eq!(rt; list.len(), 2);
    assert_eq!(rt; list[0].as_slice(), b"ab".as_slice());
    assert_eq!(rt; list[1].as_slice(), b"c".as_slice());
    Ok(())
}

#[test]
fn failed_append_is_settled_by_opening_again(rt: HostRuntime) -> Result<(), Fail> {
    // The append is the second call, and the first opening after it fails, too.
    let mut keeper = MapKeeper::new(rt.alloc(), &[2, 3])?;
    assert_eq!(rt; keeper.reopen(rt.alloc()), Ok(()));
    assert_eq!(rt; keeper.append(rt.alloc(), b"ab"), Err(KeepFault::Failed));
    assert_eq!(rt;
        settle(rt.alloc(), &mut keeper, 0, b"ab"),
        Err(LoadFault::Failed)
    );
    assert_eq!(rt; settle(rt.alloc(), &mut keeper, 0, b"ab"), Ok(None));
    assert_eq!(rt; keeper.append(rt.alloc(), b"ab"), Ok(1));
    assert_eq!(rt; settle(rt.alloc(), &mut keeper, 0, b"ab"), Ok(Some(1)));
    assert_eq!(rt; settle(rt.alloc(), &mut keeper, 0, b"a"), Ok(None));
    Ok(())
}

// A keeper over the journal of an empty file. The listed calls of its disk fail.
fn on_disk<R: AllocGlobal>(rt: &R, failing: &[u64]) -> Result<JournalKeeper<MemoryDisk>, Fail> {
    let disk = MemoryDisk::of(rt.alloc(), Vec::new(rt.alloc()), 1_000, 100, failing)?;
    Ok(JournalKeeper::new(rt.alloc(), disk))
}

#[test]
fn list_is_what_the_journal_has(rt: HostRuntime) -> Result<(), Fail> {
    let mut keeper = on_disk(&rt, &[])?;
    assert_eq!(rt; keeper.reopen(rt.alloc()), Ok(()));
    assert_eq!(rt; keeper.append(rt.alloc(), b"ab"), Ok(7));
    assert_eq!(rt; keeper.append(rt.alloc(), b"c"), Ok(13));
    assert_eq!(rt; keeper.reopen(rt.alloc()), Ok(()));
    let list = payloads(rt.alloc(), &mut keeper)?;
    assert_eq!(rt; list.len(), 2);
    assert_eq!(rt; list[0].as_slice(), b"ab".as_slice());
    assert_eq!(rt; list[1].as_slice(), b"c".as_slice());
    assert_eq!(rt;
        keeper.disk().bytes(),
        b"AKNLAW01\x01\0\0\0\x02ab\x01\0\0\0\x01c\0".as_slice()
    );
    Ok(())
}

// Two payloads, of two bytes and of one.
fn two_payloads<R: AllocGlobal>(rt: &R) -> Result<Vec<Vec<u8>>, Fail>
    ensures two { IfOk result (λ all. length all.items ≡ 2) }
    ensures sizes { IfOk result (λ all. All (λ payload. IsTrue (is_size (length payload.items))) all.items) }
{
    let mut all = Vec::new(rt.alloc());
    all.push(Vec::from_slice(rt.alloc(), b"ab")?)?;
    all.push(Vec::from_slice(rt.alloc(), b"c")?)?;
    Ok(all)
}

#[test]
fn several_payloads_take_four_calls_of_a_disk(rt: HostRuntime) -> Result<(), Fail> {
    // Opening an empty file makes six calls, and an append of two payloads four more. The eleventh call fails.
    let mut keeper = on_disk(&rt, &[11])?;
    let both = two_payloads(&rt)?;
    assert_eq!(rt; keeper.reopen(rt.alloc()), Ok(()));
    assert_eq!(rt; keeper.append_all(rt.alloc(), both.as_slice()), Ok(13));
    assert_eq!(rt;
        keeper.disk().bytes(),
        b"AKNLAW01\x01\0\0\0\x02ab\x01\0\0\0\x01c\0".as_slice()
    );
    assert_eq!(rt;
        keeper.append_all(rt.alloc(), both.as_slice()),
        Err(KeepFault::Failed)
    );
    assert_eq!(rt; settle(rt.alloc(), &mut keeper, 13, b"ab"), Ok(None));
    Ok(())
}

#[test]
fn some_of_several_payloads_may_be_kept(rt: HostRuntime) -> Result<(), Fail> {
    // A keeper in memory adds them one by one. The third call is the append of the second one.
    let mut keeper = MapKeeper::new(rt.alloc(), &[3])?;
    let both = two_payloads(&rt)?;
    assert_eq!(rt; keeper.reopen(rt.alloc()), Ok(()));
    assert_eq!(rt;
        keeper.append_all(rt.alloc(), both.as_slice()),
        Err(KeepFault::Failed)
    );
    assert_eq!(rt; settle(rt.alloc(), &mut keeper, 0, b"ab"), Ok(Some(1)));
    assert_eq!(rt; keeper.append_all(rt.alloc(), both.as_slice()), Ok(3));
    Ok(())
}

#[test]
fn failed_calls_of_a_disk_are_settled(rt: HostRuntime) -> Result<(), Fail> {
    // Opening an empty file makes six calls, an append four more, of which the last is the sync of its gate.
    let mut keeper = on_disk(&rt, &[1, 11])?;
    assert_eq!(rt; keeper.reopen(rt.alloc()), Err(LoadFault::Failed));
    assert_eq!(rt; keeper.reopen(rt.alloc()), Ok(()));
    assert_eq!(rt; keeper.append(rt.alloc(), b"ab"), Err(KeepFault::Failed));
    assert_eq!(rt; settle(rt.alloc(), &mut keeper, 0, b"ab"), Ok(Some(7)));
    assert_eq!(rt; settle(rt.alloc(), &mut keeper, 7, b"c"), Ok(None));
    Ok(())
}
