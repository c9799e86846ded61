//! What no contract says: that a file returns what was written, and which calls a `FailStore` refuses.

use media_store::{
    Call, FailStore, FileStore, LyingStore, MemStore, Store, StoreFault, SystemFile, Unknown,
};
use std::fs;
use std::test::Fail;

const PATH: &str = "media_store_test";

#[test]
fn file_gives_back_what_was_written(rt: HostRuntime) -> Result<(), Fail> {
    fs::write(&rt, PATH, b"".as_slice())?;
    let opened = SystemFile::open(&rt, PATH).map_err(|unopened| unopened.error)?;
    let mut store: FileStore<SystemFile, Unknown> = FileStore::new(opened);
    assert_eq!(rt; store.len(), Ok(0));
    assert_eq!(rt; store.write_at(3, b"abc"), Ok(()));
    assert_eq!(rt; store.write_at(4, b"x"), Ok(()));
    assert_eq!(rt; store.sync(), Ok(()));
    assert_eq!(rt; store.len(), Ok(6));
    let mut back = [9; 4];
    assert_eq!(rt; store.read_at(2, &mut back), Ok(()));
    assert_eq!(rt; back, *b"\0axc");
    assert_eq!(rt; store.read_at(3, &mut back), Err(StoreFault));
    assert_eq!(rt; store.set_len(2), Ok(()));
    assert_eq!(rt; store.len(), Ok(2));
    drop(store);
    fs::remove_file(&rt, PATH)?;
    Ok(())
}

/// Makes one call of each kind, and returns which of them succeeded.
fn calls<S: Store>(store: &mut S) -> [bool; 5] {
    [
        store.len().is_ok(),
        store.write_at(1, b"ab").is_ok(),
        store.sync().is_ok(),
        store.set_len(2).is_ok(),
        store.read_at(0, &mut [0; 2]).is_ok(),
    ]
}

#[test]
fn fails_from_each_call_on(rt: HostRuntime) -> Result<(), Fail> {
    for (passed, done) in [
        (0, [false, false, false, false, false]),
        (1, [true, false, false, false, false]),
        (2, [true, true, false, false, false]),
        (3, [true, true, true, false, false]),
        (4, [true, true, true, true, false]),
        (5, [true, true, true, true, true]),
    ] {
        let store = MemStore::new(rt.alloc(), 4, 4)?;
        let mut failing = FailStore::new(store, None, passed);
        assert_eq!(rt; calls(&mut failing), done);
    }
    Ok(())
}

#[test]
fn fails_at_one_kind_of_call(rt: HostRuntime) -> Result<(), Fail> {
    for (only, done) in [
        (Call::Len, [false, true, true, true, true]),
        (Call::WriteAt, [true, false, true, true, true]),
        (Call::Sync, [true, true, false, true, true]),
        (Call::SetLen, [true, true, true, false, true]),
        (Call::ReadAt, [true, true, true, true, false]),
    ] {
        let store = MemStore::new(rt.alloc(), 4, 4)?;
        let mut failing = FailStore::new(store, Some(only), 1);
        assert_eq!(rt; calls(&mut failing), [true; 5]);
        assert_eq!(rt; calls(&mut failing), done);
    }
    Ok(())
}

#[test]
fn a_lie_is_seen_at_its_call_and_the_store_goes_on(rt: HostRuntime) -> Result<(), Fail> {
    let mut store = LyingStore::new(MemStore::new(rt.alloc(), 4, 4)?, 1);
    let mut back = [9; 2];
    assert_eq!(rt; store.write_at(0, b"abcd"), Ok(()));
    assert_eq!(rt; store.read_at(0, &mut back), Ok(()));
    assert_eq!(rt; back, *b"ab");
    assert_eq!(rt; store.read_at(3, &mut back), Err(StoreFault));
    assert_eq!(rt; store.read_at(0, &mut []), Ok(()));
    assert_eq!(rt; store.read_at(1, &mut back), Ok(()));
    assert_eq!(rt; back, *b"cc");
    assert_eq!(rt; store.read_at(1, &mut back), Ok(()));
    assert_eq!(rt; back, *b"bc");
    assert_eq!(rt; store.len(), Ok(4));
    Ok(())
}
