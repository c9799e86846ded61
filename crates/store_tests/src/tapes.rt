//! What no contract says of a tape: how often opening it calls its store, and that positioning does not. Also that
//! spacing ends as the standard says, item by item.

use media_store::{FailStore, MemStore};
use media_tape::{Direction, Located, Over, Spaced, Tape, TapeOpenFault, Written};
use std::alloc::{AllocError, Global};
use std::process::Abort;
use std::test::Fail;

/// A number of filemarks, which are zero bytes, eight for each.
const FILEMARKS: u64 = 1000;

const SIZE: usize = 8000;

/// Opens a tape of filemarks whose store passes on `passed` calls, and fails from then on.
fn open(
    alloc: Global,
    passed: u64,
) -> Result<Result<Tape<FailStore<MemStore>>, TapeOpenFault>, AllocError> {
    let store = MemStore::new(alloc, SIZE, SIZE)?;
    let failing = FailStore::new(store, None, passed);
    match Tape::open(alloc, failing, SIZE as u64, SIZE as u64) {
        Ok(tape) => Ok(Ok(tape)),
        Err(refused) => Ok(Err(refused.fault)),
    }
}

#[test]
fn filemarks_are_found_with_no_call_of_the_store(rt: HostRuntime) -> Result<(), Fail> {
    for passed in 0..3 {
        match open(rt.alloc(), passed)? {
            Err(fault) => {
                assert!(rt; passed < 2);
                assert_eq!(rt; fault, TapeOpenFault::Device);
            }
            // The length, and all bytes at once.
            Ok(mut tape) => {
                assert!(rt; passed >= 2);
                assert_eq!(rt; tape.locate(FILEMARKS - 1), Located::There);
                assert_eq!(rt; tape.position(), FILEMARKS - 1);
                assert_eq!(rt;
                    tape.space(Direction::Backward, Over::Filemarks, 999),
                    Spaced::Whole
                );
                assert_eq!(rt; tape.position(), 0);
                // After two calls every later one fails.
                assert_eq!(rt; tape.erase().is_ok(), passed > 2);
            }
        }
    }
    Ok(())
}

/// Tapes by the lengths of their items, 0 for a filemark: with none, one and several records between filemarks.
const TAPES: [&[u32]; 9] = [
    &[],
    &[0, 0, 0],
    &[1, 0, 1, 0, 1, 0],
    &[0, 1, 0, 2, 0, 3],
    &[3, 3, 3, 0, 3, 3, 0, 3],
    &[1, 2, 3, 0, 4, 5, 0, 6, 7, 8],
    &[2, 2, 5, 0, 0, 5, 0, 5, 5, 6, 0, 0],
    &[0, 0, 4, 0, 4, 5, 5, 4, 0, 1, 1],
    &[1, 2, 2, 3],
];

/// No tape has more items, and no record more bytes.
const MOST: u32 = 12;

/// Returns the item next to a position, and the position past it.
fn next_to(items: &[u32], toward: Direction, at: usize) -> Option<(u32, usize)> {
    match toward {
        Direction::Forward => Some((*items.get(at)?, at.checked_add(1)?)),
        Direction::Backward => {
            let before = at.checked_sub(1)?;
            Some((*items.get(before)?, before))
        }
    }
}

/// Returns where spacing ends, item by item, and its outcome (SSC-4 "SPACE (6)").
fn spaced(
    items: &[u32],
    toward: Direction,
    over: Over,
    from: usize,
    count: u32,
) -> (usize, Spaced) {
    let mut at = from;
    let mut left = count;
    for _ in 0..=MOST {
        if left == 0 {
            return (at, Spaced::Whole);
        }
        let Some((length, past)) = next_to(items, toward, at) else {
            let told = match toward {
                Direction::Forward => Spaced::EndOfData(left),
                Direction::Backward => Spaced::Beginning(left),
            };
            return (at, told);
        };
        at = past;
        match over {
            Over::Records if length == 0 => return (at, Spaced::Filemark(left)),
            Over::Filemarks if length > 0 => {}
            _ => left -= 1,
        }
    }
    (at, Spaced::Whole)
}

/// Returns a tape in memory with these items.
fn tape_of(rt: &impl Abort, alloc: Global, items: &[u32]) -> Result<Tape<MemStore>, Fail> {
    let store = MemStore::new(alloc, 0, SIZE)?;
    let mut tape = Tape::open(alloc, store, SIZE as u64, SIZE as u64).map_err(
        |refused| refused.fault,
    )?;
    let bytes = [7; MOST as usize];
    for length in items {
        let written = if *length == 0 {
            tape.marks(1)?
        } else {
            tape.write(&bytes[..(*length).min(MOST) as usize])?
        };
        assert_eq!(rt; written, Ok(Written::Whole));
    }
    Ok(tape)
}

/// What is spaced over, and in which direction.
const WAYS: [(Direction, Over); 4] = [
    (Direction::Forward, Over::Records),
    (Direction::Forward, Over::Filemarks),
    (Direction::Backward, Over::Records),
    (Direction::Backward, Over::Filemarks),
];

/// Spaces each way from a position, and asserts that it ends as it does item by item.
fn space_each_way(
    rt: &impl Abort,
    tape: &mut Tape<MemStore>,
    items: &[u32],
    from: usize,
    count: u32,
) {
    for (toward, over) in WAYS {
        assert_eq!(rt; tape.locate(from as u64), Located::There);
        let told = tape.space(toward, over, count);
        let (number, wanted) = spaced(items, toward, over, from, count);
        assert_eq!(rt;
            (tape.position(), told),
            (number as u64, wanted),
            "{toward:?} {over:?} {count} from {from} of {items:?}"
        );
    }
}

/// Spaces from a position over each count.
fn space_from(rt: &impl Abort, tape: &mut Tape<MemStore>, items: &[u32], from: usize) {
    for count in 0..=MOST + 1 {
        space_each_way(rt, tape, items, from, count);
    }
}

#[test]
fn spacing_ends_as_item_by_item(rt: HostRuntime) -> Result<(), Fail> {
    for items in TAPES {
        let mut tape = tape_of(&rt, rt.alloc(), items)?;
        for from in 0..=items.len() {
            space_from(&rt, &mut tape, items, from);
        }
    }
    Ok(())
}
