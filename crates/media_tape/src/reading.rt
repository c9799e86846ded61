//! READ of a tape.

ghost use Rattle.std.specs.Prelude.{◌≡◌, ◌+◌, ◌*◌, ◌≤◌, ℕ, [], ◌++◌, length, take, min, IsTrue, IsOk, IfOk, OnOk, OnErr};
ghost use Rattle.media_store.specs.Failures.{risen};
ghost use Rattle.media_tape.specs.Items.{most_bytes};
ghost use Rattle.media_tape.specs.Tape.{IsReadFrom, read_told, passed_length, first_data, tape_read};
ghost use Rattle.media_tape.specs.Fixed.{fixed_told, fixed_data, tape_read_fixed};
ghost use Rattle.media_tape.specs.declared.outcome.Passed.TheVariants as passed;

use crate::outcome::{Passed, passed_item};
use crate::read::{LENGTH, read_behind, read_blocks};
use crate::tape::Tape;
use bytes::BytesMut;
use media_store::{Store, StoreFault};
use tape_index::{FixedRead, MARK_SIZE, passed_blocks};
use target_limits::Memory;

impl<S: Store> Tape<S> {
    /// Passes the item after the position (SSC-4 "READ (6)"). Of a record it appends the bytes requested to a buffer.
    /// First it reserves room there for them and for `tailroom` bytes more. If no record comes after the position, it
    /// calls no store. If an allocation fails, nothing changes; if the store fails, the tape is as before.
    pub fn read(
        &mut self,
        asked: u32,
        buffer: &mut BytesMut,
        tailroom: u32,
    ) -> Result<Result<Passed, StoreFault>, Memory>
        ensures passed { IfOk result (λ done. IfOk done (λ passed. passed ≡ read_told asked self.old)) }
        ensures nothing { IfOk result (λ done. IfOk done (λ told. told ≡ passed.Nothing → asked ≡ 0)) }
        ensures fits { IfOk result (λ done. IfOk done (λ passed. passed_length passed ≤ most_bytes)) }
        ensures given { IfOk result (λ done. OnOk done (IsTrue self.new.honest
            → buffer.new.items ≡ buffer.old.items ++ take asked (first_data self.old.after))) }
        ensures length { IfOk result (λ done. IfOk done (λ passed. length buffer.new.items
            ≡ length buffer.old.items + min asked (passed_length passed))) }
        ensures spare { IfOk result (λ done. IfOk done (λ told. (n : ℕ) → told ≡ passed.Record n → tailroom ≤ buffer.new.spare)) }
        ensures tape { IfOk result (λ done. OnOk done (self.new ≡ record (tape_read asked self.old) { honest = self.new.honest })) }
        ensures failed { IfOk result (λ done. OnErr done (self.new
            ≡ record self.old { failures = risen self.old.failures; honest = self.new.honest })) }
        ensures rest { IfOk result (λ done. IsReadFrom done self.old self.new) }
        ensures back { IsTrue self.new.honest → IsTrue self.old.honest }
        ensures succeeds { IfOk result (λ done. IsTrue self.old.steady → IsTrue self.old.honest
            → IsOk done × (self.new.honest ≡ self.old.honest)) }
        ensures unread { IfOk result (λ done. first_data self.old.after ≡ []
            → IsOk done × (self.new.honest ≡ self.old.honest)) }
        ensures err { OnErr result (self.new ≡ self.old) }
    {
        if asked == 0 {
            return Ok(Ok(Passed::Nothing));
        }
        if self.position == self.index.count() {
            return Ok(Ok(Passed::EndOfData));
        }
        let length = self.index.size_at(self.position) - MARK_SIZE;
        let given = asked.min(length) as usize;
        buffer.reserve(given + tailroom as usize)?;
        let place = self.index.place_of(self.position) + LENGTH;
        match read_behind(&mut self.store, place, given, buffer) {
            Ok(()) => {
                self.position += 1;
                Ok(Ok(passed_item(length)))
            }
            Err(fault) => Ok(Err(fault)),
        }
    }

    /// Passes `count` records of one length after the position, here called blocks, and appends their bytes to a buffer
    /// (SSC-4 "READ (6)", FIXED). First it reserves room there for them and for `tailroom` bytes more. A filemark or a
    /// record of another length ends them, and is passed. If that comes first, it calls no store. If an allocation
    /// fails, nothing changes; if the store fails, the tape is as before, and no block is returned.
    pub fn read_fixed(
        &mut self,
        count: u32,
        block_length: u32,
        buffer: &mut BytesMut,
        tailroom: u32,
    ) -> Result<Result<FixedRead, StoreFault>, Memory>
        requires { count * block_length ≤ most_bytes }
        ensures read { IfOk result (λ done. IfOk done (λ read. read ≡ fixed_told count block_length self.old)) }
        ensures few { IfOk result (λ done. IfOk done (λ read. read.given ≤ count)) }
        ensures given { IfOk result (λ done. OnOk done (IsTrue self.new.honest
            → buffer.new.items ≡ buffer.old.items ++ fixed_data count block_length self.old)) }
        ensures length { IfOk result (λ done. IfOk done (λ read. length buffer.new.items
            ≡ length buffer.old.items + read.given * block_length)) }
        ensures spare { IfOk result (λ _. tailroom ≤ buffer.new.spare) }
        ensures tape { IfOk result (λ done. OnOk done (self.new
            ≡ record (tape_read_fixed count block_length self.old) { honest = self.new.honest })) }
        ensures failed { IfOk result (λ done. OnErr done (self.new
            ≡ record self.old { failures = risen self.old.failures; honest = self.new.honest })) }
        ensures rest { IfOk result (λ done. IsReadFrom done self.old self.new) }
        ensures back { IsTrue self.new.honest → IsTrue self.old.honest }
        ensures succeeds { IfOk result (λ done. IsTrue self.old.steady → IsTrue self.old.honest
            → IsOk done × (self.new.honest ≡ self.old.honest)) }
        ensures unread { IfOk result (λ done. (fixed_told count block_length self.old).given ≡ 0
            → IsOk done × (self.new.honest ≡ self.old.honest)) }
        ensures err { OnErr result (self.new ≡ self.old) }
    {
        let read = self.index.blocks(self.position, count, block_length);
        let place = self.index.place_of(self.position);
        let done = read_blocks(
            self.alloc,
            &mut self.store,
            place,
            read.given,
            block_length,
            buffer,
            tailroom,
        )?;
        match done {
            Ok(()) => {
                self.position += passed_blocks(read);
                Ok(Ok(read))
            }
            Err(fault) => Ok(Err(fault)),
        }
    }
}
