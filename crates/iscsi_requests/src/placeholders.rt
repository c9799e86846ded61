//! Placeholders for SCSI Commands that were removed, and for numbers that were plugged.

ghost use Rattle.std.specs.Prelude.{◌≡◌, ◌≢◌, ℕ, ◌∷◌, [], replicate, option_map};
ghost use Rattle.slab.specs.Slab.{get};
ghost use Rattle.iscsi_pdu.specs.Header.{is_immediate};
ghost use Rattle.iscsi_requests.specs.Functions.{plug as plug_in, is_plug as is_plug_in};
ghost use Rattle.iscsi_requests.specs.State.{void as void_of, void_if};
ghost use Rattle.iscsi_requests.specs.RequestQueue.{Voids, keys_in};

use crate::abort_scope::Reach;
use iscsi_pdu::{Frame, HEADER_LENGTH, Header, Opcode};
use slab::Slab;
use std::alloc::Global;

/// Not an initiator's opcode: it marks a SCSI Command that was removed, for immediate delivery or not.
const REMOVED: u8 = 0x3f;

const REMOVED_IMMEDIATE: u8 = 0x7f;

/// Not an initiator's opcode: it marks a number that was plugged.
const PLUGGED: u8 = 0x3e;

/// Returns a header whose bytes are zero, but for the first.
fn header_with(first: u8) -> Header
    ensures { result ≡ first ∷ replicate 47 0 }
{
    let mut bytes = [0; HEADER_LENGTH];
    bytes[0] = first;
    Header::new(bytes)
}

/// Returns the placeholder for a number that was plugged. Allocates no memory.
pub(crate) fn plug(alloc: Global) -> Frame
    ensures { result ≡ plug_in }
{
    Frame {
        header: header_with(PLUGGED),
        body: Vec::new(alloc),
    }
}

/// Returns whether a frame is the placeholder for a number that was plugged.
pub(crate) fn is_plug(frame: &Frame) -> bool
    ensures { result ≡ is_plug_in frame.now }
{
    matches!(frame.header.opcode(), Opcode::Other(PLUGGED))
}

/// Returns the placeholder for a SCSI Command that was removed. Allocates no memory.
fn void(alloc: Global, header: &Header) -> Frame
    ensures { result ≡ void_of (is_immediate header.now) }
{
    let first = if header.is_immediate() {
        REMOVED_IMMEDIATE
    } else {
        REMOVED
    };
    Frame {
        header: header_with(first),
        body: Vec::new(alloc),
    }
}

/// Voids the request at a key, if the function reaches it.
fn void_at(alloc: Global, requests: &mut Slab<Frame>, key: usize, reach: &Reach)
    ensures here { get requests.new key ≡ option_map (void_if reach.now) (get requests.old key) }
    ensures others { (other : ℕ) → other ≢ key → get requests.new other ≡ get requests.old other }
{
    if let Some(frame) = requests.get_mut(key) {
        if reach.has_frame(frame) {
            *frame = void(alloc, &frame.header);
        }
    }
}

/// Voids the requests at these keys that the function reaches.
pub(crate) fn void_line(alloc: Global, requests: &mut Slab<Frame>, keys: &[usize], reach: &Reach)
    ensures { Voids reach.now keys.now requests.old requests.new }
{
    for key in keys {
        void_at(alloc, requests, *key, reach);
    }
}

/// Voids the request at a place of the window, if the function reaches it.
fn void_slot(alloc: Global, requests: &mut Slab<Frame>, key: &Option<usize>, reach: &Reach)
    ensures { Voids reach.now (keys_in (key.now ∷ [])) requests.old requests.new }
{
    if let Some(key) = key {
        void_at(alloc, requests, *key, reach);
    }
}

/// Voids the requests that the window holds and the function reaches.
pub(crate) fn void_held(
    alloc: Global,
    requests: &mut Slab<Frame>,
    keys: &[Option<usize>],
    reach: &Reach,
)
    ensures { Voids reach.now (keys_in keys.now) requests.old requests.new }
{
    for key in keys {
        void_slot(alloc, requests, key, reach);
    }
}
