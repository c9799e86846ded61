//! Files that stand in for standard streams.

ghost use Rattle.std.specs.Prelude.{◌≡◌, ℕ, ◌==◌, ◌∷◌, [], false, is_some, IfOk, OnOk, OnErr};
ghost use Rattle.standard_streams.specs.Streams.{no_others, no_streams, input, AreOthersTaken, AreOthersLacking, AreTaken, AreLacking, given, refused};

use arrayvec::ArrayVec;
use call_record::Record;
use std::fs::{File, OpenOptions};
use std::io;
use std::marker::Model;
use std::os::fd::AsRawFd;
use std::rt::Files;

/// The number of standard streams, whose descriptors are those below it.
const STREAMS: usize = 3;

/// The descriptor of standard input.
const INPUT: u32 = 0;

/// The file that stands in for a standard stream.
const NOTHING: &str = "/dev/null";

/// Files that stand in for standard output and standard error, and the record of their opening.
#[derive(Drop)]
struct Others {
    held: ArrayVec<Option<File>, STREAMS>,
    told: Record,
}

impl Model for Others {
    ghost use Rattle.std.specs.Prelude.{length};
    ghost use Rattle.standard_streams.specs.Streams.{OthersState};

    ghost Value = { OthersState };

    ghost view = { λ others. record { held = length others.held.items; told = others.told.calls } };
}

/// Files that stand in for standard streams that were closed, for as long as they are kept, and the record of their
/// opening. A stream with a stand-in fails when it is used, as a closed one does: standard input is open only for
/// writing, the others only for reading.
#[derive(Drop)]
pub struct Streams {
    input: Option<File>,
    input_told: Record,
    others: Others,
}

impl Model for Streams {
    ghost use Rattle.std.specs.Prelude.{is_some};
    ghost use Rattle.standard_streams.specs.Streams.{StreamsState};

    ghost Value = { StreamsState };

    ghost view = { λ streams. record {
      has_input = is_some streams.input;
      input_told = streams.input_told.calls;
      others = streams.others;
    } };
}

/// Opens the file that stands in for a stream, and notes its descriptor, or that it cannot be opened.
fn open_nothing(
    rt: &impl Files<File = File>,
    options: &OpenOptions,
    told: &mut Record,
) -> io::Result<(File, u32)>
    ensures opened { IfOk result (λ opened. told.new.calls ≡ given opened.1 ∷ told.old.calls) }
    ensures unopened { OnErr result (told.new.calls ≡ refused ∷ told.old.calls) }
{
    match options.open(rt, NOTHING) {
        Ok(file) => {
            let number = file.as_raw_fd().unsigned_abs();
            told.note(&[u64::from(number)], NOTHING.as_bytes(), &[true]);
            Ok((file, number))
        }
        Err(error) => {
            told.note(&[], NOTHING.as_bytes(), &[false]);
            Err(error)
        }
    }
}

impl Others {
    /// Holds nothing.
    fn none() -> Others
        ensures { result ≡ no_others }
    {
        Others {
            held: ArrayVec::new(),
            told: Record::new(),
        }
    }

    /// Opens files for reading until one gets a descriptor that is not of a standard stream, or three are held. Holds
    /// those before it.
    fn take(rt: &impl Files<File = File>) -> (Others, io::Result<()>)
        ensures taken { OnOk result.1 (AreOthersTaken result.0) }
        ensures lacking { OnErr result.1 (AreOthersLacking result.0) }
    {
        let mut options = OpenOptions::new();
        options.read(true);
        let mut others = Others::none();
        while !others.held.is_full() {
            let (file, number) = match open_nothing(rt, &options, &mut others.told) {
                Ok(opened) => opened,
                Err(error) => return (others, Err(error)),
            };
            if number as usize >= STREAMS {
                return (others, Ok(()));
            }
            others.held.push(Some(file));
        }
        (others, Ok(()))
    }
}

/// Opens a file for writing. Returns it if it got the descriptor of standard input.
fn take_input(rt: &impl Files<File = File>, told: &mut Record) -> io::Result<Option<File>>
    ensures opened { IfOk result (λ held. (number : ℕ) × (told.new.calls ≡ given number ∷ told.old.calls)
        × (is_some held ≡ (number == input))) }
    ensures unopened { OnErr result (told.new.calls ≡ refused ∷ told.old.calls) }
{
    let mut options = OpenOptions::new();
    options.write(true);
    let (file, number) = open_nothing(rt, &options, told)?;
    if number == INPUT {
        return Ok(Some(file));
    }
    Ok(None)
}

impl Streams {
    /// Holds nothing.
    pub fn none() -> Streams
        ensures { result ≡ no_streams }
    {
        Streams {
            input: None,
            input_told: Record::new(),
            others: Others::none(),
        }
    }

    /// Takes the descriptors of the standard streams that were closed, so that no file that is opened later gets one of
    /// them. It fails if the file that stands in for a stream cannot be opened.
    pub fn take(rt: &impl Files<File = File>) -> (Streams, io::Result<()>)
        ensures taken { OnOk result.1 (AreTaken result.0) }
        ensures lacking { OnErr result.1 (AreLacking result.0) }
    {
        let mut streams = Streams::none();
        match take_input(rt, &mut streams.input_told) {
            Ok(input) => streams.input = input,
            Err(error) => return (streams, Err(error)),
        }
        let (others, taken) = Others::take(rt);
        streams.others = others;
        (streams, taken)
    }
}
