//! A whole run: its words, its configuration, its target, and its lines or its turns.

ghost use Rattle.std.specs.Prelude.{◌≡◌, ◌⊎◌, ◌∷◌, [], List, Ok, IfOk, IfErr, OnOk, OnErr, IsOkUnless, length, map, option_map, string_bytes};
ghost use Rattle.call_record.specs.Noted.{Noted};
ghost use Rattle.iscsi_ports.specs.Binding.{IsUnbound, not_located};
ghost use Rattle.iscsi_ports.specs.Log.{Listened};
ghost use Rattle.standard_streams.specs.Streams.{AreTaken, AreLacking};
ghost use Rattle.command_line.specs.Help.{calls_for_help};
ghost use Rattle.command_line.specs.Words.{mode_in};
ghost use Rattle.target_config.specs.Config.{file_config_of};
ghost use Rattle.target_config.specs.Configuration.{Document, names_of};
ghost use Rattle.target_units.specs.Opened.{AreUnitsOf};
ghost use Rattle.targetd.specs.Left.{left_view};
ghost use Rattle.targetd.specs.Run.{Replays, ServesAt, Runs, listening};

use crate::causes::Causes;
use crate::help::refuse_words;
use crate::left::{Left, Served};
use crate::opening::{Setup, open, open_telling};
use call_record::Record;
use command_line::{Mode, WordsFault, as_texts, mode_of};
use iscsi_ports::{MioPorts, Ports};
use iscsi_target::Target;
use media_store::Start;
use standard_streams::Streams;
use std::fs::File;
use std::io::{Read, Write};
use std::net::{Net, SocketAddr};
use std::rt::{Clock, Files};
use target_config::{file_config, load};
use target_replay::{Engine, replay};
use target_serving::{Fault, serve_logged};

/// Takes the descriptors of the standard streams, so that no file that is opened later gets one of them.
fn take_streams<S: Start>(rt: &impl Files<File = File>, left: &mut Left<S>) -> Result<(), Fault>
    ensures told { left.new.told.calls ≡ left.old.told.calls }
    ensures taken { OnOk result (AreTaken left.new.streams) }
    ensures lacking { OnErr result (AreLacking left.new.streams) }
    ensures fault { IsOkUnless result Fault.Streams }
{
    let (streams, taken) = Streams::take(rt);
    left.streams = streams;
    match taken {
        Ok(()) => Ok(()),
        Err(_) => Err(Fault::Streams),
    }
}

/// Replays the input to the target that a configuration file with these contents describes.
fn replay_at<S: Start, R: Read, W: Write>(
    rt: &(impl Files<File = File> + AllocGlobal),
    contents: &[u8],
    left: &mut Left<S>,
    reader: &mut R,
    writer: &mut W,
) -> Result<(), Fault>
    ensures told { left.new.told.calls ≡ left.old.told.calls }
    ensures streams { left.new.streams ≡ left.old.streams }
    ensures ends { Replays S.held (left_view ⟦<MioPorts as Ports>⟧.log left.new) (R.remaining reader.old) (R.remaining reader.new)
        (W.contents writer.old) (W.contents writer.new) (file_config_of contents.now) result }
{
    let alloc = rt.alloc();
    let configuration = file_config(alloc, contents)?;
    let Setup { config, units, .. } = open(rt, configuration, &mut left.refused)?;
    let target = Target::new(alloc, config, units)?;
    let mut engine = Engine::new(alloc, target);
    let ended = replay(&mut engine, reader, writer);
    left.replayed = Some(engine.into_target());
    ended?;
    Ok(())
}

/// Listens on an address. If that fails, writes the reason to the log. The call that failed is noted in `unbound`.
fn listen(
    rt: &(impl Files<File = File> + AllocGlobal + Net + Clock),
    address: &str,
    causes: &Causes,
    unbound: &mut Record,
) -> Result<MioPorts, Fault>
    ensures log { IfOk result (λ ports. ⟦<MioPorts as Ports>⟧.log ports ≡ Listened address.now ∷ []) }
    ensures fault { IfErr result (λ fault. ((fault ≡ Fault.Socket) × IsUnbound address.now unbound.old.calls unbound.new.calls)
        ⊎ (fault ≡ Fault.OutOfMemory)) }
{
    match MioPorts::new(rt, rt.alloc(), address, None, unbound) {
        Ok(ports) => Ok(ports),
        Err(fault) => {
            causes.tell_unbound(rt, rt.alloc(), address, fault);
            Err(Fault::from(fault))
        }
    }
}

/// Listens on an address as [`listen`] does, and returns where.
fn listen_at(
    rt: &(impl Files<File = File> + AllocGlobal + Net + Clock),
    address: &str,
    causes: &Causes,
    unbound: &mut Record,
) -> Result<(MioPorts, SocketAddr), Fault>
    ensures log { IfOk result (λ bound. ⟦<MioPorts as Ports>⟧.log bound.0 ≡ listening address.now bound.1) }
    ensures fault { IfErr result (λ fault. ((fault ≡ Fault.Socket)
        × (IsUnbound address.now unbound.old.calls unbound.new.calls ⊎ ((earlier : List Noted) × (unbound.new.calls ≡ not_located ∷ earlier))))
        ⊎ (fault ≡ Fault.OutOfMemory)) }
{
    let mut ports = listen(rt, address, causes, unbound)?;
    let Ok(address) = ports.address(unbound) else {
        return Err(Fault::Socket);
    };
    Ok((ports, address))
}

/// Makes a target and serves it at its address for `count` turns. The clause `ends` is about each configuration that
/// describes what the target is made from.
fn serve_setup<S: Start, W: Write>(
    rt: &(impl Files<File = File> + AllocGlobal + Net + Clock),
    setup: Setup<S>,
    causes: &Causes,
    count: u64,
    left: &mut Left<S>,
    writer: &mut W,
) -> Result<(), Fault>
    requires as_many { length setup.units.items ≡ length setup.config.targets.items }
    requires unbound { left.old.unbound.calls ≡ [] }
    requires logged { left.old.logged.calls ≡ [] }
    ensures told { left.new.told.calls ≡ left.old.told.calls }
    ensures streams { left.new.streams ≡ left.old.streams }
    ensures ends { (document : Document) → string_bytes setup.config.listen ≡ document.listen → option_map string_bytes setup.log ≡ document.log
        → map string_bytes setup.config.targets.items ≡ names_of document.targets → AreUnitsOf S.held document.targets setup.units.items
        → ServesAt S.held (left_view ⟦<MioPorts as Ports>⟧.log left.new) (W.contents writer.old) (W.contents writer.new) count (Ok document) result }
{
    let (ports, address) = listen_at(rt, setup.config.listen.as_str(), causes, &mut left.unbound)?;
    let Setup { config, log, units } = setup;
    let mut target = Target::new(rt.alloc(), config, units)?;
    let (ports, ended) = serve_logged(
        rt,
        address,
        ports,
        log,
        &mut left.logged,
        &mut target,
        count,
        writer,
    );
    left.keep_served(Served { ports, target });
    ended
}

/// Serves the target that a configuration file with these contents describes, for `count` turns.
fn serve_at<S: Start, W: Write>(
    rt: &(impl Files<File = File> + AllocGlobal + Net + Clock),
    contents: &[u8],
    count: u64,
    left: &mut Left<S>,
    writer: &mut W,
) -> Result<(), Fault>
    ensures told { left.new.told.calls ≡ left.old.told.calls }
    ensures streams { left.new.streams ≡ left.old.streams }
    ensures ends { ServesAt S.held (left_view ⟦<MioPorts as Ports>⟧.log left.new) (W.contents writer.old) (W.contents writer.new) count
        (file_config_of contents.now) result }
{
    left.forget_start();
    let alloc = rt.alloc();
    let configuration = file_config(alloc, contents)?;
    let causes = Causes::of(alloc, &configuration);
    let setup = open_telling(rt, configuration, &mut left.refused, &causes)?;
    serve_setup(rt, setup, &causes, count, left, writer)
}

/// Runs the program with the words after its name, from the beginning to the end of the input or of the turns. `S`
/// stands for what the files hold when they are opened.
pub fn run<S: Start, R: Read, W: Write>(
    rt: &(impl Files<File = File> + AllocGlobal + Net + Clock),
    words: &[String],
    left: &mut Left<S>,
    reader: &mut R,
    writer: &mut W,
) -> Result<(), Fault>
    ensures { Runs S.held (left_view ⟦<MioPorts as Ports>⟧.log left.new) (R.remaining reader.old) (R.remaining reader.new)
        (W.contents writer.old) (W.contents writer.new) left.old.told.calls (calls_for_help (map string_bytes words.now))
        (mode_in (map string_bytes words.now)) result }
{
    let alloc = rt.alloc();
    let texts = as_texts(alloc, words)?;
    let texts = texts.as_slice();
    let mode = match mode_of(alloc, texts) {
        Ok(mode) => mode,
        Err(WordsFault::Usage) => return Err(refuse_words(texts, writer)),
        Err(WordsFault::Memory) => return Err(Fault::OutOfMemory),
    };
    take_streams(rt, left)?;
    match mode {
        Mode::Replay { config } => {
            let contents = load(rt, config, &mut left.told)?;
            replay_at(rt, contents.as_slice(), left, reader, writer)
        }
        Mode::Serve { config, turns } => {
            let contents = load(rt, config, &mut left.told)?;
            serve_at(rt, contents.as_slice(), turns, left, writer)
        }
    }
}
