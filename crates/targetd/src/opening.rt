//! What a target is made from: the opened units of a configuration, and the names of its targets.

ghost use Rattle.std.specs.Prelude.{◌≡◌, IfOk, IfErr, true, map, string_bytes};
ghost use Rattle.target_config.specs.Configuration.{names_of, targets_view, configuration_view};
ghost use Rattle.target_config.specs.Limits.{keeps_limits};
ghost use Rattle.target_units.specs.Opened.{AreUnitsOf};
ghost use Rattle.target_units.specs.Refusal.{refusal_of};
ghost use Rattle.targetd.specs.Unopened.{IsUnopened};

use crate::causes::Causes;
use iscsi_target::Config;
use media_store::Start;
use scsi_unit::Units;
use std::fs::File;
use std::net::Net;
use std::rt::{Clock, Files};
use target_config::Configuration;
use target_serving::Fault;
use target_units::{OpenedTargets, Refused, SystemStore};

/// What a target is made from.
#[derive(Drop)]
pub struct Setup<S: Start> {
    pub config: Config,
    /// The path of the log, if there is one.
    pub log: Option<String>,
    /// The units of each target, in order.
    pub units: Vec<Units<SystemStore<S>>>,
}

/// Returns what a target is made from, if these are the opened units of its configuration.
fn setup_of<S: Start>(opened: OpenedTargets<S>) -> Setup<S>
    ensures listen { result.config.listen ≡ opened.listen }
    ensures log { result.log ≡ opened.log }
    ensures names { result.config.targets ≡ opened.names }
    ensures units { result.units ≡ opened.units }
{
    let OpenedTargets {
        listen,
        log,
        names,
        units,
    } = opened;
    Setup {
        config: Config {
            listen,
            targets: names,
        },
        log,
        units,
    }
}

/// Opens the units of all targets, in the order of the configuration. What is left of the file of a unit that is not
/// opened is kept in `refused`.
pub fn open<S: Start>(
    rt: &(impl Files<File = File> + AllocGlobal),
    configuration: Configuration,
    refused: &mut Refused<S>,
) -> Result<Setup<S>, Fault>
    requires { keeps_limits (configuration_view configuration) ≡ true }
    ensures listen { IfOk result (λ setup. string_bytes setup.config.listen ≡ string_bytes configuration.listen) }
    ensures log { IfOk result (λ setup. setup.log ≡ configuration.log) }
    ensures names { IfOk result (λ setup. map string_bytes setup.config.targets.items ≡ names_of (targets_view configuration.targets.items)) }
    ensures units { IfOk result (λ setup. AreUnitsOf S.held (targets_view configuration.targets.items) setup.units.items) }
    ensures fault { IfErr result (IsUnopened S.held (targets_view configuration.targets.items) (refusal_of refused.new)) }
{
    Ok(setup_of(target_units::open(rt, configuration, refused)?))
}

/// Opens the units of all targets as [`open`] does. If one cannot be opened, writes the reason to the log.
pub fn open_telling<S: Start>(
    rt: &(impl Files<File = File> + AllocGlobal + Net + Clock),
    configuration: Configuration,
    refused: &mut Refused<S>,
    causes: &Causes,
) -> Result<Setup<S>, Fault>
    requires { keeps_limits (configuration_view configuration) ≡ true }
    ensures listen { IfOk result (λ setup. string_bytes setup.config.listen ≡ string_bytes configuration.listen) }
    ensures log { IfOk result (λ setup. setup.log ≡ configuration.log) }
    ensures names { IfOk result (λ setup. map string_bytes setup.config.targets.items ≡ names_of (targets_view configuration.targets.items)) }
    ensures units { IfOk result (λ setup. AreUnitsOf S.held (targets_view configuration.targets.items) setup.units.items) }
    ensures fault { IfErr result (IsUnopened S.held (targets_view configuration.targets.items) (refusal_of refused.new)) }
{
    match target_units::open(rt, configuration, refused) {
        Ok(opened) => Ok(setup_of(opened)),
        Err(fault) => {
            causes.tell_unopened(rt, rt.alloc(), &fault);
            Err(Fault::from(fault))
        }
    }
}
