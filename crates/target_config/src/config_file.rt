//! The configuration file: a TOML document, whose fields are read first and then checked.

ghost use Rattle.std.specs.Prelude.{◌≡◌, ◌≢◌, true, IfOk, IfErr, Ok, Err};
ghost use Rattle.target_config.specs.Configuration.{configuration_view};
ghost use Rattle.target_config.specs.Limits.{keeps_limits as are_limits_kept};
ghost use Rattle.target_config.specs.Config.{fault_in as first_fault_in, config_of, file_config_of};
ghost use Rattle.target_config.specs.declared.fault.ConfigFault.TheVariants.{OutOfMemory};

use crate::configuration::Configuration;
use crate::distinct::{come_each_once, have_lun_zero};
use crate::fault::ConfigFault;
use crate::fields::fields;
use crate::limits::keeps_limits;
use std::alloc::Global;
use std::str;

/// The most bytes of a configuration file.
pub const MOST_BYTES: usize = 1_048_576;

/// Returns the first fault of a configuration whose fields are all there.
#[tactic(auto, using(crate::proofs::Lists::tests_targets), unfolding(crate::specs::Config::fault_in))]
fn fault_in(configuration: &Configuration) -> Option<ConfigFault>
    ensures { result ≡ first_fault_in (configuration_view configuration.now) }
{
    let targets = configuration.targets.as_slice();
    if !keeps_limits(configuration) {
        return Some(ConfigFault::Limit);
    }
    if !come_each_once(targets) {
        return Some(ConfigFault::Twice);
    }
    if !have_lun_zero(targets) {
        return Some(ConfigFault::NoLunZero);
    }
    None
}

/// Returns the configuration that a TOML document describes, or its first fault. Unknown fields are ignored.
#[tactic(auto, unfolding(crate::specs::Config::config_of))]
pub fn config(alloc: Global, text: &str) -> Result<Configuration, ConfigFault>
    ensures read { IfOk result (λ configuration. config_of text.now ≡ Ok (configuration_view configuration)) }
    ensures limits { IfOk result (λ configuration. are_limits_kept (configuration_view configuration) ≡ true) }
    ensures refused { IfErr result (λ fault. fault ≢ OutOfMemory → config_of text.now ≡ Err fault) }
{
    let table = toml::table_from_str(alloc, text)?;
    let configuration = fields(alloc, &table)?;
    match fault_in(&configuration) {
        None => Ok(configuration),
        Some(fault) => Err(fault),
    }
}

/// Returns the configuration of a file with these contents, or its first fault.
#[tactic(auto, using(crate::proofs::Texts::is_text, crate::proofs::Texts::is_no_text), unfolding(crate::specs::Config::file_config_of))]
pub fn file_config(alloc: Global, contents: &[u8]) -> Result<Configuration, ConfigFault>
    ensures read { IfOk result (λ configuration. file_config_of contents.now ≡ Ok (configuration_view configuration)) }
    ensures limits { IfOk result (λ configuration. are_limits_kept (configuration_view configuration) ≡ true) }
    ensures refused { IfErr result (λ fault. fault ≢ OutOfMemory → file_config_of contents.now ≡ Err fault) }
{
    if contents.len() > MOST_BYTES {
        return Err(ConfigFault::Unreadable);
    }
    match str::from_utf8(contents) {
        Ok(text) => config(alloc, text),
        Err(_) => Err(ConfigFault::NotToml),
    }
}
