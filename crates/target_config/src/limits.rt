//! The limits that a configuration keeps.

ghost use Rattle.std.specs.Prelude.{◌≡◌};
ghost use Rattle.std.specs.List.{list_all};
ghost use Rattle.target_config.specs.Configuration.{unit_view, target_view, configuration_view};
ghost use Rattle.target_config.specs.Limits.{is_printable as is_printable_byte, is_serial as is_serial_text, unit_keeps, target_keeps, keeps_limits as are_limits_kept};

use crate::configuration::{Configuration, TargetConfiguration, UnitConfiguration};

const MOST_LISTEN: usize = 253;

const MOST_TARGETS: usize = 8;

const MOST_NAME: usize = 223;

const MOST_UNITS: usize = 16;

const MOST_LUN: i64 = 255;

const MOST_SERIAL: usize = 32;

/// Returns whether all bytes are printable ASCII, which includes the space.
fn is_printable(bytes: &[u8]) -> bool
    ensures { result ≡ list_all is_printable_byte bytes.now }
{
    bytes.iter().all(|byte| 0x20 <= *byte && *byte <= 0x7e)
}

/// Returns whether a text is 1 to 32 bytes of printable ASCII.
fn is_serial(text: &str) -> bool
    ensures { result ≡ is_serial_text text.now }
{
    !text.is_empty() && text.len() <= MOST_SERIAL && is_printable(text.as_bytes())
}

fn unit_keeps_limits(unit: &UnitConfiguration) -> bool
    ensures { result ≡ unit_keeps (unit_view unit.now) }
{
    0 <= unit.lun && unit.lun <= MOST_LUN && is_serial(unit.serial.as_str())
}

fn units_keep_limits(units: &[UnitConfiguration]) -> bool
    ensures { result ≡ list_all (λ unit. unit_keeps (unit_view unit)) units.now }
{
    units.iter().all(|unit| unit_keeps_limits(unit))
}

fn target_keeps_limits(target: &TargetConfiguration) -> bool
    ensures { result ≡ target_keeps (target_view target.now) }
{
    if target.name.len() > MOST_NAME || target.units.len() > MOST_UNITS {
        return false;
    }
    units_keep_limits(target.units.as_slice())
}

fn targets_keep_limits(targets: &[TargetConfiguration]) -> bool
    ensures { result ≡ list_all (λ target. target_keeps (target_view target)) targets.now }
{
    targets.iter().all(|target| target_keeps_limits(target))
}

/// Returns whether every limit is kept.
pub fn keeps_limits(configuration: &Configuration) -> bool
    ensures { result ≡ are_limits_kept (configuration_view configuration.now) }
{
    if configuration.listen.len() > MOST_LISTEN || configuration.targets.len() > MOST_TARGETS {
        return false;
    }
    targets_keep_limits(configuration.targets.as_slice())
}
