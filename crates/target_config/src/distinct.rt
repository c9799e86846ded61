//! What must come once: the names of the targets, the LUNs of each target, and the files. And LUN 0, which each target
//! must have.

ghost use Rattle.std.specs.Prelude.{◌≡◌, pos, bytes_eq, option_map, string_bytes};
ghost use Rattle.std.specs.List.{list_all, list_any};
ghost use Rattle.std.specs.Ordering.{int_eq};
ghost use Rattle.target_config.specs.Configuration.{names_of, file_of, medium_view, unit_view, units_view, target_view, targets_view};
ghost use Rattle.target_config.specs.Distinct.{is_distinct, is_distinct_before, shares_file as is_file_shared, units_in, has_distinct_luns as are_luns_distinct, has_distinct_files as are_files_distinct, has_lun_zero as is_lun_zero_there, comes_each_once};

use crate::configuration::{MediumConfiguration, TargetConfiguration, UnitConfiguration};

/// Returns whether one of the units has the LUN of this one.
fn has_twin(units: &[UnitConfiguration], unit: &UnitConfiguration) -> bool
    ensures { result ≡ list_any (λ other. int_eq other.lun unit.now.lun) units.now }
{
    units.iter().any(|other| other.lun == unit.lun)
}

fn has_distinct_luns(target: &TargetConfiguration) -> bool
    ensures { result ≡ are_luns_distinct (target_view target.now) }
{
    let units = target.units.as_slice();
    for (i, unit) in units.iter().enumerate() {
        if has_twin(&units[i + 1..], unit) {
            return false;
        }
    }
    true
}

/// Returns whether one of the units has LUN 0.
fn are_with_zero(units: &[UnitConfiguration]) -> bool
    ensures { result ≡ list_any (λ unit. int_eq unit.lun (pos 0)) units.now }
{
    units.iter().any(|unit| unit.lun == 0)
}

fn has_lun_zero(target: &TargetConfiguration) -> bool
    ensures { result ≡ is_lun_zero_there (target_view target.now) }
{
    are_with_zero(target.units.as_slice())
}

/// Returns whether one of the targets has the name of this one.
fn has_namesake(targets: &[TargetConfiguration], target: &TargetConfiguration) -> bool
    ensures { result ≡ list_any (λ other. bytes_eq (string_bytes other.name) (string_bytes target.now.name)) targets.now }
{
    targets.iter().any(|other| other.name == target.name)
}

fn have_distinct_names(targets: &[TargetConfiguration]) -> bool
    ensures { result ≡ is_distinct bytes_eq (names_of (targets_view targets.now)) }
{
    for (i, target) in targets.iter().enumerate() {
        if has_namesake(&targets[i + 1..], target) {
            return false;
        }
    }
    true
}

fn have_distinct_luns(targets: &[TargetConfiguration]) -> bool
    ensures { result ≡ list_all (λ target. are_luns_distinct (target_view target)) targets.now }
{
    targets.iter().all(|target| has_distinct_luns(target))
}

/// Returns the path of the file that a unit is in, if it is in one.
fn path_of(medium: &MediumConfiguration) -> Option<&String>
    ensures { option_map (λ path. string_bytes path.now) result ≡ file_of (medium_view medium.now) }
{
    match medium {
        MediumConfiguration::FileDisk(path) => Some(path),
        MediumConfiguration::FileTape { path, .. } => Some(path),
        MediumConfiguration::MemoryDisk(_) | MediumConfiguration::MemoryTape { .. } => None,
    }
}

fn share_file(unit: &UnitConfiguration, other: &UnitConfiguration) -> bool
    ensures { result ≡ is_file_shared (unit_view unit.now) (unit_view other.now) }
{
    match (path_of(&unit.medium), path_of(&other.medium)) {
        (Some(path), Some(other)) => path == other,
        _ => false,
    }
}

/// Returns whether one of the units is in the file of this one.
fn has_file_of(units: &[UnitConfiguration], unit: &UnitConfiguration) -> bool
    ensures { result ≡ list_any (λ other. is_file_shared (unit_view other) (unit_view unit.now)) units.now }
{
    units.iter().any(|other| share_file(other, unit))
}

/// Returns whether one of the targets has a unit in the file of this one.
fn have_file_of(targets: &[TargetConfiguration], unit: &UnitConfiguration) -> bool
    ensures { result ≡ list_any (λ target. list_any (λ other. is_file_shared (unit_view other) (unit_view unit.now)) target.units.items) targets.now }
{
    targets
        .iter()
        .any(|target| has_file_of(target.units.as_slice(), unit))
}

/// Returns whether the units are in different files, and none is in a file of the targets that follow.
fn is_apart(units: &[UnitConfiguration], behind: &[TargetConfiguration]) -> bool
    ensures { result ≡ is_distinct_before is_file_shared (units_view units.now) (units_in (targets_view behind.now)) }
{
    for (i, unit) in units.iter().enumerate() {
        if has_file_of(&units[i + 1..], unit) || have_file_of(behind, unit) {
            return false;
        }
    }
    true
}

fn have_distinct_files(targets: &[TargetConfiguration]) -> bool
    ensures { result ≡ are_files_distinct (targets_view targets.now) }
{
    for (i, target) in targets.iter().enumerate() {
        if !is_apart(target.units.as_slice(), &targets[i + 1..]) {
            return false;
        }
    }
    true
}

/// Returns whether no two targets have one name, no two units of a target one LUN, and no two units one file.
#[tactic(auto, using(crate::proofs::Lists::tests_targets))]
pub fn come_each_once(targets: &[TargetConfiguration]) -> bool
    ensures { result ≡ comes_each_once (targets_view targets.now) }
{
    have_distinct_names(targets) && have_distinct_luns(targets) && have_distinct_files(targets)
}

/// Returns whether each target has a LUN 0.
pub fn have_lun_zero(targets: &[TargetConfiguration]) -> bool
    ensures { result ≡ list_all (λ target. is_lun_zero_there (target_view target)) targets.now }
{
    targets.iter().all(|target| has_lun_zero(target))
}
