//! The fields of the document: each is there, of its type, and in its range. Unknown fields are ignored.

ghost use Rattle.std.specs.Prelude.{◌≡◌, ◌≤◌, IfOk, map, codes, Some, option_map, string_bytes};
ghost use Rattle.toml.specs.Data.{get_member};
ghost use Rattle.toml.specs.View.{view, items_view, table_view};
ghost use Rattle.target_config.specs.Document.{Gives, text_at, integer_at, items_at, number_at, name_at, disk_of, memory_disk_of, file_disk_of, tape_of, memory_tape_of, file_tape_of, medium_of, has_member, is_name as is_name_text, unit_of, target_of, each, document_of};
ghost use Rattle.target_config.specs.Configuration.{medium_view, unit_view, target_view, configuration_view};

use crate::block_count::BlockCount;
use crate::configuration::{
    Configuration, MediumConfiguration, TargetConfiguration, UnitConfiguration,
};
use crate::fault::ConfigFault;
use std::alloc::Global;
use toml::{Table, Value};

/// The most blocks of a disk in memory.
const MOST_BLOCKS: u64 = 1_048_576;

/// The most bytes of a tape.
const MOST_CAPACITY: u64 = 34_359_738_360;

/// Returns the value of a field that is needed.
fn member<'a>(table: &'a Table, key: &str) -> Result<&'a Value, ConfigFault>
    ensures { Gives (λ v. view v.now) result (get_member key.now (table_view table.now)) }
{
    table.get(key).ok_or(ConfigFault::Field)
}

/// Returns whether the field is there, whatever its value.
fn has(table: &Table, key: &str) -> bool
    ensures { result ≡ has_member key.now (table_view table.now) }
{
    table.get(key).is_some()
}

fn integer(table: &Table, key: &str) -> Result<i64, ConfigFault>
    ensures { Gives (λ n. n) result (integer_at (table_view table.now) key.now) }
{
    member(table, key)?.as_integer().ok_or(ConfigFault::Field)
}

fn text<'a>(table: &'a Table, key: &str) -> Result<&'a str, ConfigFault>
    ensures { Gives (λ t. t.now) result (text_at (table_view table.now) key.now) }
{
    member(table, key)?.as_str().ok_or(ConfigFault::Field)
}

fn array<'a>(table: &'a Table, key: &str) -> Result<&'a [Value], ConfigFault>
    ensures { Gives (λ vs. items_view vs.now) result (items_at (table_view table.now) key.now) }
{
    match member(table, key)?.as_array() {
        Some(values) => Ok(values.as_slice()),
        None => Err(ConfigFault::Field),
    }
}

/// Returns a number from `least` to `most`.
#[tactic(auto, unfolding(crate::specs::Document::number_at))]
fn number(table: &Table, key: &str, least: u64, most: u64) -> Result<u64, ConfigFault>
    ensures number { Gives (λ n. n) result (number_at (table_view table.now) key.now least most) }
    ensures range { IfOk result (λ n. (least ≤ n) × (n ≤ most)) }
{
    match u64::try_from(integer(table, key)?) {
        Ok(number) if least <= number && number <= most => Ok(number),
        _ => Err(ConfigFault::Field),
    }
}

/// Returns whether a text is not empty and has no zero byte.
fn is_name(text: &str) -> bool
    ensures { result ≡ is_name_text text.now }
{
    !text.is_empty() && !text.as_bytes().contains(&0)
}

/// Returns a text that may be a name.
#[tactic(auto, unfolding(crate::specs::Document::name_at))]
fn name(alloc: Global, table: &Table, key: &str) -> Result<String, ConfigFault>
    ensures { Gives string_bytes result (name_at (table_view table.now) key.now) }
{
    let name = text(table, key)?;
    if !is_name(name) {
        return Err(ConfigFault::Field);
    }
    Ok(String::from_str(alloc, name)?)
}

/// Reads a disk in memory, with its number of blocks.
#[tactic(auto, unfolding(crate::specs::Document::memory_disk_of))]
fn memory_disk(table: &Table) -> Result<MediumConfiguration, ConfigFault>
    ensures { Gives medium_view result (memory_disk_of (table_view table.now)) }
{
    let number = number(table, "blocks", 1, MOST_BLOCKS)?;
    Ok(MediumConfiguration::MemoryDisk(BlockCount { number }))
}

/// Reads a disk in a file. A number of blocks beside it is ignored.
#[tactic(auto, unfolding(crate::specs::Document::file_disk_of))]
fn file_disk(alloc: Global, table: &Table) -> Result<MediumConfiguration, ConfigFault>
    ensures { Gives medium_view result (file_disk_of (table_view table.now)) }
{
    let path = String::from_str(alloc, text(table, "file")?)?;
    Ok(MediumConfiguration::FileDisk(path))
}

fn disk(alloc: Global, table: &Table) -> Result<MediumConfiguration, ConfigFault>
    ensures { Gives medium_view result (disk_of (table_view table.now)) }
{
    if has(table, "file") {
        file_disk(alloc, table)
    } else {
        memory_disk(table)
    }
}

#[tactic(auto, unfolding(crate::specs::Document::memory_tape_of))]
fn memory_tape(table: &Table) -> Result<MediumConfiguration, ConfigFault>
    ensures { Gives medium_view result (memory_tape_of (table_view table.now)) }
{
    let capacity = number(table, "capacity", 1, MOST_CAPACITY)?;
    let early = number(table, "early", 0, capacity)?;
    Ok(MediumConfiguration::MemoryTape { capacity, early })
}

#[tactic(auto, unfolding(crate::specs::Document::file_tape_of))]
fn file_tape(alloc: Global, table: &Table) -> Result<MediumConfiguration, ConfigFault>
    ensures { Gives medium_view result (file_tape_of (table_view table.now)) }
{
    let path = String::from_str(alloc, text(table, "file")?)?;
    let capacity = number(table, "capacity", 1, MOST_CAPACITY)?;
    let early = number(table, "early", 0, capacity)?;
    Ok(MediumConfiguration::FileTape {
        path,
        capacity,
        early,
    })
}

fn tape(alloc: Global, table: &Table) -> Result<MediumConfiguration, ConfigFault>
    ensures { Gives medium_view result (tape_of (table_view table.now)) }
{
    if has(table, "file") {
        file_tape(alloc, table)
    } else {
        memory_tape(table)
    }
}

#[tactic(auto, unfolding(crate::specs::Document::medium_of))]
fn medium(alloc: Global, table: &Table) -> Result<MediumConfiguration, ConfigFault>
    ensures { Gives medium_view result (medium_of (table_view table.now)) }
{
    match text(table, "kind")? {
        "disk" => disk(alloc, table),
        "tape" => tape(alloc, table),
        _ => Err(ConfigFault::Field),
    }
}

#[tactic(auto, unfolding(crate::specs::Document::unit_of))]
fn unit(alloc: Global, value: &Value) -> Result<UnitConfiguration, ConfigFault>
    ensures { Gives unit_view result (unit_of (view value.now)) }
{
    let table = value.as_table().ok_or(ConfigFault::Field)?;
    let lun = integer(table, "lun")?;
    let serial = String::from_str(alloc, text(table, "serial")?)?;
    let medium = medium(alloc, table)?;
    Ok(UnitConfiguration {
        lun,
        serial,
        medium,
    })
}

fn units(alloc: Global, values: &[Value]) -> Result<Vec<UnitConfiguration>, ConfigFault>
    ensures { Gives (λ us. map unit_view us.items) result (each unit_of (items_view values.now)) }
{
    let mut units = Vec::new(alloc);
    for value in values {
        units.push(unit(alloc, value)?)?;
    }
    Ok(units)
}

#[tactic(auto, unfolding(crate::specs::Document::target_of))]
fn target(alloc: Global, value: &Value) -> Result<TargetConfiguration, ConfigFault>
    ensures { Gives target_view result (target_of (view value.now)) }
{
    let table = value.as_table().ok_or(ConfigFault::Field)?;
    let name = name(alloc, table, "name")?;
    let units = units(alloc, array(table, "unit")?)?;
    Ok(TargetConfiguration { name, units })
}

fn targets(alloc: Global, values: &[Value]) -> Result<Vec<TargetConfiguration>, ConfigFault>
    ensures { Gives (λ ts. map target_view ts.items) result (each target_of (items_view values.now)) }
{
    let mut targets = Vec::new(alloc);
    for value in values {
        targets.push(target(alloc, value)?)?;
    }
    Ok(targets)
}

/// Returns the text of a field. The field may be missing, or may not be a text.
fn optional_text(alloc: Global, table: &Table, key: &str) -> Result<Option<String>, ConfigFault>
    ensures { Gives (λ text. option_map string_bytes text) result (Some (text_at (table_view table.now) key.now)) }
{
    match text(table, key) {
        Ok(text) => Ok(Some(String::from_str(alloc, text)?)),
        Err(ConfigFault::Field) => Ok(None),
        Err(fault) => Err(fault),
    }
}

/// Reads the fields of a document.
#[tactic(auto, unfolding(crate::specs::Document::document_of))]
pub fn fields(alloc: Global, table: &Table) -> Result<Configuration, ConfigFault>
    ensures { Gives configuration_view result (document_of (table_view table.now)) }
{
    let listen = name(alloc, table, "listen")?;
    let targets = targets(alloc, array(table, "target")?)?;
    let log = optional_text(alloc, table, "log")?;
    Ok(Configuration {
        listen,
        log,
        targets,
    })
}
