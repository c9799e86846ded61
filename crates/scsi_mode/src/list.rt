//! The parameter list of MODE SELECT.

ghost use Rattle.std.specs.Prelude.{◌≡◌, ◌<◌, ◌≤◌, length, IfSome};
ghost use Rattle.scsi_mode.specs.ParameterList.{is_page, after_page, page_if, after_pages, header_length, descriptor_length, after_descriptor, after_header, selected};

use crate::descriptor::described;
use crate::list_fault::ListFault;
use crate::page::{caching_page, control_page};
use crate::parameters::Parameters;
use byteorder::{BigEndian, ByteOrder};
use scsi_cdb::{PageControl, ParameterHeader};

/// PS, in byte 0 of a page.
const WITHOUT_SAVEABLE: u8 = 0x7f;

/// The number of bytes of a block descriptor.
const DESCRIPTOR_LENGTH: usize = 8;

/// Returns whether a page of the list is this one.
#[tactic(auto, unfolding(crate::specs::ParameterList::is_page))]
fn is_page(page: &[u8], expected: &[u8]) -> bool
    requires page { 0 < length page.now }
    requires expected { 0 < length expected.now }
    ensures { result ≡ is_page page.now expected.now }
{
    page[0] & WITHOUT_SAVEABLE == expected[0] && page[1..] == expected[1..]
}

/// Returns the parameters after a page of the list.
#[tactic(auto, unfolding(crate::specs::ParameterList::after_page))]
fn after_page(parameters: Parameters, page: &[u8]) -> Result<Parameters, ListFault>
    requires { 0 < length page.now }
    ensures { result ≡ after_page parameters page.now }
{
    match parameters {
        Parameters::Disk { .. } if is_page(page, &caching_page(PageControl::Current)) => {
            Ok(parameters)
        }
        Parameters::Disk { block_count, .. } if is_page(page, &control_page(false)) => {
            let write_protect = false;
            Ok(Parameters::Disk {
                block_count,
                write_protect,
            })
        }
        Parameters::Disk { block_count, .. } if is_page(page, &control_page(true)) => {
            let write_protect = true;
            Ok(Parameters::Disk {
                block_count,
                write_protect,
            })
        }
        Parameters::Tape { .. } if is_page(page, &control_page(false)) => Ok(parameters),
        _ => Err(ListFault::InvalidField),
    }
}

/// Returns the length of the first page, if it is whole.
#[tactic(auto, unfolding(crate::specs::ParameterList::has_page))]
fn whole_page(list: &[u8]) -> Option<usize>
    ensures value { result ≡ page_if list.now }
    ensures some { IfSome result (λ n. 0 < n) }
    ensures within { IfSome result (λ n. n ≤ length list.now) }
{
    match list {
        [_, length, rest @ ..] if rest.len() >= usize::from(*length) => {
            Some(2 + usize::from(*length))
        }
        _ => None,
    }
}

/// Returns the parameters after pages.
fn after_pages(parameters: Parameters, list: &[u8]) -> Result<Parameters, ListFault>
    ensures { result ≡ after_pages parameters list.now }
{
    let mut after = parameters;
    let mut rest = list;
    while !rest.is_empty() {
        let Some(length) = whole_page(rest) else {
            return Err(ListFault::EndsEarly);
        };
        let (page, others) = rest.split_at(length);
        after = after_page(after, page)?;
        rest = others;
    }
    Ok(after)
}

/// Reads a block descriptor, and then pages.
#[tactic(auto, unfolding(crate::specs::ParameterList::after_descriptor))]
fn after_descriptor(parameters: Parameters, list: &[u8]) -> Result<Parameters, ListFault>
    ensures { result ≡ after_descriptor parameters list.now }
{
    if list.len() < DESCRIPTOR_LENGTH {
        return Err(ListFault::EndsEarly);
    }
    match described(parameters, list) {
        Some(parameters) => after_pages(parameters, &list[DESCRIPTOR_LENGTH..]),
        None => Err(ListFault::InvalidField),
    }
}

/// Reads what comes after a header that gives this length to the block descriptor.
#[tactic(auto, unfolding(crate::specs::ParameterList::after_header))]
fn after_header(
    parameters: Parameters,
    descriptor_length: usize,
    list: &[u8],
) -> Result<Parameters, ListFault>
    ensures { result ≡ after_header parameters descriptor_length list.now }
{
    match descriptor_length {
        0 => after_pages(parameters, list),
        DESCRIPTOR_LENGTH => after_descriptor(parameters, list),
        _ => Err(ListFault::InvalidField),
    }
}

/// Returns the parameters after a MODE SELECT with this parameter list (SPC-4 "MODE SELECT (6) command", "MODE SELECT
/// (10) command"). If the list is refused, it returns why, and nothing changes. The parts of the list are judged in
/// turn. A part is refused if it ends early, or if it would change anything but a disk's SWP and a tape's block length.
/// The first fault counts. An empty list changes nothing.
#[tactic(auto, unfolding(crate::specs::ParameterList::selected))]
pub fn select(
    parameters: Parameters,
    header: ParameterHeader,
    list: &[u8],
) -> Result<Parameters, ListFault>
    ensures { result ≡ selected parameters header list.now }
{
    if list.is_empty() {
        return Ok(parameters);
    }
    let length = match header {
        ParameterHeader::Six => 4,
        ParameterHeader::Ten => 8,
    };
    if list.len() < length {
        return Err(ListFault::EndsEarly);
    }
    let descriptor_length = match header {
        ParameterHeader::Six => usize::from(list[3]),
        ParameterHeader::Ten => usize::from(BigEndian::read_u16(&list[6..])),
    };
    after_header(parameters, descriptor_length, &list[length..])
}
