//! The data of MODE SENSE.

ghost use Rattle.std.specs.Prelude.{◌≡◌, ◌+◌, ◌++◌, ◌≤◌, length, IfSome};
ghost use Rattle.std.specs.Option.{option_map};
ghost use Rattle.std.specs.List.{flat_map};
ghost use Rattle.scsi_mode.specs.ModePages.{page_bytes, pages_of};
ghost use Rattle.scsi_mode.specs.ModeData.{with_header, descriptor_if, mode_data};

use crate::descriptor::descriptor;
use crate::page::{ModePage, caching_page, control_page, shown_swp};
use crate::parameters::Parameters;
use crate::put::put;
use arrayvec::ArrayVec;
use scsi_cdb::{ModeSenseFields, PageControl, ParameterHeader};

/// Mode data.
pub type Data = ArrayVec<u8, 56>;

/// Returns the pages that a page code requests, or `None` if there is no such page.
fn asked_pages(code: u8, parameters: Parameters) -> Option<&'static [ModePage]>
    ensures asked { option_map (λ pages. pages.now) result ≡ pages_of code parameters }
    ensures few { IfSome result (λ pages. length pages.now ≤ 2) }
{
    match (code, parameters) {
        (0x00, _) => Some(&[]),
        (0x08, Parameters::Disk { .. }) => Some(&[ModePage::Caching]),
        (0x0a, _) => Some(&[ModePage::Control]),
        (0x3f, Parameters::Disk { .. }) => Some(&[ModePage::Caching, ModePage::Control]),
        (0x3f, Parameters::Tape { .. }) => Some(&[ModePage::Control]),
        _ => None,
    }
}

/// Appends a page to other bytes.
fn put_page(bytes: &mut Data, control: PageControl, parameters: Parameters, page: ModePage)
    requires { length bytes.old.items ≤ 36 }
    ensures page { bytes.new.items ≡ bytes.old.items ++ page_bytes control parameters page }
    ensures short { length bytes.new.items ≤ length bytes.old.items + 20 }
{
    match page {
        ModePage::Caching => put(bytes, &caching_page(control)),
        ModePage::Control => put(bytes, &control_page(shown_swp(control, parameters))),
    }
}

/// Returns the pages, one after the other.
fn joined(control: PageControl, parameters: Parameters, pages: &[ModePage]) -> Data
    requires { length pages.now ≤ 2 }
    ensures pages { result.items ≡ flat_map (page_bytes control parameters) pages.now }
    ensures short { length result.items ≤ 40 }
{
    let mut bytes = ArrayVec::new();
    for page in pages {
        put_page(&mut bytes, control, parameters, *page);
    }
    bytes
}

/// Returns a header, and then a block descriptor and pages (SPC-4 "Mode parameter header formats").
fn parameter_data(
    header: ParameterHeader,
    device_parameter: u8,
    descriptor: &[u8],
    pages: &[u8],
) -> Data
    requires descriptor { length descriptor.now ≤ 8 }
    requires pages { length pages.now ≤ 40 }
    ensures parameters { result.items ≡ with_header header device_parameter descriptor.now pages.now }
    ensures short { length result.items ≤ 56 }
{
    let length = descriptor.len() + pages.len();
    let mut bytes = ArrayVec::new();
    match header {
        ParameterHeader::Six => {
            let header = [
                3 + length as u8,
                0,
                device_parameter,
                descriptor.len() as u8,
            ];
            put(&mut bytes, &header);
        }
        ParameterHeader::Ten => {
            put(&mut bytes, &(6 + length as u16).to_be_bytes());
            put(&mut bytes, &[0, device_parameter, 0, 0]);
            put(&mut bytes, &(descriptor.len() as u16).to_be_bytes());
        }
    }
    put(&mut bytes, descriptor);
    put(&mut bytes, pages);
    bytes
}

/// Returns the data of MODE SENSE for a unit with these parameters, or `None` if there is no such page. It allocates
/// nothing (SPC-4 "MODE SENSE (6) command", "MODE SENSE (10) command").
pub fn sense(parameters: Parameters, fields: ModeSenseFields) -> Option<Data>
    ensures parameters { option_map (λ bytes. bytes.items) result ≡ mode_data fields parameters }
    ensures short { IfSome result (λ bytes. length bytes.items ≤ 56) }
{
    let asked = asked_pages(fields.page, parameters)?;
    let pages = joined(fields.control, parameters, asked);
    let descriptor = descriptor(parameters);
    let descriptor = if fields.block_descriptor {
        &descriptor[..]
    } else {
        &[]
    };
    let device_parameter = parameters.device_parameter();
    Some(parameter_data(
        fields.header,
        device_parameter,
        descriptor,
        pages.as_slice(),
    ))
}
