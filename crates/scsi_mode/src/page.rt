//! Mode pages.

ghost use Rattle.std.specs.Prelude.{◌≡◌};
ghost use Rattle.scsi_mode.specs.ModePages.{caching_page, control_page, shown_swp};

use crate::parameters::Parameters;
use scsi_cdb::PageControl;

/// A mode page.
#[derive(Clone, Copy)]
pub enum ModePage {
    /// 08h (SBC-3 "Caching mode page")
    Caching,
    /// 0Ah (SPC-4 "Control mode page")
    Control,
}

/// SWP, in byte 4 of the Control mode page.
const SWP: u8 = 0x08;

/// WCE, in byte 2 of the Caching mode page.
const WRITE_CACHE: u8 = 0x04;

/// Returns the Caching mode page: the write cache is on, and nothing of it can be changed.
pub(crate) fn caching_page(control: PageControl) -> [u8; 20]
    ensures { result ≡ caching_page control }
{
    let cache = match control {
        PageControl::Changeable => 0,
        PageControl::Current | PageControl::Default => WRITE_CACHE,
    };
    [
        0x08, 0x12, cache, 0, 0, 0, 0, 0, 0, 0, 0, 0, 0, 0, 0, 0, 0, 0, 0, 0,
    ]
}

/// Returns the Control mode page with SWP as given.
pub(crate) fn control_page(is_protected: bool) -> [u8; 12]
    ensures { result ≡ control_page is_protected }
{
    let protect = if is_protected { SWP } else { 0 };
    [0x0a, 0x0a, 0, 0, protect, 0, 0, 0, 0, 0, 0, 0]
}

/// Returns the bit in the place of SWP: its value, whether it can be changed, or its default.
pub(crate) fn shown_swp(control: PageControl, parameters: Parameters) -> bool
    ensures { result ≡ shown_swp control parameters }
{
    match control {
        PageControl::Current => parameters.write_protect(),
        PageControl::Changeable => matches!(parameters, Parameters::Disk { .. }),
        PageControl::Default => false,
    }
}
