//! The data of INQUIRY and REPORT LUNS (SPC-4 "INQUIRY command", "Vital product data parameters", "REPORT LUNS
//! command").
//!
//! ```text
//! standard INQUIRY data                          VPD pages
//! byte  0      what the LUN names                byte  0     what the LUN names
//! byte  1      80h where the medium comes out    byte  1     page code
//! byte  2      version: SPC-4                    byte  2-3   length of the rest
//! byte  8-15   vendor                            byte  4-    00h  disk  tape  the pages that there are
//! byte 16-31   product                                       80h  disk  tape  the serial number
//! byte 32-35   revision                                      83h  disk  tape  vendor and serial number
//!                                                            B0h  disk        limits of commands
//!                                                            B1h  disk        nothing is told
//! ```
//!
//! [`standard`], [`page`] and [`luns`] return exactly these bytes, and [`VpdPage::of`] knows exactly these pages. No
//! data is truncated to an allocation length here.
#![tactic(auto)]

mod peripheral;
mod product_data;
mod put;
mod report_luns;
mod standard_data;
mod vpd_page;

pub use peripheral::Peripheral;
pub use product_data::page;
pub use report_luns::luns;
pub use standard_data::standard;
pub use vpd_page::VpdPage;
