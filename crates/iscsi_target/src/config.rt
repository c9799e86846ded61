//! The configuration of a target.

/// The portal's address and the targets that it serves.
#[derive(Drop)]
pub struct Config {
    /// The address that initiators connect to, as text.
    pub listen: String,
    /// The name of each target (RFC 7143 §4.2.7), in order.
    pub targets: Vec<String>,
}
