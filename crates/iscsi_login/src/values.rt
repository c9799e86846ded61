//! The values in force after a login.

ghost use Rattle.std.specs.Prelude.{◌≡◌};
ghost use Rattle.iscsi_login.specs.Keys.{settled as settled_of};
ghost use Rattle.iscsi_login.specs.Values.{default_values, with_boolean as boolean_with, with_number as number_with, with_declared as declared_with, with_pair as pair_with};

use crate::keys::{KeyResult, same};
use crate::number::number_in;

/// The values of the keys that a session uses, lengths in bytes and times in seconds. Keys that cannot differ are not
/// here: HeaderDigest, DataDigest and AuthMethod are None, MaxConnections is 1, DataPDUInOrder and
/// DataSequenceInOrder are Yes, ErrorRecoveryLevel is 0.
#[derive(Clone, Copy)]
pub struct Values {
    /// InitialR2T (RFC 7143 §13.10)
    pub initial_r2t: bool,
    /// ImmediateData (RFC 7143 §13.11)
    pub immediate_data: bool,
    /// MaxRecvDataSegmentLength of the initiator: the most data that one PDU to it carries (RFC 7143 §13.12)
    pub max_recv_data_segment_length: u32,
    /// MaxBurstLength (RFC 7143 §13.13)
    pub max_burst_length: u32,
    /// FirstBurstLength (RFC 7143 §13.14)
    pub first_burst_length: u32,
    /// DefaultTime2Wait (RFC 7143 §13.15)
    pub default_time2wait: u32,
    /// DefaultTime2Retain (RFC 7143 §13.16)
    pub default_time2retain: u32,
    /// MaxOutstandingR2T (RFC 7143 §13.17)
    pub max_outstanding_r2t: u32,
}

/// The least value of MaxRecvDataSegmentLength, in bytes (RFC 7143 §13.12).
pub(crate) const LEAST_SEGMENT: u32 = 512;

/// The greatest value of MaxRecvDataSegmentLength, in bytes (RFC 7143 §13.12).
pub(crate) const MOST_SEGMENT: u32 = 16_777_215;

impl Values {
    /// Returns the default values.
    pub(crate) fn new() -> Values
        ensures { result ≡ default_values }
    {
        Values {
            initial_r2t: true,
            immediate_data: true,
            max_recv_data_segment_length: 8192,
            max_burst_length: 262_144,
            first_burst_length: 65_536,
            default_time2wait: 2,
            default_time2retain: 20,
            max_outstanding_r2t: 1,
        }
    }

    /// Puts the result of a key that is Yes or No into force.
    fn with_boolean(self, key: &str, value: bool) -> Values
        ensures { result ≡ boolean_with key.now value self }
    {
        let mut values = self;
        if same(key, "InitialR2T") {
            values.initial_r2t = value;
        } else if same(key, "ImmediateData") {
            values.immediate_data = value;
        }
        values
    }

    /// Puts the result of a key that is a number into force.
    fn with_number(self, key: &str, value: u32) -> Values
        ensures { result ≡ number_with key.now value self }
    {
        let mut values = self;
        if same(key, "MaxBurstLength") {
            values.max_burst_length = value;
        } else if same(key, "FirstBurstLength") {
            values.first_burst_length = value;
        } else if same(key, "DefaultTime2Wait") {
            values.default_time2wait = value;
        } else if same(key, "DefaultTime2Retain") {
            values.default_time2retain = value;
        } else if same(key, "MaxOutstandingR2T") {
            values.max_outstanding_r2t = value;
        }
        values
    }

    /// Puts the declared value of a key into force.
    fn with_declared(self, key: &str, value: &str) -> Values
        ensures { result ≡ declared_with key.now value.now self }
    {
        if !same(key, "MaxRecvDataSegmentLength") {
            return self;
        }
        match number_in(value, LEAST_SEGMENT, MOST_SEGMENT) {
            Some(length) => Values {
                max_recv_data_segment_length: length,
                ..self
            },
            None => self,
        }
    }

    /// Returns the values after one more pair, whose offer has this result.
    #[tactic(auto, using(crate::proofs::Declared::pair_by_result))]
    pub(crate) fn with_pair(self, key: &str, value: &str, settled: KeyResult) -> Values
        requires { settled ≡ settled_of key.now value.now }
        ensures { result ≡ pair_with self (key.now, value.now) }
    {
        match settled {
            KeyResult::NoAnswer => self.with_declared(key, value),
            KeyResult::Boolean(value) => self.with_boolean(key, value),
            KeyResult::Number(value) => self.with_number(key, value),
            KeyResult::Word(_) => self,
        }
    }
}
