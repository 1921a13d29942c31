//! The numbers of the types of elements (TS 29.274 table 8.1-1).

/// International mobile subscriber identity.
pub const IMSI: u8 = 1;

/// Cause.
pub const CAUSE: u8 = 2;

/// Recovery.
pub const RECOVERY: u8 = 3;

/// Access point name.
pub const APN: u8 = 71;

/// Aggregate maximum bit rate.
pub const AMBR: u8 = 72;

/// EPS bearer identity.
pub const EBI: u8 = 73;

/// PDN address allocation.
pub const PAA: u8 = 79;

/// Bearer quality of service.
pub const QOS: u8 = 80;

/// Radio access technology type.
pub const RAT: u8 = 82;

/// Serving network.
pub const PLMN: u8 = 83;

/// Bearer traffic flow template.
pub const TFT: u8 = 84;

/// Fully qualified tunnel endpoint identifier.
pub const FTEID: u8 = 87;

/// Bearer context, a group.
pub const BEARER_CONTEXT: u8 = 93;

/// Charging identifier.
pub const CHARGING_ID: u8 = 94;

/// PDN type.
pub const PDN_TYPE: u8 = 99;

/// Procedure transaction identity.
pub const PTI: u8 = 100;

/// Selection mode.
pub const SELECTION: u8 = 128;
