//! The types of elements whose bodies are read (TS 29.274 table 8.1-1).

ghost use Rattle.std.specs.Prelude.{◌≡◌};
ghost use Rattle.gtp_ie.specs.Form.{number_of, name_of, form_of};

use crate::kinds::{
    AMBR, APN, CAUSE, CHARGING_ID, EBI, FTEID, IMSI, PAA, PDN_TYPE, PLMN, PTI, QOS, RAT, RECOVERY,
    SELECTION, TFT,
};

/// A type of element that has a form: what its body says is read.
#[derive(Clone, Copy, Debug, PartialEq, Eq)]
pub enum Form {
    /// International mobile subscriber identity (8.3).
    Imsi,
    /// Cause (8.4).
    Cause,
    /// Recovery, the restart counter (8.5).
    Recovery,
    /// Access point name (8.6).
    Apn,
    /// Aggregate maximum bit rate (8.7).
    Ambr,
    /// EPS bearer identity (8.8).
    Ebi,
    /// PDN address allocation (8.14).
    Paa,
    /// Bearer quality of service (8.15).
    Qos,
    /// Radio access technology type (8.17).
    Rat,
    /// Serving network (8.18).
    Plmn,
    /// Bearer traffic flow template (8.19).
    Tft,
    /// Fully qualified tunnel endpoint identifier (8.22).
    FTeid,
    /// Charging identifier (8.29).
    ChargingId,
    /// PDN type (8.34).
    PdnType,
    /// Procedure transaction identity (8.35).
    Pti,
    /// Selection mode (8.58).
    Selection,
}

impl Form {
    /// The form of a type of element, where it has one.
    pub fn of(kind: u8) -> Option<Form>
        ensures { result ≡ form_of kind }
    {
        match kind {
            IMSI => Some(Form::Imsi),
            CAUSE => Some(Form::Cause),
            RECOVERY => Some(Form::Recovery),
            APN => Some(Form::Apn),
            AMBR => Some(Form::Ambr),
            EBI => Some(Form::Ebi),
            PAA => Some(Form::Paa),
            QOS => Some(Form::Qos),
            RAT => Some(Form::Rat),
            PLMN => Some(Form::Plmn),
            TFT => Some(Form::Tft),
            FTEID => Some(Form::FTeid),
            CHARGING_ID => Some(Form::ChargingId),
            PDN_TYPE => Some(Form::PdnType),
            PTI => Some(Form::Pti),
            SELECTION => Some(Form::Selection),
            _ => None,
        }
    }

    /// The number of the type.
    pub fn number(&self) -> u8
        ensures { result ≡ number_of self.now }
    {
        match self {
            Form::Imsi => IMSI,
            Form::Cause => CAUSE,
            Form::Recovery => RECOVERY,
            Form::Apn => APN,
            Form::Ambr => AMBR,
            Form::Ebi => EBI,
            Form::Paa => PAA,
            Form::Qos => QOS,
            Form::Rat => RAT,
            Form::Plmn => PLMN,
            Form::Tft => TFT,
            Form::FTeid => FTEID,
            Form::ChargingId => CHARGING_ID,
            Form::PdnType => PDN_TYPE,
            Form::Pti => PTI,
            Form::Selection => SELECTION,
        }
    }

    /// Its name, in lower case and with hyphens.
    pub fn name(&self) -> &'static str
        ensures { result.now ≡ name_of self.now }
    {
        match self {
            Form::Imsi => "imsi",
            Form::Cause => "cause",
            Form::Recovery => "recovery",
            Form::Apn => "apn",
            Form::Ambr => "ambr",
            Form::Ebi => "ebi",
            Form::Paa => "paa",
            Form::Qos => "qos",
            Form::Rat => "rat",
            Form::Plmn => "serving-network",
            Form::Tft => "tft",
            Form::FTeid => "fteid",
            Form::ChargingId => "charging-id",
            Form::PdnType => "pdn-type",
            Form::Pti => "pti",
            Form::Selection => "selection",
        }
    }
}
