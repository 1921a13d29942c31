//! What the arguments of a command ask for.

ghost use Rattle.std.specs.Prelude.{◌≡◌, ◌≢◌, None, Ok, Some, Err, true, false, codes, IfOk, IfErr, IfSome, IsSomeAnd, OnOk, OnErr, option_map, if◌then◌else◌};
ghost use Rattle.std.specs.IoError.{error_kind};
ghost use Rattle.gtp_lines.specs.Named.{name_in as spec_name_in};
ghost use Rattle.gtp_lines.specs.User.{user_name as spec_user_name};
ghost use Rattle.gtp_values.specs.Address.{IsIpText, SomeIpText};
ghost use Rattle.gtp_values.specs.Imsi.{IsImsiText};
ghost use Rattle.gtp_values.specs.Teid.{IsTeidText};
ghost use Rattle.gtp_commands.specs.Flags.{plane_named, plane_of, dump_form, capture_form, replay_form, IsKindOf, IsTypeWord, type_base, IsTypeWritten, AreKinds, ChoosesKinds, IsPortNumber, SaysPort, SaysImsi, SaysTeid, is_set, SaysInterface, IsJudged, IsDumpAsked, IsFormAsked, replay_form_of, IsCaptureAsked};
ghost use Rattle.gtp_interfaces.specs.declared.interface.Interface.{Interface as AnyInterface};
ghost use Rattle.gtp_dump.specs.declared.decoding.Asked.{Asked as AnyDump};
ghost use Rattle.gtp_commands.specs.declared.capturing.CaptureForm.{CaptureForm as AnyForm};
ghost use Rattle.gtp_commands.specs.declared.capturing.CaptureAsked.{CaptureAsked as AnyCapture};
ghost use Rattle.gtp_lines.specs.declared.filter.Kinds.{Kinds as AnyKinds};
ghost use Rattle.clap.specs.Words.{first_value, found_of};

use crate::capturing::{CaptureAsked, CaptureForm, FramesAsked};
use crate::command::Failure;
use clap::ArgMatches;
use gtp_capture::Ports;
use gtp_dump::Asked;
use gtp_interfaces::Interface;
use gtp_json::Members;
use gtp_lines::{Filter, Form, Imsi, Ip, Kinds, Names, Plane, Teid, TypeOf, name_in, user_name};
use std::io::{self, ErrorKind};

/// The plane that is named.
fn plane_named(is_user: bool) -> Option<Plane>
    ensures { result ≡ plane_named is_user }
{
    if is_user { Some(Plane::User) } else { None }
}

/// The plane of a datagram.
pub fn plane_of(named: Option<Plane>) -> Plane
    ensures { result ≡ plane_of named }
{
    named.unwrap_or(Plane::Control)
}

/// In which form `decode` shows datagrams.
fn dump_form(
    names: Names,
    interface: Interface,
    is_json: bool,
    is_all: bool,
    places: bool,
) -> gtp_dump::Form
    ensures { result ≡ dump_form names interface is_json is_all places }
{
    match (is_json, is_all) {
        (true, true) => gtp_dump::Form::Json(Members::All {
            names,
            interface,
            places,
        }),
        (true, false) => gtp_dump::Form::Json(Members::Plain),
        (false, true) => gtp_dump::Form::All(names, interface),
        (false, false) => gtp_dump::Form::Lines,
    }
}

/// In which form `capture` shows them.
fn capture_form(
    names: Names,
    interface: Interface,
    is_json: bool,
    is_brief: bool,
    is_all: bool,
    places: bool,
) -> CaptureForm
    ensures { result ≡ capture_form names interface is_json is_brief is_all places }
{
    match (is_json, is_brief, is_all) {
        (true, _, true) => CaptureForm::Json(Members::All {
            names,
            interface,
            places,
        }),
        (true, _, false) => CaptureForm::Json(Members::Plain),
        (false, true, _) => CaptureForm::Text(Form::Brief(names)),
        (false, false, true) => CaptureForm::Text(Form::All(names, interface)),
        (false, false, false) => CaptureForm::Text(Form::Lines),
    }
}

/// What `replay` writes of a run.
fn replay_form(is_json: bool, is_pcap: bool, is_svg: bool, is_diagram: bool) -> gtp_replay::Form
    ensures { result ≡ replay_form is_json is_pcap is_svg is_diagram }
{
    match (is_json, is_pcap, is_svg, is_diagram) {
        (true, _, _, _) => gtp_replay::Form::Json,
        (false, true, _, _) => gtp_replay::Form::Capture,
        (false, false, true, _) => gtp_replay::Form::Svg,
        (false, false, false, true) => gtp_replay::Form::Diagram,
        (false, false, false, false) => gtp_replay::Form::Report,
    }
}

/// Whether a flag is set.
fn is_set(asked: &ArgMatches, name: &str) -> bool
    ensures { result ≡ is_set (first_value (found_of asked.now)) name.now }
{
    match asked.get_str(name) {
        Some(value) => value == "true",
        None => false,
    }
}

/// The interface of a word, S5/S8 without one: `BadInterface` for a word that names none.
fn interface_of(word: Option<&str>) -> Result<Interface, Failure>
    ensures some { IfOk result (SaysInterface (option_map (λ w. w.now) word.entry)) }
    ensures bad { IfErr result (λ failure. failure ≡ Failure.BadInterface) }
    ensures only { OnErr result ((interface : AnyInterface) →
        SaysInterface (option_map (λ w. w.now) word.entry) interface → ⊥) }
{
    match word {
        None | Some("s5s8") => Ok(Interface::S5S8),
        Some("s11") => Ok(Interface::S11),
        Some("any") => Ok(Interface::Any),
        Some(_) => Err(Failure::BadInterface),
    }
}

/// The interface of the arguments, S5/S8 without one: `BadInterface` for a word that names none, and for another one than S5/S8
/// where none judges.
fn interface_asked(asked: &ArgMatches, judges: bool) -> Result<Interface, Failure>
    ensures says { IfOk result (SaysInterface (first_value (found_of asked.now) (codes "interface"))) }
    ensures judged { IfOk result (IsJudged judges) }
    ensures bad { IfErr result (λ failure. failure ≡ Failure.BadInterface) }
    ensures only { OnErr result ((interface : AnyInterface) → IsJudged judges interface →
        SaysInterface (first_value (found_of asked.now) (codes "interface")) interface → ⊥) }
{
    let interface = interface_of(asked.get_str("interface"))?;
    match (interface, judges) {
        (Interface::S5S8, _) | (_, true) => Ok(interface),
        (_, false) => Err(Failure::BadInterface),
    }
}

/// What the arguments of `decode` ask for, by these names and forms: `BadInterface` where they name no interface by which it judges.
pub fn dump_asked(names: Names, asked: &ArgMatches) -> Result<Asked, Failure>
    ensures asked { IfOk result (IsDumpAsked names (first_value (found_of asked.now))) }
    ensures bad { IfErr result (λ failure. failure ≡ Failure.BadInterface) }
    ensures only { OnErr result ((dump : AnyDump) → IsDumpAsked names (first_value (found_of asked.now)) dump → ⊥) }
{
    let is_all = is_set(asked, "all");
    let interface = interface_asked(asked, is_all)?;
    Ok(Asked {
        plane: plane_named(is_set(asked, "user")),
        form: dump_form(
            names,
            interface,
            is_set(asked, "json"),
            is_all,
            is_set(asked, "places"),
        ),
        join: is_set(asked, "join"),
    })
}

/// In which form those of `capture` ask for datagrams.
fn capture_form_asked(names: Names, asked: &ArgMatches) -> Result<CaptureForm, Failure>
    ensures asked { IfOk result (IsFormAsked names (first_value (found_of asked.now))) }
    ensures bad { IfErr result (λ failure. failure ≡ Failure.BadInterface) }
    ensures only { OnErr result ((form : AnyForm) → IsFormAsked names (first_value (found_of asked.now)) form → ⊥) }
{
    let is_json = is_set(asked, "json");
    let is_brief = is_set(asked, "brief");
    let is_all = is_set(asked, "all");
    let interface = interface_asked(asked, is_all && (is_json || !is_brief))?;
    Ok(capture_form(
        names,
        interface,
        is_json,
        is_brief,
        is_all,
        is_set(asked, "places"),
    ))
}

/// In which form those of `replay` ask for a run.
pub fn replay_form_asked(asked: &ArgMatches) -> gtp_replay::Form
    ensures { result ≡ replay_form_of (first_value (found_of asked.now)) }
{
    replay_form(
        is_set(asked, "json"),
        is_set(asked, "pcap"),
        is_set(asked, "svg"),
        is_set(asked, "diagram"),
    )
}

/// What the arguments of `capture` ask for, by these names and forms: `BadFilter`, `BadPort` and `BadInterface` for words that say nothing of their kind.
pub fn capture_asked(names: Names, asked: &ArgMatches) -> Result<CaptureAsked, Failure>
    ensures asked { IfOk result (IsCaptureAsked names (first_value (found_of asked.now))) }
    ensures only { OnErr result ((capture : AnyCapture) → IsCaptureAsked names (first_value (found_of asked.now)) capture → ⊥) }
{
    let filter = Filter {
        kinds: kinds_of(&names, asked.get_str("type"))?,
        imsi: imsi_of(asked.get_str("imsi"))?,
        teid: teid_of(asked.get_str("teid"))?,
        address: address_of(asked.get_str("address"))?,
    };
    let ports = Ports {
        control: port_of(asked.get_str("control-port"))?,
        user: port_of(asked.get_str("user-port"))?,
    };
    let frames = FramesAsked {
        form: capture_form_asked(names, asked)?,
        filter,
        only_faults: is_set(asked, "faults"),
    };
    Ok(CaptureAsked { frames, ports })
}

/// The port of a word, where there is one: `BadPort` for what is no number from 0 to 65,535.
fn port_of(word: Option<&str>) -> Result<Option<u16>, Failure>
    ensures none { word.entry ≡ None → result ≡ Ok None }
    ensures some { IfSome word.entry (λ w. IfOk result (λ port. IsSomeAnd port (SaysPort w.now))) }
    ensures bad { IfErr result (λ failure. failure ≡ Failure.BadPort) }
    ensures only { OnErr result (IfSome word.entry (λ w. ¬ IsPortNumber w.now)) }
{
    match word {
        Some(word) => match word.parse::<u16>() {
            Ok(port) => Ok(Some(port)),
            Err(_) => Err(Failure::BadPort),
        },
        None => Ok(None),
    }
}

/// Whether the name, where there is one, is the word.
fn is_called(name: Option<&str>, word: &str) -> bool
    ensures yes { result ≡ true → option_map (λ name. name.now) name.entry ≡ Some word.now }
    ensures no { result ≡ false → option_map (λ name. name.now) name.entry ≢ Some word.now }
{
    match name {
        Some(name) => name == word,
        None => false,
    }
}

/// The type of a message of the control plane that is called so.
fn control_kind(names: &Names, word: &str) -> Option<u8>
    ensures { IsKindOf (spec_name_in names.now) word.now result }
{
    for kind in 0..=u8::MAX {
        if is_called(name_in(names, kind), word) {
            return Some(kind);
        }
    }
    None
}

/// The same of the user plane.
fn user_kind(word: &str) -> Option<u8>
    ensures { IsKindOf spec_user_name word.now result }
{
    for kind in 0..=u8::MAX {
        if is_called(user_name(kind), word) {
            return Some(kind);
        }
    }
    None
}

/// The types of messages of a number or a name.
fn kinds_called(names: &Names, word: &str) -> Kinds
    ensures { AreKinds names.now word.now result }
{
    match word.parse::<u8>() {
        Ok(kind) => Kinds {
            control: Some(kind),
            user: Some(kind),
        },
        Err(_) => Kinds {
            control: control_kind(names, word),
            user: user_kind(word),
        },
    }
}

/// The types of messages that a word asks for, where there is one: `BadFilter` where no message is called so.
pub fn kinds_of(names: &Names, word: Option<&str>) -> Result<Option<Kinds>, Failure>
    ensures none { word.entry ≡ None → result ≡ Ok None }
    ensures some { IfSome word.entry (λ w. IfOk result (λ kinds. IsSomeAnd kinds (ChoosesKinds names.now w.now))) }
    ensures bad { IfErr result (λ failure. failure ≡ Failure.BadFilter) }
    ensures only { OnErr result (IfSome word.entry (λ w. (kinds : AnyKinds) → ¬ ChoosesKinds names.now w.now kinds)) }
{
    let Some(word) = word else {
        return Ok(None);
    };
    match kinds_called(names, word) {
        Kinds {
            control: None,
            user: None,
        } => Err(Failure::BadFilter),
        kinds => Ok(Some(kinds)),
    }
}

/// The subscriber of a word, where there is one: `BadFilter` for what is not 6 to 15 decimal digits.
pub fn imsi_of(word: Option<&str>) -> Result<Option<Imsi>, Failure>
    ensures none { word.entry ≡ None → result ≡ Ok None }
    ensures some { IfSome word.entry (λ w. IfOk result (λ imsi. IsSomeAnd imsi (SaysImsi w.now))) }
    ensures bad { IfErr result (λ failure. failure ≡ Failure.BadFilter) }
    ensures only { OnErr result (IfSome word.entry (λ w. ¬ IsImsiText w.now)) }
{
    match word {
        Some(word) => match Imsi::from_text(word) {
            Ok(imsi) => Ok(Some(imsi)),
            Err(_) => Err(Failure::BadFilter),
        },
        None => Ok(None),
    }
}

/// The TEID of a word, where there is one: `BadFilter` for what is not eight hexadecimal digits.
pub fn teid_of(word: Option<&str>) -> Result<Option<Teid>, Failure>
    ensures none { word.entry ≡ None → result ≡ Ok None }
    ensures some { IfSome word.entry (λ w. IfOk result (λ teid. IsSomeAnd teid (SaysTeid w.now))) }
    ensures bad { IfErr result (λ failure. failure ≡ Failure.BadFilter) }
    ensures only { OnErr result (IfSome word.entry (λ w. ¬ IsTeidText w.now)) }
{
    match word {
        Some(word) => match Teid::from_text(word) {
            Ok(teid) => Ok(Some(teid)),
            Err(_) => Err(Failure::BadFilter),
        },
        None => Ok(None),
    }
}

/// The address of a word, where there is one: `BadFilter` for what is neither dotted decimal nor 32 hexadecimal digits.
fn address_of(word: Option<&str>) -> Result<Option<Ip>, Failure>
    ensures none { word.entry ≡ None → result ≡ Ok None }
    ensures some { IfSome word.entry (λ w. IfOk result (λ address. IsSomeAnd address (IsIpText w.now))) }
    ensures bad { IfErr result (λ failure. failure ≡ Failure.BadFilter) }
    ensures only { OnErr result (IfSome word.entry (λ w. ¬ SomeIpText w.now)) }
{
    match word {
        Some(word) => match Ip::from_text(word) {
            Ok(address) => Ok(Some(address)),
            Err(_) => Err(Failure::BadFilter),
        },
        None => Ok(None),
    }
}

/// What has types, by its word; none where the word is another.
pub fn type_of_word(word: &str) -> Option<TypeOf>
    ensures { IsTypeWord word.now result }
{
    match word {
        "element" => Some(TypeOf::Element),
        "message" => Some(TypeOf::Message),
        "extension" => Some(TypeOf::ExtensionHeader),
        _ => None,
    }
}

/// The base in which a type is written: 16 for extension headers, and else 10.
fn type_base(what: TypeOf) -> u32
    ensures { result ≡ type_base what }
{
    match what {
        TypeOf::ExtensionHeader => 16,
        TypeOf::Element | TypeOf::Message => 10,
    }
}

/// The type that a word writes; none where it writes no number from 0 to 255.
pub fn type_written(what: TypeOf, word: &str) -> Option<u8>
    ensures { IsTypeWritten what word.now result }
{
    u8::from_str_radix(word, type_base(what)).ok()
}

/// The error for arguments that cannot be read.
pub fn unread_words(error: io::Error) -> Failure
    ensures words { error_kind error ≡ ErrorKind.InvalidData → result ≡ Failure.BadWords }
    ensures memory { error_kind error ≢ ErrorKind.InvalidData → result ≡ Failure.Memory }
{
    match error.kind() {
        ErrorKind::InvalidData => Failure::BadWords,
        _ => Failure::Memory,
    }
}

/// The exit status after help, or what is wrong with the words, was printed.
pub fn status_printed(printed: io::Result<()>, is_wrong: bool) -> Result<u8, Failure>
    ensures printed { OnOk printed (result ≡ Ok (if is_wrong then 2 else 0)) }
    ensures unprinted { OnErr printed (result ≡ Err Failure.Write) }
{
    match printed {
        Ok(()) => Ok(if is_wrong { 2 } else { 0 }),
        Err(_) => Err(Failure::Write),
    }
}
