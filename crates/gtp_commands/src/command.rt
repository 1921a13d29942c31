//! The command line.

ghost use Rattle.std.specs.Prelude.{◌≡◌, false, IfOk, Some};
ghost use Rattle.clap.specs.Words.{app_of, rule_of, with_rule};
ghost use Rattle.clap.specs.declared.builder.command.Command.TheViews.{out-Command as fields_of};
ghost use Rattle.gtp_commands.specs.Status.{status_of, failure_by, failure_text};
ghost use Rattle.gtp_commands.specs.Words.{flag_word, option_word, plain_word, with_form_words, with_filter_words, with_port_words, decode_words, capture_words, replay_words, gateway_words, node_words, explain_words, program_words};

use clap::{Arg, ArgAction, Command};
use gtp_replay::ReplayFault;
use std::alloc::{AllocError, Global};
use std::error::Error;
use std::fmt;

const VERSION: &str = "0.1.0";

const NOTES: &str = "\
Examples:
  gtpshow decode 40010009000001000300010007
  gtpshow capture --brief examples/captures/attach.pcap
  gtpshow replay examples/scenarios/attach.json
  gtpshow explain CODE

A datagram is judged by the rules of the interface S5/S8 (3GPP TS 29.274), or by those of --interface.
Exit status: 0 as expected, 1 a fault or another outcome, 2 bad words or input, 3 no memory or a failed read or write";

const SCENARIO: &str = "\
A scenario:
  {\"serving\": {\"control\": \"10.0.0.1\", \"user\": \"10.0.0.1\", \"counter\": 1},
   \"packet\": {\"control\": \"10.0.0.2\", \"user\": \"10.0.0.2\", \"counter\": 1,
    \"apns\": [\"internet\"], \"pool\": \"10.1.0.1\", \"count\": 10},
   \"events\": [
    {\"do\": \"create_session\", \"imsi\": \"001010123456789\", \"apn\": \"internet\", \"ebi\": 5},
    {\"do\": \"deliver\"},
    {\"do\": \"deliver\", \"expect\": \"opened\"}]}

FORMATS.md (docs, or share/doc/gtpshow where it is installed) lists all events, and explains the report";

const GATEWAY: &str = "\
Lines:
  {\"role\":\"serving\",\"control\":\"127.0.0.2\",\"user\":\"127.0.0.2\",
   \"peer\":{\"control\":\"127.0.0.3\",\"user\":\"127.0.0.3\"},\"counter\":1}     first, and on one line
  {\"do\":\"create_session\",\"imsi\":\"001010123456789\",\"apn\":\"internet\",\"ebi\":5}
  {\"do\":\"receive\",\"plane\":\"control\",\"from\":{\"address\":\"127.0.0.3\",\"port\":2123},\"octets\":\"..\"}
  {\"do\":\"tick\"}

FORMATS.md (docs, or share/doc/gtpshow where it is installed) lists all lines and answers; examples/bridge
beside it joins UDP sockets to it";

const NODE: &str = "\
Lines:
  {\"role\":\"packet\",\"control\":\"127.0.0.3\",\"user\":\"127.0.0.3\",\"counter\":1,
   \"apns\":[\"internet\"],\"pool\":\"10.1.0.1\",\"count\":100,
   \"peers\":[{\"control\":\"127.0.0.2\",\"user\":\"127.0.0.2\"}]}               first, and on one line
  {\"do\":\"receive\",\"plane\":\"control\",\"from\":{\"address\":\"127.0.0.2\",\"port\":2123},\"octets\":\"..\"}
  {\"peer\":0,\"line\":{\"do\":\"tick\"}}                                   a line of 'gateway' for a peer
  {\"do\":\"add\",\"peer\":{\"control\":\"127.0.0.4\",\"user\":\"127.0.0.4\"}}

FORMATS.md (docs, or share/doc/gtpshow where it is installed) lists all lines and answers; examples/bridge
beside it joins UDP sockets to it";

const TYPES: &str = "\
Types:
  gtpshow explain element 86      an element of GTPv2-C (TS 29.274), from 0 to 255
  gtpshow explain message 170     a message of GTPv2-C, from 0 to 255
  gtpshow explain extension 85    an extension header of GTP-U (TS 29.281), two hexadecimal digits";

/// An option without a value.
fn flag<'a>(alloc: Global, name: &'a str, help: &'a str) -> Arg<'a>
    ensures rule { rule_of result ≡ flag_word name.entry.now }
    ensures own { result.global ≡ false }
{
    Arg::new(alloc, name)
        .long(name)
        .action(ArgAction::SetTrue)
        .help(help)
}

/// An option with a value.
fn option<'a>(alloc: Global, name: &'a str, value: &'a str, help: &'a str) -> Arg<'a>
    ensures rule { rule_of result ≡ option_word name.entry.now }
    ensures own { result.global ≡ false }
{
    Arg::new(alloc, name)
        .long(name)
        .value_name(value)
        .help(help)
}

/// A word.
fn word<'a>(alloc: Global, name: &'a str, value: &'a str, help: &'a str) -> Arg<'a>
    ensures rule { rule_of result ≡ plain_word name.entry.now }
    ensures own { result.global ≡ false }
{
    Arg::new(alloc, name).value_name(value).help(help)
}

/// A command that takes this argument too.
fn taking<'a>(command: Command<'a>, arg: Arg<'a>) -> Result<Command<'a>, AllocError>
    requires command { (fields_of command).has_globals ≡ false }
    requires arg { arg.global ≡ false }
    ensures words { IfOk result (λ r. app_of r ≡ with_rule (app_of command.entry) (rule_of arg.entry)) }
    ensures own { IfOk result (λ r. (fields_of r).has_globals ≡ false) }
{
    command.arg(arg)
}

/// A command that takes the options for further forms of a datagram too.
fn with_forms<'a>(alloc: Global, command: Command<'a>) -> Result<Command<'a>, AllocError>
    requires command { (fields_of command).has_globals ≡ false }
    ensures words { IfOk result (λ r. app_of r ≡ with_form_words (app_of command.entry)) }
    ensures own { IfOk result (λ r. (fields_of r).has_globals ≡ false) }
{
    let command = taking(
        command,
        flag(
            alloc,
            "all",
            "Shows each element that is whole also of a datagram at fault",
        ),
    )?;
    let command = taking(
        command,
        flag(
            alloc,
            "json",
            "Shows a JSON object a line for each datagram",
        ),
    )?;
    let command = taking(
        command,
        flag(
            alloc,
            "places",
            "With --all --json: the octets of a datagram, and where each element stands",
        ),
    )?;
    taking(
        command,
        option(
            alloc,
            "interface",
            "NAME",
            "With --all: judges by this interface: s5s8 (the default), s11, or any: by headers and lengths alone",
        ),
    )
}

/// The arguments of `decode`.
fn decode_command<'a>(alloc: Global) -> Result<Command<'a>, AllocError>
    ensures words { IfOk result (λ command. app_of command ≡ decode_words) }
    ensures own { IfOk result (λ command. (fields_of command).has_globals ≡ false) }
{
    let octets = word(
        alloc,
        "octets",
        "HEX",
        "The octets of the datagram in hexadecimal; - for standard input, a datagram a line",
    )
    .required(true);
    let command = Command::new(alloc, "decode").about("Shows one datagram, or its first fault");
    let command = taking(
        command,
        flag(alloc, "user", "The datagram is of the user plane (GTP-U)"),
    )?;
    let command = with_forms(alloc, command)?;
    let command = taking(
        command,
        flag(
            alloc,
            "join",
            "Joins lines of plain hexadecimal, up to a line without digits",
        ),
    )?;
    taking(command, octets)
}

/// A command that takes further ports too.
fn with_ports<'a>(alloc: Global, command: Command<'a>) -> Result<Command<'a>, AllocError>
    requires command { (fields_of command).has_globals ≡ false }
    ensures words { IfOk result (λ r. app_of r ≡ with_port_words (app_of command.entry)) }
    ensures own { IfOk result (λ r. (fields_of r).has_globals ≡ false) }
{
    let command = taking(
        command,
        option(
            alloc,
            "control-port",
            "PORT",
            "A port of control datagrams beside 2123",
        ),
    )?;
    taking(
        command,
        option(
            alloc,
            "user-port",
            "PORT",
            "A port of user datagrams beside 2152",
        ),
    )
}

/// A command that takes what chooses datagrams too.
fn with_filters<'a>(alloc: Global, command: Command<'a>) -> Result<Command<'a>, AllocError>
    requires command { (fields_of command).has_globals ≡ false }
    ensures words { IfOk result (λ r. app_of r ≡ with_filter_words (app_of command.entry)) }
    ensures own { IfOk result (λ r. (fields_of r).has_globals ≡ false) }
{
    let command = taking(
        command,
        flag(alloc, "faults", "Shows only datagrams at fault"),
    )?;
    let command = taking(
        command,
        option(
            alloc,
            "type",
            "NAME",
            "Shows only messages of this type, as create-session-request or 32",
        ),
    )?;
    let command = taking(
        command,
        option(
            alloc,
            "imsi",
            "DIGITS",
            "Shows only messages that tell this subscriber",
        ),
    )?;
    let command = taking(
        command,
        option(
            alloc,
            "teid",
            "HEX",
            "Shows only messages with this TEID, in the header or in an F-TEID",
        ),
    )?;
    taking(
        command,
        option(
            alloc,
            "address",
            "ADDRESS",
            "Shows only datagrams from or to this address",
        ),
    )
}

/// The arguments of `capture`.
fn capture_command<'a>(alloc: Global) -> Result<Command<'a>, AllocError>
    ensures words { IfOk result (λ command. app_of command ≡ capture_words) }
    ensures own { IfOk result (λ command. (fields_of command).has_globals ≡ false) }
{
    let command = Command::new(alloc, "capture").about(
        "Shows the GTP datagrams of a packet capture",
    );
    let command = taking(command, flag(alloc, "brief", "Shows one line a datagram"))?;
    let command = with_forms(alloc, command)?;
    let command = with_filters(alloc, command)?;
    let command = with_ports(alloc, command)?;
    taking(
        command,
        word(
            alloc,
            "file",
            "FILE",
            "The capture (pcap or pcapng); standard input for - or no word",
        ),
    )
}

/// The arguments of `replay`.
fn replay_command<'a>(alloc: Global) -> Result<Command<'a>, AllocError>
    ensures words { IfOk result (λ command. app_of command ≡ replay_words) }
    ensures own { IfOk result (λ command. (fields_of command).has_globals ≡ false) }
{
    let command = Command::new(alloc, "replay")
        .about("Runs a scenario between two gateways, and reports what comes of it")
        .after_help(SCENARIO);
    let command = taking(
        command,
        flag(
            alloc,
            "diagram",
            "Draws the run as a sequence diagram, in place of the report",
        ),
    )?;
    let command = taking(
        command,
        flag(alloc, "svg", "Draws the same diagram as a picture (SVG)"),
    )?;
    let command = taking(
        command,
        flag(
            alloc,
            "pcap",
            "Writes the datagrams of the run as a packet capture, in place of the report",
        ),
    )?;
    let command = taking(
        command,
        flag(
            alloc,
            "json",
            "Writes a JSON object a line for each event, in place of the report",
        ),
    )?;
    taking(
        command,
        word(
            alloc,
            "file",
            "FILE",
            "The scenario, in JSON; standard input for - or no word",
        ),
    )
}

/// The arguments of `gateway`: none.
fn gateway_command<'a>(alloc: Global) -> Command<'a>
    ensures words { app_of result ≡ gateway_words }
    ensures own { (fields_of result).has_globals ≡ false }
{
    Command::new(alloc, "gateway")
        .about("Runs one gateway: answers each line of JSON on standard input with a line of JSON")
        .after_help(GATEWAY)
}

/// The arguments of `node`: none.
fn node_command<'a>(alloc: Global) -> Command<'a>
    ensures words { app_of result ≡ node_words }
    ensures own { (fields_of result).has_globals ≡ false }
{
    Command::new(alloc, "node")
        .about("Runs a gateway for each of many peers, behind lines of JSON")
        .after_help(NODE)
}

/// The arguments of `explain`.
fn explain_command<'a>(alloc: Global) -> Result<Command<'a>, AllocError>
    ensures words { IfOk result (λ command. app_of command ≡ explain_words) }
    ensures own { IfOk result (λ command. (fields_of command).has_globals ≡ false) }
{
    let command = Command::new(alloc, "explain")
        .about("Says what a code, a cause or a type means")
        .after_help(TYPES);
    let command = taking(
        command,
        word(
            alloc,
            "code",
            "CODE",
            "A code, as H6, X3 or S1, the number of a cause, or the word cause; all without a word",
        ),
    )?;
    taking(
        command,
        word(
            alloc,
            "type",
            "TYPE",
            "The type, after one of the words element, message and extension",
        ),
    )
}

/// The arguments of the program.
pub fn command<'a>(alloc: Global) -> Result<Command<'a>, AllocError>
    ensures { IfOk result (λ command. app_of command ≡ program_words) }
{
    Command::new(alloc, "gtpshow")
        .about(
            "Shows GTP datagrams, replays scenarios of two gateways, runs gateways, and explains codes",
        )
        .version(VERSION)
        .after_help(NOTES)
        .subcommand_required(true)
        .subcommand(decode_command(alloc)?)?
        .subcommand(capture_command(alloc)?)?
        .subcommand(replay_command(alloc)?)?
        .subcommand(gateway_command(alloc))?
        .subcommand(node_command(alloc))?
        .subcommand(explain_command(alloc)?)
}

/// Why nothing was shown or replayed.
#[derive(Clone, Copy, Debug, PartialEq, Eq)]
pub enum Failure {
    /// An argument is not UTF-8.
    BadWords,
    /// The word for a port is no number from 0 to 65,535.
    BadPort,
    /// The word for an interface is none, or one by which nothing is judged here.
    BadInterface,
    /// A word says no type of message, IMSI, TEID or address.
    BadFilter,
    /// The octets of a datagram are not hexadecimal digits, or their number is odd.
    BadHex,
    /// No code is called so.
    BadCode,
    /// The first line says no gateway.
    BadGateway,
    /// The first line says no node.
    BadNode,
    /// A file is no capture.
    BadCapture,
    /// From this octet of a capture on, counted from 0, no record stands.
    BrokenCapture { at: u64 },
    /// An allocation was refused.
    Memory,
    /// A read failed, or a file could not be opened.
    Read,
    /// A file has 2^64 - 1 octets or more. The words for it are those of a failed read.
    TooLong,
    /// A write failed.
    Write,
    /// A write found the output closed by whoever read it.
    Closed,
    /// A capture of a run is wanted, and no packet carries the datagram with this number.
    NoPacket { number: usize },
}

impl Failure {
    /// The exit status: 2 for bad arguments; 3 if memory, a read or a write failed, or a run has no capture.
    pub fn status(self) -> u8
        ensures { result ≡ status_of self }
    {
        match self {
            Failure::BadWords
            | Failure::BadPort
            | Failure::BadInterface
            | Failure::BadFilter
            | Failure::BadHex
            | Failure::BadCode
            | Failure::BadGateway
            | Failure::BadNode
            | Failure::BadCapture
            | Failure::BrokenCapture { .. } => 2,
            Failure::Memory
            | Failure::Read
            | Failure::TooLong
            | Failure::Write
            | Failure::Closed
            | Failure::NoPacket { .. } => 3,
        }
    }
}

impl From<ReplayFault> for Failure {
    ghost from_gives = { λ fault failure. failure ≡ failure_by fault };

    fn from(fault: ReplayFault) -> Failure {
        match fault {
            ReplayFault::Memory => Failure::Memory,
            ReplayFault::Read => Failure::Read,
            ReplayFault::Write => Failure::Write,
            ReplayFault::NoPacket { number } => Failure::NoPacket { number },
        }
    }
}

impl fmt::Display for Failure {
    ghost output = { λ failure. Some (failure_text failure) };

    fn fmt<W: fmt::Write>(&self, f: &mut fmt::Formatter<W>) -> fmt::Result {
        match self {
            Failure::BadWords => write!(f, "bad words: an argument is not UTF-8"),
            Failure::BadPort => write!(f, "bad port: a number from 0 to 65535 is wanted"),
            Failure::BadInterface => {
                write!(
                    f,
                    "bad interface: s5s8 is wanted, or s11 or any with --all and without --brief"
                )
            }
            Failure::BadFilter => write!(f, "bad filter"),
            Failure::BadHex => write!(f, "bad hex"),
            Failure::BadCode => write!(f, "bad code"),
            Failure::BadGateway => write!(f, "bad gateway head"),
            Failure::BadNode => write!(f, "bad node head"),
            Failure::BadCapture => write!(f, "bad capture"),
            Failure::BrokenCapture { at } => write!(f, "bad capture at {at}"),
            Failure::Memory => write!(f, "no memory"),
            Failure::Read | Failure::TooLong => write!(f, "read failed"),
            Failure::Write => write!(f, "write failed"),
            Failure::Closed => write!(f, "closed"),
            Failure::NoPacket { number } => write!(f, "no packet for datagram {number}"),
        }
    }
}

impl Error for Failure {}
