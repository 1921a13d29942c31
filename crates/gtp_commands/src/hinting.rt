//! What standard error says after the first line of a failure: the word or the file, and the reason.

use crate::command::{Failure, command};
use crate::flags::{imsi_of, kinds_of, teid_of, type_of_word, type_written};
use crate::watched_readers::Watched;
use clap::ArgMatches;
use gtp_capture::begins_as_capture;
use gtp_dump::{
    Flaw, Hint, LineFault, begins_dump, count_elsewhere, flaw_of, hint_of, read_line, row_digits,
};
use gtp_lines::{Plane, TypeOf, decode_lines, fault_context};
use gtp_names::all_names;
use gtp_scenario::{
    Fault, Items, Role, Tree, access_points_at, address_of, as_list, counter_at, has_only, ipv6_of,
    json_flaw, json_of, pools_at, reason_of, role_of, switches_at, text_at, timers_at, value_at,
};
use gtp_serve::{MOST_OCTETS, head_reason};
use gtp_v2::view;
use json::Scratch;
use std::alloc::Global;
use std::rt::{Env, Files};
use std::{env, fs, io};

/// Says which character of a word is no hexadecimal digit. Places count from 0, by octets.
fn hint_of_character<R: Eprint>(rt: &R, place: usize, c: char) -> io::Result<()> {
    eprintln!(rt; "gtpshow: the character {c} at place {place} of the word is no hexadecimal digit")
}

/// Says why a word is no hexadecimal.
fn hint_of_digits<R: Eprint>(rt: &R, word: &str) -> io::Result<()> {
    for (place, c) in word.char_indices() {
        if c.is_ascii_hexdigit() {
            continue;
        }
        if c.is_ascii_whitespace() || c == ':' || c == ',' {
            return eprintln!(rt;
                "gtpshow: 'decode -' reads octets with blanks, colons or commas between them, from standard input"
            );
        }
        return hint_of_character(rt, place, c);
    }
    eprintln!(rt; "gtpshow: the word has an odd number of digits")
}

/// The same of a word that is read as a line of a dump.
fn hint_of_line<R: Eprint>(rt: &R, alloc: Global, word: &str) -> io::Result<()> {
    match read_line(alloc, None, word.as_bytes()) {
        Ok(None) => eprintln!(rt; "gtpshow: the word has no digits"),
        Err(LineFault::BadHex) => match flaw_of(word.as_bytes()) {
            Flaw::Character { place, .. } => {
                let c = word.get(place..).and_then(|rest| rest.chars().next());
                hint_of_character(rt, place, c.unwrap_or('?'))
            }
            Flaw::Odd => eprintln!(rt; "gtpshow: the word has an odd number of digits"),
            Flaw::TooLong => eprintln!(rt; "gtpshow: the word has more than 1048576 octets"),
        },
        _ => Ok(()),
    }
}

/// Says why the word of `decode` is no hexadecimal, or that it names a file.
fn hint_of_hex<R: Eprint + Files>(rt: &R, alloc: Global, asked: &ArgMatches) -> io::Result<()> {
    let word = asked.get_str("octets").unwrap_or("");
    if let Ok(about) = fs::metadata(rt, word) {
        if about.is_dir() {
            return eprintln!(rt; "gtpshow: {word} is a folder");
        }
        return eprintln!(rt;
            "gtpshow: {word} is a file: 'decode -' reads datagrams from standard input, 'capture' a capture"
        );
    }
    if asked.get_flag("all") || asked.get_flag("json") {
        return hint_of_line(rt, alloc, word);
    }
    hint_of_digits(rt, word)
}

/// Says that the octets of a datagram are one word, where they came as several.
pub fn hint_of_words<R: Eprint>(rt: &R, words: &[String]) -> io::Result<()> {
    let mut octets = 0u8;
    for (place, word) in words.iter().enumerate() {
        if place == 1 && word.as_str() != "decode" {
            return Ok(());
        }
        if place > 1 && !word.starts_with("-") {
            octets = octets.saturating_add(1);
        }
    }
    if octets < 2 {
        return Ok(());
    }
    eprintln!(rt;
        "gtpshow: 'decode' takes the octets in one word, or on standard input for -, a datagram a line"
    )
}

/// Whether octets begin as a file does that gzip compressed.
fn begins_as_compressed(octets: &[u8]) -> bool {
    octets.starts_with(&[0x1f, 0x8b])
}

/// Says what standard input is in place of datagrams in hexadecimal, where it begins as a capture or a compressed file does.
pub fn hint_of_dump<R: Eprint>(rt: &R, first: &[u8]) -> io::Result<()> {
    if begins_as_capture(first) {
        return eprintln!(rt; "gtpshow: standard input is a capture: 'capture' shows it");
    }
    if begins_as_compressed(first) {
        return eprintln!(rt;
            "gtpshow: standard input is compressed: 'zcat FILE | gtpshow capture -' shows a compressed capture"
        );
    }
    Ok(())
}

/// Says what the first row of a dump is in place of the beginning of a datagram.
fn hint_of_row<R: Eprint>(rt: &R, alloc: Global, row: &[u8]) -> io::Result<()> {
    let Ok(digits) = row_digits(alloc, row) else {
        return Ok(());
    };
    let Ok(octets) = hex::decode(alloc, digits.as_slice()) else {
        return Ok(());
    };
    match hint_of(&octets) {
        Some(Hint::Offset) | None => Ok(()),
        Some(hint) => eprintln!(rt; "gtpshow: standard input, line 1: {hint}"),
    }
}

/// Says what the first line of standard input spells in place of a datagram, where it begins as a frame or a packet does.
pub fn hint_of_pasted<R: Eprint>(rt: &R, alloc: Global, first: &[u8]) -> io::Result<()> {
    let end = first
        .iter()
        .position(|octet| *octet == b'\n')
        .unwrap_or(first.len());
    let line = &first[..end];
    if begins_dump(line) {
        return hint_of_row(rt, alloc, line);
    }
    // The last digit of a line that is not held whole may be half of an octet.
    let found = match read_line(alloc, None, line) {
        Err(LineFault::BadHex) => read_line(alloc, None, &line[..line.len().saturating_sub(1)]),
        found => found,
    };
    let Ok(Some(dumped)) = found else {
        return Ok(());
    };
    match hint_of(&dumped.octets) {
        Some(Hint::Offset) | None => Ok(()),
        Some(hint) => eprintln!(rt; "gtpshow: standard input, line 1: {hint}"),
    }
}

/// Says what the octets of a word are in place of a datagram.
pub fn hint_of_octets<R: Eprint>(rt: &R, alloc: Global, word: &str) -> io::Result<()> {
    let Ok(octets) = hex::decode(alloc, word) else {
        return Ok(());
    };
    match hint_of(&octets) {
        Some(hint) => eprintln!(rt; "gtpshow: {hint}"),
        None => Ok(()),
    }
}

/// Says why a file, or standard input, is no capture.
pub fn hint_of_capture<R: Eprint, I>(rt: &R, name: &str, read: &Watched<I>) -> io::Result<()> {
    if begins_as_compressed(&read.first) {
        return eprintln!(rt;
            "gtpshow: {name} is compressed: 'zcat FILE | gtpshow capture -' shows a compressed capture"
        );
    }
    if !begins_as_capture(&read.first) {
        return eprintln!(rt; "gtpshow: {name} does not begin as a capture does (pcap, pcapng)");
    }
    if read.ended {
        return eprintln!(rt;
            "gtpshow: {name} ends after {} octets, inside its head",
            read.count
        );
    }
    eprintln!(rt; "gtpshow: {name} begins as a capture does, but its head is none")
}

/// Says why no record or block stands at an octet of a capture.
pub fn hint_of_broken<R: Eprint, I>(
    rt: &R,
    name: &str,
    at: u64,
    read: &Watched<I>,
) -> io::Result<()> {
    let has_blocks = read.first.starts_with(&[0x0a]);
    let part = if has_blocks { "block" } else { "record" };
    if read.ended {
        return eprintln!(rt;
            "gtpshow: {name} ends after {} octets, inside the {part} at octet {at}",
            read.count
        );
    }
    if has_blocks {
        return eprintln!(rt;
            "gtpshow: {name}: the block at octet {at} has a length that does not fit, an interface that is not described, or no order of octets"
        );
    }
    eprintln!(rt; "gtpshow: {name}: the record at octet {at} states more than 262144 octets")
}

/// Says what a datagram of version 1 is, which was read as one of the control plane.
fn hint_of_user_plane<R: Eprint>(rt: &R, alloc: Global, octets: &[u8]) -> io::Result<()> {
    match decode_lines(alloc, Plane::User, octets) {
        Ok(shown) if !shown.faulty => {
            eprintln!(rt;
                "gtpshow: version 1 is GTP-U: with --user this is a datagram, and 'decode -' tells both planes apart"
            )
        }
        _ => {
            eprintln!(rt;
                "gtpshow: version 1 is GTP-U, which --user reads, or GTPv1-C, which is not read"
            )
        }
    }
}

/// Says what a datagram of version 2 is, which was read as one of the user plane.
fn hint_of_control_plane<R: Eprint>(rt: &R, alloc: Global, octets: &[u8]) -> io::Result<()> {
    match decode_lines(alloc, Plane::Control, octets) {
        Ok(shown) if !shown.faulty => {
            eprintln!(rt;
                "gtpshow: version 2 is GTPv2-C: without --user this is a datagram, and 'decode -' tells both planes apart"
            )
        }
        _ => eprintln!(rt; "gtpshow: version 2 is GTPv2-C, which is read without --user"),
    }
}

/// Says of which plane a datagram is, where its version is that of the other plane.
pub fn hint_of_version<R: Eprint>(
    rt: &R,
    alloc: Global,
    plane: Plane,
    word: &str,
) -> io::Result<()> {
    let Ok(octets) = hex::decode(alloc, word) else {
        return Ok(());
    };
    let version = octets.first().map(|first| *first >> 5);
    match (plane, version) {
        (Plane::Control, Some(1)) => hint_of_user_plane(rt, alloc, &octets),
        (Plane::User, Some(2)) => hint_of_control_plane(rt, alloc, &octets),
        _ => Ok(()),
    }
}

/// Says in which bearer context an element of a control datagram is at fault or missing, where it is in one.
pub fn hint_of_context<R: Eprint>(rt: &R, alloc: Global, word: &str) -> io::Result<()> {
    let Ok(octets) = hex::decode(alloc, word) else {
        return Ok(());
    };
    let Err(fault) = view(&octets) else {
        return Ok(());
    };
    match fault_context(&octets, &fault) {
        Some(number) => eprintln!(rt; "gtpshow: the fault is in bearer-context {number}"),
        None => Ok(()),
    }
}

/// Says how many datagrams at fault name an interface other than S5/S8, by whose rules they were judged.
pub fn hint_of_interface<R: Eprint>(rt: &R, count: u64) -> io::Result<()> {
    match count {
        0 => Ok(()),
        1 => eprintln!(rt;
            "gtpshow: 1 datagram at fault names another interface: with --all, --interface s11 judges by the rules of S11, any by headers and lengths alone"
        ),
        _ => eprintln!(rt;
            "gtpshow: {count} datagrams at fault name another interface: with --all, --interface s11 judges by the rules of S11, any by headers and lengths alone"
        ),
    }
}

/// The same of a datagram at fault that a word spells.
pub fn hint_of_elsewhere<R: Eprint>(
    rt: &R,
    alloc: Global,
    plane: Option<Plane>,
    word: &str,
) -> io::Result<()> {
    match read_line(alloc, plane, word.as_bytes()) {
        Ok(Some(dumped)) => {
            hint_of_interface(rt, count_elsewhere(true, dumped.plane, &dumped.octets))
        }
        _ => Ok(()),
    }
}

/// Says why these octets, of a file or of standard input, are no scenario.
pub fn hint_of_scenario<R: Eprint>(
    rt: &R,
    alloc: Global,
    name: &str,
    octets: Option<&[u8]>,
) -> io::Result<()> {
    let Some(octets) = octets else {
        return Ok(());
    };
    if begins_as_capture(octets) {
        return eprintln!(rt; "gtpshow: {name} is a capture: 'capture' shows it");
    }
    match reason_of(alloc, octets) {
        Ok(Some(reason)) => eprintln!(rt; "gtpshow: {name}: {reason}"),
        _ => Ok(()),
    }
}

/// Says why the first line of standard input says no gateway.
pub fn hint_of_gateway<R: Eprint>(rt: &R, alloc: Global, line: &[u8]) -> io::Result<()> {
    if line.iter().all(u8::is_ascii_whitespace) {
        return eprintln!(rt;
            "gtpshow: the first line of standard input has to say a gateway: 'gateway --help' shows one"
        );
    }
    match head_reason(alloc, line) {
        Ok(Some(reason)) => eprintln!(rt; "gtpshow: the first line of standard input: {reason}"),
        _ => Ok(()),
    }
}

/// Whether the value of a key is an address.
fn is_address(value: &Tree<'_, '_>, key: &str) -> bool {
    match text_at(value, key) {
        Some(text) => address_of(text).is_some() || ipv6_of(text).is_some(),
        None => false,
    }
}

/// Whether the value is the addresses of a peer, and nothing else.
fn is_peer(value: &Tree<'_, '_>) -> bool {
    has_only(value, &["control", "user"])
        && is_address(value, "control")
        && is_address(value, "user")
}

/// The place of the first value that is no peer.
fn first_bad_peer(mut values: Items<'_, '_>) -> Option<usize> {
    let mut place: usize = 0;
    while let Some(value) = values.next() {
        if !is_peer(&value) {
            return Some(place);
        }
        place = place.saturating_add(1);
    }
    None
}

/// What is wrong with data that say no node.
enum NodeFlaw {
    /// Of a key, or of several together.
    Says(&'static str),
    /// Of the peer at this place.
    Peer(usize),
}

/// What is wrong with the peers of a node.
fn flaw_of_peers(value: &Tree<'_, '_>) -> Option<NodeFlaw> {
    let Some(peers) = value_at(value, "peers") else {
        return Some(NodeFlaw::Says("peers is missing"));
    };
    let Some(values) = as_list(&peers) else {
        return Some(NodeFlaw::Says("peers: a list is wanted"));
    };
    first_bad_peer(values).map(NodeFlaw::Peer)
}

/// What is wrong with what only the node of a packet gateway has.
fn flaw_of_packet(alloc: Global, value: &Tree<'_, '_>) -> &'static str {
    if access_points_at(alloc, value).is_err() {
        return "apns: a list of at most 16 access point names is wanted";
    }
    if pools_at(value).is_none() {
        return "pool and count, or pool6 and count6: a first address and a number of addresses are wanted";
    }
    "a key is unknown, a template is none, or addresses end before the last peer has its own"
}

/// What is wrong with data that say no node: the first key that is, in the order of `docs/FORMATS.md`.
fn flaw_of_node(alloc: Global, value: &Tree<'_, '_>) -> NodeFlaw {
    let role = match text_at(value, "role") {
        Some(word) => role_of(word),
        None => None,
    };
    let Some(role) = role else {
        return NodeFlaw::Says("role: \"serving\" or \"packet\" is wanted");
    };
    if !is_address(value, "control") {
        return NodeFlaw::Says("control: an IPv4 address or 32 hexadecimal digits are wanted");
    }
    if !is_address(value, "user") {
        return NodeFlaw::Says("user: an IPv4 address or 32 hexadecimal digits are wanted");
    }
    if let Some(flaw) = flaw_of_peers(value) {
        return flaw;
    }
    if counter_at(value).is_none() {
        return NodeFlaw::Says("counter: a number from 0 to 255 is wanted");
    }
    if timers_at(value).is_none() {
        return NodeFlaw::Says("t3, n3 or hold is out of range");
    }
    if switches_at(value).is_none() {
        return NodeFlaw::Says(
            "switches: a list of switches is wanted: \"network_identifiers\", \"version_not_supported\"",
        );
    }
    match role {
        Role::Packet => NodeFlaw::Says(flaw_of_packet(alloc, value)),
        Role::Serving => NodeFlaw::Says("a key is none of a serving gateway"),
    }
}

/// Says what is wrong with data that say no node.
fn hint_of_node_flaw<R: Eprint>(rt: &R, flaw: NodeFlaw) -> io::Result<()> {
    match flaw {
        NodeFlaw::Says(words) => {
            eprintln!(rt; "gtpshow: the first line of standard input: {words}")
        }
        NodeFlaw::Peer(place) => eprintln!(rt;
            "gtpshow: the first line of standard input: peers[{place}]: an object with the addresses control and user is wanted"
        ),
    }
}

/// Says why the first line of standard input says no node.
pub fn hint_of_node<R: Eprint>(rt: &R, alloc: Global, line: &[u8]) -> io::Result<()> {
    if line.iter().all(u8::is_ascii_whitespace) {
        return eprintln!(rt;
            "gtpshow: the first line of standard input has to say a node: 'node --help' shows one"
        );
    }
    if line.len() > MOST_OCTETS {
        return eprintln!(rt;
            "gtpshow: the first line of standard input: more than {MOST_OCTETS} octets"
        );
    }
    let mut scratch = Scratch::new(alloc);
    match json_of(alloc, line, &mut scratch) {
        Ok(tape) => hint_of_node_flaw(rt, flaw_of_node(alloc, &Tree::root(&tape))),
        Err(Fault::Wrong) => match json_flaw(alloc, line) {
            Ok(flaw) => eprintln!(rt; "gtpshow: the first line of standard input: {flaw}"),
            Err(_) => Ok(()),
        },
        Err(Fault::Memory) => Ok(()),
    }
}

/// How a type is written.
fn type_wanted(what: TypeOf) -> &'static str {
    match what {
        TypeOf::ExtensionHeader => "two hexadecimal digits",
        TypeOf::Element | TypeOf::Message => "a number from 0 to 255",
    }
}

/// Says why no type is meant.
fn hint_of_type<R: Eprint>(rt: &R, what: TypeOf, word: &str, kind: Option<&str>) -> io::Result<()> {
    let wanted = type_wanted(what);
    let Some(kind) = kind else {
        return eprintln!(rt; "gtpshow: 'explain {word}' wants a type: {wanted}");
    };
    if type_written(what, kind).is_none() {
        return eprintln!(rt; "gtpshow: the word '{kind}' is not {wanted}");
    }
    eprintln!(rt; "gtpshow: the {word} {kind} has no name here")
}

/// Says that no code and no type is called so.
fn hint_of_code<R: Eprint>(rt: &R, word: &str, kind: Option<&str>) -> io::Result<()> {
    if let Some(what) = type_of_word(word) {
        return hint_of_type(rt, what, word, kind);
    }
    if kind.is_some() || word.contains(" ") {
        return eprintln!(rt;
            "gtpshow: a code is one word, as H7, I2, S1 or 73: 'explain' without a word shows all"
        );
    }
    eprintln!(rt; "gtpshow: no code is called {word}: 'explain' without a word shows all")
}

/// Says why a file cannot be read.
fn hint_of_read<R: Eprint + Files>(rt: &R, name: &str) -> io::Result<()> {
    if name == "-" {
        return eprintln!(rt; "gtpshow: standard input cannot be read");
    }
    match fs::metadata(rt, name) {
        Ok(about) if about.is_dir() => eprintln!(rt; "gtpshow: {name} is a folder"),
        Ok(_) => eprintln!(rt; "gtpshow: {name} cannot be read"),
        Err(error) => eprintln!(rt; "gtpshow: {name}: {error}"),
    }
}

/// Says which port is none.
fn hint_of_port<R: Eprint>(rt: &R, asked: &ArgMatches) -> io::Result<()> {
    for name in ["control-port", "user-port"] {
        let word = asked.get_str(name).unwrap_or("0");
        if word.parse::<u16>().is_err() {
            return eprintln!(rt; "gtpshow: the word '{word}' of --{name} is no such number");
        }
    }
    Ok(())
}

/// Says which word chooses no datagrams, and what is wanted of it.
fn hint_of_filter<R: Eprint>(rt: &R, asked: &ArgMatches) -> io::Result<()> {
    if let Some(word) = asked.get_str("type") {
        if kinds_of(&all_names(), Some(word)).is_err() {
            return eprintln!(rt;
                "gtpshow: no message is called {word}: --type wants a name, as create-session-request or g-pdu, or a number from 0 to 255"
            );
        }
    }
    if let Some(word) = asked.get_str("imsi") {
        if imsi_of(Some(word)).is_err() {
            return eprintln!(rt; "gtpshow: the word '{word}' of --imsi is not 6 to 15 digits");
        }
    }
    if let Some(word) = asked.get_str("teid") {
        if teid_of(Some(word)).is_err() {
            return eprintln!(rt;
                "gtpshow: the word '{word}' of --teid is not eight hexadecimal digits"
            );
        }
    }
    match asked.get_str("address") {
        Some(word) => eprintln!(rt;
            "gtpshow: the word '{word}' of --address is no address: 10.0.0.1, or 32 hexadecimal digits"
        ),
        None => Ok(()),
    }
}

/// Says what a failure is about, after its own line.
pub fn hint<R: Eprint + Env + Files + AllocGlobal>(rt: &R, failure: Failure) -> io::Result<()> {
    let alloc: Global = rt.alloc();
    let words: Vec<String> = env::args(rt)?.collect(alloc)?;
    let Ok(matches) = command(alloc)?.try_get_matches_from(words.as_slice()) else {
        return Ok(());
    };
    let Some((name, asked)) = matches.subcommand() else {
        return Ok(());
    };
    match failure {
        Failure::BadHex => hint_of_hex(rt, alloc, asked),
        Failure::BadCode => hint_of_code(
            rt,
            asked.get_str("code").unwrap_or(""),
            asked.get_str("type"),
        ),
        Failure::BadPort => hint_of_port(rt, asked),
        Failure::BadFilter => hint_of_filter(rt, asked),
        Failure::Read | Failure::TooLong if name == "capture" || name == "replay" => {
            hint_of_read(rt, asked.get_str("file").unwrap_or("-"))
        }
        Failure::Read | Failure::TooLong => hint_of_read(rt, "-"),
        _ => Ok(()),
    }
}
