//! A run as a sequence diagram in a picture (SVG).

ghost use Rattle.std.specs.Prelude.{◌≡◌, ◌++◌, ◌+◌, ◌*◌, ◌<◌, ◌^◌, ℕ, OnOk, IfOk, map, length};
ghost use Rattle.std.specs.List.{enumerate_from};
ghost use Rattle.gtp_world.specs.Events.{event_of};
ghost use Rattle.gtp_world.specs.Record.{sent_by, told_by};
ghost use Rattle.gtp_replay.specs.RowViews.{row_of};
ghost use Rattle.gtp_replay.specs.Rows.{rows_of};
ghost use Rattle.gtp_replay.specs.Svg.{place_svg, outcome_class, told_start, told_svg, coming_class, arrow_path, short_path, arrow_start, arrow_end, arrow_svg, mark_svg, event_class, event_svg, IsRowSvg, IsGroup, height_of, svg_style, svg_legend, life_of, address_start, address_svg, addresses_svg, svg_opening, svg_lives, svg_front, svg_ends, svg_head, IsSvg};
ghost use Rattle.gtp_gateway.specs.Settings.{addresses_of};
ghost use Rattle.gtp_replay.specs.Told.{own_in};

use crate::drawing::{counted, event_label, put_coming, stands_at};
use crate::labels::label;
use crate::reporting::put_told_words;
use crate::rows::{Coming, Row, rows_of};
use gtp_gateway::{Addresses, Ip, Role};
use gtp_lines::text::{put, put_ip, put_number, put_octets};
use gtp_outcomes::{is_refused, plane_word};
use gtp_values::Memory;
use gtp_world::{Datagram, Event, Note, World};
use std::alloc::{AllocError, Global};

/// How lines and texts look, the two ends of arrows, and the ground.
const STYLE: &[u8] =
    b"<style>path{stroke:#333;fill:none}.user path{stroke:#06c;stroke-dasharray:6 3}\
    .again path{stroke:#999}.lost path,.cut path{stroke:#b00}.life{stroke:#bbb}\
    .label{text-anchor:middle}.place,.end{text-anchor:end}.place,.tick text{fill:#777}\
    .tick rect{fill:#bbb}.restart rect,.refused{fill:#b00}</style>\n\
    <defs><marker id=\"arrow\" viewBox=\"0 0 8 8\" refX=\"8\" refY=\"4\" markerWidth=\"8\" markerHeight=\"8\" orient=\"auto\">\
    <path d=\"M0 0L8 4L0 8\"/></marker>\
    <marker id=\"cross\" viewBox=\"0 0 8 8\" refX=\"4\" refY=\"4\" markerWidth=\"8\" markerHeight=\"8\">\
    <path d=\"M0 0L8 8M8 0L0 8\"/></marker></defs>\n\
    <rect width=\"100%\" height=\"100%\" fill=\"#fff\"/>\n";

/// What lines and squares mean, and the heads of the columns.
const LEGEND: &[u8] =
    b"<g class=\"control\" transform=\"translate(150,20)\"><path d=\"M0 0H40\" marker-end=\"url(#arrow)\"/><text x=\"48\" y=\"4\">control</text></g>\
    <g class=\"user\" transform=\"translate(270,20)\"><path d=\"M0 0H40\" marker-end=\"url(#arrow)\"/><text x=\"48\" y=\"4\">user</text></g>\
    <g class=\"again\" transform=\"translate(370,20)\"><path d=\"M0 0H40\" marker-end=\"url(#arrow)\"/><text x=\"48\" y=\"4\">again</text></g>\
    <g class=\"cut\" transform=\"translate(470,20)\"><path d=\"M0 0H40\" marker-end=\"url(#arrow)\"/><text x=\"48\" y=\"4\">cut</text></g>\
    <g class=\"lost\" transform=\"translate(570,20)\"><path d=\"M0 0H36\" marker-end=\"url(#cross)\"/><text x=\"48\" y=\"4\">lost</text></g>\n\
    <g class=\"event\" transform=\"translate(150,40)\"><rect x=\"0\" y=\"-5\" width=\"10\" height=\"10\"/><text x=\"18\" y=\"4\">event</text></g>\
    <g class=\"restart\" transform=\"translate(270,40)\"><rect x=\"0\" y=\"-5\" width=\"10\" height=\"10\"/><text x=\"18\" y=\"4\">restart</text></g>\
    <g class=\"tick\" transform=\"translate(370,40)\"><rect x=\"0\" y=\"-5\" width=\"10\" height=\"10\"/><text x=\"18\" y=\"4\">tick</text></g>\
    <text class=\"refused\" x=\"470\" y=\"44\">refused or dropped</text>\n\
    <text class=\"place\" x=\"60\" y=\"66\">event</text><text class=\"label\" x=\"150\" y=\"66\">serving</text><text class=\"label\" x=\"650\" y=\"66\">packet</text><text x=\"680\" y=\"66\">outcome</text>\n";

/// The height of the first row, and of what stands over the rows.
const TOP: u64 = 130;

/// The height of a row.
const ROW: u64 = 30;

// ---- pieces of a row

/// Appends a word.
fn put_word(out: &mut Vec<u8>, word: &str) -> Result<(), AllocError>
    ensures ok { OnOk result (out.new.items ≡ out.old.items ++ word.now) }
{
    put(out, word.as_bytes())
}

/// Appends the place of an event.
#[tactic(auto, using(crate::proofs::Appends::appending), unfolding(crate::specs::Svg::place_svg))]
fn put_place(out: &mut Vec<u8>, place: usize) -> Result<(), AllocError>
    ensures ok { OnOk result (out.new.items ≡ out.old.items ++ place_svg place) }
{
    put(out, b"<text class=\"place\" x=\"60\" y=\"4\">")?;
    put_number(out, place as u64)?;
    put(out, b"</text>")
}

/// The class of what an event came to.
#[tactic(auto, unfolding(crate::specs::Svg::outcome_class))]
fn outcome_class(note: &Note) -> &'static str
    ensures { result.now ≡ outcome_class (told_by note.now) }
{
    if is_refused(note.outcome) {
        "refused"
    } else {
        "outcome"
    }
}

/// Appends what an event came to, up to its words.
#[tactic(auto, using(crate::proofs::Appends::appending))]
fn put_told_start(out: &mut Vec<u8>, class: &str) -> Result<(), AllocError>
    ensures ok { OnOk result (out.new.items ≡ out.old.items ++ told_start class.now) }
{
    put(out, b"<text class=\"")?;
    put_word(out, class)?;
    put(out, b"\" x=\"680\" y=\"4\">")
}

/// Appends what an event came to.
#[tactic(auto, using(crate::proofs::Appends::appending), unfolding(crate::specs::Svg::told_svg))]
fn put_told_svg(out: &mut Vec<u8>, note: &Note) -> Result<(), AllocError>
    ensures ok { OnOk result (out.new.items ≡ out.old.items ++ told_svg (told_by note.now)) }
{
    put_told_start(out, outcome_class(note))?;
    put_told_words(out, note)?;
    put(out, b"</text>")
}

/// The class of how a datagram comes.
#[tactic(auto, unfolding(crate::specs::Svg::coming_class))]
fn coming_class(coming: Coming) -> &'static str
    ensures { result.now ≡ coming_class coming }
{
    match coming {
        Coming::First => "",
        Coming::Again => " again",
        Coming::CutTo(_) => " cut",
    }
}

/// The way of an arrow to the other gateway.
#[tactic(auto, unfolding(crate::specs::Svg::arrow_path))]
fn arrow_path(from: Role) -> &'static str
    ensures { result.now ≡ arrow_path from }
{
    match from {
        Role::Serving => "M150 0H650\" marker-end=\"url(#arrow)",
        Role::Packet => "M650 0H150\" marker-end=\"url(#arrow)",
    }
}

/// The way of an arrow that ends before the other gateway.
#[tactic(auto, unfolding(crate::specs::Svg::short_path))]
fn short_path(from: Role) -> &'static str
    ensures { result.now ≡ short_path from }
{
    match from {
        Role::Serving => "M150 0H600\" marker-end=\"url(#cross)",
        Role::Packet => "M650 0H200\" marker-end=\"url(#cross)",
    }
}

/// Appends the arrow of a datagram up to its tooltip.
#[tactic(auto, using(crate::proofs::Appends::appending))]
fn put_arrow_start(out: &mut Vec<u8>, plane: &str, class: &str) -> Result<(), AllocError>
    ensures ok { OnOk result
        (out.new.items ≡ out.old.items ++ arrow_start plane.now class.now) }
{
    put(out, b"<g class=\"")?;
    put_word(out, plane)?;
    put_word(out, class)?;
    put(out, b"\"><title>")
}

/// Appends the arrow of a datagram behind its tooltip.
fn put_arrow_end(out: &mut Vec<u8>, path: &str, label: &[u8]) -> Result<(), AllocError>
    ensures ok { OnOk result (out.new.items ≡ out.old.items ++ arrow_end path.now label.now) }
{
    put(out, b"</title><path d=\"")?;
    put_word(out, path)?;
    put(out, b"\"/><text class=\"label\" x=\"400\" y=\"-8\">")?;
    put(out, label)?;
    put(out, b"</text></g>")
}

/// Appends the arrow of a datagram, of which the octets are the tooltip.
#[tactic(auto, using(crate::proofs::Appends::appending), unfolding(crate::specs::Svg::arrow_svg))]
fn put_arrow_svg(
    out: &mut Vec<u8>,
    datagram: &Datagram,
    class: &str,
    path: &str,
    label: &[u8],
) -> Result<(), AllocError>
    ensures ok { (number : ℕ) → OnOk result (out.new.items ≡ out.old.items
        ++ arrow_svg (number, sent_by datagram.now) class.now path.now label.now) }
{
    put_arrow_start(out, plane_word(datagram.sent.plane), class)?;
    put_octets(out, &datagram.sent.octets)?;
    put_arrow_end(out, path, label)
}

/// Appends what happens at a gateway.
#[tactic(auto, using(crate::proofs::Appends::appending), unfolding(crate::specs::Svg::mark_svg))]
fn put_mark_svg(out: &mut Vec<u8>, node: Role, class: &str, label: &[u8]) -> Result<(), AllocError>
    ensures ok { OnOk result (out.new.items ≡ out.old.items ++ mark_svg node class.now label.now) }
{
    put(out, b"<g class=\"")?;
    put_word(out, class)?;
    put(
        out,
        match node {
            Role::Serving =>
                b"\"><rect x=\"145\" y=\"-5\" width=\"10\" height=\"10\"/><text x=\"162\" y=\"4\">".as_slice(),
            Role::Packet =>
                b"\"><rect x=\"645\" y=\"-5\" width=\"10\" height=\"10\"/><text class=\"end\" x=\"638\" y=\"4\">".as_slice(),
        },
    )?;
    put(out, label)?;
    put(out, b"</text></g>")
}

/// The class of an event by which no datagram comes.
#[tactic(auto, unfolding(crate::specs::Svg::event_class))]
fn event_class(event: &Event) -> &'static str
    ensures { result.now ≡ event_class (event_of event.now) }
{
    match event {
        Event::Restart(_) => "restart",
        Event::Tick(_) => "tick",
        _ => "event",
    }
}

/// Appends what an event came to; of a tick nothing is said.
#[tactic(auto, using(crate::proofs::Appends::appending), unfolding(crate::specs::Svg::event_svg))]
fn put_event_svg(out: &mut Vec<u8>, event: &Event, note: &Note) -> Result<(), AllocError>
    ensures ok { OnOk result (out.new.items
        ≡ out.old.items ++ event_svg (event_of event.now) (told_by note.now)) }
{
    match event {
        Event::Tick(_) => Ok(()),
        _ => put_told_svg(out, note),
    }
}

// ---- rows

/// The picture of a row.
#[tactic(auto, using(crate::proofs::Appends::appending))]
fn row_svg(alloc: Global, row: &Row<'_>) -> Result<Vec<u8>, AllocError>
    ensures { IfOk result (λ piece. IsRowSvg (row_of row.now) piece.items) }
{
    match row {
        Row::Comes {
            place,
            number,
            datagram,
            coming,
            note,
        } => {
            let mut label = label(alloc, *number, datagram)?;
            put_coming(&mut label, *coming)?;
            let mut piece = Vec::new(alloc);
            put_place(&mut piece, *place)?;
            let path = arrow_path(datagram.node);
            put_arrow_svg(&mut piece, datagram, coming_class(*coming), path, &label)?;
            put_told_svg(&mut piece, note)?;
            Ok(piece)
        }
        Row::Lost { number, datagram } => {
            let label = label(alloc, *number, datagram)?;
            let mut piece = Vec::new(alloc);
            let path = short_path(datagram.node);
            put_arrow_svg(&mut piece, datagram, " lost", path, &label)?;
            Ok(piece)
        }
        Row::Happens { place, event, note } => {
            let label = event_label(alloc, event, note)?;
            let mut piece = Vec::new(alloc);
            put_place(&mut piece, *place)?;
            put_mark_svg(&mut piece, stands_at(event), event_class(event), &label)?;
            put_event_svg(&mut piece, event, note)?;
            Ok(piece)
        }
        Row::Idles { place, node, count } => {
            let label = counted(alloc, *count, b"tick")?;
            let mut piece = Vec::new(alloc);
            put_place(&mut piece, *place)?;
            put_mark_svg(&mut piece, *node, "tick", &label)?;
            Ok(piece)
        }
    }
}

/// The group of a row, under so many others.
#[tactic(auto, using(crate::proofs::Appends::appending))]
fn group(alloc: Global, index: usize, row: &Row<'_>) -> Result<Vec<u8>, AllocError>
    requires { 130 + 30 * index < 2 ^ 64 }
    ensures { IfOk result (λ piece. IsGroup (index, row_of row.now) piece.items) }
{
    let mut piece = Vec::new(alloc);
    put(&mut piece, b"<g transform=\"translate(0,")?;
    put_number(&mut piece, TOP + ROW * index as u64)?;
    put(&mut piece, b")\">")?;
    let row = row_svg(alloc, row)?;
    put(&mut piece, &row)?;
    put(&mut piece, b"</g>\n")?;
    Ok(piece)
}

/// Appends how lines and texts look.
#[tactic(auto, unfolding(crate::specs::Svg::svg_style))]
fn put_style(out: &mut Vec<u8>) -> Result<(), AllocError>
    ensures ok { OnOk result (out.new.items ≡ out.old.items ++ svg_style) }
{
    put(out, STYLE)
}

/// Appends what lines and squares mean, and the heads of the columns.
#[tactic(auto, unfolding(crate::specs::Svg::svg_legend))]
fn put_legend(out: &mut Vec<u8>) -> Result<(), AllocError>
    ensures ok { OnOk result (out.new.items ≡ out.old.items ++ svg_legend) }
{
    put(out, LEGEND)
}

/// Where the line of a gateway stands.
fn life_of(role: Role) -> &'static str
    ensures { result.now ≡ life_of role }
{
    match role {
        Role::Serving => "150",
        Role::Packet => "650",
    }
}

/// Appends what stands before an address of a gateway.
#[tactic(auto, using(crate::proofs::Appends::appending), unfolding(crate::specs::Svg::address_start))]
fn put_address_start(out: &mut Vec<u8>, role: Role, height: &str) -> Result<(), AllocError>
    ensures ok { OnOk result (out.new.items ≡ out.old.items ++ address_start role height.now) }
{
    put(out, b"<text class=\"label\" x=\"")?;
    put_word(out, life_of(role))?;
    put(out, b"\" y=\"")?;
    put_word(out, height)?;
    put(out, b"\">")
}

/// Appends one address of a gateway.
#[tactic(auto, using(crate::proofs::Appends::appending), unfolding(crate::specs::Svg::address_svg))]
fn put_address(
    out: &mut Vec<u8>,
    role: Role,
    height: &str,
    plane: &str,
    ip: &Ip,
) -> Result<(), AllocError>
    ensures ok { OnOk result (out.new.items
        ≡ out.old.items ++ address_svg role height.now plane.now ip.now) }
{
    put_address_start(out, role, height)?;
    put_word(out, plane)?;
    put_ip(out, ip)?;
    put(out, b"</text>\n")
}

/// Appends the addresses of a gateway.
#[tactic(auto, using(crate::proofs::Appends::appending))]
fn put_addresses(out: &mut Vec<u8>, role: Role, own: Addresses) -> Result<(), AllocError>
    ensures ok { OnOk result (out.new.items
        ≡ out.old.items ++ addresses_svg role (addresses_of own)) }
{
    put_address(out, role, "82", "control ", &own.control)?;
    put_address(out, role, "98", "user ", &own.user)
}

/// Appends the tag that opens a picture.
fn put_opening(out: &mut Vec<u8>, height: u64) -> Result<(), AllocError>
    ensures ok { OnOk result (out.new.items ≡ out.old.items ++ svg_opening height) }
{
    put(
        out,
        b"<svg xmlns=\"http://www.w3.org/2000/svg\" width=\"1000\" height=\"",
    )?;
    put_number(out, height)?;
    put(out, b"\" font-family=\"monospace\" font-size=\"12\">\n")
}

/// Appends the lines of both gateways.
#[tactic(auto, using(crate::proofs::Appends::appending))]
fn put_lives(out: &mut Vec<u8>, height: u64) -> Result<(), AllocError>
    ensures ok { OnOk result (out.new.items ≡ out.old.items ++ svg_lives height) }
{
    put(out, b"<path class=\"life\" d=\"M150 105V")?;
    put_number(out, height)?;
    put(out, b"M650 105V")?;
    put_number(out, height)?;
    put(out, b"\"/>\n")
}

/// Appends what stands over the addresses.
#[tactic(auto, using(crate::proofs::Appends::appending), unfolding(crate::specs::Svg::svg_front))]
fn put_front(out: &mut Vec<u8>, height: u64) -> Result<(), AllocError>
    ensures ok { OnOk result (out.new.items ≡ out.old.items ++ svg_front height) }
{
    put_opening(out, height)?;
    put_style(out)?;
    put_legend(out)
}

/// Appends the addresses of both gateways.
#[tactic(auto, using(crate::proofs::Appends::appending), unfolding(crate::specs::Svg::svg_ends))]
fn put_ends(out: &mut Vec<u8>, serving: Addresses, packet: Addresses) -> Result<(), AllocError>
    ensures ok { OnOk result (out.new.items
        ≡ out.old.items ++ svg_ends (addresses_of serving) (addresses_of packet)) }
{
    put_addresses(out, Role::Serving, serving)?;
    put_addresses(out, Role::Packet, packet)
}

/// Appends the picture before its rows.
#[tactic(auto, using(crate::proofs::Appends::appending), unfolding(crate::specs::Svg::svg_head))]
fn put_svg_head(
    out: &mut Vec<u8>,
    serving: Addresses,
    packet: Addresses,
    height: u64,
) -> Result<(), AllocError>
    ensures ok { OnOk result (out.new.items ≡ out.old.items
        ++ svg_head (addresses_of serving) (addresses_of packet) height) }
{
    put_front(out, height)?;
    put_ends(out, serving, packet)?;
    put_lives(out, height)
}

/// The picture of rows, of gateways with these addresses.
fn pictured(
    alloc: Global,
    serving: Addresses,
    packet: Addresses,
    rows: &[Row<'_>],
) -> Result<Vec<u8>, AllocError>
    ensures { IfOk result (λ text. IsSvg (addresses_of serving) (addresses_of packet)
        (map row_of rows.now) text.items) }
{
    let mut text = Vec::new(alloc);
    let height = TOP + ROW * rows.len() as u64;
    put_svg_head(&mut text, serving, packet, height)?;
    for (index, row) in rows.iter().enumerate() {
        let group = group(alloc, index, row)?;
        put(&mut text, &group)?;
    }
    put(&mut text, b"</svg>\n")?;
    Ok(text)
}

/// The addresses of a gateway.
fn own_addresses(world: &World, role: Role) -> Addresses
    ensures { addresses_of result ≡ own_in world.now role }
{
    world.settings(role).own()
}

/// The run of these events as a sequence diagram in a picture (SVG 1.1), with the rows of `diagram`. The octets of a datagram
/// are the tooltip of its arrow. `Memory` if an allocation was refused.
pub fn svg(alloc: Global, events: &[Event], world: &World) -> Result<Vec<u8>, Memory>
    ensures { IfOk result (λ text. IsSvg (own_in world.now Role.Serving) (own_in world.now Role.Packet)
        (rows_of (map event_of events.now) world.now.log.datagrams world.now.log.notes) text.items) }
{
    let rows = rows_of(alloc, events, world)?;
    let serving = own_addresses(world, Role::Serving);
    let packet = own_addresses(world, Role::Packet);
    Ok(pictured(alloc, serving, packet, &rows)?)
}
