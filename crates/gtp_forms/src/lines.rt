//! Lines of what was told.

ghost use Rattle.std.specs.Prelude.{◌≡◌, ◌≤◌, ◌++◌, true, OnOk, map, option_map};
ghost use Rattle.gtp_forms.specs.Told.{event_of};
ghost use Rattle.gtp_forms.specs.Text.{marked, label, fields_shown, network, flag, seen, spelled as spec_spelled, views_shown, gap, deeper, line_begun, event_shown, line_after, lines_from, item_begun, in_item, behind_item, word_shown, spare};

use crate::form::{How, Spelling, View, word_of};
use crate::numbers::{are_zero, bits_of, number_in};
use crate::spelling::{country, operator, spelled};
use crate::text::{put, put_blanks, put_number, put_octets};
use crate::told::Told;
use std::alloc::{AllocError, Global};

/// Where a line stands: how far in, and whether it is still that of what is told.
#[derive(Clone, Copy)]
pub struct Line {
    pub depth: usize,
    pub is_open: bool,
}

#[tactic(auto, using(crate::proofs::Events::appending))]
fn put_label(out: &mut Vec<u8>, name: &[u8]) -> Result<(), AllocError>
    ensures ok { OnOk result (out.new.items ≡ out.old.items ++ label name.now) }
{
    put(out, b" ")?;
    let [_, ..] = name else {
        return Ok(());
    };
    put(out, name)?;
    put(out, b" ")
}

#[tactic(auto, using(crate::proofs::Events::appending))]
fn put_network(alloc: Global, out: &mut Vec<u8>, octets: &[u8]) -> Result<(), AllocError>
    ensures ok { OnOk result (out.new.items ≡ out.old.items ++ network octets.now) }
{
    let [first, second, third] = octets else {
        put(out, b" network ")?;
        return put_octets(alloc, out, octets);
    };
    put(out, b" mcc ")?;
    put(out, country(alloc, *first, *second)?.as_bytes())?;
    put(out, b" mnc ")?;
    put(out, operator(alloc, *second, *third)?.as_bytes())
}

/// Appends a text in octets, or a mark that there are none.
fn put_spelled(
    alloc: Global,
    out: &mut Vec<u8>,
    spelling: Spelling,
    octets: &[u8],
) -> Result<(), AllocError>
    ensures ok { OnOk result (out.new.items ≡ out.old.items ++ marked octets.now (spec_spelled spelling octets.now)) }
{
    if octets.is_empty() {
        return put(out, b"-");
    }
    put(out, spelled(alloc, spelling, octets)?.as_bytes())
}

#[tactic(auto, using(crate::proofs::Events::appending))]
fn put_flag(out: &mut Vec<u8>, number: u64, name: &[u8]) -> Result<(), AllocError>
    ensures ok { OnOk result (out.new.items ≡ out.old.items ++ flag number name.now) }
{
    if number == 0 {
        return Ok(());
    }
    put(out, b" ")?;
    put(out, name)
}

/// Appends the word of a number, where it has one.
#[tactic(auto, using(crate::proofs::Events::appending))]
fn put_word(out: &mut Vec<u8>, word: Option<&'static str>) -> Result<(), AllocError>
    ensures ok { OnOk result (out.new.items ≡ out.old.items ++ word_shown (option_map (λ w. w.now) word.entry)) }
{
    let Some(word) = word else {
        return Ok(());
    };
    put(out, b" ")?;
    put(out, word.as_bytes())
}

#[tactic(auto, using(crate::proofs::Events::appending))]
fn put_spare(alloc: Global, out: &mut Vec<u8>, octets: &[u8]) -> Result<(), AllocError>
    ensures ok { OnOk result (out.new.items ≡ out.old.items ++ spare octets.now) }
{
    if are_zero(octets) {
        return Ok(());
    }
    put(out, b" spare ")?;
    put_octets(alloc, out, octets)
}

/// Appends a value in octets.
#[tactic(auto, unfolding(crate::specs::Text::seen), using(crate::proofs::Events::appending))]
fn put_seen(
    alloc: Global,
    out: &mut Vec<u8>,
    how: How,
    name: &[u8],
    octets: &[u8],
) -> Result<(), AllocError>
    ensures ok { OnOk result (out.new.items ≡ out.old.items ++ seen how name.now octets.now) }
{
    match how {
        How::Number(bits) => {
            put_label(out, name)?;
            put_number(out, bits_of(bits, number_in(octets)))
        }
        How::Named(bits, words) => {
            let number = bits_of(bits, number_in(octets));
            put_label(out, name)?;
            put_number(out, number)?;
            put_word(out, word_of(words, number))
        }
        How::Flag(bits) => put_flag(out, bits_of(bits, number_in(octets)), name),
        How::Network => put_network(alloc, out, octets),
        How::Spelled(spelling) => {
            put_label(out, name)?;
            put_spelled(alloc, out, spelling, octets)
        }
        How::Spare => put_spare(alloc, out, octets),
    }
}

#[tactic(auto, using(crate::proofs::Events::appending))]
fn put_views(
    alloc: Global,
    out: &mut Vec<u8>,
    views: &[View],
    octets: &[u8],
) -> Result<(), AllocError>
    ensures ok { OnOk result (out.new.items ≡ out.old.items ++ views_shown views.now octets.now) }
{
    for view in views {
        put_seen(alloc, out, view.how, view.name.as_bytes(), octets)?;
    }
    Ok(())
}

impl Line {
    #[tactic(auto, using(crate::proofs::Events::appending))]
    fn put_gap(&self, out: &mut Vec<u8>) -> Result<(), AllocError>
        requires { self.now.depth ≤ 66 }
        ensures ok { OnOk result (out.new.items ≡ out.old.items ++ gap self.now) }
    {
        if self.is_open {
            return Ok(());
        }
        put(out, b"\n")?;
        put_blanks(out, self.depth + 1)
    }

    fn deeper(&self) -> usize
        ensures is { result ≡ deeper self.now.depth }
        ensures few { self.now.depth ≤ 66 → result ≤ 66 }
    {
        if self.depth < 64 {
            self.depth + 2
        } else {
            self.depth
        }
    }

    #[tactic(auto, using(crate::proofs::Events::appending))]
    fn put_begun(&self, out: &mut Vec<u8>, name: &str) -> Result<(), AllocError>
        ensures ok { OnOk result (out.new.items ≡ out.old.items ++ line_begun (deeper self.now.depth) name.now) }
    {
        put(out, b"\n")?;
        put_blanks(out, self.deeper())?;
        put(out, name.as_bytes())
    }

    fn put_item(&self, out: &mut Vec<u8>, name: &str) -> Result<(), AllocError>
        ensures ok { OnOk result (out.new.items ≡ out.old.items ++ item_begun self.now name.now) }
    {
        if name.is_empty() {
            return Ok(());
        }
        self.put_begun(out, name)
    }

    fn in_item(&self, name: &str) -> Line
        requires { self.now.depth ≤ 66 }
        ensures is { result ≡ in_item self.now name.now }
        ensures few { result.depth ≤ 66 }
    {
        if name.is_empty() {
            return Line {
                depth: self.depth,
                is_open: false,
            };
        }
        Line {
            depth: self.deeper(),
            is_open: true,
        }
    }

    fn behind_item(&self, name: &str) -> Line
        requires { self.now.depth ≤ 66 }
        ensures is { result ≡ behind_item self.now name.now }
        ensures few { result.depth ≤ 66 }
    {
        if name.is_empty() {
            return Line {
                depth: self.depth,
                is_open: false,
            };
        }
        Line {
            depth: self.depth.saturating_sub(2),
            is_open: false,
        }
    }

    #[tactic(auto, using(crate::proofs::Events::appending))]
    fn put_fields(
        &self,
        alloc: Global,
        out: &mut Vec<u8>,
        views: &[View],
        octets: &[u8],
    ) -> Result<(), AllocError>
        requires { self.now.depth ≤ 66 }
        ensures ok { OnOk result (out.new.items ≡ out.old.items ++ fields_shown self.now views.now octets.now) }
    {
        let [_, ..] = views else {
            return Ok(());
        };
        self.put_gap(out)?;
        put_views(alloc, out, views, octets)
    }

    /// Appends one thing that was told.
    #[tactic(auto, unfolding(crate::specs::Text::event_shown), using(crate::proofs::Events::appending))]
    fn put(&self, alloc: Global, out: &mut Vec<u8>, told: &Told) -> Result<(), AllocError>
        requires { self.now.depth ≤ 66 }
        ensures ok { OnOk result (out.new.items ≡ out.old.items ++ event_shown self.now (event_of told.now)) }
    {
        match told {
            Told::Field { views, octets } => self.put_fields(alloc, out, *views, *octets),
            Told::BeginPart { name } => self.put_begun(out, *name),
            Told::BeginItem { name } => self.put_item(out, *name),
            Told::EndPart | Told::BeginList { .. } | Told::EndList | Told::EndItem { .. } => Ok(()),
            Told::Missing => {
                self.put_gap(out)?;
                put(out, b" short")
            }
            Told::Left { octets } => {
                self.put_gap(out)?;
                put(out, b" rest ")?;
                put_octets(alloc, out, *octets)
            }
        }
    }

    /// Where the line stands after one thing.
    #[tactic(auto, unfolding(crate::specs::Text::line_after))]
    fn after(&self, told: &Told) -> Line
        requires { self.now.depth ≤ 66 }
        ensures is { result ≡ line_after self.now (event_of told.now) }
        ensures few { result.depth ≤ 66 }
    {
        match told {
            Told::Field { views, .. } => Line {
                depth: self.depth,
                is_open: self.is_open || views.len() != 0,
            },
            Told::BeginPart { .. } => Line {
                depth: self.deeper(),
                is_open: true,
            },
            Told::BeginItem { name } => self.in_item(*name),
            Told::EndItem { name } => self.behind_item(*name),
            Told::BeginList { .. } | Told::EndList => *self,
            Told::EndPart => Line {
                depth: self.depth.saturating_sub(2),
                is_open: false,
            },
            Told::Missing | Told::Left { .. } => Line {
                depth: self.depth,
                is_open: true,
            },
        }
    }
}

/// Appends the lines of what was told, from a line on that is so far in.
#[tactic(auto, using(crate::proofs::Events::appending))]
pub fn put_told(
    alloc: Global,
    out: &mut Vec<u8>,
    depth: u8,
    told: &[Told],
) -> Result<(), AllocError>
    requires { depth ≤ 64 }
    ensures ok { OnOk result (out.new.items ≡ out.old.items ++ lines_from (record { depth = depth; is_open = true }) (map event_of told.now)) }
{
    let mut line = Line {
        depth: usize::from(depth),
        is_open: true,
    };
    for one in told {
        line.put(alloc, out, one)?;
        line = line.after(one);
    }
    Ok(())
}
