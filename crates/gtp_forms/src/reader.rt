//! Reading octets by the steps of a form.

ghost use Rattle.std.specs.Prelude.{◌≡◌, true, false, OnOk, IfOk, map, option_map};
ghost use Rattle.gtp_forms.specs.Told.{event_of, cut_of};
ghost use Rattle.gtp_forms.specs.Reading.{said, in_mode, with_octets, field, all_left, keep, may_end, missing_told, left_told, closed, part_begun, part_ended, part, item, stops, items, listed, cut, cut_by, sized, fits, chosen, stepped, all_steps, part_of, tables_of, form_in as spec_form_in, form_at, reads, begun, told_by, case_read, back, is_going};

use crate::form::{Bits, Case, Step, View};
use crate::numbers::{bits_of, number_in};
use crate::told::{Mode, Told};
use std::alloc::{AllocError, Global};
use std::marker::Model;

/// How many forms may stand in one another.
pub const DEEPEST: u8 = 8;

/// The form at a place of a part; none has no steps.
fn form_in(part: &[&'static [Step]], place: usize) -> &'static [Step]
    ensures { result.now ≡ spec_form_in (part_of part.now) place }
{
    if place < part.len() { part[place] } else { &[] }
}

/// The form of a number; none has no steps.
pub fn form_of(forms: &[&'static [&'static [Step]]], form: u8) -> &'static [Step]
    ensures { result.now ≡ form_at (tables_of forms.now) form }
{
    let part = usize::from(form / 16);
    if part < forms.len() {
        form_in(forms[part], usize::from(form % 16))
    } else {
        &[]
    }
}

impl Case {
    /// Whether it is the one for a number.
    fn fits(&self, number: u64) -> bool
        ensures { result ≡ fits self.now number }
    {
        match self.value {
            Some(value) => value == number,
            None => true,
        }
    }
}

/// The first case that fits a number.
fn case_for(cases: &'static [Case], number: u64) -> Option<Case>
    ensures { result ≡ chosen cases.now number }
{
    for case in cases {
        if case.fits(number) {
            return Some(*case);
        }
    }
    None
}

/// Octets that state a length, the octets that it covers, and those after them.
#[derive(Clone, Copy)]
struct Cut<'a> {
    size: &'a [u8],
    body: &'a [u8],
    rest: &'a [u8],
}

/// The octets that a length covers, of which some were passed already.
fn split_covered<'a>(stated: u64, less: u64, size: &'a [u8], octets: &'a [u8]) -> Option<Cut<'a>>
    ensures { option_map cut_of result ≡ cut_by stated less size.now octets.now }
{
    if stated < less {
        return None;
    }
    let covered = stated - less;
    if (octets.len() as u64) < covered {
        return None;
    }
    let (body, rest) = octets.split_at(covered as usize);
    Some(Cut { size, body, rest })
}

/// The octets that the length in the first octets covers.
#[tactic(auto, unfolding(crate::specs::Reading::cut))]
fn split_sized(octets: &[u8], count: u8, less: u8) -> Option<Cut<'_>>
    ensures { option_map cut_of result ≡ cut count less octets.now }
{
    let count = usize::from(count);
    if octets.len() < count {
        return None;
    }
    let (size, behind) = octets.split_at(count);
    split_covered(number_in(size), u64::from(less), size, behind)
}

/// A reading. Contracts see the octets that are left, the number that was kept, whether it goes on, and what was told.
#[derive(Drop)]
struct Reader<'a> {
    rest: &'a [u8],
    kept: u64,
    mode: Mode,
    told: Vec<Told<'a>>,
}

impl<'a> Model for Reader<'a> {
    ghost use Rattle.std.specs.Prelude.{map};
    ghost use Rattle.gtp_forms.specs.Reading.{State};
    ghost use Rattle.gtp_forms.specs.Told.{event_of};

    ghost Value = { State };

    ghost view = { λ r. record { octets = r.rest.now; kept = r.kept; mode = r.mode; events = map event_of r.told.items } };
}

impl<'a> Reader<'a> {
    /// Tells one thing.
    #[tactic(auto, using(crate::proofs::Events::pushing))]
    fn say(&mut self, told: Told<'a>) -> Result<(), AllocError>
        ensures ok { OnOk result (self.new ≡ said (event_of told.entry) self.old) }
    {
        self.told.push(told)?;
        Ok(())
    }

    fn is_going(&self) -> bool
        ensures { result ≡ is_going self.now.mode }
    {
        match self.mode {
            Mode::Going => true,
            Mode::Ended | Mode::Short => false,
        }
    }

    #[tactic(auto, unfolding(crate::specs::Reading::field))]
    fn field(&mut self, count: u8, views: &'static [View]) -> Result<(), AllocError>
        ensures ok { OnOk result (self.new ≡ field count views.now self.old) }
    {
        let count = usize::from(count);
        let rest = self.rest;
        if rest.len() < count {
            self.mode = Mode::Short;
            return Ok(());
        }
        let (front, back) = rest.split_at(count);
        self.rest = back;
        self.say(Told::Field {
            views,
            octets: front,
        })
    }

    #[tactic(auto, unfolding(crate::specs::Reading::all_left))]
    fn all_left(&mut self, views: &'static [View]) -> Result<(), AllocError>
        ensures ok { OnOk result (self.new ≡ all_left views.now self.old) }
    {
        let octets = self.rest;
        self.rest = &[];
        self.say(Told::Field { views, octets })
    }

    #[tactic(auto, unfolding(crate::specs::Reading::keep))]
    fn keep(&mut self, count: u8)
        ensures { self.new ≡ keep count self.old }
    {
        let count = usize::from(count);
        let rest = self.rest;
        if rest.len() < count {
            self.mode = Mode::Short;
            return;
        }
        let (front, _) = rest.split_at(count);
        self.kept = number_in(front);
    }

    #[tactic(auto, unfolding(crate::specs::Reading::may_end))]
    fn may_end(&mut self)
        ensures { self.new ≡ may_end self.old }
    {
        if self.rest.len() == 0 {
            self.mode = Mode::Ended;
        }
    }

    #[tactic(auto, unfolding(crate::specs::Reading::missing_told))]
    fn tell_missing(&mut self) -> Result<(), AllocError>
        ensures ok { OnOk result (self.new ≡ missing_told self.old) }
    {
        match self.mode {
            Mode::Going | Mode::Ended => Ok(()),
            Mode::Short => self.say(Told::Missing),
        }
    }

    #[tactic(auto, unfolding(crate::specs::Reading::left_told))]
    fn tell_left(&mut self) -> Result<(), AllocError>
        ensures ok { OnOk result (self.new ≡ left_told self.old) }
    {
        let octets = self.rest;
        let [_, ..] = octets else {
            return Ok(());
        };
        self.rest = &[];
        self.say(Told::Left { octets })
    }

    /// Tells what is missing or left.
    fn close(&mut self) -> Result<(), AllocError>
        ensures ok { OnOk result (self.new ≡ closed self.old) }
    {
        self.tell_missing()?;
        self.tell_left()
    }

    fn begin_part(&mut self, name: &'static str) -> Result<(), AllocError>
        ensures ok { OnOk result (self.new ≡ part_begun name.now self.old) }
    {
        if name.is_empty() {
            return Ok(());
        }
        self.say(Told::BeginPart { name })
    }

    fn end_part(&mut self, name: &'static str) -> Result<(), AllocError>
        ensures ok { OnOk result (self.new ≡ part_ended name.now self.old) }
    {
        if name.is_empty() {
            return Ok(());
        }
        self.say(Told::EndPart)
    }

    /// Goes on with the number that was kept before.
    fn go_back(&mut self, kept: u64)
        ensures { self.new ≡ back kept self.old }
    {
        self.kept = kept;
        match self.mode {
            Mode::Going | Mode::Ended => self.mode = Mode::Going,
            Mode::Short => {}
        }
    }

    #[cycle(reading)]
    #[tactic(auto, unfolding(crate::specs::Reading::part))]
    fn read_part(
        &mut self,
        forms: &[&'static [&'static [Step]]],
        depth: u8,
        name: &'static str,
        form: u8,
    ) -> Result<(), AllocError>
        ensures ok { OnOk result (self.new ≡ part (reads (tables_of forms.now) depth) name.now form self.old) }
    {
        let kept = self.kept;
        self.begin_part(name)?;
        self.read_form(forms, depth, form)?;
        self.end_part(name)?;
        self.go_back(kept);
        Ok(())
    }

    #[cycle(reading)]
    #[tactic(auto, unfolding(crate::specs::Reading::item))]
    fn read_item(
        &mut self,
        forms: &[&'static [&'static [Step]]],
        depth: u8,
        name: &'static str,
        form: u8,
    ) -> Result<(), AllocError>
        ensures ok { OnOk result (self.new ≡ item (reads (tables_of forms.now) depth) name.now form self.old) }
    {
        let kept = self.kept;
        self.say(Told::BeginItem { name })?;
        self.read_form(forms, depth, form)?;
        self.say(Told::EndItem { name })?;
        self.go_back(kept);
        Ok(())
    }

    fn stops(&self, to_end: bool) -> bool
        ensures { result ≡ stops to_end self.now }
    {
        !self.is_going() || (to_end && self.rest.len() == 0)
    }

    #[cycle(reading)]
    #[tactic(auto, using(crate::proofs::Steps::items_go, crate::proofs::Steps::items_stop))]
    fn read_items(
        &mut self,
        forms: &[&'static [&'static [Step]]],
        depth: u8,
        to_end: bool,
        count: u64,
        name: &'static str,
        form: u8,
    ) -> Result<(), AllocError>
        ensures ok { OnOk result (self.new ≡ items (item (reads (tables_of forms.now) depth) name.now form) (stops to_end) count self.old) }
    {
        for turn in 0..count {
            if self.stops(to_end) {
                return Ok(());
            }
            self.read_item(forms, depth, name, form)?;
        }
        Ok(())
    }

    #[cycle(reading)]
    #[tactic(auto, unfolding(crate::specs::Reading::listed))]
    fn read_list(
        &mut self,
        forms: &[&'static [&'static [Step]]],
        depth: u8,
        to_end: bool,
        count: u64,
        list: &'static str,
        name: &'static str,
        form: u8,
    ) -> Result<(), AllocError>
        ensures ok { OnOk result (self.new ≡ listed (reads (tables_of forms.now) depth) to_end count list.now name.now form self.old) }
    {
        self.say(Told::BeginList { name: list })?;
        self.read_items(forms, depth, to_end, count, name, form)?;
        self.say(Told::EndList)
    }

    #[cycle(reading)]
    #[tactic(auto, unfolding(crate::specs::Reading::sized))]
    fn read_sized(
        &mut self,
        forms: &[&'static [&'static [Step]]],
        depth: u8,
        count: u8,
        less: u8,
        form: u8,
    ) -> Result<(), AllocError>
        ensures ok { OnOk result (self.new ≡ sized (reads (tables_of forms.now) depth) count less form self.old) }
    {
        let Some(cut) = split_sized(self.rest, count, less) else {
            self.mode = Mode::Short;
            return Ok(());
        };
        let number = self.kept;
        self.rest = cut.body;
        self.say(Told::Field {
            views: &[],
            octets: cut.size,
        })?;
        self.read_form(forms, depth, form)?;
        self.close()?;
        self.rest = cut.rest;
        self.kept = number;
        self.mode = Mode::Going;
        Ok(())
    }

    #[cycle(reading)]
    fn read_case(
        &mut self,
        forms: &[&'static [&'static [Step]]],
        depth: u8,
        case: &Option<Case>,
    ) -> Result<(), AllocError>
        ensures ok { OnOk result (self.new ≡ case_read (reads (tables_of forms.now) depth) case.now self.old) }
    {
        match case {
            Some(case) => self.read_part(forms, depth, case.name, case.form),
            None => Ok(()),
        }
    }

    #[cycle(reading)]
    #[tactic(auto, unfolding(crate::specs::Reading::stepped))]
    fn read_step(
        &mut self,
        forms: &[&'static [&'static [Step]]],
        depth: u8,
        step: &Step,
    ) -> Result<(), AllocError>
        ensures ok { OnOk result (self.new ≡ stepped (reads (tables_of forms.now) depth) step.now self.old) }
    {
        if !self.is_going() {
            return Ok(());
        }
        match step {
            Step::Field { octets, views } => self.field(*octets, *views),
            Step::All { views } => self.all_left(*views),
            Step::Keep { octets } => {
                self.keep(*octets);
                Ok(())
            }
            Step::May => {
                self.may_end();
                Ok(())
            }
            Step::Choose { bits, cases } => {
                let case = case_for(*cases, bits_of(*bits, self.kept));
                self.read_case(forms, depth, &case)
            }
            Step::Each { list, item, form } => {
                let count = self.rest.len() as u64;
                self.read_list(forms, depth, true, count, *list, *item, *form)
            }
            Step::Times {
                bits,
                list,
                item,
                form,
            } => {
                let count = bits_of(*bits, self.kept);
                self.read_list(forms, depth, false, count, *list, *item, *form)
            }
            Step::Sized { octets, less, form } => {
                self.read_sized(forms, depth, *octets, *less, *form)
            }
        }
    }

    #[cycle(reading)]
    #[tactic(auto, using(crate::proofs::Steps::reads_go, crate::proofs::Steps::reads_none))]
    fn read_form(
        &mut self,
        forms: &[&'static [&'static [Step]]],
        depth: u8,
        form: u8,
    ) -> Result<(), AllocError>
        ensures ok { OnOk result (self.new ≡ reads (tables_of forms.now) depth form self.old) }
    {
        if depth == 0 {
            self.mode = Mode::Short;
            return Ok(());
        }
        let steps = form_of(forms, form);
        for step in steps {
            self.read_step(forms, depth - 1, step)?;
        }
        Ok(())
    }
}

/// What a body tells by the form of a number, in tables of at most sixteen forms each: the octets of what is told, joined in order, are
/// the body. The error is that an allocation was refused.
pub fn read<'a>(
    alloc: Global,
    forms: &[&'static [&'static [Step]]],
    form: u8,
    body: &'a [u8],
) -> Result<Vec<Told<'a>>, AllocError>
    ensures { IfOk result (λ told. map event_of told.items ≡ told_by (tables_of forms.now) form body.now) }
{
    let mut reader = Reader {
        rest: body,
        kept: 0,
        mode: Mode::Going,
        told: Vec::new(alloc),
    };
    reader.read_form(forms, DEEPEST, form)?;
    reader.close()?;
    let Reader { told, .. } = reader;
    Ok(told)
}
