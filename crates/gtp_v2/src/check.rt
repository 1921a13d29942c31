//! Messages checked in place, taking no memory.

ghost use Rattle.std.specs.Prelude.{◌≡◌, map, Err};
ghost use Rattle.gtp_values.specs.Steps.{Gives};
ghost use Rattle.gtp_ie.specs.Element.{all_of};
ghost use Rattle.gtp_ie.specs.View.{element_of};
ghost use Rattle.gtp_ie.specs.Form.{number_of};
ghost use Rattle.gtp_ie.specs.declared.form.Form.TheVariants as forms;
ghost use Rattle.gtp_v2.specs.reading.Lines.{line_of};
ghost use Rattle.gtp_v2.specs.Table.{start};
ghost use Rattle.gtp_v2.specs.reading.Rows.{named, lines_at};
ghost use Rattle.gtp_v2.specs.reading.Checked.{value_accepts, value_reads, one_accepts, needed_accepts as needed_accepts_of, optional_accepts as optional_accepts_of, row_says, rows_accept, forgotten, inner_passes, group_passes, groups_silent, groups_say, values_say, with_one, several_say, line_says, lines_say};

use crate::fault::{Need, RowFault};
use crate::table::{Line, Row, State};
use gtp_ie::{
    ChargingId, EbiValue, ElementView, Form, IeFault, IeValue, Indexed, PdnType, Pti, Rat,
    ReadFault, Recovery, Selection,
};
use gtp_values::{Ambr, Apn, Cause, FTeid, Imsi, Paa, Plmn, Qos, Tft};

/// That a body spells a value of a type that is no cause, and so accepts: only a cause can refuse.
fn reads<T: IeValue>(body: &[u8]) -> Result<bool, ReadFault>
    ensures { Gives (λ b. b) result (value_reads T.KIND body.now) }
{
    T::check(body)?;
    Ok(true)
}

/// Whether the cause that a body spells accepts.
#[tactic(auto, unfolding(crate::specs::reading::Checked::value_accepts))]
fn cause_accepts(body: &[u8]) -> Result<bool, ReadFault>
    ensures { Gives (λ b. b) result (value_accepts (number_of forms.Cause) body.now) }
{
    match Cause::parse(body) {
        Ok(cause) => Ok(cause.is_accepting()),
        Err(fault) => Err(fault),
    }
}

/// Whether the value that a body of this form spells accepts.
#[tactic(auto, unfolding(crate::specs::reading::Checked::value_accepts, gtp_ie::specs::Value::value_at))]
fn accepts_form(form: Form, body: &[u8]) -> Result<bool, ReadFault>
    ensures { Gives (λ b. b) result (value_accepts (number_of form) body.now) }
{
    match form {
        Form::Imsi => reads::<Imsi>(body),
        Form::Cause => cause_accepts(body),
        Form::Recovery => reads::<Recovery>(body),
        Form::Apn => reads::<Apn>(body),
        Form::Ambr => reads::<Ambr>(body),
        Form::Ebi => reads::<EbiValue>(body),
        Form::Paa => reads::<Paa>(body),
        Form::Qos => reads::<Qos>(body),
        Form::Rat => reads::<Rat>(body),
        Form::Plmn => reads::<Plmn>(body),
        Form::Tft => reads::<Tft>(body),
        Form::FTeid => reads::<FTeid>(body),
        Form::ChargingId => reads::<ChargingId>(body),
        Form::PdnType => reads::<PdnType>(body),
        Form::Pti => reads::<Pti>(body),
        Form::Selection => reads::<Selection>(body),
    }
}

/// Whether the value that a body spells accepts.
fn accepts_value(kind: u8, body: &[u8]) -> Result<bool, ReadFault>
    ensures { Gives (λ b. b) result (value_accepts kind body.now) }
{
    match Form::of(kind) {
        Some(form) => accepts_form(form, body),
        None => Err(ReadFault::Bad),
    }
}

/// The fault of an element whose body has no value.
#[cold]
fn unread(kind: u8, instance: u8, at: usize, fault: ReadFault) -> RowFault
    ensures { Err result ≡ named kind instance at (Err fault) }
{
    RowFault::Element(match fault {
        ReadFault::Short => IeFault::ShortValue { kind, instance, at },
        ReadFault::Bad => IeFault::BadValue { kind, instance, at },
    })
}

/// Whether the value of an element accepts.
#[tactic(auto, unfolding(crate::specs::reading::Rows::one_at, crate::specs::reading::Checked::one_accepts, crate::specs::reading::Checked::value_accepts))]
fn accepts_one(kind: u8, instance: u8, view: &ElementView) -> Result<bool, RowFault>
    ensures { Gives (λ b. b) result (one_accepts kind instance (element_of view.now)) }
{
    match accepts_value(kind, view.body) {
        Ok(accepting) => Ok(accepting),
        Err(fault) => Err(unread(kind, instance, view.at, fault)),
    }
}

/// Whether the first element of a type and instance accepts, which is needed.
#[tactic(auto, unfolding(crate::specs::reading::Rows::needed_at, crate::specs::reading::Checked::needed_accepts, crate::specs::reading::Checked::one_accepts))]
fn needed_accepts(
    conditional: bool,
    kind: u8,
    instance: u8,
    elements: &Indexed,
) -> Result<bool, RowFault>
    ensures { Gives (λ b. b) result (needed_accepts_of conditional kind instance elements.now) }
{
    let Some(view) = elements.first(kind, instance) else {
        return Err(RowFault::Missing {
            kind,
            instance,
            conditional,
            group: None,
        });
    };
    accepts_one(kind, instance, &view)
}

/// Whether the first element of a type and instance accepts, where it reads.
#[tactic(auto, unfolding(crate::specs::Viewed::optional_at, crate::specs::reading::Checked::optional_accepts, crate::specs::reading::Checked::value_accepts))]
fn optional_accepts(kind: u8, instance: u8, elements: &Indexed) -> Option<bool>
    ensures { result ≡ optional_accepts_of kind instance elements.now }
{
    let view = elements.first(kind, instance)?;
    accepts_value(kind, view.body).ok()
}

/// What the values of a row say.
#[tactic(auto, unfolding(crate::specs::reading::Rows::needed_if_at, crate::specs::reading::Checked::needed_accepts, crate::specs::reading::Checked::optional_accepts, crate::specs::reading::Checked::row_says))]
fn check_row(accepting: bool, row: Row, elements: &Indexed) -> Result<State, RowFault>
    ensures { Gives (λ s. s) result (row_says accepting row elements.now) }
{
    let accepts = match row {
        Row::Mandatory(kind, instance) => Some(needed_accepts(false, kind, instance, elements)?),
        Row::Conditional(kind, instance) => Some(needed_accepts(true, kind, instance, elements)?),
        Row::Accepted(kind, instance) => {
            if accepting {
                Some(needed_accepts(true, kind, instance, elements)?)
            } else {
                optional_accepts(kind, instance, elements)
            }
        }
        Row::Optional(kind, instance) => optional_accepts(kind, instance, elements),
    };
    match accepts {
        Some(accepting) => Ok(State {
            accepting,
            silent: false,
        }),
        None => Ok(State {
            accepting: true,
            silent: true,
        }),
    }
}

/// Whether the causes accept after rows, all of which read.
fn check_rows(accepting: bool, rows: &[Row], elements: &Indexed) -> Result<bool, RowFault>
    ensures { Gives (λ b. b) result (rows_accept accepting rows.now elements.now) }
{
    let mut so_far = accepting;
    for row in rows {
        let now = check_row(so_far, *row, elements)?;
        so_far &= now.accepting;
    }
    Ok(so_far)
}

/// That the elements of a group read by these rows.
#[tactic(auto, using(crate::proofs::Checks::rows_forget), unfolding(crate::specs::reading::Checked::inner_passes))]
fn check_inner(accepting: bool, rows: &[Row], view: &ElementView) -> Result<(), RowFault>
    ensures { Gives (λ u. u) result (inner_passes accepting rows.now (element_of view.now)) }
{
    let elements = view.indexed().map_err(RowFault::Element)?;
    check_rows(accepting, rows, &elements)?;
    Ok(())
}

/// That the rows of a group read.
#[tactic(auto, using(crate::proofs::Checks::group_is))]
fn check_group(accepting: bool, rows: &[Row], view: &ElementView) -> Result<(), RowFault>
    ensures { Gives (λ u. u) result (group_passes accepting rows.now (element_of view.now)) }
{
    match check_inner(accepting, rows, view) {
        Ok(()) => Ok(()),
        Err(fault) => Err(fault.in_group(view.at)),
    }
}

/// Whether there is no group of a type and instance; each that there is has to read.
fn check_each(
    kind: u8,
    instance: u8,
    accepting: bool,
    rows: &[Row],
    elements: &Indexed,
) -> Result<bool, RowFault>
    ensures { Gives (λ b. b) result (groups_silent accepting rows.now
        (all_of kind instance elements.now)) }
{
    let mut silent = true;
    for view in elements.all(kind, instance) {
        check_group(accepting, rows, &view)?;
        silent = false;
    }
    Ok(silent)
}

/// What groups say.
#[tactic(auto, unfolding(crate::specs::reading::Checked::groups_say))]
fn check_groups(
    need: Need,
    kind: u8,
    instance: u8,
    accepting: bool,
    rows: &[Row],
    elements: &Indexed,
) -> Result<State, RowFault>
    ensures { Gives (λ s. s) result (groups_say need kind instance accepting rows.now
        (all_of kind instance elements.now)) }
{
    let silent = check_each(kind, instance, accepting, rows, elements)?;
    let conditional = match need {
        Need::Mandatory => false,
        Need::Conditional => true,
        Need::Optional => {
            return Ok(State {
                accepting: true,
                silent,
            });
        }
    };
    if silent {
        return Err(RowFault::Missing {
            kind,
            instance,
            conditional,
            group: None,
        });
    }
    Ok(State {
        accepting: true,
        silent: false,
    })
}

/// What one more value says, after others.
fn one_more(said: State, now: bool) -> State
    ensures { result ≡ with_one said now }
{
    if said.silent {
        State {
            accepting: now,
            silent: false,
        }
    } else {
        said
    }
}

/// What the values of all elements of a type and instance say.
fn check_values(kind: u8, instance: u8, elements: &Indexed) -> Result<State, RowFault>
    ensures { Gives (λ s. s) result (values_say kind instance (all_of kind instance elements.now)) }
{
    let mut said = State {
        accepting: true,
        silent: true,
    };
    for view in elements.all(kind, instance) {
        let now = accepts_one(kind, instance, &view)?;
        said = one_more(said, now);
    }
    Ok(said)
}

/// What the values of a row of several say.
#[tactic(auto, unfolding(crate::specs::reading::Checked::several_say))]
fn check_several(
    needed: bool,
    kind: u8,
    instance: u8,
    missed: u8,
    elements: &Indexed,
) -> Result<State, RowFault>
    ensures { Gives (λ s. s) result (several_say needed kind instance missed elements.now) }
{
    let said = check_values(kind, instance, elements)?;
    if needed && said.silent {
        return Err(RowFault::Missing {
            kind,
            instance: missed,
            conditional: true,
            group: None,
        });
    }
    Ok(said)
}

/// What a line says.
fn check_line(state: State, line: &Line, elements: &Indexed) -> Result<State, RowFault>
    ensures { Gives (λ s. s) result (line_says state (line_of line.now) elements.now) }
{
    match line {
        Line::Single(row) => check_row(state.accepting, *row, elements),
        Line::Grouped(row, rows) => check_groups(
            row.need(state.accepting),
            row.kind(),
            row.instance(),
            state.accepting,
            rows,
            elements,
        ),
        Line::Several(kind, instance, missed) => {
            check_several(state.silent, *kind, *instance, *missed, elements)
        }
    }
}

/// What all lines say, after a state.
fn check_from(state: State, lines: &[Line], elements: &Indexed) -> Result<State, RowFault>
    ensures { Gives (λ s. s) result (lines_say state (map line_of lines.now) elements.now) }
{
    let mut so_far = state;
    for line in lines {
        let now = check_line(so_far, line, elements)?;
        so_far = State {
            accepting: so_far.accepting & now.accepting,
            silent: so_far.silent & now.silent,
        };
    }
    Ok(so_far)
}

/// That elements have what the lines ask: the first fault, or none.
#[tactic(auto, using(crate::proofs::Checks::lines_forget))]
pub fn check_lines(lines: &[Line], elements: &Indexed) -> Result<(), RowFault>
    ensures { Gives (λ u. u) result (forgotten (lines_at start
        (map line_of lines.now) elements.now)) }
{
    let state = State {
        accepting: true,
        silent: true,
    };
    check_from(state, lines, elements)?;
    Ok(())
}
