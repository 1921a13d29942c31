//! The names of what a form tells.

ghost use Rattle.std.specs.Prelude.{◌≡◌, ◌++◌, OnOk};
ghost use Rattle.gtp_forms.specs.Reading.{tables_of};
ghost use Rattle.gtp_forms.specs.Described.{value_name, seen_name, view_names, within, case_names, list_names, step_names, described};

use crate::form::{Case, How, Step, View};
use crate::reader::{DEEPEST, form_of};
use crate::text::put;
use std::alloc::AllocError;

/// Appends the name of a value.
#[tactic(auto, using(crate::proofs::Events::appending))]
fn put_value_name(out: &mut Vec<u8>, name: &[u8]) -> Result<(), AllocError>
    ensures ok { OnOk result (out.new.items ≡ out.old.items ++ value_name name.now) }
{
    let [_, ..] = name else {
        return put(out, b" value");
    };
    put(out, b" ")?;
    put(out, name)
}

/// Appends the names of what is seen in octets.
fn put_seen_name(out: &mut Vec<u8>, how: How, name: &[u8]) -> Result<(), AllocError>
    ensures ok { OnOk result (out.new.items ≡ out.old.items ++ seen_name how name.now) }
{
    match how {
        How::Network => put(out, b" mcc mnc"),
        How::Spare => Ok(()),
        How::Number(_) | How::Named(_, _) | How::Flag(_) | How::Spelled(_) => {
            put_value_name(out, name)
        }
    }
}

fn put_view_names(out: &mut Vec<u8>, views: &[View]) -> Result<(), AllocError>
    ensures ok { OnOk result (out.new.items ≡ out.old.items ++ view_names views.now) }
{
    for view in views {
        put_seen_name(out, view.how, view.name.as_bytes())?;
    }
    Ok(())
}

#[cycle(describing)]
#[tactic(auto, using(crate::proofs::Events::appending))]
fn put_part(
    out: &mut Vec<u8>,
    forms: &[&'static [&'static [Step]]],
    depth: u8,
    name: &[u8],
    form: u8,
) -> Result<(), AllocError>
    ensures ok { OnOk result
        (out.new.items ≡ out.old.items ++ within name.now (described (tables_of forms.now) depth form)) }
{
    let [_, ..] = name else {
        return put_form(out, forms, depth, form);
    };
    put(out, b" ")?;
    put(out, name)?;
    put(out, b" (")?;
    put_form(out, forms, depth, form)?;
    put(out, b" )")
}

#[cycle(describing)]
fn put_cases(
    out: &mut Vec<u8>,
    forms: &[&'static [&'static [Step]]],
    depth: u8,
    cases: &[Case],
) -> Result<(), AllocError>
    ensures ok { OnOk result
        (out.new.items ≡ out.old.items ++ case_names (described (tables_of forms.now) depth) cases.now) }
{
    for case in cases {
        put_part(out, forms, depth, case.name.as_bytes(), case.form)?;
    }
    Ok(())
}

#[cycle(describing)]
#[tactic(auto, using(crate::proofs::Events::appending))]
fn put_list(
    out: &mut Vec<u8>,
    forms: &[&'static [&'static [Step]]],
    depth: u8,
    name: &[u8],
    form: u8,
) -> Result<(), AllocError>
    ensures ok { OnOk result
        (out.new.items ≡ out.old.items ++ list_names name.now (described (tables_of forms.now) depth form)) }
{
    put(out, b" ")?;
    put(out, name)?;
    put(out, b"* (")?;
    put_form(out, forms, depth, form)?;
    put(out, b" )")
}

#[cycle(describing)]
fn put_step(
    out: &mut Vec<u8>,
    forms: &[&'static [&'static [Step]]],
    depth: u8,
    step: &Step,
) -> Result<(), AllocError>
    ensures ok { OnOk result
        (out.new.items ≡ out.old.items ++ step_names (described (tables_of forms.now) depth) step.now) }
{
    match step {
        Step::Field { views, .. } => put_view_names(out, *views),
        Step::All { views } => put_view_names(out, *views),
        Step::Keep { .. } | Step::May => Ok(()),
        Step::Choose { cases, .. } => put_cases(out, forms, depth, *cases),
        Step::Each { list, form, .. } => put_list(out, forms, depth, list.as_bytes(), *form),
        Step::Times { list, form, .. } => put_list(out, forms, depth, list.as_bytes(), *form),
        Step::Sized { form, .. } => put_form(out, forms, depth, *form),
    }
}

#[cycle(describing)]
#[tactic(auto, using(crate::proofs::Names::described_go, crate::proofs::Names::described_none))]
fn put_form(
    out: &mut Vec<u8>,
    forms: &[&'static [&'static [Step]]],
    depth: u8,
    form: u8,
) -> Result<(), AllocError>
    ensures ok { OnOk result
        (out.new.items ≡ out.old.items ++ described (tables_of forms.now) depth form) }
{
    if depth == 0 {
        return Ok(());
    }
    let steps = form_of(forms, form);
    for step in steps {
        put_step(out, forms, depth - 1, step)?;
    }
    Ok(())
}

/// Appends the names of what a form tells, each after a blank, in the order of its steps; behind a part, and behind a list, which has a
/// star, what it has stands in parentheses.
pub fn put_names(
    out: &mut Vec<u8>,
    forms: &[&'static [&'static [Step]]],
    form: u8,
) -> Result<(), AllocError>
    ensures ok { OnOk result
        (out.new.items ≡ out.old.items ++ described (tables_of forms.now) 8 form) }
{
    put_form(out, forms, DEEPEST, form)
}
