//! The forms of calls: their names and their members.

ghost use Rattle.std.specs.Prelude.{◌≡◌, ◌∷◌, Ok, Err, IfOk, IfErr, codes, map};
ghost use Rattle.serde_json.specs.View.{view};
ghost use Rattle.jsonrows.specs.Calls.{form_named, members_of, form_of};

use crate::schema_notes::text_of;
use crate::schema_reading::has_only;
use bits::{R, Refusal};
use serde_json::Value as Json;

/// Which call it is.
#[derive(Clone, Copy)]
pub enum Form {
    Append,
    BeginAppend,
    Stage,
    Commit,
    Abort,
    Remove,
    RemoveGroups,
    BeginRewrite,
    StepRewrite,
    PlanRewrite,
    Query,
    Fetch,
    Close,
    Groups,
    Count,
    Import,
    AddColumn,
    Reopen,
}

/// The forms, by their names.
const FORMS: [(&str, Form); 18] = [
    ("append", Form::Append),
    ("begin_append", Form::BeginAppend),
    ("stage", Form::Stage),
    ("commit", Form::Commit),
    ("abort", Form::Abort),
    ("remove", Form::Remove),
    ("remove_groups", Form::RemoveGroups),
    ("begin_rewrite", Form::BeginRewrite),
    ("step_rewrite", Form::StepRewrite),
    ("plan_rewrite", Form::PlanRewrite),
    ("query", Form::Query),
    ("fetch", Form::Fetch),
    ("close", Form::Close),
    ("groups", Form::Groups),
    ("count", Form::Count),
    ("import", Form::Import),
    ("add_column", Form::AddColumn),
    ("reopen", Form::Reopen),
];

/// The form of a call. Refused Script where the JSON value names no call, or has a member that is not of its form.
pub fn form_of(json: &Json) -> R<Form>
    ensures made { IfOk result (λ form. form_of (view json.now) ≡ Ok form) }
    ensures which { IfErr result (λ e. form_of (view json.now) ≡ Err e) }
{
    let Some(name) = text_of(json.get("call")) else {
        return Err(Refusal::Script);
    };
    let Some(form) = form_named(&FORMS, name) else {
        return Err(Refusal::Script);
    };
    if has_only(json, members_of(form)) {
        Ok(form)
    } else {
        Err(Refusal::Script)
    }
}

/// The form of a name, where it is one of these.
fn form_named(forms: &[(&str, Form)], name: &str) -> Option<Form>
    ensures { result ≡ form_named (map (λ w. (w.0.now, w.1)) forms.now) name.now }
{
    for (known, form) in forms {
        if *known == name {
            return Some(*form);
        }
    }
    None
}

/// The members that a call of this form has.
fn members_of(form: Form) -> &'static [&'static str]
    ensures { map (λ n. n.now) result.now ≡ codes "call" ∷ members_of form }
{
    match form {
        Form::Append => &["call", "rows"],
        Form::Stage => &["call", "job", "rows"],
        Form::Commit | Form::Abort | Form::StepRewrite => &["call", "job"],
        Form::Remove | Form::Count => &["call", "filter"],
        Form::RemoveGroups | Form::BeginRewrite => &["call", "numbers"],
        Form::PlanRewrite => &["call", "min_rows"],
        Form::Query => &["call", "filter", "columns"],
        Form::Fetch | Form::Close => &["call", "cursor"],
        Form::Import => &["call", "bytes"],
        Form::AddColumn => &["call", "field"],
        Form::BeginAppend | Form::Groups | Form::Reopen => &["call"],
    }
}
