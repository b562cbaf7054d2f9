//! What lines and viewers say, in each form. The table form has the headings and refusals of the classic one.
ghost use Rattle.std.specs.Prelude.{◌≡◌, ◌++◌, IfOk, OnOk, string_bytes};
ghost use Rattle.script.specs.Spelling.{heading, no_heading, opening, refusal, shape_body, view_heading, viewers_refused};

use crate::fault::Fault;
use crate::manner::Manner;
use crate::{classic_spelling, csv_spelling, json_spelling};
use cells::Refused;
use forms::Form;
use std::alloc::{AllocError, Global};
use trie::Prefix;

/// The block of a refused line.
pub fn refusal(alloc: Global, form: Form, number: u64, fault: Fault) -> Result<String, AllocError>
    ensures { IfOk result (λ text. string_bytes text ≡ refusal form number fault) }
{
    match form {
        Form::Classic => classic_spelling::refusal(alloc, number, fault),
        Form::Csv => csv_spelling::refusal(alloc, number, fault),
        Form::Json => json_spelling::refusal(alloc, number, fault),
        Form::Table => classic_spelling::refusal(alloc, number, fault),
    }
}

/// How the block of a report or a shape begins.
pub fn opening(
    alloc: Global,
    manner: &Manner,
    number: u64,
    edition: u64,
) -> Result<String, AllocError>
    ensures { IfOk result (λ text. string_bytes text ≡ opening manner.now number edition) }
{
    if manner.heads {
        heading(alloc, manner.form, number, edition)
    } else {
        no_heading(alloc, manner.form)
    }
}

/// How it begins under a heading.
fn heading(alloc: Global, form: Form, number: u64, edition: u64) -> Result<String, AllocError>
    ensures { IfOk result (λ text. string_bytes text ≡ heading form number edition) }
{
    match form {
        Form::Classic => classic_spelling::heading(alloc, number, edition),
        Form::Csv => csv_spelling::heading(alloc, number, edition),
        Form::Json => json_spelling::heading(alloc, number, edition),
        Form::Table => classic_spelling::heading(alloc, number, edition),
    }
}

/// How it begins under none.
fn no_heading(alloc: Global, form: Form) -> Result<String, AllocError>
    ensures { IfOk result (λ text. string_bytes text ≡ no_heading form) }
{
    match form {
        Form::Classic | Form::Csv | Form::Table => Ok(String::new(alloc)),
        Form::Json => String::from_str(alloc, "{"),
    }
}

/// The text with what stands behind the opening of a shape's block behind it.
pub fn push_shape(form: Form, text: &mut String, shape: &[(Prefix, u64)]) -> Result<(), AllocError>
    ensures { OnOk result (string_bytes text.new ≡ string_bytes text.old ++ shape_body form shape.now) }
{
    match form {
        Form::Classic => classic_spelling::push_shape(text, shape),
        Form::Csv => csv_spelling::push_shape(text, shape),
        Form::Json => json_spelling::push_shape(text, shape),
        Form::Table => classic_spelling::push_shape(text, shape),
    }
}

/// What stands in place of all blocks of viewers.
pub fn viewers_refused(alloc: Global, form: Form, fault: Refused) -> Result<String, AllocError>
    ensures { IfOk result (λ text. string_bytes text ≡ viewers_refused form fault) }
{
    match form {
        Form::Classic => classic_spelling::viewers_refused(alloc, fault),
        Form::Csv => csv_spelling::viewers_refused(alloc, fault),
        Form::Json => json_spelling::viewers_refused(alloc, fault),
        Form::Table => classic_spelling::viewers_refused(alloc, fault),
    }
}

/// How a viewer's block begins.
pub fn view_heading(
    alloc: Global,
    form: Form,
    viewer: u64,
    edition: u64,
) -> Result<String, AllocError>
    ensures { IfOk result (λ text. string_bytes text ≡ view_heading form viewer edition) }
{
    match form {
        Form::Classic => classic_spelling::view_heading(alloc, viewer, edition),
        Form::Csv => csv_spelling::view_heading(alloc, viewer, edition),
        Form::Json => json_spelling::view_heading(alloc, viewer, edition),
        Form::Table => classic_spelling::view_heading(alloc, viewer, edition),
    }
}
