//! Lines at the end of a text.

ghost use Rattle.std.specs.Prelude.{◌≡◌, ◌++◌, OnOk};
ghost use Rattle.std.specs.Option.{option_copied};
ghost use Rattle.set_forms.specs.Forms.{form_line, set_line, entry_line, named_entry_line};

use crate::entries::{Names, write_entry};
use crate::forms::{EntryForm, FormLine, SetForm};
use crate::sets::write_set;
use std::alloc::{AllocError, Global};
use volume_labels::safe_name;

/// Puts a line with its line feed to the end of a text.
///
/// # Errors
///
/// There is no memory for it; what then stands at the end of the text is not said.
#[tactic(auto, unfolding(crate::specs::Forms::form_line))]
pub fn write_form(alloc: Global, text: &mut Vec<u8>, form: &FormLine) -> Result<(), AllocError>
    ensures { OnOk result (text.new.items ≡ text.old.items ++ form_line form.now) }
{
    match form {
        FormLine::Set(form) => write_set_line(alloc, text, form),
        FormLine::Entry(form) => write_entry_line(alloc, text, form),
    }
}

// The line of a data set.
fn write_set_line(alloc: Global, text: &mut Vec<u8>, form: &SetForm) -> Result<(), AllocError>
    ensures { OnOk result (text.new.items ≡ text.old.items ++ set_line form.now) }
{
    let name = safe_name(alloc, &form.name)?;
    match write_set(text, name.as_str(), form) {
        Ok(()) => Ok(()),
        Err(_) => Err(AllocError),
    }
}

// The line of an entry.
fn write_entry_line(alloc: Global, text: &mut Vec<u8>, form: &EntryForm) -> Result<(), AllocError>
    ensures { OnOk result (text.new.items ≡ text.old.items ++ entry_line form.now) }
{
    let name = safe_name(alloc, &form.name)?;
    let Some(member) = &form.member else {
        return write_named(text, name.as_str(), None, form);
    };
    let member = safe_name(alloc, member)?;
    write_named(text, name.as_str(), Some(member.as_str()), form)
}

// The line of an entry whose files have these names.
fn write_named(
    text: &mut Vec<u8>,
    name: &str,
    member: Option<&str>,
    form: &EntryForm,
) -> Result<(), AllocError>
    ensures { OnOk result (text.new.items ≡ text.old.items ++ named_entry_line name.now (option_copied member.entry) form.now) }
{
    match write_entry(text, Names { name, member }, form) {
        Ok(()) => Ok(()),
        Err(_) => Err(AllocError),
    }
}
