//! The fields of structs, by their names.

ghost use Rattle.std.specs.Prelude.{◌≡◌, IfOk, OnOk};
ghost use Rattle.syntax.specs.Declarations.{fields_of};
ghost use Rattle.signatures.specs.Structs.{with_field_name, with_field_names, with_fields, fields_of_struct};

use base::NoMemory;
use names::{Blocks, is_blank, spelled};
use std::alloc::Global;
use syntax::{Field, Name};

/// Notes a field by its name with the next number, if it is not blank and the first one of its name.
fn add_field_name(text: &[u8], noted: &mut Blocks, name: Name) -> Result<(), NoMemory>
    ensures { OnOk result (noted.new ≡ with_field_name text.now noted.old name) }
{
    let bytes = spelled(text, name);
    if is_blank(bytes) || noted.innermost(bytes).is_some() {
        return Ok(());
    }
    match u32::try_from(noted.count()) {
        Ok(number) => noted.insert(bytes, number),
        Err(_) => Err(NoMemory),
    }
}

fn add_field_names(text: &[u8], noted: &mut Blocks, names: &[Name]) -> Result<(), NoMemory>
    ensures { OnOk result (noted.new ≡ with_field_names text.now noted.old names.now) }
{
    for name in names {
        add_field_name(text, noted, *name)?;
    }
    Ok(())
}

fn add_fields(text: &[u8], noted: &mut Blocks, fields: &[Field]) -> Result<(), NoMemory>
    ensures { OnOk result (noted.new ≡ with_fields text.now noted.old (fields_of fields.now)) }
{
    for field in fields {
        add_field_names(text, noted, &field.names)?;
    }
    Ok(())
}

/// The fields of a struct by their names: a block that numbers them in their order.
pub fn fields_of_struct(alloc: Global, text: &[u8], fields: &[Field]) -> Result<Blocks, NoMemory>
    ensures { IfOk result (λ noted. noted ≡ fields_of_struct text.now (fields_of fields.now)) }
{
    let mut noted = Blocks::new(alloc);
    add_fields(text, &mut noted, fields)?;
    Ok(noted)
}
