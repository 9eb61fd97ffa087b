//! Fields, by selectors.

ghost use Rattle.std.specs.Prelude.{◌≡◌, IfOk, option_and_then};
ghost use Rattle.std.specs.Option.{option_map};
ghost use Rattle.typed.specs.View.{ex_of};
ghost use Rattle.operators.specs.Passing.{operand_of};
ghost use Rattle.names.specs.Scope.{scope_of};
ghost use Rattle.operand_parts.specs.Parts.{part_read, part_value, selected};
ghost use Rattle.operand_parts.specs.PartFaults.{field_fault, selected_fault, selector_fault};

use base::{NoMemory, Pos, TypeId, ValueType};
use names::{Part, Scope, named_field, spelled};
use operators::Operand;
use std::alloc::Global;
use syntax::Name;
use type_faults::{Fault, FaultKind};
use typed::{Expr, Place, Step};

/// The part of a value by its number in the value's type: of a place it is a place.
#[tactic(auto, using(typed::proofs::Rows::expr_rows, crate::proofs::Steps::steps_push))]
fn part_read(alloc: Global, owner: TypeId, number: u32, value: Expr) -> Result<Expr, NoMemory>
    ensures { IfOk result (λ e. ex_of e ≡ part_read owner.0 number (ex_of value)) }
{
    match value {
        Expr::Read(Place::Local(site, mut steps)) => {
            steps.push(Step::Inner(number))?;
            Ok(Expr::Read(Place::Local(site, steps)))
        }
        Expr::Read(Place::Global(global, mut steps)) => {
            steps.push(Step::Inner(number))?;
            Ok(Expr::Read(Place::Global(global, steps)))
        }
        Expr::Read(Place::Indirect(pos, pointer, target, mut steps)) => {
            steps.push(Step::Inner(number))?;
            Ok(Expr::Read(Place::Indirect(pos, pointer, target, steps)))
        }
        Expr::Read(Place::SliceElement(pos, slice, index, element, mut steps)) => {
            steps.push(Step::Inner(number))?;
            let place = Place::SliceElement(pos, slice, index, element, steps);
            Ok(Expr::Read(place))
        }
        value => Ok(Expr::Part(owner, number, Box::new(alloc, value)?)),
    }
}

fn part_value(alloc: Global, value: Expr, part: Part) -> Result<Operand, NoMemory>
    ensures { IfOk result (λ x. operand_of x ≡ part_value (ex_of value) part) }
{
    let read = part_read(alloc, part.owner, part.number, value)?;
    Ok(Operand::Value(part.value_type, read))
}

/// The field of an operand that has a name.
fn field_of(
    alloc: Global,
    text: &[u8],
    scope: &Scope,
    name: Name,
    operand: Operand,
) -> Result<Option<Operand>, NoMemory>
    ensures { IfOk result (λ o. option_map operand_of o ≡ selected text.now (scope_of scope.now) name (operand_of operand)) }
{
    let Operand::Value(value_type, value) = operand else {
        return Ok(None);
    };
    match named_field(scope, value_type, spelled(text, name)) {
        Some(part) => Ok(Some(part_value(alloc, value, part)?)),
        None => Ok(None),
    }
}

/// The field of an operand that has a name, where there is an operand and it has such a field.
pub fn selected(
    alloc: Global,
    text: &[u8],
    scope: &Scope,
    name: Name,
    operand: Option<Operand>,
) -> Result<Option<Operand>, NoMemory>
    ensures { IfOk result (λ o. option_map operand_of o
        ≡ option_and_then (selected text.now (scope_of scope.now) name) (option_map operand_of operand)) }
{
    match operand {
        Some(operand) => field_of(alloc, text, scope, name, operand),
        None => Ok(None),
    }
}

/// The fault of a name that a struct may not have as a field.
fn field_fault(has_field: bool, pos: Pos) -> Option<Fault>
    ensures { result ≡ field_fault has_field pos }
{
    if has_field {
        None
    } else {
        Some(Fault {
            kind: FaultKind::Unknown,
            pos,
        })
    }
}

/// Why an operand has no field with a name, if it has none.
fn selected_fault(
    text: &[u8],
    scope: &Scope,
    first_pos: Pos,
    name: Name,
    operand: &Operand,
) -> Option<Fault>
    ensures { result ≡ selected_fault text.now (scope_of scope.now) first_pos name (operand_of operand.now) }
{
    match operand {
        Operand::Value(ValueType::Struct(id), _) => {
            let field = named_field(scope, ValueType::Struct(*id), spelled(text, name));
            field_fault(field.is_some(), name.pos)
        }
        _ => Some(Fault {
            kind: FaultKind::Unfit,
            pos: first_pos,
        }),
    }
}

/// The rule of a selector that fails, of an operand that begins at a place: a field that is not there, or an operand without fields.
pub fn selector_fault(
    text: &[u8],
    scope: &Scope,
    first_pos: Pos,
    name: Name,
    operand: &Option<Operand>,
) -> Option<Fault>
    ensures { result ≡ selector_fault text.now (scope_of scope.now) first_pos name (option_map operand_of operand.now) }
{
    match operand {
        Some(operand) => selected_fault(text, scope, first_pos, name, operand),
        None => None,
    }
}
