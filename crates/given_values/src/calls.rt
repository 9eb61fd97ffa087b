//! Calls: what is called, and what a call gives.

ghost use Rattle.std.specs.Prelude.{◌≡◌, ◌⊎◌, ℕ, Option, Some, None, IfOk, map};
ghost use Rattle.std.specs.Option.{option_map};
ghost use Rattle.syntax.specs.Expressions.{spelled};
ghost use Rattle.type_faults.specs.declared.fault.FaultKind.TheVariants.{WrongCount};
ghost use Rattle.type_faults.specs.Least.{IsLeast};
ghost use Rattle.type_faults.specs.Faults.{fault as fault_at, IsFault, FormFails};
ghost use Rattle.operators.specs.Passing.{operand_of};
ghost use Rattle.names.specs.Scope.{scope_of, declaration, signature};
ghost use Rattle.names.specs.Naming.{name_in};
ghost use Rattle.given_values.specs.Given.{global_read, constant_read, operand_in, function_with, callee_declared, callee_value, spread_over, many, count, part_count, exit_places, panicked_with, exited_with, measured, measure_constant, called_with};
ghost use Rattle.given_values.specs.GivenFaults.{SinglesFail, ValuesFail, measured_fault, measure_fault, PrintFails, TakeFails, CallFails, callee_name_fault, refused_fault};
ghost use Rattle.given_values.specs.Passing.{part_view, gives_of, seens, callee_of};
ghost use Rattle.typed.specs.View.{ex_of};

use crate::gives::{Callee, Gives, Item, Part, is_single, length_in};
use crate::values::{
    are_single, count, count_fault, fits, part_count, parts, parts_fault, range_faults,
    shown_fault, singles_fault, take_fault, taken, values, values_fault,
};
use crate::wants::{Wanted, asked};
use base::{FuncId, NoMemory, Pos, ValueType};
use constants::{Constant, Fixed};
use names::{Declared, External, Known, Scope, spelled};
use operators::Operand;
use std::alloc::Global;
use syntax::Name;
use type_faults::{Fault, FaultKind, lesser};
use typed::Expr as Value;

/// A function as what is called, where it has a signature.
fn callee_function(alloc: Global, scope: &Scope, function: FuncId) -> Result<Callee, NoMemory>
    ensures { IfOk result (λ c. callee_of c ≡ function_with function.0 (signature (scope_of scope.now) function.0)) }
{
    match scope.signatures.get(function.0 as usize) {
        Some(Some(signature)) => {
            let places = asked(alloc, &signature.params)?;
            let results = Vec::from_slice(alloc, &signature.results)?;
            Ok(Callee::Function(function, places, results))
        }
        _ => Ok(Callee::Nothing),
    }
}

/// A constant or a package variable as what is called, where its type is known.
fn callee_known(known: Option<Known>) -> Callee
    ensures constant { callee_of result ≡ callee_value (option_map constant_read known) }
    ensures variable { (g : ℕ) → callee_of result ≡ callee_value (option_map (global_read g) known) }
{
    match known {
        Some(_) => Callee::NoFunction,
        None => Callee::Nothing,
    }
}

fn callee_declared(
    alloc: Global,
    scope: &Scope,
    declared: Option<Declared>,
) -> Result<Callee, NoMemory>
    ensures { IfOk result (λ c. callee_of c ≡ callee_declared (scope_of scope.now) declared) }
{
    Ok(match declared {
        Some(Declared::Function(function)) => return callee_function(alloc, scope, function),
        Some(Declared::Constant(number) | Declared::Global(number, _)) => {
            callee_known(scope.known(number))
        }
        Some(Declared::External(External::ReadInt, _)) => Callee::Reader,
        Some(Declared::External(External::Exit, _)) => Callee::Exiter,
        Some(Declared::Print(line)) => Callee::Printer(line),
        Some(Declared::Panic) => Callee::Panicker,
        Some(Declared::Measure(measure)) => Callee::Measurer(measure),
        Some(Declared::Variable(_, _) | Declared::Truth(_) | Declared::Nil) => Callee::NoFunction,
        Some(Declared::Type(_) | Declared::LeftOutType) => Callee::Conversion,
        Some(Declared::Untyped | Declared::LeftOutValue) | None => Callee::Nothing,
    })
}

/// What a name stands for where it is called.
pub fn callee_named(
    alloc: Global,
    text: &[u8],
    scope: &Scope,
    name: Name,
) -> Result<Callee, NoMemory>
    ensures { IfOk result (λ c. callee_of c ≡ callee_declared (scope_of scope.now)
        (declaration (scope_of scope.now) (spelled text.now name))) }
{
    callee_declared(alloc, scope, scope.declaration(spelled(text, name)))
}

fn declared_fault(declared: Option<Declared>, pos: Pos) -> Option<Fault>
    ensures { result ≡ callee_name_fault declared pos }
{
    let kind = match declared {
        None => FaultKind::Unknown,
        Some(Declared::LeftOutType | Declared::LeftOutValue) => FaultKind::OutOfProfile,
        Some(_) => return None,
    };
    Some(Fault { kind, pos })
}

/// The fault of a name that is called.
#[tactic(auto, using(type_faults::proofs::Leasts::leaf))]
pub fn callee_name_fault(text: &[u8], scope: &Scope, name: Name) -> Option<Fault>
    ensures { IsLeast (IsFault (callee_name_fault (declaration (scope_of scope.now) (spelled text.now name)) name.pos)) result }
{
    declared_fault(scope.declaration(spelled(text, name)), name.pos)
}

/// An expression that is no name, as what is called.
pub fn callee_value(operand: &Option<Operand>) -> Callee
    ensures { callee_of result ≡ callee_value (option_map operand_of operand.now) }
{
    match operand {
        Some(_) => Callee::NoFunction,
        None => Callee::Nothing,
    }
}

/// What is called, where `...` may stand after the arguments.
pub fn spread_over(spread: bool, callee: Callee) -> Callee
    ensures { callee_of result ≡ spread_over spread (callee_of callee) }
{
    if !spread {
        return callee;
    }
    match callee {
        Callee::Printer(_) | Callee::Panicker => Callee::NoTextSpread,
        Callee::Measurer(_) | Callee::Reader | Callee::Exiter | Callee::Function(_, _, _) => {
            Callee::NoSpread
        }
        other => other,
    }
}

/// The fault of a call that is refused, where there are arguments.
fn refused_fault(count: Option<usize>, own: Fault) -> Option<Fault>
    ensures { result ≡ refused_fault count own }
{
    match count {
        Some(_) => Some(own),
        None => None,
    }
}

/// The fault of a call that is refused for a kind, with these arguments.
fn refused(kind: FaultKind, pos: Pos, arguments: &[Item]) -> Option<Fault>
    ensures { IsLeast (λ f. ValuesFail (many (seens arguments.now)) (seens arguments.now) f
        ⊎ IsFault (refused_fault (count (seens arguments.now)) (fault_at kind pos)) f) result }
{
    lesser(
        values_fault(arguments),
        refused_fault(count(arguments), Fault { kind, pos }),
    )
}

/// The fault of operands of `print`, `println` or `panic`, which `...` stands after.
fn spread_fault(pos: Pos, arguments: &[Item]) -> Option<Fault>
    ensures { IsLeast (CallFails pos Rattle.given_values.specs.Given.no_text_spread (seens arguments.now)) result }
{
    let own = Fault {
        kind: FaultKind::Unfit,
        pos,
    };
    lesser(
        parts_fault(arguments),
        refused_fault(part_count(arguments), own),
    )
}

/// The fault of operands of `print`, `println` or `panic`.
fn print_fault(pos: Pos, arguments: &[Item]) -> Option<Fault>
    ensures { IsLeast (PrintFails pos (seens arguments.now)) result }
{
    let own = Fault {
        kind: FaultKind::Unfit,
        pos,
    };
    let operands = lesser(parts_fault(arguments), range_faults(arguments));
    lesser(operands, shown_fault(arguments, own))
}

/// The fault of a `panic`, which has one operand.
fn panic_fault(pos: Pos, arguments: &[Item]) -> Option<Fault>
    ensures { IsLeast (CallFails pos Rattle.given_values.specs.Given.panicker (seens arguments.now)) result }
{
    let own = Fault {
        kind: FaultKind::WrongCount,
        pos,
    };
    lesser(
        print_fault(pos, arguments),
        count_fault(part_count(arguments), 1, own),
    )
}

/// The fault of an operand of `len` or `cap` that is no array.
fn measured_fault(pos: Pos, argument: &Item) -> Option<Fault>
    ensures { result ≡ measured_fault pos (operand_in (option_map gives_of argument.now.gives)) }
{
    if is_single(&argument.gives) && length_in(&argument.gives).is_none() {
        Some(Fault {
            kind: FaultKind::Unfit,
            pos,
        })
    } else {
        None
    }
}

/// The fault of another number of operands than one, or of one that is no array.
fn measure_fault(pos: Pos, arguments: &[Item]) -> Option<Fault>
    ensures { result ≡ measure_fault pos (seens arguments.now) }
{
    let own = Fault {
        kind: FaultKind::WrongCount,
        pos,
    };
    match arguments {
        [] => Some(own),
        [argument] => measured_fault(pos, argument),
        _ if are_single(arguments) => Some(own),
        _ => None,
    }
}

/// The fault of a `len` or `cap` with these arguments.
fn measurer_fault(pos: Pos, arguments: &[Item]) -> Option<Fault>
    ensures { IsLeast (λ f. SinglesFail (seens arguments.now) f ⊎ IsFault (measure_fault pos (seens arguments.now)) f) result }
{
    lesser(singles_fault(arguments), measure_fault(pos, arguments))
}

/// The place for the argument of `exit`, an int.
const EXIT_PLACES: [Wanted; 1] = [Wanted::Typed(ValueType::Int)];

/// The fault of arguments at places, where another number of them is refused at the call.
fn places_fault(pos: Pos, places: &[Wanted], arguments: &[Item]) -> Option<Fault>
    ensures { IsLeast (TakeFails (fault_at WrongCount pos) places.now (seens arguments.now)) result }
{
    let own = Fault {
        kind: FaultKind::WrongCount,
        pos,
    };
    take_fault(own, places, arguments)
}

/// The fault of a conversion, which is left out of the profile.
fn conversion_fault(pos: Pos) -> Option<Fault>
    ensures { IsLeast (FormFails pos) result }
{
    Some(Fault {
        kind: FaultKind::OutOfProfile,
        pos,
    })
}

/// The fault of a call with these arguments.
pub fn call_fault(pos: Pos, callee: &Callee, arguments: &[Item]) -> Option<Fault>
    ensures { IsLeast (CallFails pos (callee_of callee.now) (seens arguments.now)) result }
{
    match callee {
        Callee::Printer(_) => print_fault(pos, arguments),
        Callee::Panicker => panic_fault(pos, arguments),
        Callee::Measurer(_) => measurer_fault(pos, arguments),
        Callee::Reader => places_fault(pos, &[], arguments),
        Callee::Exiter => places_fault(pos, &EXIT_PLACES, arguments),
        Callee::Function(_, places, _) => places_fault(pos, places, arguments),
        Callee::Conversion => conversion_fault(pos),
        Callee::NoFunction => refused(FaultKind::NotCallable, pos, arguments),
        Callee::NoSpread => refused(FaultKind::Unfit, pos, arguments),
        Callee::NoTextSpread => spread_fault(pos, arguments),
        Callee::Nothing => values_fault(arguments),
    }
}

fn printed(
    alloc: Global,
    pos: Pos,
    line: bool,
    arguments: Vec<Item>,
) -> Result<Option<Gives>, NoMemory>
    ensures { IfOk result (λ r. option_map gives_of r
        ≡ called_with pos (Rattle.given_values.specs.Given.printer line) (seens arguments.items)) }
{
    match parts(alloc, arguments)? {
        Some(parts) => Ok(Some(Gives::Printed(pos, line, parts))),
        None => Ok(None),
    }
}

fn panicked_with(pos: Pos, parts: Vec<Part>) -> Option<Gives>
    ensures { option_map gives_of result ≡ panicked_with pos (map part_view parts.items) }
{
    let mut parts = parts;
    if parts.len() != 1 {
        return None;
    }
    match parts.pop() {
        Some(part) => Some(Gives::Panicked(pos, part)),
        None => None,
    }
}

fn panicked(alloc: Global, pos: Pos, arguments: Vec<Item>) -> Result<Option<Gives>, NoMemory>
    ensures { IfOk result (λ r. option_map gives_of r
        ≡ called_with pos Rattle.given_values.specs.Given.panicker (seens arguments.items)) }
{
    match parts(alloc, arguments)? {
        Some(parts) => Ok(panicked_with(pos, parts)),
        None => Ok(None),
    }
}

/// The length of the one operand of `len` or `cap`.
fn measured(arguments: &[Item]) -> Option<u64>
    ensures { result ≡ measured (seens arguments.now) }
{
    match arguments {
        [argument] => length_in(&argument.gives),
        _ => None,
    }
}

/// That length as a constant of type int.
fn measure_constant(length: u64) -> Gives
    ensures { gives_of result ≡ measure_constant length }
{
    Gives::One(Operand::Constant(Fixed {
        value_type: Some(ValueType::Int),
        value: Constant::Number(length as i128),
    }))
}

fn asking(pos: Pos, arguments: &[Item]) -> Option<Gives>
    ensures { option_map gives_of result ≡ called_with pos Rattle.given_values.specs.Given.reader (seens arguments.now) }
{
    if fits(&[], arguments) {
        Some(Gives::Asking(pos))
    } else {
        None
    }
}

fn exited_with(pos: Pos, values: Vec<Value>) -> Option<Gives>
    ensures { option_map gives_of result ≡ exited_with pos (map ex_of values.items) }
{
    let mut values = values;
    if values.len() != 1 {
        return None;
    }
    match values.pop() {
        Some(status) => Some(Gives::Exited(pos, status)),
        None => None,
    }
}

fn exited(alloc: Global, pos: Pos, arguments: Vec<Item>) -> Result<Option<Gives>, NoMemory>
    ensures { IfOk result (λ r. option_map gives_of r
        ≡ called_with pos Rattle.given_values.specs.Given.exiter (seens arguments.items)) }
{
    if !fits(&EXIT_PLACES, &arguments) {
        return Ok(None);
    }
    match values(alloc, arguments)? {
        Some(values) => Ok(exited_with(pos, values)),
        None => Ok(None),
    }
}

fn called(
    alloc: Global,
    pos: Pos,
    function: FuncId,
    places: &[Wanted],
    results: Vec<ValueType>,
    arguments: Vec<Item>,
) -> Result<Option<Gives>, NoMemory>
    ensures { IfOk result (λ r. option_map gives_of r
        ≡ called_with pos (Rattle.given_values.specs.Given.function function.0 places.now results.items)
        (seens arguments.items)) }
{
    match taken(alloc, places, arguments)? {
        Some(values) => {
            let values = Box::new(alloc, values)?;
            Ok(Some(Gives::Called(pos, results, function, values)))
        }
        None => Ok(None),
    }
}

/// What a call with these arguments gives.
pub fn call_value(
    alloc: Global,
    pos: Pos,
    callee: Callee,
    arguments: Vec<Item>,
) -> Result<Option<Gives>, NoMemory>
    ensures { IfOk result (λ r. option_map gives_of r ≡ called_with pos (callee_of callee) (seens arguments.items)) }
{
    match callee {
        Callee::Printer(line) => printed(alloc, pos, line, arguments),
        Callee::Panicker => panicked(alloc, pos, arguments),
        Callee::Measurer(_) => Ok(measured(&arguments).map(measure_constant)),
        Callee::Reader => Ok(asking(pos, &arguments)),
        Callee::Exiter => exited(alloc, pos, arguments),
        Callee::Function(function, places, results) => {
            called(alloc, pos, function, &places, results, arguments)
        }
        _ => Ok(None),
    }
}
