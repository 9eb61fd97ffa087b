//! A scope with two structs, arrays, a constant and variables, made by hand:
//!
//!     type P struct { x, y int }
//!     type L struct { ends [2]P; on bool }
//!     const n = 2
//!     var (p P; l L; a [3]int; m [2][3]int; i int)

ghost use Rattle.std.specs.Prelude.{◌≡◌, length};

use base::{Pos, StructId, TypeId, ValueType};
use constants::{Constant, untyped};
use names::{Blocks, Declared, Known, Scope, ValueId, beginning};
use std::alloc::Global;
use std::process::Abort;
use std::test::Fail;
use typed::{BOOL, INT, TableFault, TypeTable};

const P: StructId = StructId(0);

const L: StructId = StructId(1);

const P_TYPE: TypeId = TypeId(2);

const ENDS_TYPE: TypeId = TypeId(3);

const ROW_TYPE: TypeId = TypeId(5);

const ENDS: ValueType = ValueType::Array(2, P_TYPE);

const ROW: ValueType = ValueType::Array(3, INT);

const ROWS: ValueType = ValueType::Array(2, ROW_TYPE);

/// The types of the table in the order of their numbers, as Go writes them.
const TYPES: [(&str, ValueType); 7] = [
    ("int", ValueType::Int),
    ("bool", ValueType::Bool),
    ("P", ValueType::Struct(P)),
    ("[2]P", ENDS),
    ("L", ValueType::Struct(L)),
    ("[3]int", ROW),
    ("[2][3]int", ROWS),
];

/// A type of the table as Go writes it.
pub fn type_word(value_type: ValueType) -> &'static str {
    for (word, known) in TYPES {
        if value_type == known {
            return word;
        }
    }
    "another type"
}

/// Tells a struct whose fields have words.
fn tell(table: &mut TypeTable, id: StructId, fields: Vec<TypeId>) -> Result<(), TableFault> {
    for field in &fields {
        if table.words_at(*field).is_none() {
            return Ok(());
        }
    }
    if (id.0 as usize) < table.struct_count() && table.fields(id).is_none() {
        table.tell(id, fields)?;
    }
    Ok(())
}

fn enter_types(table: &mut TypeTable) -> Result<(), TableFault>
    requires { length table.old.structs ≡ 2 }
{
    let point = table.enter(ValueType::Struct(P))?;
    table.enter(ValueType::Array(2, point))?;
    table.enter(ValueType::Struct(L))?;
    let row = table.enter(ROW)?;
    table.enter(ValueType::Array(2, row))?;
    Ok(())
}

fn tell_structs(alloc: Global, table: &mut TypeTable) -> Result<(), Fail> {
    tell(table, P, vec![in alloc; INT, INT]?)?;
    tell(table, L, vec![in alloc; ENDS_TYPE, BOOL]?)?;
    Ok(())
}

fn table_of(alloc: Global) -> Result<TypeTable, Fail> {
    let mut table = TypeTable::new(alloc, 2)?;
    enter_types(&mut table)?;
    tell_structs(alloc, &mut table)?;
    Ok(table)
}

/// Two fields by their names.
fn fields_of(alloc: Global, first: &[u8], second: &[u8]) -> Result<Blocks, Fail> {
    let mut fields = Blocks::new(alloc);
    fields.insert(first, 0)?;
    fields.insert(second, 1)?;
    Ok(fields)
}

fn add_fields(alloc: Global, scope: &mut Scope) -> Result<(), Fail> {
    scope.add_struct(fields_of(alloc, b"x", b"y")?)?;
    scope.add_struct(fields_of(alloc, b"ends", b"on")?)?;
    Ok(())
}

fn declare_types(scope: &mut Scope) -> Result<(), Fail> {
    scope.declare(b"P", Declared::Type(ValueType::Struct(P)))?;
    scope.declare(b"L", Declared::Type(ValueType::Struct(L)))?;
    Ok(())
}

fn declare_constant(scope: &mut Scope) -> Result<(), Fail> {
    scope.add_value(Some(Known::Constant(untyped(Constant::Number(2)))))?;
    scope.declare(b"n", Declared::Constant(ValueId(0)))?;
    Ok(())
}

fn declare_variables(scope: &mut Scope) -> Result<(), Fail> {
    let variables: [(&[u8], ValueType); 5] = [
        (b"p", ValueType::Struct(P)),
        (b"l", ValueType::Struct(L)),
        (b"a", ROW),
        (b"m", ROWS),
        (b"i", ValueType::Int),
    ];
    let pos = Pos {
        offset: 0,
        line: 1,
        col: 1,
    };
    for (name, value_type) in variables {
        scope.declare_variable(name, pos, Some(value_type))?;
    }
    Ok(())
}

fn declare_all(alloc: Global, scope: &mut Scope) -> Result<(), Fail> {
    scope.types = table_of(alloc)?;
    add_fields(alloc, scope)?;
    declare_types(scope)?;
    declare_constant(scope)?;
    declare_variables(scope)
}

/// The scope.
pub fn declared(alloc: Global) -> Result<Scope, Fail> {
    let mut scope = beginning(alloc)?;
    declare_all(alloc, &mut scope)?;
    Ok(scope)
}

fn check_table(rt: &impl Abort, table: &TypeTable) {
    let mut number: u32 = 0;
    for (word, value_type) in TYPES {
        assert_eq!(rt; table.find(value_type), Some(TypeId(number)), "{word}");
        number = number.wrapping_add(1);
    }
    assert_eq!(rt; table.find(ValueType::Array(2, INT)), None);
}

/// The types have the numbers that are written here, and words.
#[test]
fn types(rt: HostRuntime) -> Result<(), Fail> {
    let scope = declared(rt.alloc())?;
    check_table(&rt, &scope.types);
    assert_eq!(rt; scope.types.words(ValueType::Struct(L)), Some(5));
    assert_eq!(rt; scope.types.words(ROWS), Some(6));
    Ok(())
}
