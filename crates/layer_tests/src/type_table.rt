//! What no clause of `typed` says: that memory is given where it is ample, and a worked table.

ghost use Rattle.std.specs.Prelude.{◌≡◌, ◌<◌, length};

use base::{StructId, TypeId, ValueType};
use std::alloc::Global;
use std::process::Abort;
use std::test::Fail;
use typed::{TableFault, TypeTable};

const INT: TypeId = TypeId(0);

const BOOL: TypeId = TypeId(1);

const LINE: StructId = StructId(0);

const POINT: StructId = StructId(1);

/// Tells a struct whose fields have words.
fn tell(table: &mut TypeTable, id: StructId, fields: Vec<TypeId>) -> Result<(), TableFault> {
    for field in &fields {
        if table.words_at(*field).is_none() {
            return Ok(());
        }
    }
    if (id.0 as usize) < table.struct_count() && table.fields(id).is_none() {
        table.tell(id, fields)?;
    }
    Ok(())
}

fn check_structs(rt: &impl Abort, alloc: Global, table: &mut TypeTable) -> Result<(), Fail>
    requires { length table.old.structs ≡ 2 }
{
    let point = table.enter(ValueType::Struct(POINT))?;
    let ends = table.enter(ValueType::Array(2, point))?;
    assert_eq!(rt; table.words_at(ends), None);
    tell(table, POINT, vec![in alloc; INT, INT]?)?;
    assert_eq!(rt; table.words_at(ends), Some(4));
    tell(table, LINE, vec![in alloc; ends, BOOL]?)?;
    assert_eq!(rt; table.words(ValueType::Struct(LINE)), Some(5));
    assert_eq!(rt; table.field_offset(LINE, 1), 4);
    let line = table.enter(ValueType::Struct(LINE))?;
    assert_eq!(rt; table.width(line), 5);
    assert_eq!(rt; table.part(line, 0), ends);
    assert_eq!(rt; table.part(line, 1), BOOL);
    assert_eq!(rt; table.part(line, 2), INT);
    assert_eq!(rt; table.int(), INT);
    assert_eq!(rt; table.part_offset(line, 1), 4);
    assert_eq!(rt; table.part(ends, 1), point);
    assert_eq!(rt; table.part(ends, 2), INT);
    assert_eq!(rt; table.part_offset(ends, 1), 2);
    assert_eq!(rt; table.part_offset(ends, 3), 4);
    assert_eq!(rt; table.type_at(ends), ValueType::Array(2, point));
    assert_eq!(rt; table.find(ValueType::Array(2, point)), Some(ends));
    assert_eq!(rt; table.find(ValueType::Array(3, point)), None);
    Ok(())
}

/// `type line struct { ends [2]point; open bool }` and `type point struct { x, y int }`.
#[test]
fn structs_hold_each_other(rt: HostRuntime) -> Result<(), Fail> {
    let mut table = TypeTable::new(rt.alloc(), 2)?;
    check_structs(&rt, rt.alloc(), &mut table)?;
    let program = table.finish()?;
    assert_eq!(rt; program.types.len(), 5);
    assert_eq!(rt; program.structs.len(), 2);
    Ok(())
}

fn check_refusals(rt: &impl Abort, alloc: Global, table: &mut TypeTable) -> Result<(), Fail>
    requires { length table.old.structs ≡ 2 }
{
    let int = table.enter(ValueType::Int)?;
    assert_eq!(rt; int, INT);
    assert_eq!(rt;
        table.enter(ValueType::Array(0, int)),
        Err(TableFault::Empty)
    );
    assert_eq!(rt;
        table.enter(ValueType::Array(65_536, int)),
        Err(TableFault::TooLarge)
    );
    assert!(rt; table.enter(ValueType::Array(65_535, int)).is_ok());
    let point = table.enter(ValueType::Struct(POINT))?;
    assert!(rt; table.enter(ValueType::Array(40_000, point)).is_ok());
    assert_eq!(rt; tell(table, LINE, Vec::new(alloc)), Err(TableFault::Empty));
    assert_eq!(rt;
        tell(table, POINT, vec![in alloc; INT, INT]?),
        Err(TableFault::TooLarge)
    );
    tell(table, POINT, vec![in alloc; INT]?)?;
    assert_eq!(rt; table.words_at(point), Some(1));
    Ok(())
}

/// Types that lead to a struct have words before it's told, and one of its fields may be of such a type.
fn check_leads(rt: &impl Abort, alloc: Global, table: &mut TypeTable) -> Result<(), Fail>
    requires { length table.old.structs ≡ 2 }
{
    let point = table.enter(ValueType::Struct(POINT))?;
    let next = table.enter(ValueType::Pointer(point))?;
    let others = table.enter(ValueType::Slice(next))?;
    let rows = table.enter(ValueType::Array(2, others))?;
    assert_eq!(rt; table.words_at(point), None);
    assert_eq!(rt; table.words_at(next), Some(1));
    assert_eq!(rt; table.words_at(others), Some(3));
    assert_eq!(rt; table.words_at(rows), Some(6));
    tell(table, POINT, vec![in alloc; INT, next, others]?)?;
    assert_eq!(rt; table.width(point), 5);
    assert_eq!(rt; table.width(next), 1);
    assert_eq!(rt; table.width(rows), 6);
    assert_eq!(rt; table.part(point, 1), next);
    assert_eq!(rt; table.part(next, 0), INT);
    assert_eq!(rt; table.part_offset(point, 2), 2);
    assert_eq!(rt; table.part_offset(others, 1), 0);
    assert_eq!(rt; table.type_at(next), ValueType::Pointer(point));
    assert_eq!(rt; table.find(ValueType::Slice(next)), Some(others));
    assert_eq!(rt; table.find(ValueType::Pointer(others)), None);
    Ok(())
}

/// `type point struct { x int; next *point; others []*point }`.
#[test]
fn a_struct_leads_to_itself(rt: HostRuntime) -> Result<(), Fail> {
    let mut table = TypeTable::new(rt.alloc(), 2)?;
    check_leads(&rt, rt.alloc(), &mut table)
}

/// Types of 0 words, and of more than 65,535.
#[test]
fn what_is_refused(rt: HostRuntime) -> Result<(), Fail> {
    let mut table = TypeTable::new(rt.alloc(), 2)?;
    check_refusals(&rt, rt.alloc(), &mut table)
}
