//! What no clause of `struct_sizes` says: that memory is given where it is ample, and worked programs.

use base::StructId;
use std::alloc::Global;
use std::test::Fail;
use struct_sizes::{
    Base, DeclaredStruct, LevelFault, Prefix, PrefixedType, Refusal, SizeFault, StructFault,
    TypeRefusal, Verdict, Verdicts, settle, type_words,
};

const POINTER: Prefix = Prefix::Pointer;

const SLICE: Prefix = Prefix::Slice;

const PAIR: Prefix = Prefix::Array(2);

fn type_of(alloc: Global, prefixes: &[Prefix], base: Base) -> Result<PrefixedType, Fail> {
    Ok(PrefixedType {
        prefixes: Vec::from_slice(alloc, prefixes)?,
        base,
    })
}

fn named(number: u32) -> Base {
    Base::Struct(StructId(number))
}

// A struct with a field of prefixes before a base, and one of a base alone.
fn two_fields(
    alloc: Global,
    prefixes: &[Prefix],
    base: Base,
    last: Base,
) -> Result<DeclaredStruct, Fail> {
    Ok(DeclaredStruct {
        fields: vec![in alloc;
            Some(type_of(alloc, prefixes, base)?),
            Some(type_of(alloc, &[], last)?),
        ]?,
    })
}

fn one_field(alloc: Global, prefixes: &[Prefix], base: Base) -> Result<DeclaredStruct, Fail> {
    Ok(DeclaredStruct {
        fields: vec![in alloc; Some(type_of(alloc, prefixes, base)?)]?,
    })
}

// Types, the first of which holds those after it: a chain in falling order.
fn sound_structs(alloc: Global) -> Result<Vec<DeclaredStruct>, Fail> {
    let mut structs = Vec::new(alloc);
    structs.push(two_fields(alloc, &[PAIR], named(1), Base::Int)?)?;
    structs.push(two_fields(alloc, &[], named(2), named(2))?)?;
    structs.push(two_fields(alloc, &[Prefix::Array(3)], Base::Bool, Base::Int)?)?;
    structs.push(two_fields(alloc, &[POINTER], named(3), Base::Int)?)?;
    structs.push(two_fields(alloc, &[SLICE, PAIR], named(4), Base::Int)?)?;
    structs.push(one_field(alloc, &[Prefix::Array(65_535)], Base::Int)?)?;
    Ok(structs)
}

#[test]
fn words_of_structs(rt: HostRuntime) -> Result<(), Fail> {
    let alloc = rt.alloc();
    let structs = sound_structs(alloc)?;
    let found = settle(alloc, &structs)?;
    let words = [17, 8, 4, 2, 4, 65_535];
    assert_eq!(rt;
        found.verdicts.as_slice(),
        words.map(Verdict::Sized).as_slice()
    );
    Ok(())
}

// Structs at fault, and some that mention them.
fn faulty_structs(alloc: Global) -> Result<Vec<DeclaredStruct>, Fail> {
    let mut structs = Vec::new(alloc);
    structs.push(two_fields(alloc, &[Prefix::Array(65_535)], Base::Int, Base::Int)?)?;
    structs.push(DeclaredStruct {
        fields: Vec::new(alloc),
    })?;
    structs.push(one_field(alloc, &[], named(2))?)?;
    structs.push(one_field(alloc, &[PAIR], named(3))?)?;
    structs.push(one_field(alloc, &[], named(5))?)?;
    structs.push(one_field(alloc, &[], named(4))?)?;
    structs.push(one_field(alloc, &[POINTER], named(2))?)?;
    structs.push(one_field(alloc, &[POINTER, PAIR], named(0))?)?;
    structs.push(DeclaredStruct {
        fields: vec![in alloc; None]?,
    })?;
    structs.push(one_field(alloc, &[Prefix::Array(0)], Base::Int)?)?;
    structs.push(one_field(alloc, &[], Base::Int)?)?;
    structs.push(one_field(alloc, &[Prefix::Array(70_000)], named(12))?)?;
    structs.push(one_field(alloc, &[POINTER], named(11))?)?;
    Ok(structs)
}

fn refused(told: Option<StructFault>, is_source: bool) -> Verdict {
    Verdict::Refused(Refusal { told, is_source })
}

#[test]
fn faults_of_structs(rt: HostRuntime) -> Result<(), Fail> {
    let alloc = rt.alloc();
    let structs = faulty_structs(alloc)?;
    let found = settle(alloc, &structs)?;
    let behind = refused(None, false);
    let by_field = refused(None, true);
    let holds_itself = refused(Some(StructFault::HoldsItself), true);
    let expected = [
        refused(Some(StructFault::Size(SizeFault::TooLarge)), true),
        refused(Some(StructFault::Size(SizeFault::ZeroSize)), true),
        holds_itself,
        holds_itself,
        holds_itself,
        holds_itself,
        behind,
        behind,
        by_field,
        by_field,
        Verdict::Sized(1),
        by_field,
        by_field,
    ];
    assert_eq!(rt; found.verdicts.as_slice(), expected.as_slice());
    Ok(())
}

fn words_in(
    alloc: Global,
    found: &Verdicts,
    prefixes: &[Prefix],
    base: Base,
) -> Result<Result<u32, TypeRefusal>, Fail> {
    let t = type_of(alloc, prefixes, base)?;
    Ok(type_words(found, &t))
}

fn level(level: usize, kind: SizeFault) -> Result<u32, TypeRefusal> {
    Err(TypeRefusal::Level(LevelFault { level, kind }))
}

#[test]
fn words_of_types(rt: HostRuntime) -> Result<(), Fail> {
    let alloc = rt.alloc();
    let structs = faulty_structs(alloc)?;
    let found = settle(alloc, &structs)?;
    let zero = level(1, SizeFault::ZeroSize);
    let large = level(0, SizeFault::TooLarge);
    let most = Prefix::Array(u64::MAX);
    assert_eq!(rt; words_in(alloc, &found, &[PAIR, PAIR], named(10))?, Ok(4));
    assert_eq!(rt; words_in(alloc, &found, &[SLICE, PAIR], Base::Bool)?, Ok(3));
    assert_eq!(rt;
        words_in(alloc, &found, &[PAIR, Prefix::Array(0), PAIR], Base::Int)?,
        zero
    );
    assert_eq!(rt; words_in(alloc, &found, &[most, PAIR], Base::Int)?, large);
    assert_eq!(rt;
        words_in(alloc, &found, &[POINTER], named(6))?,
        Err(TypeRefusal::Base)
    );
    assert_eq!(rt;
        words_in(alloc, &found, &[], named(11))?,
        Err(TypeRefusal::Base)
    );
    Ok(())
}
