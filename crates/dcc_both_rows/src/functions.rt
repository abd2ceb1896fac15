//! The functions of texts: their parameters and results, and the bytes that they place.

use crate::both::text_of;
use crate::calls::{FILLS_A_BUFFER, JUMPS_BY_SP, PRINTS_AN_ADDRESS};
use crate::lifted::decompiled;
use dcc_c::{Base, CStmt, Class, Func, Line, Unit};
use dcc_samples::files::{FACTORIAL, program};
use std::alloc::{AllocError, Global};
use std::test::Fail;

// The code after the instructions that set DS, and what its second function takes on the stack and in registers, and
// gives back.
type FunctionRow = (&'static [u8], usize, &'static [Base], Option<Base>);

static FUNCTIONS: [FunctionRow; 5] = [
    // A word on the stack, and a word back.
    (FACTORIAL, 1, &[], Some(Base::Uint)),
    // AX and DX, and a byte of each back.
    (
        b"\xB8\x41\x00\xBA\x01\x00\xE8\x0D\x00\x8A\xC8\xB4\x02\xCD\x21\x8A\xC1\xB4\x4C\xCD\x21\x90\x40\
            \x42\xC3",
        0,
        &[Base::Uint, Base::Uint],
        Some(Base::Ulong),
    ),
    // AL, and the carry back.
    (
        b"\xB0\x07\xE8\x0A\x00\xB0\x01\x72\x02\xB0\x02\xB4\x4C\xCD\x21\x3C\x08\xC3",
        0,
        &[Base::Uchar],
        Some(Base::Uchar),
    ),
    // BX and SI are saved: BX is taken, and neither is given back.
    (
        b"\xBE\x41\x00\xBB\x01\x00\xE8\x0C\x00\x8B\xD6\xB4\x02\xCD\x21\x8B\xC3\xB4\x4C\xCD\x21\x56\x53\
            \xBE\x05\x00\x03\xDE\x89\x1E\x00\x02\x5B\x5E\xC3",
        0,
        &[Base::Uint],
        None,
    ),
    // Nothing, and BX back.
    (
        b"\xE8\x0A\x00\xB8\x64\x00\xE8\x0B\x00\xB4\x4C\xCD\x21\xBB\x07\x00\xBA\x01\x00\xC3\x33\xD2\xF7\
            \xF3\xC3",
        0,
        &[],
        Some(Base::Uint),
    ),
];

fn functions() -> &'static [FunctionRow] {
    &FUNCTIONS
}

// The number types of a function's parameters that registers give.
fn in_registers(alloc: Global, function: &Func) -> Result<Vec<Base>, AllocError> {
    let mut types = Vec::new(alloc);
    for param in &function.params {
        if param.class == Class::Register {
            types.push(param.ty.base)?;
        }
    }
    Ok(types)
}

#[test]
fn just_what_is_wanted_passes_between_functions(rt: HostRuntime) -> Result<(), Fail> {
    let alloc = rt.alloc();
    for (code, stack, registers, result) in functions() {
        let unit = decompiled(alloc, code)?;
        assert!(&rt; unit.funcs.len() >= 2);
        let function = &unit.funcs[1];
        let types = in_registers(alloc, function)?;
        assert_eq!(&rt; types.as_slice(), *registers);
        assert!(&rt; types.len() <= function.params.len());
        assert_eq!(&rt; function.params.len() - types.len(), *stack);
        assert_eq!(&rt; function.result.map(|ty| ty.base), *result);
    }
    Ok(())
}

// Whether a line is a loop.
fn is_loop(line: &Line) -> bool {
    matches!(
        line.stmt,
        CStmt::While(_, _) | CStmt::DoWhile(_, _) | CStmt::Forever(_)
    )
}

// The lengths of the arrays and variables that a unit's functions place.
fn placed(alloc: Global, unit: &Unit) -> Result<Vec<Option<u32>>, AllocError> {
    let mut lengths = Vec::new(alloc);
    for function in &unit.funcs {
        for variable in function.params.iter().chain(function.locals.iter()) {
            if variable.class == Class::Auto {
                lengths.push(variable.len)?;
            }
        }
    }
    Ok(lengths)
}

#[test]
fn only_bytes_whose_address_is_taken_are_placed(rt: HostRuntime) -> Result<(), Fail> {
    let alloc = rt.alloc();
    let rows: [(&[u8], &[Option<u32>]); 4] = [
        (FACTORIAL, &[]),
        (PRINTS_AN_ADDRESS, &[Some(2)]),
        (FILLS_A_BUFFER, &[Some(22)]),
        // One byte stands for SP's address.
        (JUMPS_BY_SP, &[Some(1)]),
    ];
    for (code, lengths) in rows {
        let unit = decompiled(alloc, code)?;
        assert_eq!(&rt; placed(alloc, &unit)?.as_slice(), lengths);
    }
    Ok(())
}

#[test]
fn a_recursive_procedure_has_no_loop(rt: HostRuntime) -> Result<(), Fail> {
    let unit = decompiled(rt.alloc(), FACTORIAL)?;
    assert_eq!(&rt; unit.funcs.len(), 2);
    let factorial = &unit.funcs[1];
    assert_eq!(&rt; factorial.name.as_str(), "f_0011");
    assert!(&rt; !factorial.body.iter().any(is_loop));
    Ok(())
}

#[test]
fn a_recursive_procedure_takes_no_address(rt: HostRuntime) -> Result<(), Fail> {
    let alloc = rt.alloc();
    let file = program(alloc, FACTORIAL)?;
    let text = text_of(&rt, alloc, &file, "8086")?;
    // The operator between two operands alone has a space behind it.
    let mut follows = false;
    for byte in &text {
        assert!(rt; !follows || *byte == b' ');
        follows = *byte == b'&';
    }
    Ok(())
}
