//! Registers by number, and the operands that a ModRM byte names (8086 Family User's Manual,
//! tables 4-8 to 4-10).

ghost use Rattle.std.specs.Prelude.{◌≡◌, ◌<◌, length, get_or, None};
ghost use Rattle.dcc_machine.specs.Operands.{word_register, byte_register, register, mod_field, reg_field, rm_field};
ghost use Rattle.dcc_machine.specs.Operands.{has_direct_address, displacement_size, base_registers, index_registers};
ghost use Rattle.dcc_machine.specs.Operands.{address, rm_operand};

use dcc_machine::{Ea, Operand};
use dcc_num::{Half, Reg, Width};

/// The word register of a number.
pub(crate) fn word_register(number: u8) -> Reg
    requires { number < 8 }
    ensures { result ≡ word_register number }
{
    match number {
        0 => Reg::Ax,
        1 => Reg::Cx,
        2 => Reg::Dx,
        3 => Reg::Bx,
        4 => Reg::Sp,
        5 => Reg::Bp,
        6 => Reg::Si,
        _ => Reg::Di,
    }
}

/// The byte register of a number: AL, CL, DL, BL, AH, CH, DH, BH.
pub(crate) fn byte_register(number: u8) -> Operand
    requires { number < 8 }
    ensures { result ≡ byte_register number }
{
    let half = if number < 4 { Half::Low } else { Half::High };
    Operand::Byte(word_register(number & 3), half)
}

/// The register of that width and number.
pub fn register(width: Width, number: u8) -> Operand
    requires { number < 8 }
    ensures { result ≡ register width number }
{
    match width {
        Width::Byte => byte_register(number),
        Width::Word => Operand::Word(word_register(number)),
    }
}

/// The field mod of a ModRM byte, bits 7 and 6; 3 names a register.
pub(crate) fn mod_field(modrm: u8) -> u8
    ensures value { result ≡ mod_field modrm }
    ensures range { result < 4 }
{
    modrm >> 6
}

/// The field reg of a ModRM byte, bits 5 to 3.
pub(crate) fn reg_field(modrm: u8) -> u8
    ensures value { result ≡ reg_field modrm }
    ensures range { result < 8 }
{
    modrm >> 3 & 7
}

/// The field rm of a ModRM byte, bits 2 to 0.
pub(crate) fn rm_field(modrm: u8) -> u8
    ensures value { result ≡ rm_field modrm }
    ensures range { result < 8 }
{
    modrm & 7
}

/// Whether the ModRM byte names a memory operand by a word displacement alone.
pub(crate) fn has_direct_address(modrm: u8) -> bool
    ensures { result ≡ has_direct_address modrm }
{
    mod_field(modrm) == 0 && rm_field(modrm) == 6
}

/// The number of bytes of displacement after a ModRM byte.
pub(crate) fn displacement_size(modrm: u8) -> u8
    ensures { result ≡ displacement_size modrm }
{
    match mod_field(modrm) {
        1 => 1,
        2 => 2,
        _ if has_direct_address(modrm) => 2,
        _ => 0,
    }
}

// The base and the index register of a memory operand, by the field rm.
fn address_registers(rm: u8) -> (Option<Reg>, Option<Reg>)
    requires { rm < 8 }
    ensures base { result.0 ≡ get_or base_registers rm None }
    ensures index { result.1 ≡ get_or index_registers rm None }
{
    match rm {
        0 => (Some(Reg::Bx), Some(Reg::Si)),
        1 => (Some(Reg::Bx), Some(Reg::Di)),
        2 => (Some(Reg::Bp), Some(Reg::Si)),
        3 => (Some(Reg::Bp), Some(Reg::Di)),
        4 => (None, Some(Reg::Si)),
        5 => (None, Some(Reg::Di)),
        6 => (Some(Reg::Bp), None),
        _ => (Some(Reg::Bx), None),
    }
}

/// The address of a memory operand.
pub fn address(modrm: u8, displacement: u16) -> Ea
    ensures { result ≡ address modrm displacement }
{
    let (base, index) = address_registers(rm_field(modrm));
    Ea {
        base: if has_direct_address(modrm) {
            None
        } else {
            base
        },
        index,
        disp: displacement,
    }
}

/// The operand that the fields mod and rm name.
pub(crate) fn rm_operand(width: Width, modrm: u8, displacement: u16) -> Operand
    ensures { result ≡ rm_operand width modrm displacement }
{
    if mod_field(modrm) == 3 {
        register(width, rm_field(modrm))
    } else {
        Operand::Mem(width, address(modrm, displacement))
    }
}
