//! The procedures of a program that signatures tell.

ghost use Rattle.std.specs.Prelude.{◌≡◌, ◌==◌, ◌&&◌, ◌++◌, ◌∷◌, List, [], map, count_by, drop, IfOk, OnOk, string_bytes};
ghost use Rattle.dcc_machine.specs.MzImage.{IsLoaded};
ghost use Rattle.dcc_prog.specs.Analysed.{IsProgramOf};
ghost use Rattle.dcc_prog.specs.Layout.{HasLayout};
ghost use Rattle.dcc_prog.specs.Trail.{code_within};
ghost use Rattle.dcc_sigs.specs.declared.signature.Sig.{Sig};
ghost use Rattle.dcc_sigs.specs.Recognised.{matches_at, told, told_if, told_at, told_in, told_by, recognised};

use crate::matching::{entries_with, matches_at, sigs_at};
use crate::signature::Sig;
use dcc_machine::Image;
use dcc_prog::{Layout, Proc, Program};
use std::alloc::{AllocError, Global};

/// A procedure that a signature tells.
#[derive(Drop)]
pub struct Recognised {
    /// The offset of the procedure's first instruction.
    pub entry: u16,
    /// The name that the signature gives it.
    pub name: String,
}

// The bytes of the code.
fn code_of<'a>(image: &'a Image, layout: &Layout) -> &'a [u8]
    requires loaded { IsLoaded image.now }
    requires layout { HasLayout image.now layout.now }
    ensures { result.now ≡ code_within image.now layout.now }
{
    &image.code()[..layout.code_end as usize]
}

// The procedures but the entry procedure.
fn others(procs: &[Proc]) -> &[Proc]
    ensures { result.now ≡ drop 1 procs.now }
{
    if procs.is_empty() { procs } else { &procs[1..] }
}

// The entries of procedures.
fn entries_in(alloc: Global, procs: &[Proc]) -> Result<Vec<u16>, AllocError>
    ensures { IfOk result (λ entries. entries.items ≡ map (λ proc. proc.entry) procs.now) }
{
    let mut entries = Vec::new(alloc);
    for proc in procs {
        entries.push(proc.entry)?;
    }
    Ok(entries)
}

// Adds the procedure with the name of the signature.
fn push_told(
    alloc: Global,
    found: &mut Vec<Recognised>,
    entry: u16,
    sig: &Sig,
) -> Result<(), AllocError>
    ensures { OnOk result (map told_by found.new.items ≡ map told_by found.old.items ++ (told entry sig.now ∷ [])) }
{
    let name = sig.name.clone()?;
    found.push(Recognised { entry, name })?;
    Ok(())
}

// Whether the signature matches the procedure with the entry, and no other one.
fn is_alone(code: &[u8], entries: &[u16], entry: u16, sig: &Sig) -> bool
    ensures { result ≡ (matches_at code.now entry sig.now
        && (count_by (λ other. matches_at code.now other sig.now) entries.now == 1)) }
{
    matches_at(code, entry, sig) && entries_with(code, entries, sig) == 1
}

// Adds the procedure with the entry, which one signature alone matches, if it is this one that tells it.
fn push_if_alone(
    alloc: Global,
    found: &mut Vec<Recognised>,
    code: &[u8],
    entries: &[u16],
    entry: u16,
    sig: &Sig,
) -> Result<(), AllocError>
    ensures { (sigs : List Sig) → count_by (matches_at code.now entry) sigs ≡ 1
        → OnOk result (map told_by found.new.items
        ≡ map told_by found.old.items ++ told_if code.now entries.now sigs entry sig.now) }
{
    if is_alone(code, entries, entry, sig) {
        push_told(alloc, found, entry, sig)
    } else {
        Ok(())
    }
}

// Adds the procedure with the entry, which one of the signatures alone matches, if that tells it.
fn push_alone(
    alloc: Global,
    found: &mut Vec<Recognised>,
    code: &[u8],
    entries: &[u16],
    sigs: &[Sig],
    entry: u16,
) -> Result<(), AllocError>
    requires { count_by (matches_at code.now entry) sigs.now ≡ 1 }
    ensures { OnOk result (map told_by found.new.items
        ≡ map told_by found.old.items ++ told_at code.now entries.now sigs.now entry) }
{
    for sig in sigs {
        push_if_alone(alloc, found, code, entries, entry, sig)?;
    }
    Ok(())
}

// Adds the procedure with the entry, if one of the signatures tells it.
fn push_entry(
    alloc: Global,
    found: &mut Vec<Recognised>,
    code: &[u8],
    entries: &[u16],
    sigs: &[Sig],
    entry: u16,
) -> Result<(), AllocError>
    ensures { OnOk result (map told_by found.new.items
        ≡ map told_by found.old.items ++ told_at code.now entries.now sigs.now entry) }
{
    if sigs_at(code, entry, sigs) == 1 {
        push_alone(alloc, found, code, entries, sigs, entry)
    } else {
        Ok(())
    }
}

// The procedures with these entries that the signatures tell.
fn told_in(
    alloc: Global,
    code: &[u8],
    entries: &[u16],
    sigs: &[Sig],
) -> Result<Vec<Recognised>, AllocError>
    ensures { IfOk result (λ found. map told_by found.items ≡ told_in code.now entries.now sigs.now) }
{
    let mut found = Vec::new(alloc);
    for entry in entries {
        push_entry(alloc, &mut found, code, entries, sigs, *entry)?;
    }
    Ok(found)
}

/// The procedures of a program that signatures tell, by their entries: each procedure but the entry procedure that one
/// of the signatures alone matches, where that signature matches no other procedure.
///
/// `program` is what the analyses found in the image. Each signature is compared with each procedure, which takes as
/// many steps as the signatures have bytes and the program has procedures at most, multiplied. Want of memory is the
/// only error.
pub fn recognise(
    alloc: Global,
    image: &Image,
    program: &Program,
    sigs: &[Sig],
) -> Result<Vec<Recognised>, AllocError>
    requires loaded { IsLoaded image.now }
    requires found { IsProgramOf program.now.layout.cpu image.now program.now }
    ensures { IfOk result (λ found. map told_by found.items ≡ recognised image.now program.now sigs.now) }
{
    let entries = entries_in(alloc, others(&program.procs))?;
    told_in(alloc, code_of(image, &program.layout), &entries, sigs)
}
