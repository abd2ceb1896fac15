//! Small executables, and what their procedures keep, want, take and give back. The values come from a reference apart
//! from this project's code.

ghost use Rattle.std.specs.Prelude.{IfOk};
ghost use Rattle.dcc_ir.specs.Views.{program_of};
ghost use Rattle.dcc_pipe.specs.Prepared.{HasLiftedForm};

use dcc_ir::IrProgram;
use dcc_lift::lift;
use dcc_machine::Cpu;
use dcc_mz::load;
use dcc_pipe::analyse;
use dcc_pipe::laws::lifted_has_the_form;
use dcc_summaries::SumsFault;
use std::alloc::Global;
use std::test::Fail;

// What passes between procedures, and how they call each other after each pass: a procedure's entry with its params,
// then its calls, the assignments after each, and its returns.
pub(crate) struct Passing {
    // What each procedure takes, and what it gives back.
    pub(crate) sums: &'static [&'static str],
    pub(crate) localised: &'static [&'static str],
    pub(crate) packed: &'static [&'static str],
    pub(crate) prepared: &'static [&'static str],
}

// An executable; each list has a text for each procedure, in their order.
pub(crate) struct Case {
    pub(crate) name: &'static str,
    // The code after the instructions that set DS.
    pub(crate) code: &'static [u8],
    // The halves and flags that it doesn't change.
    pub(crate) keeps: &'static [&'static str],
    // What is wanted before each block, by the block's address.
    pub(crate) wanted: &'static [&'static str],
    pub(crate) passing: Result<Passing, SumsFault>,
}

// All halves and flags that pass.
const ALL: &str = "Axl Axh Cxl Cxh Dxl Dxh Bxl Bxh Sil Sih Dil Dih Cf Zf Sf Of";

// In the comments `leave` is `mov ah,4Ch` and `int 21h`.
static CASES: [Case; 11] = [
    // mov bx,1; call f; mov al,bl; leave. f: push bx; mov bx,5; mov [200h],bx; pop bx; ret.
    Case {
        name: "a register that is saved",
        code: b"\xBB\x01\x00\xE8\x06\x00\x8A\xC3\xB4\x4C\xCD\x21\x53\xBB\x05\x00\x89\x1E\x00\x02\x5B\
            \xC3",
        keeps: &[ALL, ALL],
        wanted: &["0005 -; 0008 Bxl; 000b Bxl", "0011 -"],
        passing: Ok(Passing {
            sums: &["takes -; gives -", "takes -; gives -"],
            localised: &["0005(-); - = 0011(-)", "0011(-); ret -"],
            packed: &["0005(-); - = 0011(-)", "0011(-); ret -"],
            prepared: &["0005(-); - = 0011(-)", "0011(-); ret -"],
        }),
    },
    // mov cx,1; mov bx,2; call f; mov al,bl; leave. f: push bx; mov bx,5; jcxz g; pop bx; ret. g: pop dx; ret.
    Case {
        name: "a register that is saved on one of two trails",
        code: b"\xB9\x01\x00\xBB\x02\x00\xE8\x06\x00\x8A\xC3\xB4\x4C\xCD\x21\x53\xBB\x05\x00\xE3\x02\
            \x5B\xC3\x5A\xC3",
        keeps: &[ALL, "Axl Axh Cxl Cxh Sil Sih Dil Dih Cf Zf Sf Of"],
        wanted: &[
            "0005 -; 000b Cxl Cxh Bxl; 000e Bxl",
            "0014 Cxl Cxh Bxl; 001a c0l; 001c Bxl",
        ],
        passing: Ok(Passing {
            sums: &["takes -; gives -", "takes Cxl Cxh Bxl; gives Bxl"],
            localised: &[
                "0005(-); Bxl = 0014(Cxl, Cxh, Bxl)",
                "0014(Cxl, Cxh, Bxl); ret Bxl; ret Bxl",
            ],
            packed: &[
                "0005(-); Bxl = 0014(Cxh:Cxl, Bxl)",
                "0014(Cxh:Cxl, Bxl); ret Bxl; ret Bxl",
            ],
            prepared: &[
                "0005(-); Bxl = 0014(Cxh:Cxl, Bxl)",
                "0014(Cxh:Cxl, Bxl); ret Bxl; ret Bxl",
            ],
        }),
    },
    // call f; mov al,bl; leave. f: call g; ret. g: mov bx,7; ret.
    Case {
        name: "a register that a callee changes",
        code: b"\xE8\x06\x00\x8A\xC3\xB4\x4C\xCD\x21\xE8\x01\x00\xC3\xBB\x07\x00\xC3",
        keeps: &[
            ALL,
            "Axl Axh Cxl Cxh Dxl Dxh Sil Sih Dil Dih Cf Zf Sf Of",
            "Axl Axh Cxl Cxh Dxl Dxh Sil Sih Dil Dih Cf Zf Sf Of",
        ],
        wanted: &["0005 -; 0008 Bxl", "000e -; 0011 Bxl", "0012 -"],
        passing: Ok(Passing {
            sums: &[
                "takes -; gives -",
                "takes -; gives Bxl",
                "takes -; gives Bxl",
            ],
            localised: &[
                "0005(-); Bxl = 000e(-)",
                "000e(-); Bxl = 0012(-); ret Bxl",
                "0012(-); ret Bxl",
            ],
            packed: &[
                "0005(-); Bxl = 000e(-)",
                "000e(-); Bxl = 0012(-); ret Bxl",
                "0012(-); ret Bxl",
            ],
            prepared: &[
                "0005(-); Bxl = 000e(-)",
                "000e(-); Bxl = 0012(-); ret Bxl",
                "0012(-); ret Bxl",
            ],
        }),
    },
    // mov cx,3; mov bx,0; call f; mov al,bl; leave. f: jcxz r; dec cx; call g; r: ret. g: inc bx; call f; ret.
    Case {
        name: "procedures that call each other",
        code: b"\xB9\x03\x00\xBB\x00\x00\xE8\x06\x00\x8A\xC3\xB4\x4C\xCD\x21\xE3\x04\x49\xE8\x01\x00\
            \xC3\x43\xE8\xF5\xFF\xC3",
        keeps: &[
            ALL,
            "Axl Axh Dxl Dxh Sil Sih Dil Dih Cf",
            "Axl Axh Dxl Dxh Sil Sih Dil Dih Cf",
        ],
        wanted: &[
            "0005 -; 000b Cxl Cxh Bxl Bxh; 000e Bxl",
            "0014 Cxl Cxh Bxl Bxh; 0016 Cxl Cxh Bxl Bxh; 0017 Cxl Cxh Bxl Bxh; 001a Bxl",
            "001b Cxl Cxh Bxl Bxh; 001c Cxl Cxh Bxl Bxh; 001f Bxl",
        ],
        passing: Ok(Passing {
            sums: &[
                "takes -; gives -",
                "takes Cxl Cxh Bxl Bxh; gives Bxl",
                "takes Cxl Cxh Bxl Bxh; gives Bxl",
            ],
            localised: &[
                "0005(-); Bxl = 0014(Cxl, Cxh, Bxl, Bxh)",
                "0014(Cxl, Cxh, Bxl, Bxh); Bxl = 001b(Cxl, Cxh, Bxl, Bxh); ret Bxl",
                "001b(Cxl, Cxh, Bxl, Bxh); Bxl = 0014(Cxl, Cxh, Bxl, Bxh); ret Bxl",
            ],
            packed: &[
                "0005(-); Bxl = 0014(Cxh:Cxl, Bxh:Bxl)",
                "0014(Cxh:Cxl, Bxh:Bxl); Bxl = 001b(Cxh:Cxl, Bxh:Bxl); ret Bxl",
                "001b(Cxh:Cxl, Bxh:Bxl); Bxl = 0014(Cxh:Cxl, Bxh:Bxl); ret Bxl",
            ],
            prepared: &[
                "0005(-); Bxl = 0014(Cxh:Cxl, Bxh:Bxl)",
                "0014(Cxh:Cxl, Bxh:Bxl); Bxl = 001b(Cxh:Cxl, Bxh:Bxl); ret Bxl",
                "001b(Cxh:Cxl, Bxh:Bxl); Bxl = 0014(Cxh:Cxl, Bxh:Bxl); ret Bxl",
            ],
        }),
    },
    // mov ax,3; mov cx,5; push cx; call f; pop cx; leave. f: push bp; mov bp,sp; add ax,[bp+4]; pop bp; ret.
    Case {
        name: "AX and an argument word, and AL back",
        code: b"\xB8\x03\x00\xB9\x05\x00\x51\xE8\x05\x00\x59\xB4\x4C\xCD\x21\x55\x8B\xEC\x03\x46\x04\
            \x5D\xC3",
        keeps: &[ALL, "Cxl Cxh Dxl Dxh Bxl Bxh Sil Sih Dil Dih"],
        wanted: &[
            "0005 -; 000c Axl Axh c0l c0h; 000f Axl",
            "0014 Axl Axh c0l c0h",
        ],
        passing: Ok(Passing {
            sums: &["takes -; gives -", "takes Axl Axh; gives Axl"],
            localised: &[
                "0005(-); Axl = 0014(c0h:c0l, Axl, Axh)",
                "0014(stack c0h:c0l, Axl, Axh); ret Axl",
            ],
            packed: &[
                "0005(-); Axl = 0014(c0h:c0l, Axh:Axl)",
                "0014(stack c0h:c0l, Axh:Axl); ret Axl",
            ],
            prepared: &[
                "0005(-); Axl = 0014(c0h:c0l, Axh:Axl)",
                "0014(stack c0h:c0l, Axh:Axl); ret Axl",
            ],
        }),
    },
    // mov ax,7; push ax; call f; pop cx; leave. f: push bp; mov bp,sp; mov ax,[bp+4]; cmp ax,1; jle r; dec ax; push
    // ax; call f; pop cx; mul word [bp+4]; r: pop bp; ret.
    Case {
        name: "a factorial, which calls itself",
        code: b"\xB8\x07\x00\x50\xE8\x05\x00\x59\xB4\x4C\xCD\x21\x55\x8B\xEC\x8B\x46\x04\x3D\x01\x00\
            \x7E\x09\x48\x50\xE8\xF0\xFF\x59\xF7\x66\x04\x5D\xC3",
        keeps: &[ALL, "Bxl Bxh Sil Sih Dil Dih"],
        wanted: &[
            "0005 -; 0009 c0l c0h; 000c Axl",
            "0011 c0l c0h; 001c Axl Axh c0l c0h; 001e c0l c0h c1l c1h; 0021 Axl Axh c0l c0h; \
                0025 Axl Axh",
        ],
        passing: Ok(Passing {
            sums: &["takes -; gives -", "takes -; gives Axl Axh"],
            localised: &[
                "0005(-); Axl Axh = 0011(c0h:c0l)",
                "0011(stack c0h:c0l); Axl Axh = 0011(c1h:c1l); ret Axl, Axh",
            ],
            packed: &[
                "0005(-); t72 = 0011(c0h:c0l); Axl = t72/0; Axh = t72/8",
                "0011(stack c0h:c0l); t72 = 0011(c1h:c1l); Axl = t72/0; Axh = t72/8; ret Axh:Axl",
            ],
            prepared: &[
                "0005(-); t72 = 0011(c0h:c0l); Axl = t72/0",
                "0011(stack c0h:c0l); t72 = 0011(c1h:c1l); Axl = t72/0; Axh = t72/8; ret Axh:Axl",
            ],
        }),
    },
    // mov ax,41h; mov dx,1; call f; mov cl,al; mov ah,2; int 21h; mov al,cl; leave. f: inc ax; inc dx; ret.
    Case {
        name: "AX and DX, and a byte of each back",
        code: b"\xB8\x41\x00\xBA\x01\x00\xE8\x0D\x00\x8A\xC8\xB4\x02\xCD\x21\x8A\xC1\xB4\x4C\xCD\x21\
            \x90\x40\x42\xC3",
        keeps: &[ALL, "Cxl Cxh Bxl Bxh Sil Sih Dil Dih Cf"],
        wanted: &[
            "0005 -; 000b Axl Axh Dxl Dxh; 000e Axl Dxl",
            "001b Axl Axh Dxl Dxh",
        ],
        passing: Ok(Passing {
            sums: &["takes -; gives -", "takes Axl Axh Dxl Dxh; gives Axl Dxl"],
            localised: &[
                "0005(-); Axl Dxl = 001b(Axl, Axh, Dxl, Dxh)",
                "001b(Axl, Axh, Dxl, Dxh); ret Axl, Dxl",
            ],
            packed: &[
                "0005(-); t73 = 001b(Axh:Axl, Dxh:Dxl); Axl = t73/0; Dxl = t73/16",
                "001b(Axh:Axl, Dxh:Dxl); ret 0:Dxl:0:Axl",
            ],
            prepared: &[
                "0005(-); t73 = 001b(Axh:Axl, Dxh:Dxl); Axl = t73/0; Dxl = t73/16",
                "001b(Axh:Axl, Dxh:Dxl); ret 0:Dxl:0:Axl",
            ],
        }),
    },
    // mov al,7; call f; mov al,1; jc l; mov al,2; l: leave. f: cmp al,8; ret.
    Case {
        name: "AL, and the carry back",
        code: b"\xB0\x07\xE8\x0A\x00\xB0\x01\x72\x02\xB0\x02\xB4\x4C\xCD\x21\x3C\x08\xC3",
        keeps: &[ALL, "Axl Axh Cxl Cxh Dxl Dxh Bxl Bxh Sil Sih Dil Dih"],
        wanted: &["0005 -; 0007 Axl; 000a Cf; 000e -; 0010 Axl", "0014 Axl"],
        passing: Ok(Passing {
            sums: &["takes -; gives -", "takes Axl; gives Cf"],
            localised: &["0005(-); Cf = 0014(Axl)", "0014(Axl); ret Cf"],
            packed: &["0005(-); Cf = 0014(Axl)", "0014(Axl); ret Cf"],
            prepared: &["0005(-); Cf = 0014(Axl)", "0014(Axl); ret computed"],
        }),
    },
    // mov ax,5; push ax; call f; pop cx; leave. f: push bp; mov bp,sp; shl word [bp+4],1; mov ax,[bp+4]; pop bp; ret.
    Case {
        name: "an argument that is written, and that nothing reads after",
        code: b"\xB8\x05\x00\x50\xE8\x05\x00\x59\xB4\x4C\xCD\x21\x55\x8B\xEC\xD1\x66\x04\x8B\x46\x04\
            \x5D\xC3",
        keeps: &[ALL, "Cxl Cxh Dxl Dxh Bxl Bxh Sil Sih Dil Dih"],
        wanted: &["0005 -; 0009 c0l c0h; 000c Axl", "0011 c0l c0h"],
        passing: Ok(Passing {
            sums: &["takes -; gives -", "takes -; gives Axl"],
            localised: &[
                "0005(-); Axl = 0011(c0h:c0l); c0l = t8; c0h = t9",
                "0011(stack c0h:c0l); ret Axl",
            ],
            packed: &[
                "0005(-); Axl = 0011(c0h:c0l); c0l = t8; c0h = t9",
                "0011(stack c0h:c0l); ret Axl",
            ],
            prepared: &[
                "0005(-); Axl = 0011(c0h:c0l)",
                "0011(stack c0h:c0l); ret Axl",
            ],
        }),
    },
    // mov ax,5; push ax; call f; pop ax; mov dx,ax; mov ah,2; int 21h; mov ax,4C00h; int 21h. f: push bp; mov bp,sp;
    // shl word [bp+4],1; pop bp; ret.
    Case {
        name: "an argument that is written, and that is read after",
        code: b"\xB8\x05\x00\x50\xE8\x0C\x00\x58\x8B\xD0\xB4\x02\xCD\x21\xB8\x00\x4C\xCD\x21\x55\x8B\
            \xEC\xD1\x66\x04\x5D\xC3",
        keeps: &[ALL, "Axl Axh Cxl Cxh Dxl Dxh Bxl Bxh Sil Sih Dil Dih"],
        wanted: &["0005 -; 0009 c0l c0h; 000c c0l", "0018 -"],
        passing: Err(SumsFault::ArgumentReused { at: 0x0009 }),
    },
    // call f; add bx,cx; mov al,bl; leave. f: mov bx,1; mov cx,2; ret.
    Case {
        name: "two registers back",
        code: b"\xE8\x08\x00\x03\xD9\x8A\xC3\xB4\x4C\xCD\x21\xBB\x01\x00\xB9\x02\x00\xC3",
        keeps: &[ALL, "Axl Axh Dxl Dxh Sil Sih Dil Dih Cf Zf Sf Of"],
        wanted: &["0005 -; 0008 Cxl Cxh Bxl Bxh", "0010 -"],
        passing: Err(SumsFault::SeveralResults { at: 0x0010 }),
    },
];

pub(crate) fn cases() -> &'static [Case] {
    &CASES
}

// The header of an executable whose image has four paragraphs, and the two instructions that set DS to the segment
// after the image.
const HEAD: &[u8] =
    b"MZ\x60\x00\x01\x00\x01\x00\x02\x00\x00\x00\xFF\xFF\x04\x00\x00\x01\x00\x00\x00\x00\x00\x00\
        \x1C\x00\x00\x00\x01\x00\x00\x00\xB8\x04\x00\x8E\xD8";

// The program that is lifted of the executable with that code, of at most 59 bytes.
pub(crate) fn lifted(alloc: Global, code: &[u8]) -> Result<IrProgram, Fail>
    ensures { IfOk result (λ p. HasLiftedForm (program_of p)) }
{
    let mut file = HEAD.to_vec(alloc)?;
    file.extend_from_slice(code)?;
    file.resize(96, 0)?;
    let image = load(alloc, &file)?;
    let program = analyse(alloc, &image, Cpu::I8086)?;
    let lifted = lift(alloc, &image, &program)?;
    lifted_has_the_form();
    Ok(lifted)
}
