//! Statements inside a function, which begin in line 11. The answers come from a reference reader apart from this
//! parser.

use super::{Case, FITS, GRAMMAR, NAME, TOKEN, TYPE};

/// Statements with names and types that do not fit, and some that do.
pub(super) static NAMES_AND_TYPES: [Case; 41] = [
    // Names.
    ("u = 1;", 11, NAME),
    ("x = 1 + u;", 11, NAME),
    ("u();", 11, NAME),
    ("x = x();", 11, TYPE),
    ("f = 1;", 11, TYPE),
    ("x = f;", 11, TYPE),
    ("goto K;", 11, NAME),
    ("goto f;", 11, NAME),
    ("L: ;\nL: ;", 12, NAME),
    ("x: x = 1;", 0, FITS),
    ("switch (x) { case 1: break; case 0x1: break; }", 11, NAME),
    ("switch (x) { default: break; default: break; }", 11, NAME),
    ("dos_puts2(1);", 11, NAME),
    ("dos_putc = 1;", 11, TYPE),
    // Types.
    ("x = p;", 11, TYPE),
    ("p = 1;", 11, TYPE),
    ("p = l;", 11, TYPE),
    ("x = p + p;", 11, TYPE),
    ("x = 1 + p;", 11, TYPE),
    ("p = p + 1;", 0, FITS),
    ("x = p * 2;", 11, TYPE),
    ("x = -p;", 11, TYPE),
    ("x = *x;", 11, TYPE),
    ("x = &x;", 11, TYPE),
    ("p = &m;", 0, FITS),
    ("p = &n;", 11, TYPE),
    ("x = p == l;", 11, TYPE),
    ("x = p == q;", 0, FITS),
    ("x = p ? 1 : 2;", 11, TYPE),
    ("p = 1 ? p : l;", 11, TYPE),
    ("if (p) { }", 11, TYPE),
    ("switch (y) { case 1: break; }", 11, TYPE),
    ("n = p;", 11, TYPE),
    ("x = r;", 11, TYPE),
    ("f(1);", 11, TYPE),
    ("f(1, p, 2);", 11, TYPE),
    ("f(p, p);", 11, TYPE),
    ("x = v();", 11, TYPE),
    ("return 1;", 11, TYPE),
    ("dos_putc(p);", 11, TYPE),
    ("x = (int)p;", 0, FITS),
];

/// Statements with two offences.
pub(super) static TWO_OFFENCES: [Case; 18] = [
    // The first of two offences counts, in each order.
    ("u = 1;\nx = ;", 11, NAME),
    ("x = ;\nu = 1;", 11, GRAMMAR),
    ("x = p;\nu = 1;", 11, TYPE),
    ("u = 1;\nx = p;", 11, NAME),
    ("goto K;\nx = ;\nK: ;", 12, GRAMMAR),
    ("goto K;\nx = ;", 11, NAME),
    ("u = 1; @", 11, NAME),
    ("@ u = 1;", 11, TOKEN),
    ("x = p * @", 11, TYPE),
    ("x = 1 + p @", 11, TYPE),
    ("x = p;\n@", 11, TYPE),
    ("u = p * 2;", 11, NAME),
    ("f(p,\nu,\n@", 11, TYPE),
    ("x =\nv\n();", 11, TYPE),
    ("L: ;\nL @", 12, TOKEN),
    ("return 1;\nu = 1;", 11, TYPE),
    // The types of the parameters are read in the head, which stands after what is not read.
    ("f(1, p);\nx = ;", 12, GRAMMAR),
    ("f(p, p);\nx = ;", 11, TYPE),
];
