//! Declarations and whole texts. The answers come from a reference reader apart from this parser.

use super::{Case, FITS, GRAMMAR, NAME, PLACE, TOKEN, VERSION};

/// Declarations of global variables, which begin in line 5.
pub(super) static DECLARATIONS: [Case; 43] = [
    // Declarations of global variables.
    ("int x;", 0, FITS),
    ("int x", 6, GRAMMAR),
    ("int x @", 5, TOKEN),
    ("signed int x;", 5, GRAMMAR),
    ("unsigned x;", 5, GRAMMAR),
    ("long int x;", 5, GRAMMAR),
    ("short x;", 5, TOKEN),
    ("void x;", 5, GRAMMAR),
    ("auto int x;", 5, GRAMMAR),
    ("int **x;", 5, GRAMMAR),
    ("int x, z;", 5, GRAMMAR),
    ("int 1;", 5, GRAMMAR),
    ("int if;", 5, GRAMMAR),
    ("int x[2U];", 5, GRAMMAR),
    ("int x[];", 5, GRAMMAR),
    ("int x[2][2];", 5, GRAMMAR),
    ("int x = -1;", 5, GRAMMAR),
    ("int x = {};", 5, GRAMMAR),
    ("int x = {1,};", 5, GRAMMAR),
    ("int x = 1U;", 5, GRAMMAR),
    ("int x = z;", 5, GRAMMAR),
    ("int dos_putc;", 5, NAME),
    ("int y;", 5, NAME),
    ("int x;\nint x;", 6, NAME),
    ("int start;", 6, NAME),
    // Places.
    ("int x[0];", 5, PLACE),
    ("int x[2] = {1, 2, 3};", 5, PLACE),
    ("int x = {1, 2};", 5, PLACE),
    ("#pragma dcc at 255\nint x;", 6, PLACE),
    ("#pragma dcc at 254\nint x;", 6, PLACE),
    ("#pragma dcc at 0\nint x;", 6, PLACE),
    ("#pragma dcc at 257\nint x;", 6, PLACE),
    ("#pragma dcc at 65534\nint x;", 0, FITS),
    ("#pragma dcc at 65535\nint x;", 6, PLACE),
    ("#pragma dcc at 65536\nint x;", 6, PLACE),
    ("#pragma dcc at 4294967295\nint x;", 6, PLACE),
    ("#pragma dcc at 4294967296\nint x;", 5, TOKEN),
    ("#pragma dcc at 300\nint x[4294967295];", 6, PLACE),
    (
        "#pragma dcc at 300\nlong x;\n#pragma dcc at 303\nint z;",
        8,
        PLACE,
    ),
    (
        "#pragma dcc at 300\nlong x;\n#pragma dcc at 304\nint z;",
        0,
        FITS,
    ),
    ("#pragma dcc at 300\n\nint x", 8, GRAMMAR),
    ("#pragma dcc at\n300\nint x;", 6, GRAMMAR),
    ("#pragma dcc at 0300\nint x;", 5, TOKEN),
];

/// Whole texts, whose version lines differ.
pub(super) static VERSIONS: [Case; 13] = [
    ("", 1, VERSION),
    ("\n", 1, VERSION),
    ("x", 1, VERSION),
    ("#pragma dcc text 1", 1, GRAMMAR),
    ("#pragma dcc text 1 \n", 1, VERSION),
    (" #pragma dcc text 1\n", 1, VERSION),
    ("#pragma dcc text 2\n", 1, VERSION),
    ("#pragma dcc text 3\n", 1, VERSION),
    ("#pragma dcc text 01\n", 1, VERSION),
    ("#pragma dcc text 11\n", 1, VERSION),
    ("#pragma dcc text\n", 1, VERSION),
    ("#pragma dcc text 1\r\n", 1, VERSION),
    ("\n#pragma dcc text 1\n", 1, VERSION),
];

/// What stands after the version line: the numbers of the stack line stand on it.
pub(super) static STACKS: [Case; 17] = [
    ("", 2, GRAMMAR),
    ("void start(void)\n{\n}\n", 2, GRAMMAR),
    ("#pragma dcc stack", 2, GRAMMAR),
    ("#pragma dcc stack 0 ", 2, GRAMMAR),
    ("#pragma dcc stack 0", 2, GRAMMAR),
    ("#pragma dcc stack 0 256", 2, GRAMMAR),
    (
        "#pragma dcc stack 0\n256\nvoid start(void)\n{\n}\n",
        3,
        GRAMMAR,
    ),
    (
        "#pragma dcc stack\n0 256\nvoid start(void)\n{\n}\n",
        3,
        GRAMMAR,
    ),
    (
        "#pragma dcc stack 0 256 7\nvoid start(void)\n{\n}\n",
        2,
        GRAMMAR,
    ),
    (
        "#pragma dcc stack 0  256\nvoid start(void)\n{\n}\n",
        2,
        GRAMMAR,
    ),
    (
        "#pragma dcc stack 0 256 \nvoid start(void)\n{\n}\n",
        2,
        GRAMMAR,
    ),
    (
        "#pragma dcc stack 0 65535\nvoid start(void)\n{\n}\n",
        0,
        FITS,
    ),
    (
        "#pragma dcc stack 0 65536\nvoid start(void)\n{\n}\n",
        2,
        PLACE,
    ),
    (
        "#pragma dcc stack 65536 @\nvoid start(void)\n{\n}\n",
        2,
        PLACE,
    ),
    (
        "#pragma dcc stack 0 65536 @\nvoid start(void)\n{\n}\n",
        2,
        PLACE,
    ),
    ("#pragma dcc stack 256 0\nvoid start(void)\n{\n}\n", 0, FITS),
    (
        "\n\n#pragma dcc stack 0 256\nvoid start(void)\n{\n}\n",
        0,
        FITS,
    ),
];

/// What stands after the stack line.
pub(super) static FUNCTIONS: [Case; 12] = [
    ("", 3, GRAMMAR),
    ("void start(void)\n{\n}\n", 0, FITS),
    ("void start(void)\n{\n}", 0, FITS),
    ("int start(void)\n{\n}\n", 3, NAME),
    ("void main(void)\n{\n}\n", 3, NAME),
    ("void start(int i)\n{\n}\n", 3, NAME),
    ("void start()\n{\n}\n", 3, GRAMMAR),
    ("int\nmain(\n@", 3, NAME),
    ("void start(void);\n", 3, GRAMMAR),
    ("void start(void)\n{", 4, GRAMMAR),
    ("start(void)\n{\n}\n", 3, GRAMMAR),
    ("int x;\nvoid start(void)\n{\n}\n", 3, GRAMMAR),
];

/// What stands after the function `start`.
pub(super) static OTHER_FUNCTIONS: [Case; 14] = [
    ("\n\n@", 8, TOKEN),
    ("void start(void)\n{\n}\n", 6, NAME),
    ("int z;\n", 6, GRAMMAR),
    ("void f(int i, int i)\n{\n}\n", 6, NAME),
    ("void f(int i)\n{\n    int i;\n}\n", 8, NAME),
    ("void f(int f)\n{\n}\n", 6, NAME),
    ("void f(int dos_putc)\n{\n}\n", 6, NAME),
    ("void f(void)\n{\n    int i[0];\n}\n", 8, PLACE),
    ("void dos_putc(void)\n{\n}\n", 6, NAME),
    (
        "void f(void)\n{\n    x = ;\n}\nvoid f(void)\n{\n}\n",
        8,
        NAME,
    ),
    (
        "void f(register int i, auto long k)\n{\n    auto int m;\n    int *n;\n}\n",
        0,
        FITS,
    ),
    ("int f(int i)\n{\n}\n", 0, FITS),
    ("int f(void, int i)\n{\n}\n", 6, GRAMMAR),
    ("int f(int i,)\n{\n}\n", 6, GRAMMAR),
];
