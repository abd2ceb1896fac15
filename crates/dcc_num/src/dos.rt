//! The calls of INT 21h that are modelled, by their numbers in AH (Microsoft MS-DOS Programmer's Reference,
//! functions 01h, 02h, 08h, 09h and 4Ch). In a text they are `dos_getche`, `dos_putc`, `dos_getch`, `dos_puts` and
//! `dos_exit`.

/// Takes the next byte of the input into AL, and writes it.
pub const GETCHE: u8 = 0x01;

/// Writes the byte in DL.
pub const PUTC: u8 = 0x02;

/// Takes the next byte of the input into AL.
pub const GETCH: u8 = 0x08;

/// Writes the bytes from DS:DX on, up to the first `STRING_END`.
pub const PUTS: u8 = 0x09;

/// Ends the run with the exit code in AL.
pub const EXIT: u8 = 0x4C;

/// What AL takes where a byte is asked for at the end of the input.
pub const END_OF_INPUT: u8 = 0x1A;

/// The byte that ends the bytes of `PUTS`, and is not written.
pub const STRING_END: u8 = b'$';

/// The most bytes that `PUTS` writes.
pub const STRING_MOST: u32 = 65_536;
