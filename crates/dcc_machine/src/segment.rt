//! The segment registers by their numbers, as instructions name them and as the machine keeps them (8086 Family
//! User's Manual, table 4-8).

/// ES, the extra segment.
pub const ES: u8 = 0;

/// CS, the segment of the code.
pub const CS: u8 = 1;

/// SS, the segment of the stack.
pub const SS: u8 = 2;

/// DS, the segment of the data.
pub const DS: u8 = 3;
