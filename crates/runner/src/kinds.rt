// The numbers by which a model's words say what a record is. No enum, as they are words of lent lists.

// An expression.
pub const CONST: u32 = 0;

pub const READ: u32 = 1;

pub const CONCAT: u32 = 2;

pub const NOT: u32 = 3;

pub const AND: u32 = 4;

pub const OR: u32 = 5;

pub const XOR: u32 = 6;

pub const MUX: u32 = 7;

pub const EQ: u32 = 8;

// A statement.
pub const REG: u32 = 1;

// A port's signal.
pub const INPUT: u32 = 0;

pub const OUTPUT: u32 = 1;
