//! The codes of the instructions whose rows stand here (Chain VM 1).
pub const CAT: u8 = 0x7e;

pub const SUBSTR: u8 = 0x7f;

pub const LEFT: u8 = 0x80;

pub const RIGHT: u8 = 0x81;

pub const INVERT: u8 = 0x83;

pub const AND: u8 = 0x84;

pub const OR: u8 = 0x85;

pub const XOR: u8 = 0x86;

pub const EQUAL: u8 = 0x87;

pub const CATPUSHDATA: u8 = 0x89;

pub const ADD_ONE: u8 = 0x8b;

pub const SUB_ONE: u8 = 0x8c;

pub const DOUBLE: u8 = 0x8d;

pub const HALVE: u8 = 0x8e;

pub const NEGATE: u8 = 0x8f;

pub const ABS: u8 = 0x90;

pub const NOT: u8 = 0x91;

pub const NOT_ZERO: u8 = 0x92;

pub const ADD: u8 = 0x93;

pub const SUB: u8 = 0x94;

pub const MUL: u8 = 0x95;

pub const DIV: u8 = 0x96;

pub const MOD: u8 = 0x97;

pub const LSHIFT: u8 = 0x98;

pub const RSHIFT: u8 = 0x99;

pub const NUMEQUAL: u8 = 0x9c;

pub const NUMNOTEQUAL: u8 = 0x9e;

pub const LESSTHAN: u8 = 0x9f;

pub const GREATERTHAN: u8 = 0xa0;

pub const LESSTHANOREQUAL: u8 = 0xa1;

pub const GREATERTHANOREQUAL: u8 = 0xa2;

pub const MIN: u8 = 0xa3;

pub const MAX: u8 = 0xa4;
