//! The codes of instructions, under their names (Chain VM 1).

/// Pushes the empty item.
pub const FALSE: u8 = 0x00;
/// The least data code: it pushes as many bytes as it says.
pub const DATA_MIN: u8 = 0x01;
/// The greatest data code.
pub const DATA_MAX: u8 = 0x4b;
/// Pushes bytes whose number stands in one byte.
pub const PUSHDATA1: u8 = 0x4c;
/// Pushes bytes whose number stands in two bytes, little-endian.
pub const PUSHDATA2: u8 = 0x4d;
/// Pushes bytes whose number stands in four bytes, little-endian.
pub const PUSHDATA4: u8 = 0x4e;
/// `1NEGATE`: pushes -1.
pub const NEGATIVE_ONE: u8 = 0x4f;
/// Pushes 1.
pub const ONE: u8 = 0x51;
/// Pushes 16. The codes between push the numbers between.
pub const SIXTEEN: u8 = 0x60;
/// Does nothing.
pub const NOP: u8 = 0x61;
/// Goes on at the place after it.
pub const JUMP: u8 = 0x63;
/// The same where the top item is true.
pub const JUMPIF: u8 = 0x64;
/// Fails where the top item is false.
pub const VERIFY: u8 = 0x69;
/// Fails.
pub const FAIL: u8 = 0x6a;
/// Moves the top item to the alt stack.
pub const TOALTSTACK: u8 = 0x6b;
/// Moves the top item of the alt stack back.
pub const FROMALTSTACK: u8 = 0x6c;
/// `2DROP`: drops the top two items.
pub const DROP2: u8 = 0x6d;
/// `2DUP`: copies the top two items.
pub const DUP2: u8 = 0x6e;
/// `3DUP`: copies the top three items.
pub const DUP3: u8 = 0x6f;
/// `2OVER`: copies the two items below the top two.
pub const OVER2: u8 = 0x70;
/// `2ROT`: moves the two items below the top four to the top.
pub const ROT2: u8 = 0x71;
/// `2SWAP`: exchanges the top two items and the two below.
pub const SWAP2: u8 = 0x72;
/// Copies the top item where it is true.
pub const IFDUP: u8 = 0x73;
/// Pushes the number of data items.
pub const DEPTH: u8 = 0x74;
/// Drops the top item.
pub const DROP: u8 = 0x75;
/// Copies the top item.
pub const DUP: u8 = 0x76;
/// Drops the item below the top.
pub const NIP: u8 = 0x77;
/// Copies the item below the top.
pub const OVER: u8 = 0x78;
/// Copies the item that stands so far below the top.
pub const PICK: u8 = 0x79;
/// Moves the item that stands so far below the top to the top.
pub const ROLL: u8 = 0x7a;
/// Moves the third item to the top.
pub const ROT: u8 = 0x7b;
/// Exchanges the top two items.
pub const SWAP: u8 = 0x7c;
/// Copies the top item below the second.
pub const TUCK: u8 = 0x7d;
/// Two items joined.
pub const CAT: u8 = 0x7e;
/// So many bytes of an item from a place on.
pub const SUBSTR: u8 = 0x7f;
/// The first bytes of an item.
pub const LEFT: u8 = 0x80;
/// The last bytes of an item.
pub const RIGHT: u8 = 0x81;
/// The length of the top item, which stays.
pub const SIZE: u8 = 0x82;
/// Every bit of an item turned.
pub const INVERT: u8 = 0x83;
/// The bits that two items share.
pub const AND: u8 = 0x84;
/// The bits of either of two items.
pub const OR: u8 = 0x85;
/// The bits of one of two items and not the other.
pub const XOR: u8 = 0x86;
/// Whether two items are the same bytes.
pub const EQUAL: u8 = 0x87;
/// Fails where two items are not the same bytes.
pub const EQUALVERIFY: u8 = 0x88;
/// An item, and the push of another after it.
pub const CATPUSHDATA: u8 = 0x89;
/// `1ADD`: a number and 1.
pub const ADD_ONE: u8 = 0x8b;
/// `1SUB`: a number less 1.
pub const SUB_ONE: u8 = 0x8c;
/// `2MUL`: twice a number.
pub const DOUBLE: u8 = 0x8d;
/// `2DIV`: half of a number, rounded down.
pub const HALVE: u8 = 0x8e;
/// A number with the other sign.
pub const NEGATE: u8 = 0x8f;
/// A number without its sign.
pub const ABS: u8 = 0x90;
/// Whether a number is 0.
pub const NOT: u8 = 0x91;
/// `0NOTEQUAL`: whether a number is not 0.
pub const NOT_ZERO: u8 = 0x92;
/// The sum of two numbers.
pub const ADD: u8 = 0x93;
/// The difference of two numbers.
pub const SUB: u8 = 0x94;
/// The product of two numbers.
pub const MUL: u8 = 0x95;
/// The quotient of two numbers, toward zero.
pub const DIV: u8 = 0x96;
/// The remainder of that quotient.
pub const MOD: u8 = 0x97;
/// A number shifted left.
pub const LSHIFT: u8 = 0x98;
/// A number shifted right, rounded down.
pub const RSHIFT: u8 = 0x99;
/// Whether two items are true.
pub const BOOLAND: u8 = 0x9a;
/// Whether one of two items is true.
pub const BOOLOR: u8 = 0x9b;
/// Whether two numbers are equal.
pub const NUMEQUAL: u8 = 0x9c;
/// Fails where two numbers are not equal.
pub const NUMEQUALVERIFY: u8 = 0x9d;
/// Whether two numbers are not equal.
pub const NUMNOTEQUAL: u8 = 0x9e;
/// Whether the deeper of two numbers is the less.
pub const LESSTHAN: u8 = 0x9f;
/// Whether the deeper of two numbers is the greater.
pub const GREATERTHAN: u8 = 0xa0;
/// Whether the deeper of two numbers is not the greater.
pub const LESSTHANOREQUAL: u8 = 0xa1;
/// Whether the deeper of two numbers is not the less.
pub const GREATERTHANOREQUAL: u8 = 0xa2;
/// The less of two numbers.
pub const MIN: u8 = 0xa3;
/// The greater of two numbers.
pub const MAX: u8 = 0xa4;
/// Whether a number is at least a second and below a third.
pub const WITHIN: u8 = 0xa5;
/// The digest of an item by SHA-256.
pub const SHA256: u8 = 0xa8;
/// Whether a signature of a message of 32 bytes is good for a key.
pub const CHECKSIG: u8 = 0xac;
/// Whether signatures of a message of 32 bytes are good for keys in their order.
pub const CHECKMULTISIG: u8 = 0xad;
/// Pushes the signature hash of the input.
pub const TXSIGHASH: u8 = 0xae;
/// Pushes the id of the context's block.
pub const BLOCKHASH: u8 = 0xaf;
/// Whether a program that is an item succeeds on items of its own, under a limit of its own.
pub const CHECKPREDICATE: u8 = 0xc0;
/// Whether an output of the transaction is as wanted.
pub const CHECKOUTPUT: u8 = 0xc1;
/// Pushes the asset of the input's value.
pub const ASSET: u8 = 0xc2;
/// Pushes the amount of the input's value.
pub const AMOUNT: u8 = 0xc3;
/// Pushes the outermost program of the context.
pub const PROGRAM: u8 = 0xc4;
/// Pushes the least time of the transaction.
pub const MINTIME: u8 = 0xc5;
/// Pushes the greatest time of the transaction.
pub const MAXTIME: u8 = 0xc6;
/// Pushes the hash of the transaction's data.
pub const TXDATA: u8 = 0xc7;
/// Pushes the hash of the input's data.
pub const ENTRYDATA: u8 = 0xc8;
/// Pushes the place of the input.
pub const INDEX: u8 = 0xc9;
/// Pushes the id of the input's entry.
pub const ENTRYID: u8 = 0xca;
/// Pushes the id of the output that is spent.
pub const OUTPUTID: u8 = 0xcb;
/// Pushes the next program of the context's block.
pub const NEXTPROGRAM: u8 = 0xcd;
/// Pushes the time of the context's block.
pub const BLOCKTIME: u8 = 0xce;
