//! The names of the code table.
ghost use Rattle.std.specs.Prelude.{◌≡◌, map};
ghost use Rattle.vm_code.specs.Names.{name_in, code_in, name_of, code_of};

use crate::codes::{
    ABS, ADD, ADD_ONE, AMOUNT, AND, ASSET, BLOCKHASH, BLOCKTIME, BOOLAND, BOOLOR, CAT, CATPUSHDATA,
    CHECKMULTISIG, CHECKOUTPUT, CHECKPREDICATE, CHECKSIG, DEPTH, DIV, DOUBLE, DROP, DROP2, DUP,
    DUP2, DUP3, ENTRYDATA, ENTRYID, EQUAL, EQUALVERIFY, FAIL, FALSE, FROMALTSTACK, GREATERTHAN,
    GREATERTHANOREQUAL, HALVE, IFDUP, INDEX, INVERT, JUMP, JUMPIF, LEFT, LESSTHAN, LESSTHANOREQUAL,
    LSHIFT, MAX, MAXTIME, MIN, MINTIME, MOD, MUL, NEGATE, NEGATIVE_ONE, NEXTPROGRAM, NIP, NOP, NOT,
    NOT_ZERO, NUMEQUAL, NUMEQUALVERIFY, NUMNOTEQUAL, ONE, OR, OUTPUTID, OVER, OVER2, PICK, PROGRAM,
    PUSHDATA1, PUSHDATA2, PUSHDATA4, RIGHT, ROLL, ROT, ROT2, RSHIFT, SHA256, SIXTEEN, SIZE, SUB,
    SUB_ONE, SUBSTR, SWAP, SWAP2, TOALTSTACK, TUCK, TXDATA, TXSIGHASH, VERIFY, WITHIN, XOR,
};

// Each code but the data codes, and its name.
static NAMES: [(u8, &str); 103] = [
    (FALSE, "FALSE"),
    (PUSHDATA1, "PUSHDATA1"),
    (PUSHDATA2, "PUSHDATA2"),
    (PUSHDATA4, "PUSHDATA4"),
    (NEGATIVE_ONE, "1NEGATE"),
    (ONE, "1"),
    (0x52, "2"),
    (0x53, "3"),
    (0x54, "4"),
    (0x55, "5"),
    (0x56, "6"),
    (0x57, "7"),
    (0x58, "8"),
    (0x59, "9"),
    (0x5a, "10"),
    (0x5b, "11"),
    (0x5c, "12"),
    (0x5d, "13"),
    (0x5e, "14"),
    (0x5f, "15"),
    (SIXTEEN, "16"),
    (NOP, "NOP"),
    (JUMP, "JUMP"),
    (JUMPIF, "JUMPIF"),
    (VERIFY, "VERIFY"),
    (FAIL, "FAIL"),
    (TOALTSTACK, "TOALTSTACK"),
    (FROMALTSTACK, "FROMALTSTACK"),
    (DROP2, "2DROP"),
    (DUP2, "2DUP"),
    (DUP3, "3DUP"),
    (OVER2, "2OVER"),
    (ROT2, "2ROT"),
    (SWAP2, "2SWAP"),
    (IFDUP, "IFDUP"),
    (DEPTH, "DEPTH"),
    (DROP, "DROP"),
    (DUP, "DUP"),
    (NIP, "NIP"),
    (OVER, "OVER"),
    (PICK, "PICK"),
    (ROLL, "ROLL"),
    (ROT, "ROT"),
    (SWAP, "SWAP"),
    (TUCK, "TUCK"),
    (CAT, "CAT"),
    (SUBSTR, "SUBSTR"),
    (LEFT, "LEFT"),
    (RIGHT, "RIGHT"),
    (SIZE, "SIZE"),
    (INVERT, "INVERT"),
    (AND, "AND"),
    (OR, "OR"),
    (XOR, "XOR"),
    (EQUAL, "EQUAL"),
    (EQUALVERIFY, "EQUALVERIFY"),
    (CATPUSHDATA, "CATPUSHDATA"),
    (ADD_ONE, "1ADD"),
    (SUB_ONE, "1SUB"),
    (DOUBLE, "2MUL"),
    (HALVE, "2DIV"),
    (NEGATE, "NEGATE"),
    (ABS, "ABS"),
    (NOT, "NOT"),
    (NOT_ZERO, "0NOTEQUAL"),
    (ADD, "ADD"),
    (SUB, "SUB"),
    (MUL, "MUL"),
    (DIV, "DIV"),
    (MOD, "MOD"),
    (LSHIFT, "LSHIFT"),
    (RSHIFT, "RSHIFT"),
    (BOOLAND, "BOOLAND"),
    (BOOLOR, "BOOLOR"),
    (NUMEQUAL, "NUMEQUAL"),
    (NUMEQUALVERIFY, "NUMEQUALVERIFY"),
    (NUMNOTEQUAL, "NUMNOTEQUAL"),
    (LESSTHAN, "LESSTHAN"),
    (GREATERTHAN, "GREATERTHAN"),
    (LESSTHANOREQUAL, "LESSTHANOREQUAL"),
    (GREATERTHANOREQUAL, "GREATERTHANOREQUAL"),
    (MIN, "MIN"),
    (MAX, "MAX"),
    (WITHIN, "WITHIN"),
    (SHA256, "SHA256"),
    (CHECKSIG, "CHECKSIG"),
    (CHECKMULTISIG, "CHECKMULTISIG"),
    (TXSIGHASH, "TXSIGHASH"),
    (BLOCKHASH, "BLOCKHASH"),
    (CHECKPREDICATE, "CHECKPREDICATE"),
    (CHECKOUTPUT, "CHECKOUTPUT"),
    (ASSET, "ASSET"),
    (AMOUNT, "AMOUNT"),
    (PROGRAM, "PROGRAM"),
    (MINTIME, "MINTIME"),
    (MAXTIME, "MAXTIME"),
    (TXDATA, "TXDATA"),
    (ENTRYDATA, "ENTRYDATA"),
    (INDEX, "INDEX"),
    (ENTRYID, "ENTRYID"),
    (OUTPUTID, "OUTPUTID"),
    (NEXTPROGRAM, "NEXTPROGRAM"),
    (BLOCKTIME, "BLOCKTIME"),
];

/// The name of a code, and of one without a name the empty text.
#[tactic(auto, unfolding(crate::specs::Names::names, crate::specs::Names::name_of))]
pub fn name_of(code: u8) -> &'static str
    ensures { result.now ≡ name_of code }
{
    name_in(&NAMES, code)
}

/// The code that a name is of.
#[tactic(auto, unfolding(crate::specs::Names::names, crate::specs::Names::code_of))]
pub fn code_of(name: &str) -> Option<u8>
    ensures { result ≡ code_of name.now }
{
    code_in(&NAMES, name)
}

fn name_in<'a>(lines: &[(u8, &'a str)], code: u8) -> &'a str
    ensures { result.now ≡ name_in (map (λ line. (line.0, line.1.now)) lines.now) code }
{
    for line in lines {
        if line.0 == code {
            return line.1;
        }
    }
    ""
}

fn code_in(lines: &[(u8, &str)], name: &str) -> Option<u8>
    ensures { result ≡ code_in (map (λ line. (line.0, line.1.now)) lines.now) name.now }
{
    for line in lines {
        if line.1 == name {
            return Some(line.0);
        }
    }
    None
}
