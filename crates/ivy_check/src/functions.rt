//! The functions of Ivy and the types of their parameters.
ghost use Rattle.std.specs.Prelude.{◌≡◌, ◌↔◌, Some};
ghost use Rattle.ivy_check.specs.Functions.{function_named, NamesFunction, param_types, is_reserved};

use crate::types::IvyType;

/// A function of Ivy.
#[derive(Clone, Copy, Debug, PartialEq, Eq)]
pub enum Function {
    Abs,
    Min,
    Max,
    Size,
    BytesOf,
    Sha256,
    Concat,
    ConcatPush,
    CheckTxSig,
    CheckTxMultiSig,
    Before,
    After,
}

/// The type of a parameter of a function.
#[derive(Clone, Copy, Debug)]
pub enum ParamType {
    Exactly(IvyType),
    Numeric,
    /// Of a type that is neither numeric nor Boolean.
    Plain,
    /// Of any type.
    Any,
    /// A list of members of a type.
    ListOf(IvyType),
}

/// The types of the parameters of a function.
#[derive(Clone, Copy, Debug)]
pub enum ParamTypes {
    One(ParamType),
    Two(ParamType, ParamType),
}

fn function_named(name: &[u8]) -> Option<Function>
    ensures { result ≡ function_named name.now }
{
    if name == b"abs".as_slice() {
        Some(Function::Abs)
    } else if name == b"min".as_slice() {
        Some(Function::Min)
    } else if name == b"max".as_slice() {
        Some(Function::Max)
    } else if name == b"size".as_slice() {
        Some(Function::Size)
    } else if name == b"bytes".as_slice() {
        Some(Function::BytesOf)
    } else if name == b"sha256".as_slice() {
        Some(Function::Sha256)
    } else if name == b"concat".as_slice() {
        Some(Function::Concat)
    } else if name == b"concatpush".as_slice() {
        Some(Function::ConcatPush)
    } else if name == b"checkTxSig".as_slice() {
        Some(Function::CheckTxSig)
    } else if name == b"checkTxMultiSig".as_slice() {
        Some(Function::CheckTxMultiSig)
    } else if name == b"before".as_slice() {
        Some(Function::Before)
    } else if name == b"after".as_slice() {
        Some(Function::After)
    } else {
        None
    }
}

impl Function {
    /// The function that a name names.
    #[tactic(auto, using(crate::proofs::TypeWords::function_found))]
    pub fn named(name: &[u8]) -> Option<Function>
        ensures found { result ≡ function_named name.now }
        ensures named { (function : Function) → (result ≡ Some function) ↔ NamesFunction name.now function }
    {
        function_named(name)
    }

    /// The types of its parameters.
    pub fn param_types(self) -> ParamTypes
        ensures { result ≡ param_types self }
    {
        match self {
            Function::Abs => ParamTypes::One(ParamType::Numeric),
            Function::Min | Function::Max => ParamTypes::Two(
                ParamType::Numeric,
                ParamType::Numeric,
            ),
            Function::Size | Function::Sha256 => ParamTypes::One(ParamType::Plain),
            Function::BytesOf => ParamTypes::One(ParamType::Any),
            Function::Concat | Function::ConcatPush => ParamTypes::Two(
                ParamType::Exactly(IvyType::String),
                ParamType::Exactly(IvyType::String),
            ),
            Function::CheckTxSig => ParamTypes::Two(
                ParamType::Exactly(IvyType::PublicKey),
                ParamType::Exactly(IvyType::Signature),
            ),
            Function::CheckTxMultiSig => ParamTypes::Two(
                ParamType::ListOf(IvyType::PublicKey),
                ParamType::ListOf(IvyType::Signature),
            ),
            Function::Before | Function::After => ParamTypes::One(ParamType::Exactly(
                IvyType::Time,
            )),
        }
    }
}

/// The name is a type's or a function's.
pub(crate) fn is_reserved(name: &[u8]) -> bool
    ensures { result ≡ is_reserved name.now }
{
    IvyType::named(name).is_some() || Function::named(name).is_some()
}
