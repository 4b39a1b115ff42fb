//! The types of Ivy.
ghost use Rattle.std.specs.Prelude.{◌≡◌, ◌↔◌, Some};
ghost use Rattle.ivy_check.specs.Types.{type_named, same_type, is_numeric, is_plain};
ghost use Rattle.ivy_check.specs.Typing.{NamesType};

/// A type of Ivy.
#[derive(Clone, Copy, Debug, PartialEq, Eq)]
pub enum IvyType {
    Amount,
    Asset,
    Boolean,
    Hash,
    Integer,
    Program,
    PublicKey,
    Signature,
    String,
    Time,
}

fn type_named(name: &[u8]) -> Option<IvyType>
    ensures { result ≡ type_named name.now }
{
    if name == b"Amount".as_slice() {
        Some(IvyType::Amount)
    } else if name == b"Asset".as_slice() {
        Some(IvyType::Asset)
    } else if name == b"Boolean".as_slice() {
        Some(IvyType::Boolean)
    } else if name == b"Hash".as_slice() {
        Some(IvyType::Hash)
    } else if name == b"Integer".as_slice() {
        Some(IvyType::Integer)
    } else if name == b"Program".as_slice() {
        Some(IvyType::Program)
    } else if name == b"PublicKey".as_slice() {
        Some(IvyType::PublicKey)
    } else if name == b"Signature".as_slice() {
        Some(IvyType::Signature)
    } else if name == b"String".as_slice() {
        Some(IvyType::String)
    } else if name == b"Time".as_slice() {
        Some(IvyType::Time)
    } else {
        None
    }
}

impl IvyType {
    /// The type that a name names.
    #[tactic(auto, using(crate::proofs::TypeWords::type_found))]
    pub fn named(name: &[u8]) -> Option<IvyType>
        ensures found { result ≡ type_named name.now }
        ensures named { (type : IvyType) → (result ≡ Some type) ↔ NamesType name.now type }
    {
        type_named(name)
    }

    /// This is that type.
    pub(crate) fn same_type(self, other: IvyType) -> bool
        ensures { result ≡ same_type self other }
    {
        self as u8 == other as u8
    }

    /// Amount, Integer and Time are numeric.
    pub(crate) fn is_numeric(self) -> bool
        ensures { result ≡ is_numeric self }
    {
        matches!(self, IvyType::Amount | IvyType::Integer | IvyType::Time)
    }

    /// It is neither numeric nor Boolean.
    pub(crate) fn is_plain(self) -> bool
        ensures { result ≡ is_plain self }
    {
        !self.is_numeric() && !matches!(self, IvyType::Boolean)
    }
}
