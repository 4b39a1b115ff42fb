//! How values are compared.
ghost use Rattle.std.specs.Prelude.{◌≡◌};
ghost use Rattle.ivy_value.specs.Value.{kind_of};

use ivy_check::IvyType;

/// How two values of a type are compared.
#[derive(Clone, Copy, Debug, PartialEq, Eq)]
pub enum Kind {
    /// As numbers: Amount, Integer and Time.
    Number,
    /// As truth values: Boolean.
    Truth,
    /// Byte by byte: every other type.
    Bytes,
}

impl Kind {
    /// How values of a type are compared.
    pub fn of(kind: IvyType) -> Kind
        ensures { result ≡ kind_of kind }
    {
        match kind {
            IvyType::Amount | IvyType::Integer | IvyType::Time => Kind::Number,
            IvyType::Boolean => Kind::Truth,
            IvyType::Asset
            | IvyType::Hash
            | IvyType::Program
            | IvyType::PublicKey
            | IvyType::Signature
            | IvyType::String => Kind::Bytes,
        }
    }
}
