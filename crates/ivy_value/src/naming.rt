//! What a name means among parameters.
ghost use Rattle.std.specs.Prelude.{◌≡◌};
ghost use Rattle.ivy_value.specs.Naming.{param_named};

use ivy_check::{IvyType, Param};

/// A place among parameters, and the type of the parameter there.
#[derive(Clone, Copy)]
pub(crate) struct Found {
    pub(crate) place: usize,
    pub(crate) kind: IvyType,
}

/// The first parameter of a name.
pub(crate) fn param_named(name: &[u8], params: &[Param]) -> Option<Found>
    ensures { result ≡ param_named name.now params.now }
{
    let mut place = 0;
    for param in params {
        if param.name.as_slice() == name {
            return Some(Found {
                place,
                kind: param.kind,
            });
        }
        place += 1;
    }
    None
}
