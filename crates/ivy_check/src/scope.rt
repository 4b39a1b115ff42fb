//! What names mean where an expression stands.
ghost use Rattle.std.specs.Prelude.{◌≡◌, option_map};
ghost use Rattle.std.specs.Option.{option_copied};
ghost use Rattle.ivy_check.specs.Scope.{is_name, is_among, kind_word, is_parameter, is_required, parameter_type};
ghost use Rattle.ivy_check.specs.Scope.{is_value, names_parameter, name_type};
ghost use Rattle.ivy_check.specs.Scope.{scope_of};

use crate::types::IvyType;
use ivy_syntax::{ClauseTree, Contract, Group, Req, Word};

/// Where an expression stands: in a clause of a contract.
#[derive(Clone, Copy)]
pub struct Scope<'a> {
    pub contract: &'a Contract,
    pub clause: &'a ClauseTree,
}

/// The word is this name.
pub(crate) fn is_name(name: &[u8], word: &Word) -> bool
    ensures { result ≡ is_name name.now word.now }
{
    word.name.as_slice() == name
}

/// The name is one of these words.
pub(crate) fn is_among(name: &[u8], words: &[Word]) -> bool
    ensures { result ≡ is_among name.now words.now }
{
    words.iter().any(|word| is_name(name, word))
}

/// The word for the type of the parameter of this name.
pub(crate) fn kind_word<'a>(name: &[u8], groups: &'a [Group]) -> Option<&'a Word>
    ensures { option_copied result ≡ kind_word name.now groups.now }
{
    for group in groups {
        if is_among(name, group.names.as_slice()) {
            return Some(&group.kind);
        }
    }
    None
}

/// A parameter of these groups has this name.
pub(crate) fn is_parameter(name: &[u8], groups: &[Group]) -> bool
    ensures { result ≡ is_parameter name.now groups.now }
{
    kind_word(name, groups).is_some()
}

/// The type of the parameter of this name.
fn parameter_type(name: &[u8], groups: &[Group]) -> Option<IvyType>
    ensures { result ≡ parameter_type name.now groups.now }
{
    match kind_word(name, groups) {
        Some(kind) => IvyType::named(kind.name.as_slice()),
        None => None,
    }
}

/// A value of this name is required.
pub(crate) fn is_required(name: &[u8], reqs: &[Req]) -> bool
    ensures { result ≡ is_required name.now reqs.now }
{
    reqs.iter().any(|req| is_name(name, &req.name))
}

impl Scope<'_> {
    /// The name is a value of the clause: the locked value, or one that is required.
    pub(crate) fn is_value(self, name: &[u8]) -> bool
        ensures { result ≡ is_value (scope_of self.entry) name.now }
    {
        is_name(name, &self.contract.value) || is_required(name, self.clause.reqs.as_slice())
    }

    /// The name is that of a parameter of the clause or of the contract.
    pub(crate) fn names_parameter(self, name: &[u8]) -> bool
        ensures { result ≡ names_parameter (scope_of self.entry) name.now }
    {
        is_parameter(name, self.clause.params.as_slice())
            || is_parameter(name, self.contract.params.as_slice())
    }

    /// The type that a name has in an expression.
    pub(crate) fn name_type(self, name: &[u8]) -> Option<IvyType>
        ensures { result ≡ name_type (scope_of self.entry) name.now }
    {
        let params = self.clause.params.as_slice();
        if is_parameter(name, params) {
            parameter_type(name, params)
        } else {
            parameter_type(name, self.contract.params.as_slice())
        }
    }
}
