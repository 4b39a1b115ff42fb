//! Declared names, and groups of parameters.
ghost use Rattle.std.specs.Prelude.{◌≡◌, ◌||◌, [], take};
ghost use Rattle.std.specs.Option.{option_copied};
ghost use Rattle.ivy_check.specs.Tests.{first_of, walked};
ghost use Rattle.ivy_check.specs.Declarations.{declared, is_contract_name, param_name_tests, group_tests, param_tests};
ghost use Rattle.ivy_check.specs.Walk.{kind_number, reported};

use crate::fault::{Fault, Kind, refuse_if};
use crate::functions::is_reserved;
use crate::scope::{is_among, is_name, is_parameter};
use crate::types::IvyType;
use ivy_syntax::{Contract, Group, Word};

/// A declared name, which is taken or not.
#[tactic(auto, using(crate::proofs::TypingLemmas::walking), unfolding(crate::specs::Declarations::declared))]
pub(crate) fn declared(kind: Kind, word: &Word, taken: bool) -> Result<(), Fault>
    ensures { reported result ≡ first_of (declared (kind_number kind) word.now taken) }
{
    refuse_if(is_reserved(word.name.as_slice()), Kind::Reserved, word.at)?;
    refuse_if(taken, kind, word.at)
}

/// The name is that of a parameter of the contract or of its value, where a clause of one is declared.
pub(crate) fn is_contract_name(enclosing: Option<&Contract>, name: &[u8]) -> bool
    ensures { result ≡ is_contract_name (option_copied enclosing.entry) name.now }
{
    match enclosing {
        Some(contract) => is_parameter(name, contract.params.as_slice())
            || is_name(name, &contract.value),
        None => false,
    }
}

// A name of a group, after others of it and after other groups.
fn param_name(
    enclosing: Option<&Contract>,
    groups: &[Group],
    before: &[Word],
    word: &Word,
) -> Result<(), Fault>
    ensures { reported result
        ≡ first_of (param_name_tests (option_copied enclosing.entry) groups.now before.now word.now) }
{
    let name = word.name.as_slice();
    let taken = is_contract_name(enclosing, name)
        || is_parameter(name, groups)
        || is_among(name, before);
    declared(Kind::NameTwice, word, taken)
}

// The names of a group after other groups.
fn param_names(enclosing: Option<&Contract>, groups: &[Group], names: &[Word]) -> Result<(), Fault>
    ensures { reported result
        ≡ first_of (walked (param_name_tests (option_copied enclosing.entry) groups.now) [] names.now) }
{
    for (k, word) in names.iter().enumerate() {
        param_name(enclosing, groups, &names[..k], word)?;
    }
    Ok(())
}

// A group of parameters after others.
#[tactic(auto, using(crate::proofs::TypingLemmas::walking))]
fn group(enclosing: Option<&Contract>, before: &[Group], group: &Group) -> Result<(), Fault>
    ensures { reported result ≡ first_of (group_tests (option_copied enclosing.entry) before.now group.now) }
{
    param_names(enclosing, before, group.names.as_slice())?;
    let is_type = IvyType::named(group.kind.name.as_slice()).is_some();
    refuse_if(!is_type, Kind::UnknownType, group.kind.at)
}

/// The parameters of a contract, or of a clause of this contract.
pub(crate) fn params(enclosing: Option<&Contract>, groups: &[Group]) -> Result<(), Fault>
    ensures { reported result ≡ first_of (param_tests (option_copied enclosing.entry) groups.now) }
{
    for (k, one) in groups.iter().enumerate() {
        group(enclosing, &groups[..k], one)?;
    }
    Ok(())
}
