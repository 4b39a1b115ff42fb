//! The parameters of a contract and of a clause with their types, and the place of a name among them.
ghost use Rattle.std.specs.Prelude.{◌≡◌, ◌++◌, IfOk, OnOk};
ghost use Rattle.ivy_check.specs.Scope.{scope_of};
ghost use Rattle.ivy_check.specs.Parameters.{group_parameters, parameters, all_parameters, place_of};

use crate::scope::Scope;
use crate::types::IvyType;
use ivy_syntax::{Group, NoMemory, Text};
use std::alloc::Global;
use wire::Listed;

/// A parameter of a contract or of a clause.
#[derive(Debug, Drop)]
pub struct Param {
    pub name: Text,
    pub kind: IvyType,
}

/// Parameters, in order.
pub type Params = Listed<Param>;

/// The parameters that groups declare, in order. A group of a type that does not exist declares none.
pub fn params(alloc: Global, groups: &[Group]) -> Result<Params, NoMemory>
    ensures { IfOk result (λ params. params ≡ parameters groups.now) }
{
    let mut params = Listed::new(alloc);
    add_groups(alloc, &mut params, groups)?;
    Ok(params)
}

/// The parameters of a contract, and after them those of a clause of it.
pub fn all_params(alloc: Global, scope: Scope) -> Result<Params, NoMemory>
    ensures { IfOk result (λ params. params ≡ all_parameters (scope_of scope.entry)) }
{
    let mut params = params(alloc, scope.contract.params.as_slice())?;
    add_groups(alloc, &mut params, scope.clause.params.as_slice())?;
    Ok(params)
}

fn add_groups(alloc: Global, params: &mut Params, groups: &[Group]) -> Result<(), NoMemory>
    ensures { OnOk result (params.new ≡ params.old ++ parameters groups.now) }
{
    for group in groups {
        add_group(alloc, params, group)?;
    }
    Ok(())
}

fn add_group(alloc: Global, params: &mut Params, group: &Group) -> Result<(), NoMemory>
    ensures { OnOk result (params.new ≡ params.old ++ group_parameters group.now) }
{
    let Some(kind) = IvyType::named(group.kind.name.as_slice()) else {
        return Ok(());
    };
    for word in group.names.as_slice() {
        params.push(Param {
            name: word.name.copy(alloc)?,
            kind,
        })?;
    }
    Ok(())
}

/// The place of the first of these parameters that has this name, from 0.
pub fn place_of(name: &[u8], params: &[Param]) -> Option<usize>
    ensures { result ≡ place_of name.now params.now }
{
    params
        .iter()
        .position(|param| param.name.as_slice() == name)
}
