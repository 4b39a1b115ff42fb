//! The types of expressions, as they are given to those who compile them.
ghost use Rattle.std.specs.Prelude.{◌≡◌, Some};
ghost use Rattle.ivy_check.specs.Scope.{scope_of};
ghost use Rattle.ivy_check.specs.Typing.{AllTypesExist, HasType, HaveOneType};

use crate::expression::whole_expression;
use crate::operators::are_of_one_type;
use crate::scope::Scope;
use crate::types::IvyType;
use ivy_syntax::Expr;

/// The type that an expression has by itself where it stands, so that of a number literal is Integer; nothing for a
/// list, and for an expression with a type fault.
pub fn expression_type(scope: Scope, e: &Expr) -> Option<IvyType>
    // It is the type that the table gives.
    ensures some { (type : IvyType) → HasType (scope_of scope.entry) e.now type → result ≡ Some type }
    // There is no other, where the types of all parameters exist.
    ensures only { (type : IvyType)
        → AllTypesExist (scope_of scope.entry)
        → result ≡ Some type
        → HasType (scope_of scope.entry) e.now type }
{
    match whole_expression(scope, e) {
        Ok(inferred) => inferred.ivy_type,
        Err(_) => None,
    }
}

/// The one type that two operands have beside one another, so that a number literal takes the other's; nothing where
/// they have none.
pub fn common_type(scope: Scope, left: &Expr, right: &Expr) -> Option<IvyType>
    // It is the type that the table gives.
    ensures some { (type : IvyType)
        → HaveOneType (scope_of scope.entry) left.now right.now type
        → result ≡ Some type }
    // There is no other, where the types of all parameters exist.
    ensures only { (type : IvyType)
        → AllTypesExist (scope_of scope.entry)
        → result ≡ Some type
        → HaveOneType (scope_of scope.entry) left.now right.now type }
{
    let Ok(first) = whole_expression(scope, left) else {
        return None;
    };
    let Ok(second) = whole_expression(scope, right) else {
        return None;
    };
    if are_of_one_type(first, second) {
        first.coerced_beside(second)
    } else {
        None
    }
}
