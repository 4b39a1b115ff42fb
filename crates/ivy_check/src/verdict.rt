//! The verdict on a source.
ghost use Rattle.std.specs.Prelude.{◌≡◌, ◌≢◌, ◌↔◌, ℕ, Some, None, Err, IfOk, IsOk};
ghost use Rattle.wire.specs.Tables.{First};
ghost use Rattle.ivy_syntax.specs.Texts.{IsOfSomeText};
ghost use Rattle.ivy_check.specs.TypeFault.{causes_of};
ghost use Rattle.ivy_check.specs.WellTyped.{WellTyped};
ghost use Rattle.ivy_check.specs.declared.fault.TypeFault.TheVariants.{At, NoMemory};

use crate::contract::contracts;
use crate::fault::TypeFault;
use ivy_syntax::Source;
use std::marker::Model;

/// A source that some text is, in which no type fault stands.
#[derive(Debug, Drop)]
pub struct Checked {
    source: Source,
}

impl Model for Checked {
    ghost use Rattle.ivy_syntax.specs.declared.tree.Source.{Source};
    ghost use Rattle.ivy_syntax.specs.contracts.tree.Form as form;
    ghost use Rattle.std.specs.Coded.{codes};

    ghost Value = { Source };

    ghost coded = { Prim.hlevel (codes, form.the_row.coded) };

    ghost use Rattle.ivy_check.specs.TypeFault.{IsChecked};

    ghost view = { λ checked. checked.source };

    ghost invariant = { λ checked. IsChecked checked.source };
}

impl Checked {
    /// The source.
    pub fn source(&self) -> &Source
        ensures source { result.now ≡ self.now }
        // Some text is it.
        ensures text { IsOfSomeText self.now }
        // No type fault stands in it.
        ensures none { First (causes_of self.now) None }
        // It is well typed.
        ensures typed { WellTyped self.now }
    {
        &self.source
    }
}

/// The source as it is, if no type fault stands in it. A source that is refused is dropped. Nothing is allocated, so
/// memory does not run out.
pub fn check(source: Source) -> Result<Checked, TypeFault>
    // Some text is the source.
    requires text { IsOfSomeText source }
    // What is checked is the source, and no type fault stands in it.
    ensures ok { IfOk result (λ checked. (checked ≡ source) × First (causes_of source) None) }
    // It is checked exactly where it is well typed.
    ensures typed { IsOk result ↔ WellTyped source }
    // A refusal is the first type fault.
    ensures fault { (at kind : ℕ) → (result ≡ Err (At at kind)) ↔ First (causes_of source) (Some (at, kind)) }
    // There is no other refusal.
    ensures only { result ≢ Err NoMemory }
{
    match contracts(source.contracts.as_slice()) {
        Ok(()) => Ok(Checked { source }),
        Err(fault) => Err(TypeFault::At {
            at: fault.at,
            kind: fault.kind.number(),
        }),
    }
}
