//! What an input brings, and what it has to satisfy.
ghost use Rattle.std.specs.Prelude.{◌≡◌};
ghost use Rattle.tx_check.specs.Parts.{amount_in, args_in, asset_in, program_in};

use data_model::Input;
use wire::{Args, Bytes, Id};

// The asset of an input's value.
pub(crate) fn asset_in(input: &Input) -> &Id
    ensures { result.now ≡ asset_in input.now }
{
    match input {
        Input::Issue(issue) => &issue.asset,
        Input::Spend(spend) => &spend.from.asset,
    }
}

// How many units of the asset an input brings.
pub(crate) fn amount_in(input: &Input) -> u64
    ensures { result ≡ amount_in input.now }
{
    match input {
        Input::Issue(issue) => issue.amount,
        Input::Spend(spend) => spend.from.amount,
    }
}

// The program that an input has to satisfy.
pub(crate) fn program_in(input: &Input) -> &Bytes
    ensures { result.now ≡ program_in input.now }
{
    match input {
        Input::Issue(issue) => &issue.program,
        Input::Spend(spend) => &spend.from.program,
    }
}

// The arguments of that program.
pub(crate) fn args_in(input: &Input) -> &Args
    ensures { result.now ≡ args_in input.now }
{
    match input {
        Input::Issue(issue) => &issue.args,
        Input::Spend(spend) => &spend.args,
    }
}
