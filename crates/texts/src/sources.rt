//! What is answered of a text as a source of Ivy.
use anyhow::{Result, bail};
use ivy_check::{Checked, TypeFault, check};
use ivy_syntax::{ParseFault, parse, print};

/// Prints `source`, or the fault of the text.
pub fn parsed(rt: &(impl Print + AllocGlobal), text: &[u8]) -> Result<()> {
    match parse(rt.alloc(), text) {
        Ok(_) => println!(rt; "source")?,
        Err(fault) => print_fault(rt, fault)?,
    }
    Ok(())
}

/// Prints `checked`, or the first type fault, or the fault of the text.
pub fn checked(rt: &(impl Print + AllocGlobal), text: &[u8]) -> Result<()> {
    match parse(rt.alloc(), text) {
        Ok(source) => print_verdict(rt, check(source)),
        Err(fault) => print_fault(rt, fault),
    }
}

/// Prints the source as it is printed, or the fault of the text.
pub fn printed(rt: &(impl Print + AllocGlobal), text: &[u8]) -> Result<()> {
    match parse(rt.alloc(), text) {
        Ok(source) => {
            let Ok(printed) = print(rt.alloc(), &source) else {
                bail!("no memory");
            };
            print!(rt; "{printed}")?;
            Ok(())
        }
        Err(fault) => print_fault(rt, fault),
    }
}

fn print_verdict(rt: &impl Print, answer: Result<Checked, TypeFault>) -> Result<()> {
    match answer {
        Ok(_) => println!(rt; "checked")?,
        Err(TypeFault::At { at, kind }) => println!(rt; "type {kind} {at}")?,
        Err(TypeFault::NoMemory) => bail!("no memory"),
    }
    Ok(())
}

fn print_fault(rt: &impl Print, fault: ParseFault) -> Result<()> {
    match fault {
        ParseFault::Syntax { at } => println!(rt; "syntax {at}")?,
        ParseFault::TooMany { what, at } => println!(rt; "toomany {what} {at}")?,
        ParseFault::NoMemory => bail!("no memory"),
    }
    Ok(())
}
