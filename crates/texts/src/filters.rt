//! What is answered of a text as a filter of rows, and as a list of attributes.
use anyhow::{Result, bail};
use filter_syntax::{Filter, FilterFault, RowKind, parse_by, parse_filter, print_filter};
use std::str;

/// Prints the filter as it is printed, or the fault of the text.
pub fn filter(rt: &(impl Print + AllocGlobal), kind: &str, text: &[u8]) -> Result<()> {
    let kind = match kind {
        "transactions" => RowKind::Transactions,
        "outputs" => RowKind::Outputs,
        "assets" => RowKind::Assets,
        kind => bail!("no kind of rows: {kind}"),
    };
    match parse_filter(rt.alloc(), kind, str::from_utf8(text)?) {
        Ok(filter) => print_shown(rt, &filter),
        Err(fault) => print_fault(rt, fault),
    }
}

/// Prints the names, with commas between them, or the fault of the text.
pub fn attribute_names(rt: &(impl Print + AllocGlobal), text: &[u8]) -> Result<()> {
    match parse_by(rt.alloc(), str::from_utf8(text)?) {
        Ok(names) => {
            print!(rt; "by")?;
            let mut before = ' ';
            for name in names.as_slice() {
                let name = str::from_utf8(name.as_slice())?;
                print!(rt; "{before}{name}")?;
                before = ',';
            }
            println!(rt)?;
            Ok(())
        }
        Err(fault) => print_fault(rt, fault),
    }
}

fn print_shown(rt: &(impl Print + AllocGlobal), filter: &Filter) -> Result<()> {
    let Ok(printed) = print_filter(rt.alloc(), filter) else {
        bail!("no memory");
    };
    println!(rt; "filter {printed}")?;
    Ok(())
}

fn print_fault(rt: &impl Print, fault: FilterFault) -> Result<()> {
    match fault {
        FilterFault::Syntax { at } => println!(rt; "syntax {at}")?,
        FilterFault::UnknownAttribute { at } => println!(rt; "attribute {at}")?,
        FilterFault::NoMemory => bail!("no memory"),
    }
    Ok(())
}
