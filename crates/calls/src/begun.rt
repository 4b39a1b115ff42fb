//! The reads and writes on files that were begun, a line each.
use crate::words::{hex_word, name_word};
use anyhow::Result;
use outside::{BegunKind, BegunRead, BegunWrite, MemFiles};

/// Prints how many reads and how many writes were begun, then each read and then each write, in the order in which they
/// were begun. A write that was not answered Ok ends with the word `failed`.
pub fn print_begun(rt: &(impl Print + AllocGlobal), files: &MemFiles) -> Result<()> {
    let (reads, writes) = (files.reads(), files.writes());
    let (read_count, write_count) = (reads.len(), writes.len());
    println!(rt; "begun {read_count} {write_count}")?;
    for read in reads {
        print_read(rt, read)?;
    }
    for write in writes {
        print_write(rt, write)?;
    }
    Ok(())
}

fn print_read(rt: &(impl Print + AllocGlobal), read: &BegunRead) -> Result<()> {
    let name = name_word(rt.alloc(), read.name.as_str())?;
    let most = read.most;
    println!(rt; "read {name} {most}")?;
    Ok(())
}

fn print_write(rt: &(impl Print + AllocGlobal), write: &BegunWrite) -> Result<()> {
    let verb = match write.kind {
        BegunKind::Appended => "append",
        BegunKind::Replaced => "replace",
    };
    let name = name_word(rt.alloc(), write.name.as_str())?;
    let bytes = hex_word(rt.alloc(), &write.bytes)?;
    let end = if write.done { "" } else { " failed" };
    println!(rt; "{verb} {name} {bytes}{end}")?;
    Ok(())
}
