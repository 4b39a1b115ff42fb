//! A case of a script: its files and its sink, and the calls over them.
use crate::begun::print_begun;
use crate::words::hex_word;
use anyhow::{Context, Result, ensure};
use chain_top::chain_main;
use keyed::{Sha256Id, TableCheck};
use outside::{MemFiles, MemSink};
use std::alloc::Global;
use std::collections::BTreeMap;
use std::str;

/// Files and a sink in memory, a table of the signatures that are good, and beside them what was put last under each
/// name and how many bytes of its piece a failing append leaves.
#[derive(Drop)]
pub struct Case {
    given: BTreeMap<String, Vec<u8>>,
    keep: u64,
    files: MemFiles,
    out: MemSink,
    check: TableCheck,
    is_begun: bool,
}

impl Case {
    /// No files, an empty sink, no good signature, no call made, and none that is to fail.
    pub fn new(alloc: Global) -> Case {
        Case {
            given: BTreeMap::new(alloc),
            keep: 0,
            files: MemFiles::new(alloc, Vec::new(alloc)),
            out: MemSink::new(alloc, Vec::new(alloc)),
            check: TableCheck::new(alloc),
            is_begun: false,
        }
    }

    /// Sets the content of a file.
    pub fn put(&mut self, alloc: Global, name: &str, bytes: Vec<u8>) -> Result<()> {
        set_file(&mut self.files, name, &bytes)?;
        self.given.insert(String::from_str(alloc, name)?, bytes)?;
        Ok(())
    }

    /// Adds bytes so many times to what was put last under a name.
    pub fn add(&mut self, alloc: Global, name: &str, times: u32, piece: &[u8]) -> Result<()> {
        let mut bytes = match self.given.remove(name) {
            Some(bytes) => bytes,
            None => Vec::new(alloc),
        };
        for _ in 0..times {
            bytes.extend_from_slice(piece)?;
        }
        self.put(alloc, name, bytes)
    }

    /// Says which calls on the files are to fail, before the first call of the program.
    pub fn fail_files(&mut self, alloc: Global, calls: Vec<u64>) -> Result<()> {
        self.ensure_no_call()?;
        self.files = MemFiles::new(alloc, calls);
        self.files.tear(self.keep);
        for (name, bytes) in self.given.iter() {
            set_file(&mut self.files, name, bytes)?;
        }
        Ok(())
    }

    /// Says how many bytes of its piece a failing append leaves, before the first call of the program.
    pub fn tear_files(&mut self, keep: u64) -> Result<()> {
        self.ensure_no_call()?;
        self.keep = keep;
        self.files.tear(keep);
        Ok(())
    }

    /// Says which writes to the sink are to fail, before the first call of the program.
    pub fn fail_sink(&mut self, alloc: Global, writes: Vec<u64>) -> Result<()> {
        self.ensure_no_call()?;
        self.out = MemSink::new(alloc, writes);
        Ok(())
    }

    /// Makes a signature of a message good for a key, before the first call of the program.
    pub fn add_good(&mut self, key: &[u8], message: &[u8], signature: &[u8]) -> Result<()> {
        self.ensure_no_call()?;
        self.check
            .add(key, message, signature)
            .ok()
            .context("out of memory")
    }

    /// Makes one call of the program, and prints its status.
    pub fn call_quietly(
        &mut self,
        rt: &(impl Print + AllocGlobal),
        words: &[String],
    ) -> Result<()> {
        self.is_begun = true;
        let (files, out) = (&mut self.files, &mut self.out);
        let status = chain_main(rt.alloc(), words, files, out, &Sha256Id, &self.check);
        println!(rt; "status {status}")?;
        Ok(())
    }

    /// Makes one call of the program, and prints its status and what it printed, a line a line.
    pub fn call(&mut self, rt: &(impl Print + AllocGlobal), words: &[String]) -> Result<()> {
        let before = self.out.bytes().len();
        self.call_quietly(rt, words)?;
        let printed = self.out.bytes().get(before..).unwrap_or(&[]);
        for line in str::from_utf8(printed)?.split_inclusive('\n') {
            match line.strip_suffix('\n') {
                Some(whole) => println!(rt; "| {whole}")?,
                None => println!(rt; "|~{line}")?,
            }
        }
        Ok(())
    }

    /// Prints what a file holds.
    pub fn show(&self, rt: &(impl Print + AllocGlobal), name: &str) -> Result<()> {
        let given = self.given.get(name).map(|bytes| bytes.as_slice());
        match self.files.get(name) {
            None => println!(rt; "file {name} missing")?,
            Some(bytes) if given == Some(bytes) => println!(rt; "file {name} as put")?,
            Some(bytes) => {
                let word = hex_word(rt.alloc(), bytes)?;
                println!(rt; "file {name} {word}")?;
            }
        }
        Ok(())
    }

    /// Prints the reads and writes on the files that were begun.
    pub fn show_begun(&self, rt: &(impl Print + AllocGlobal)) -> Result<()> {
        print_begun(rt, &self.files)
    }

    /// Prints how many calls on the files and how many writes to the sink were made.
    pub fn tell_calls(&self, rt: &impl Print) -> Result<()> {
        let files = self.files.calls();
        let writes = self.out.calls();
        println!(rt; "calls {files} {writes}")?;
        Ok(())
    }

    // What stands before the first call of its case is refused after one.
    fn ensure_no_call(&self) -> Result<()> {
        ensure!(
            !self.is_begun,
            "this line has to stand before the first call"
        );
        Ok(())
    }
}

fn set_file(files: &mut MemFiles, name: &str, bytes: &[u8]) -> Result<()> {
    files.put(name, bytes).ok().context("out of memory")
}
