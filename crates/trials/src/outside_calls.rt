//! The system's files and output. Files and a sink in memory, with each of their faults in turn, are played by the
//! crate `calls`.
ghost use Rattle.std.specs.Prelude.{◌<◌, ◌^◌};

use outside::{FileFault, Files, Sink, StdFiles, StdSink};
use std::alloc::Global;
use std::cell::Cell;
use std::fmt::Display;
use std::test::Fail;
use std::{env, fs, io, process};

const FAILED: FileFault = FileFault::Failed;

/// Takes one byte a turn, and none any more after `left` of them.
#[derive(Drop)]
struct Slow {
    left: Cell<u32>,
    taken: Cell<u32>,
}

impl Print for Slow {
    fn print<D: Display + Drop>(&self, _value: D) -> io::Result<()> {
        Ok(())
    }

    fn println<D: Display + Drop>(&self, _value: D) -> io::Result<()> {
        Ok(())
    }

    fn write_all(&self, _bytes: &[u8]) -> io::Result<()> {
        Ok(())
    }

    fn write_some(&self, bytes: &[u8]) -> io::Result<usize> {
        let left = self.left.get();
        match bytes {
            [byte, ..] if left > 0 => {
                self.left.set(left - 1);
                self.taken
                    .set(self.taken.get().wrapping_mul(256) | u32::from(*byte));
                Ok(1)
            }
            _ => Ok(0),
        }
    }
}

#[test]
fn a_sink_over_a_runtime_writes_turn_by_turn(rt: HostRuntime) {
    assert!(rt; StdSink::new(&rt).write(b"printed\n") == Ok(()));
    let slow = Slow {
        left: Cell::new(5),
        taken: Cell::new(0),
    };
    let mut sink = StdSink::new(&slow);
    assert!(rt; sink.write(b"abc") == Ok(()) && slow.taken.get() == 0x61_62_63);
    // a turn that takes nothing
    assert!(rt; sink.write(b"def") == Err(FAILED) && slow.taken.get() == 0x62_63_64_65);
}

/// A folder of its own under the system's temporary one.
fn new_folder(rt: &HostRuntime) -> Result<String, Fail> {
    let temporary = env::temp_dir(rt)?.into_string();
    let own = process::id(rt.process());
    let folder = format!(in rt.alloc(); "{temporary}/outside-test-{own}")?;
    fs::create_dir(rt, folder.as_str())?;
    Ok(folder)
}

fn holds(rt: &HostRuntime, name: &str, bytes: &[u8]) -> bool {
    match fs::read(rt, name) {
        Ok(content) => content.as_slice() == bytes,
        Err(_) => false,
    }
}

/// Whether a read gives these bytes.
fn gives<F: Files>(alloc: Global, files: &mut F, name: &str, most: u64, bytes: &[u8]) -> bool
    requires { most < 2 ^ 63 }
{
    match files.read(alloc, name, most) {
        Ok(front) => front.as_slice() == bytes,
        Err(_) => false,
    }
}

/// A missing file is a failure of a read, and is made by an append. A read gives one byte more than `most`, and all of
/// a file that is shorter.
fn appends_and_reads<F: Files>(alloc: Global, files: &mut F, name: &str) -> bool {
    files.read(alloc, name, 9).err() == Some(FAILED)
        && files.append(name, b"abc").is_ok()
        && files.append(name, b"def").is_ok()
        && gives(alloc, files, name, 3, b"abcd")
        && gives(alloc, files, name, 9, b"abcdef")
}

/// An append to another file or a replace comes between two appends to a file, and each has its bytes.
fn appends_between<F: Files>(rt: &HostRuntime, files: &mut F, name: &str, other: &str) -> bool {
    files.append(name, b"g").is_ok()
        && files.append(other, b"1").is_ok()
        && files.append(name, b"h").is_ok()
        && holds(rt, name, b"abcdefgh")
        && holds(rt, other, b"1")
        && files.replace(name, b"new").is_ok()
        && files.append(name, b"er").is_ok()
        && files.append(name, b"!").is_ok()
        && holds(rt, name, b"newer!")
}

/// A replace leaves no draft, whatever stood there, so that a folder can be made in its place. The draft goes by
/// the name with `.new`: where that is a folder, nothing is replaced.
fn replaces<F: Files>(rt: &HostRuntime, files: &mut F, name: &str, draft: &str) -> bool {
    fs::write(rt, draft, "an old draft, longer than the file").is_ok()
        && files.replace(name, b"xy").is_ok()
        && holds(rt, name, b"xy")
        && fs::create_dir(rt, draft).is_ok()
        && files.replace(name, b"zz") == Err(FAILED)
        && holds(rt, name, b"xy")
}

/// A folder takes no file's place: the renaming fails, and the draft is removed.
fn keeps_folders<F: Files>(rt: &HostRuntime, files: &mut F, folder: &str, draft: &str) -> bool {
    files.append(folder, b"zz") == Err(FAILED)
        && files.replace(folder, b"zz") == Err(FAILED)
        && fs::create_dir(rt, draft).is_ok()
}

#[test]
fn files_of_the_system(rt: HostRuntime) -> Result<(), Fail> {
    let folder = new_folder(&rt)?;
    let name = format!(in rt.alloc(); "{folder}/led")?;
    let draft = format!(in rt.alloc(); "{folder}/led.new")?;
    let other = format!(in rt.alloc(); "{folder}/other")?;
    let beside = format!(in rt.alloc(); "{folder}.new")?;
    let mut files = StdFiles::new(&rt);
    assert!(rt; appends_and_reads(rt.alloc(), &mut files, name.as_str()));
    assert!(rt; appends_between(&rt, &mut files, name.as_str(), other.as_str()));
    assert!(rt; replaces(&rt, &mut files, name.as_str(), draft.as_str()));
    assert!(rt; keeps_folders(&rt, &mut files, folder.as_str(), beside.as_str()));
    fs::remove_dir_all(&rt, folder.as_str())?;
    fs::remove_dir_all(&rt, beside.as_str())?;
    Ok(())
}
