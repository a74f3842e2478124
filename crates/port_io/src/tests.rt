//! Files on disk and in memory.

use crate::disk_files::DiskFiles;
use crate::files::{FileFault, Files};
use crate::mem_files::MemFiles;
use std::alloc::{AllocError, Global};
use std::fs;
use std::test::Fail;

const NAME: &str = "three_hundred_octets";

fn octets(alloc: Global) -> Result<Vec<u8>, AllocError> {
    let mut octets = Vec::new(alloc);
    for n in 0..300u16 {
        octets.push((n % 251) as u8)?;
    }
    Ok(octets)
}

#[test]
fn a_file_on_disk_is_loaded_whole_or_its_fault_is_told(rt: HostRuntime) -> Result<(), Fail> {
    let alloc = rt.alloc();
    let wanted = octets(alloc)?;
    fs::write(&rt, NAME, wanted.as_slice())?;
    let mut files = DiskFiles::make(rt, alloc)?;
    let whole = files.load(alloc, NAME, 300);
    let long = files.load(alloc, NAME, 299);
    fs::remove_file(&rt, NAME)?;
    let gone = files.load(alloc, NAME, 300);
    assert_eq!(rt; whole?.as_slice(), wanted.as_slice());
    assert_eq!(rt; long.err(), Some(FileFault::TooLong(300)));
    assert_eq!(rt; gone.err(), Some(FileFault::Failed));
    Ok(())
}

#[test]
fn a_file_in_memory_is_loaded_where_memory_is_ample(rt: HostRuntime) -> Result<(), Fail> {
    let alloc = rt.alloc();
    let mut names = Vec::new(alloc);
    names.push(String::from_str(alloc, NAME)?)?;
    let mut contents = Vec::new(alloc);
    contents.push(octets(alloc)?)?;
    let mut files = MemFiles::make(alloc, names, contents, Vec::new(alloc))?;
    assert_eq!(rt;
        files.load(alloc, NAME, 300)?.as_slice(),
        octets(alloc)?.as_slice()
    );
    Ok(())
}
