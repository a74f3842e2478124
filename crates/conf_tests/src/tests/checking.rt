//! Files that are checked, over objects in memory of which some calls fail.

use conf_check::{check_file, load_conf};
use port_io::{MemFiles, MemSink};
use std::alloc::{AllocError, Global};
use std::test::Fail;

const NAME: &str = "reflector.toml";

const ACCEPTED: &str = "locals = [\"192.0.2.10:862\"]\n[configs.edge]\n";

const ACCEPTED_LINE: &[u8] = b"ok locals 1 configs 1 sessions 0\n";

fn numbers(alloc: Global, number: Option<u64>) -> Result<Vec<u64>, AllocError> {
    let mut numbers = Vec::new(alloc);
    if let Some(number) = number {
        numbers.push(number)?;
    }
    Ok(numbers)
}

/// One file, of which a load may fail.
fn one_file(alloc: Global, content: Vec<u8>, failing: Option<u64>) -> Result<MemFiles, Fail> {
    let mut names = Vec::new(alloc);
    names.push(String::from_str(alloc, NAME)?)?;
    let mut contents = Vec::new(alloc);
    contents.push(content)?;
    Ok(MemFiles::make(alloc, names, contents, numbers(alloc, failing)?)?)
}

#[test]
fn the_text_decides_the_status_and_the_line(rt: HostRuntime) -> Result<(), Fail> {
    let alloc = rt.alloc();
    let cases = [
        (ACCEPTED, 0, ACCEPTED_LINE),
        ("", 3, b"stampd: configuration: missing locals\n"),
        ("=", 3, b"stampd: configuration: not toml\n"),
        (
            "\"a\\n.\\u00e9\" = 1",
            3,
            b"stampd: configuration: unknown a\n.\xc3\xa9\n",
        ),
        (
            "locals = 3\nconfigs = 3",
            3,
            b"stampd: configuration: bad locals\n",
        ),
        (
            "locals = [\"192.0.2.10:862\"]\nslots = 0\n[configs.edge]\n",
            3,
            b"stampd: configuration: limit slots\n",
        ),
    ];
    for (text, status, line) in cases {
        let mut files = one_file(alloc, Vec::from_slice(alloc, text.as_bytes())?, None)?;
        let mut out = MemSink::make(alloc, 100, Vec::new(alloc))?;
        let got = check_file(alloc, NAME, &mut files, &mut out);
        assert_eq!(rt; got, status, "of {text}");
        assert_eq!(rt; out.written(), line, "of {text}");
    }
    Ok(())
}

#[test]
fn a_file_that_is_not_loaded_is_told_apart_from_one_that_is_too_long(
    rt: HostRuntime,
) -> Result<(), Fail> {
    let alloc = rt.alloc();
    for (name, len, failing, status, line) in [
        (
            NAME,
            1_048_576,
            None,
            3,
            b"stampd: configuration: missing locals\n".as_slice(),
        ),
        (NAME, 1_048_577, None, 5, b"stampd: file too long\n"),
        (NAME, 0, Some(1), 5, b"stampd: file failed\n"),
        ("another.toml", 0, None, 5, b"stampd: file failed\n"),
        ("", 0, None, 5, b"stampd: file failed\n"),
    ] {
        let mut files = one_file(alloc, vec![in alloc; b'\n'; len]?, failing)?;
        let mut out = MemSink::make(alloc, 100, Vec::new(alloc))?;
        let got = check_file(alloc, name, &mut files, &mut out);
        assert_eq!(rt; got, status, "of {len} octets in {name}");
        assert_eq!(rt; out.written(), line, "of {len} octets in {name}");
    }
    Ok(())
}

#[test]
fn a_line_that_cannot_be_written_is_dropped(rt: HostRuntime) -> Result<(), Fail> {
    let alloc = rt.alloc();
    for (text, failing, status) in [(ACCEPTED, None, 8), ("", None, 3), (ACCEPTED, Some(1), 5)] {
        let mut files = one_file(alloc, Vec::from_slice(alloc, text.as_bytes())?, failing)?;
        let mut out = MemSink::make(alloc, 100, numbers(alloc, Some(1))?)?;
        let got = check_file(alloc, NAME, &mut files, &mut out);
        assert_eq!(rt; got, status, "of {text}");
        assert_eq!(rt; out.written().len(), 0, "of {text}");
    }
    Ok(())
}

#[test]
fn a_file_is_loaded_where_memory_is_ample(rt: HostRuntime) -> Result<(), Fail> {
    let alloc = rt.alloc();
    let mut files = one_file(alloc, Vec::from_slice(alloc, ACCEPTED.as_bytes())?, None)?;
    let conf = load_conf(alloc, &mut files, NAME).map_err(|_| "a refusal")?;
    assert_eq!(rt; conf.locals().len(), 1);
    Ok(())
}
