//! Files and their faults, worked out by hand.

use conf_text::{ConfFault, read_conf};
use std::alloc::{AllocError, Global};
use std::test::Fail;

/// What is told of a text: `ok`, or its fault.
fn told(alloc: Global, text: &str) -> Result<String, AllocError> {
    match read_conf(alloc, text.as_bytes()) {
        Ok(_) => String::from_str(alloc, "ok"),
        Err(ConfFault::Memory) => String::from_str(alloc, "no memory"),
        Err(ConfFault::NotToml) => String::from_str(alloc, "not toml"),
        Err(ConfFault::Unknown(path)) => format!(in alloc; "unknown {path}"),
        Err(ConfFault::Missing(path)) => format!(in alloc; "missing {path}"),
        Err(ConfFault::BadValue(path)) => format!(in alloc; "bad {path}"),
        Err(ConfFault::Limit(path)) => format!(in alloc; "limit {path}"),
    }
}

/// A file with one local address and one configuration, with these lines at its root and these in the configuration.
fn with(alloc: Global, root: &str, configuration: &str) -> Result<String, AllocError> {
    format!(in alloc; "locals = [\"192.0.2.1:862\"]\n{root}\n[configs.edge]\n{configuration}\n")
}

#[test]
fn the_root_is_told_first(rt: HostRuntime) -> Result<(), Fail> {
    let cases = [
        ("=", "not toml"),
        ("workers = 9223372036854775808", "not toml"),
        ("", "missing locals"),
        ("locals = 3", "missing configs"),
        ("locals = 3\ncontrol = 3\n[configs]", "missing twamp"),
        ("zeta = 1\nalpha = 1", "unknown alpha"),
        ("\"a.b\" = 1", "unknown a.b"),
        ("\"\" = 1", "unknown "),
        ("locals = 3\n[configs]", "bad locals"),
        ("locals = []\n[configs]", "limit locals"),
        ("locals = [3]\n[configs]", "bad locals.0"),
        ("locals = [\"192.0.2.1:0\"]\n[configs]", "bad locals.0"),
        (
            "locals = [\"192.0.2.1:1\", \"192.0.2.1:2\", \"192.0.2.1:1\"]\n[configs]",
            "bad locals.2",
        ),
        (
            "locals = [1,2,3,4,5,6,7,8,9,10,11,12,13,14,15,16,17]\n[configs]",
            "limit locals",
        ),
        ("configs = 3\nlocals = [\"192.0.2.1:1\"]", "bad configs"),
        ("configs = {}\nlocals = [\"192.0.2.1:1\"]", "limit configs"),
        (
            "configs.edge = 3\nlocals = [\"192.0.2.1:1\"]",
            "bad configs.edge",
        ),
        (
            "configs.Edge = {}\nlocals = [\"192.0.2.1:1\"]",
            "bad configs",
        ),
        (
            "configs.b = {x = 1}\nconfigs.\"a b\" = {}\nlocals = [\"192.0.2.1:1\"]",
            "bad configs",
        ),
        (
            "configs.a = {x = 1}\nconfigs.\"a b\" = {}\nlocals = [\"192.0.2.1:1\"]",
            "unknown configs.a.x",
        ),
        (
            "configs = 3\nlocals = [\"192.0.2.1:1\"]\ntwamp = \"edge\"",
            "bad twamp",
        ),
        (
            "configs.Edge = {}\nlocals = [\"192.0.2.1:1\"]\ntwamp = \"Edge\"",
            "bad twamp",
        ),
    ];
    for (text, want) in cases {
        let got = told(rt.alloc(), text)?;
        assert_eq!(rt; got.as_str(), want, "of {text}");
    }
    Ok(())
}

#[test]
fn the_values_of_the_root(rt: HostRuntime) -> Result<(), Fail> {
    let cases = [
        ("", "ok"),
        ("workers = 64\nslots = 16384\nrows = 8191", "ok"),
        ("workers = 0", "limit workers"),
        ("workers = 65", "limit workers"),
        ("workers = -1", "limit workers"),
        ("workers = \"1\"", "bad workers"),
        ("slots = 0", "limit slots"),
        ("slots = 16385", "limit slots"),
        ("rows = 0", "limit rows"),
        ("rows = 8192", "limit rows"),
        ("limit = -1", "limit limit"),
        ("limit = 1.5", "bad limit"),
        ("turns = 9223372036854775807", "ok"),
        ("turns = -1", "limit turns"),
        ("control = 3\ntwamp = \"edge\"", "bad control"),
        ("control = \"192.0.2.1:862\"\ntwamp = \"edge\"", "ok"),
        ("operator = \"192.0.2.1\"", "bad operator"),
        ("twamp = \"edge\"", "ok"),
        ("twamp = \"other\"", "bad twamp"),
        ("twamp = 3", "bad twamp"),
        ("slots = 0\nworkers = 0\noperator = 3", "limit workers"),
    ];
    for (root, want) in cases {
        let text = with(rt.alloc(), root, "")?;
        let got = told(rt.alloc(), text.as_str())?;
        assert_eq!(rt; got.as_str(), want, "of {root}");
    }
    Ok(())
}

#[test]
fn the_values_of_a_configuration(rt: HostRuntime) -> Result<(), Fail> {
    let cases = [
        ("zeta = 1\nalpha = 1", "unknown configs.edge.alpha"),
        ("stateful = 1", "bad configs.edge.stateful"),
        ("format = \"tai\"", "bad configs.edge.format"),
        ("offset = 256", "limit configs.edge.offset"),
        ("synced = \"yes\"", "bad configs.edge.synced"),
        ("scale = 64", "limit configs.edge.scale"),
        ("multiplier = 0", "limit configs.edge.multiplier"),
        ("multiplier = 256", "limit configs.edge.multiplier"),
        ("key = \"\"", "limit configs.edge.key"),
        ("key = \"0\"", "bad configs.edge.key"),
        ("key = \"0g\"", "bad configs.edge.key"),
        ("key = \"0F0f\"", "ok"),
        ("info = \"00000000\"", "ok"),
        ("info = \"000000\"", "bad configs.edge.info"),
        ("info = \"0000000g\"", "bad configs.edge.info"),
        ("tlvs = 3", "bad configs.edge.tlvs"),
        ("tlvs = []", "ok"),
        ("tlvs = [3, 5, 9, 10]", "ok"),
        ("tlvs = [3, 4]", "bad configs.edge.tlvs.1"),
        ("tlvs = [3, 5, 3]", "bad configs.edge.tlvs.2"),
        ("tlvs = [-3]", "bad configs.edge.tlvs.0"),
        ("tlvs = 3\noffset = 256", "limit configs.edge.offset"),
    ];
    for (lines, want) in cases {
        let text = with(rt.alloc(), "", lines)?;
        let got = told(rt.alloc(), text.as_str())?;
        assert_eq!(rt; got.as_str(), want, "of {lines}");
    }
    Ok(())
}

#[test]
fn the_values_of_sessions(rt: HostRuntime) -> Result<(), Fail> {
    let cases = [
        ("sessions = 3", "bad sessions"),
        ("sessions = []", "ok"),
        ("sessions = [3]", "bad sessions.0"),
        ("slots = 1\nsessions = [3, 3]", "limit sessions"),
        ("sessions = [{x = 1}]", "unknown sessions.0.x"),
        ("sessions = [{}]", "missing sessions.0.peer"),
        ("sessions = [{peer = 3}]", "missing sessions.0.config"),
        (
            "sessions = [{peer = 3, config = \"edge\"}]",
            "bad sessions.0.peer",
        ),
        (
            "sessions = [{peer = 3, config = \"edge\", local = 1}]",
            "limit sessions.0.local",
        ),
        (
            "sessions = [{peer = \"192.0.2.9:1\", config = \"other\"}]",
            "bad sessions.0.config",
        ),
        (
            "sessions = [{peer = \"192.0.2.9:1\", config = \"edge\", mode = \"none\"}]",
            "bad sessions.0.mode",
        ),
        (
            "sessions = [{peer = \"192.0.2.9:1\", config = \"edge\", ssid = 65536}]",
            "limit sessions.0.ssid",
        ),
        (
            "sessions = [{peer = \"192.0.2.9:1\", config = \"edge\", wait = 31536001}]",
            "limit sessions.0.wait",
        ),
        (
            "sessions = [{peer = \"192.0.2.9:1\", config = \"edge\", wait = 31536000}]",
            "ok",
        ),
        (
            "sessions = [{peer = \"192.0.2.9:1\", config = \"edge\", reflect = 65536}]",
            "limit sessions.0.reflect",
        ),
        (
            "sessions = [{peer = \"192.0.2.9:1\", config = \"edge\", symmetrical = 1}]",
            "bad sessions.0.symmetrical",
        ),
        (
            "sessions = [{peer = \"192.0.2.9:1\", config = \"edge\", reflect = 1}]",
            "bad sessions.0",
        ),
        (
            "sessions = [{peer = \"192.0.2.9:1\", config = \"edge\", mode = \"twamp\", ssid = 1}]",
            "bad sessions.0",
        ),
        (
            "sessions = [{peer = \"192.0.2.9:1\", config = \"edge\", mode = \"twamp\", reflect = 1}]",
            "ok",
        ),
        (
            "sessions = [{peer = \"192.0.2.9:1\", config = \"edge\", mode = \"auth\"}]",
            "bad sessions.0",
        ),
        (
            "sessions = [{peer = \"192.0.2.9:1\", config = \"edge\"}, {peer = \"192.0.2.9:1\", config = \"edge\"}]",
            "bad sessions.1",
        ),
        (
            "sessions = [{peer = \"192.0.2.9:1\", config = \"edge\"}, {peer = \"192.0.2.9:1\", config = \"edge\", mode = \"twamp\"}]",
            "bad sessions.1",
        ),
        (
            "sessions = [{peer = \"192.0.2.9:1\", config = \"edge\"}, {peer = \"192.0.2.9:1\", config = \"edge\", ssid = 1}]",
            "ok",
        ),
        (
            "sessions = [{peer = \"192.0.2.9:1\", config = \"edge\"}, {peer = \"192.0.2.9:2\", config = \"edge\", mode = \"twamp\"}]",
            "ok",
        ),
    ];
    for (root, want) in cases {
        let text = with(rt.alloc(), root, "")?;
        let got = told(rt.alloc(), text.as_str())?;
        assert_eq!(rt; got.as_str(), want, "of {root}");
    }
    Ok(())
}

#[test]
fn rows_are_counted_by_value(rt: HostRuntime) -> Result<(), Fail> {
    let sessions =
        "sessions = [{peer = \"192.0.2.9:1\", config = \"edge\"}, {peer = \"192.0.2.8:1\", config = \"other\"}]";
    let cases = [
        ("configs.other = {}", "scale = 1", "limit rows"),
        ("configs.other = {scale = 1}", "scale = 1", "ok"),
        ("configs.other = {key = \"00\"}", "key = \"0000\"", "ok"),
        (
            "configs.other = {key = \"00\"}",
            "key = \"01\"",
            "limit rows",
        ),
    ];
    for (other, edge, want) in cases {
        let root = format!(in rt.alloc(); "rows = 1\n{sessions}\n{other}")?;
        let text = with(rt.alloc(), root.as_str(), edge)?;
        let got = told(rt.alloc(), text.as_str())?;
        assert_eq!(rt; got.as_str(), want, "of {other} and {edge}");
    }
    Ok(())
}

/// As many sessions as a file may have, each of its own peer.
fn many(alloc: Global) -> Result<String, AllocError> {
    let mut text = String::from_str(
        alloc,
        "locals = [\"192.0.2.1:862\"]\nslots = 16384\nsessions = [\n",
    )?;
    for high in 0..64u8 {
        for low in 0..=255u8 {
            let line = format!(in alloc; "{{peer=\"10.1.{high}.{low}:5000\",config=\"edge\"}},\n")?;
            text.push_str(line.as_str())?;
        }
    }
    text.push_str("]\n[configs.edge]\n")?;
    Ok(text)
}

#[test]
fn a_file_with_16384_sessions_is_read(rt: HostRuntime) -> Result<(), Fail> {
    let text = many(rt.alloc())?;
    let conf = read_conf(rt.alloc(), text.as_bytes()).map_err(|_| "a fault")?;
    assert_eq!(rt; conf.sessions().len(), 16384);
    Ok(())
}
