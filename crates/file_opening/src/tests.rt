//! Files whose sessions are opened.

use crate::{new_table, open_sessions};
use conf_text::{Conf, ConfFault, read_conf};
use refl_types::Mode;
use std::alloc::Global;
use std::test::Fail;

const TEXT: &str =
    "locals = [\"192.0.2.1:862\", \"192.0.2.1:863\"]\ntwamp = \"core\"\n[configs.edge]\n[configs.core]\nscale = 3\n[[sessions]]\npeer = \"192.0.2.2:5000\"\nconfig = \"edge\"\nssid = 7\n[[sessions]]\nlocal = 1\npeer = \"192.0.2.2:5000\"\nconfig = \"core\"\nmode = \"twamp\"\nwait = 9\n";

fn conf_of(alloc: Global, text: &str) -> Result<Conf, ConfFault> {
    read_conf(alloc, text.as_bytes())
}

#[test]
fn sessions_are_live_in_the_order_of_the_file(rt: HostRuntime) -> Result<(), Fail> {
    let alloc = rt.alloc();
    let Ok(conf) = conf_of(alloc, TEXT) else {
        panic!(rt; "the file is refused");
    };
    let Ok((table, mut book)) = new_table(alloc, &conf) else {
        panic!(rt; "there is memory");
    };
    open_sessions(&table, &mut book, &conf, 1_000);
    assert_eq!(rt; book.live_len(), 2);
    let Some(first) = book.live_at(0) else {
        panic!(rt; "the first session is live");
    };
    assert_eq!(rt; first.ssid, 7);
    assert!(rt; matches!(first.mode, Mode::Plain));
    let Some(second) = book.live_at(1) else {
        panic!(rt; "the second session is live");
    };
    assert_eq!(rt; second.local, 1);
    assert!(rt; matches!(second.mode, Mode::Twamp));
    assert!(rt; book.live_at(2).is_none());
    Ok(())
}

#[test]
fn a_session_waits_as_the_file_says(rt: HostRuntime) -> Result<(), Fail> {
    let alloc = rt.alloc();
    let Ok(conf) = conf_of(alloc, TEXT) else {
        panic!(rt; "the file is refused");
    };
    let Ok((table, mut book)) = new_table(alloc, &conf) else {
        panic!(rt; "there is memory");
    };
    open_sessions(&table, &mut book, &conf, 1_000);
    let kept = book.tick(&table, 9_000_000_999);
    assert_eq!(rt; kept.expired, 0);
    let ended = book.tick(&table, 9_000_001_000);
    assert_eq!(rt; ended.expired, 1);
    assert_eq!(rt; book.live_len(), 1);
    Ok(())
}
