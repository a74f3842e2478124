//! A session reflector for STAMP and TWAMP.
#![tactic(auto)]

use libc::STDERR_FILENO;
use libc::net::{EPOLL_CLOEXEC, epoll_create1};
use port_io::{DiskFiles, StdSink, StdSource};
use program::top::stampd;
use refl_types::Memory;
use socket_io::{Ends, TcpDesk, UdpPort};
use std::alloc::Global;
use std::process::ExitCode;
use std::{env, io};

/// Takes the numbers of standard streams that are closed, so that nothing else is opened there. What takes them can neither be
/// read nor be written: a command that uses such a stream fails as before.
fn keep_standard_numbers() {
    for _ in 0..=STDERR_FILENO {
        let number = epoll_create1(EPOLL_CLOEXEC);
        if number > STDERR_FILENO {
            libc::close(number);
            return;
        }
    }
}

/// As many ports as a configuration file may have workers.
const PORTS: usize = 64;

/// The ports, of which each may have a worker.
fn make_ports(
    rt: HostRuntime,
    alloc: Global,
    ends: &Ends,
) -> Result<Vec<UdpPort<HostRuntime>>, Memory> {
    let Ok(mut ports) = Vec::with_capacity(alloc, PORTS) else {
        return Err(Memory);
    };
    for _made in 0..PORTS {
        let port = UdpPort::make(rt, alloc, ends)?;
        let Ok(()) = ports.push(port) else {
            return Err(Memory);
        };
    }
    Ok(ports)
}

/// The words of the command line behind the program's name. Where one isn't UTF-8 there are none, which are no command.
fn command_words(rt: HostRuntime, alloc: Global) -> Result<Vec<String>, Memory> {
    let mut words = match env::args(&rt) {
        Ok(args) => args.collect::<Vec<String>>(alloc).map_err(|_| Memory)?,
        Err(error) if error.kind() == io::ErrorKind::InvalidData => Vec::new(alloc),
        Err(_) => return Err(Memory),
    };
    if !words.is_empty() {
        let _name = words.remove(0);
    }
    Ok(words)
}

/// The status where there is no memory for the real objects.
const NO_MEMORY: u8 = 4;

fn main(rt: HostRuntime) -> ExitCode {
    keep_standard_numbers();
    let alloc = rt.alloc();
    let Ok(words) = command_words(rt, alloc) else {
        return ExitCode::from(NO_MEMORY);
    };
    let Ok(mut input) = StdSource::make(rt, alloc) else {
        return ExitCode::from(NO_MEMORY);
    };
    let Ok(mut out) = StdSink::make(&rt, alloc) else {
        return ExitCode::from(NO_MEMORY);
    };
    let Ok(mut files) = DiskFiles::make(rt, alloc) else {
        return ExitCode::from(NO_MEMORY);
    };
    let Ok(ends) = Ends::make(alloc) else {
        return ExitCode::from(NO_MEMORY);
    };
    let Ok(mut ports) = make_ports(rt, alloc, &ends) else {
        return ExitCode::from(NO_MEMORY);
    };
    let Ok(mut desk) = TcpDesk::make(rt, alloc, &ends) else {
        return ExitCode::from(NO_MEMORY);
    };
    ExitCode::from(stampd(
        &rt,
        alloc,
        &words,
        &mut input,
        &mut out,
        &mut files,
        ports.as_mut_slice(),
        &mut desk,
    ))
}
