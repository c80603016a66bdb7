//! The program `satp`: the command line's run over the real devices.
#![tactic(auto)]

use satp_app::run_arguments;
use satp_devices::{FileDisk, Input, Output, Patience, TcpWire};
use satp_site::RealSite;
use std::env;
use std::process::ExitCode;

fn main(rt: HostRuntime) -> ExitCode {
    let mut site = RealSite::new(FileDisk::new(&rt, rt.alloc()), rt.alloc());
    let mut wire = TcpWire::new(&rt, Patience::usual());
    let mut input = Input::new(rt.stdin());
    let mut out = Output::new(rt.stdout());
    let mut err = Output::new(rt.stderr());
    ExitCode::from(run_arguments(
        rt.alloc(),
        env::args(&rt),
        &mut site,
        &mut wire,
        &mut input,
        &mut out,
        &mut err,
    ))
}
