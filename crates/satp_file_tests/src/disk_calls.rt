//! The calls of a site's disk. No function here says what it does, so that the proofs above carry no clause of a site's.

use crate::answer::Answer;
use crate::call::Call;
use satp_base::{Area, Disk};
use satp_site::{Directory, RealSite};

pub fn disk_call<D: Directory>(site: &mut RealSite<D>, call: Call<'_>, bytes: &[u8]) -> Answer {
    match call.word {
        "enter" => enter(site, bytes),
        "length" => length(site, call.area()),
        "read" => read(site, call.area(), call.number()),
        "write" => write(site, call.area(), call.number(), bytes),
        "cut" => cut(site, call.area(), call.number()),
        "sync" => sync(site, call.area()),
        _ => Answer::Nothing,
    }
}

fn enter<D: Directory>(site: &mut RealSite<D>, dir: &[u8]) -> Answer {
    Answer::Done(site.enter(dir).is_ok())
}

fn length<D: Directory>(site: &mut RealSite<D>, area: Area) -> Answer {
    match site.length(area) {
        Ok(length) => Answer::Length(length),
        Err(_) => Answer::Done(false),
    }
}

/// Reads with room for four bytes, which holds full stops.
fn read<D: Directory>(site: &mut RealSite<D>, area: Area, at: u64) -> Answer {
    let mut into = [b'.'; 4];
    match site.read(area, at, &mut into) {
        Ok(count) => Answer::Read(count, into),
        Err(_) => Answer::Done(false),
    }
}

fn write<D: Directory>(site: &mut RealSite<D>, area: Area, at: u64, bytes: &[u8]) -> Answer {
    Answer::Done(site.write(area, at, bytes).is_ok())
}

fn cut<D: Directory>(site: &mut RealSite<D>, area: Area, size: u64) -> Answer {
    Answer::Done(site.cut(area, size).is_ok())
}

fn sync<D: Directory>(site: &mut RealSite<D>, area: Area) -> Answer {
    Answer::Done(site.sync(area).is_ok())
}
