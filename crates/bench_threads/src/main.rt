//! `bench_threads`: how often a second packets are served at ports that run at once, each in a thread of its own. It
//! runs one, two and four ports, with a bank each and with one bank for all. Without an argument it serves full ports
//! once and prints how many writes were done. With a number N it serves them N times and prints rates.
#![tactic(auto)]

mod serves;

use crate::serves::serve_writes;
use anyhow::{Context, Result};
use bpf::Image;
use bver::{Accepted, MapSizes, verify};
use std::alloc::Global;
use std::env;
use std::marker::Brand;
use std::rt::{Clock, Env};
use std::sync::Wait;
use std::thread::Threads;
use target::NodeHistory;

/// `mov r0, 0; exit`.
const YES: &[u8; 32] = b"BPFA\x01\x00\x02\x00\x02\x00\x00\x00\x00\x00\x00\x00\
    \xb7\x00\x00\x00\x00\x00\x00\x00\x95\x00\x00\x00\x00\x00\x00\x00";

/// The program that says yes.
fn yes(alloc: Global) -> Result<Accepted> {
    let image = Image::read(alloc, YES)?;
    Ok(verify(alloc, image, &MapSizes::new(&[])?)?)
}

/// Serves this many full ports, which have a bank each or one for all, as often as asked, or once. Prints how many
/// writes a second were done, or how many.
fn measure<R: Threads + Wait + Clock + Print + Sync>(
    rt: &R,
    alloc: Global,
    ports: u8,
    has_one_bank: bool,
    rounds: Option<u32>,
) -> Result<()> {
    let mut done = 0u64;
    let mut nanos = 0u128;
    for _ in 0..rounds.unwrap_or(1) {
        let factory = yes(alloc)?;
        let (writes, took) = serve_writes::<Brand, _>(
            rt,
            alloc,
            NodeHistory::new(),
            factory,
            ports,
            has_one_bank,
        )?;
        done = done.wrapping_add(writes);
        nanos = nanos.wrapping_add(took);
    }
    let banks = if has_one_bank {
        "one bank"
    } else {
        "a bank each"
    };
    let what = format!(in alloc; "packets served (ports {ports}, {banks})")?;
    if rounds.is_some() {
        let rate = u128::from(done) * 1_000_000_000 / nanos.max(1);
        println!(rt; "{what}: {rate} a second")?;
    } else {
        println!(rt; "{what}: {done}")?;
    }
    Ok(())
}

/// How often full ports are to be served, if the command line says it.
fn rounds_given<R: Env + AllocGlobal>(rt: &R) -> Result<Option<u32>> {
    match env::args(rt)?.nth(1) {
        Some(word) => Ok(Some(word.parse::<u32>().context("the rounds are a number")?)),
        None => Ok(None),
    }
}

fn main(rt: HostRuntime) -> Result<()> {
    let rounds = rounds_given(&rt)?;
    for ports in [1, 2, 4] {
        measure(&rt, rt.alloc(), ports, false, rounds)?;
    }
    for ports in [2, 4] {
        measure(&rt, rt.alloc(), ports, true, rounds)?;
    }
    Ok(())
}
