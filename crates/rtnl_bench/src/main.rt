//! Measures the libraries over a recording on standard input, all datagrams N times:
//! `rtnl_bench read N`, `rtnl_bench write N` what was read, `rtnl_bench show N`. By
//! `rtnl_bench one N` and `rtnl_bench two N` it builds N thousand requests for routes, of one and of
//! two next hops. It prints a count that depends on what was done.
#![tactic(auto)]

ghost use Rattle.std.specs.Prelude.{◌≤◌, length};

use anyhow::{Result, bail};
use nl_attr::{Attr, NO_FLAGS, Order, Tally};
use nl_frame::{
    Body, BuildError, Builder, FamilyHead, Limits, Message, read_datagram, write_datagram,
};
use nl_route::{RouteHead, match_object};
use rtnl::{SliceSource, VecSink, run_show};
use std::alloc::Global;

/// The datagrams of a recording's lines.
fn datagrams(alloc: Global, recording: &str) -> Result<Vec<Vec<u8>>> {
    let mut datagrams = Vec::new(alloc);
    for line in recording.lines() {
        let digits = line.trim();
        if !digits.is_empty() && !digits.starts_with('#') {
            datagrams.push(hex::decode(alloc, digits)?)?;
        }
    }
    Ok(datagrams)
}

/// How many attributes a message has at its first level.
fn attributes(message: &Message) -> usize {
    let attrs: &[Attr] = match_object!(&message.body, Body, object => object.attrs.as_slice(), {
        _ => &[],
    });
    attrs.len()
}

/// Reads each datagram once: the messages, the attributes at their first level, and the visits.
fn read(alloc: Global, datagrams: &[Vec<u8>], limits: &Limits) -> Result<u64> {
    let mut count: u64 = 0;
    for datagram in datagrams {
        let Tally { result, visits } = read_datagram(alloc, datagram.as_slice(), limits);
        count = count.wrapping_add(visits);
        for message in result?.as_slice() {
            count = count
                .wrapping_add(1)
                .wrapping_add(attributes(message) as u64);
        }
    }
    Ok(count)
}

/// The messages of each datagram.
fn all_messages(
    alloc: Global,
    datagrams: &[Vec<u8>],
    limits: &Limits,
) -> Result<Vec<Vec<Message>>> {
    let mut all = Vec::new(alloc);
    for datagram in datagrams {
        all.push(read_datagram(alloc, datagram.as_slice(), limits).into_result()?)?;
    }
    Ok(all)
}

/// Writes each datagram once: the bytes.
fn write(alloc: Global, all: &[Vec<Message>], limits: &Limits) -> Result<u64> {
    let mut count: u64 = 0;
    for messages in all {
        let written = write_datagram(alloc, messages.as_slice(), limits)?;
        count = count.wrapping_add(written.len() as u64);
    }
    Ok(count)
}

/// Shows the recording once: the bytes of the text.
fn show(alloc: Global, recording: &str, limits: &Limits) -> Result<u64> {
    let mut source = SliceSource::new(recording.as_bytes());
    let mut sink = VecSink::new(alloc);
    let _ = run_show(alloc, &mut source, &mut sink, limits)?;
    Ok(sink.bytes.len() as u64)
}

/// The head of the routes that are built: of IPv4, a network of 24 bits, in the main table.
const ROUTE: RouteHead = RouteHead {
    family: 2,
    dst_len: 24,
    src_len: 0,
    tos: 0,
    table: 254,
    protocol: 3,
    scope: 0,
    sort: 1,
    flags: 0,
};

/// Puts where a route leads, one next hop by itself or so many in a list, and its priority, in the
/// order in which ip(8) sends them. The numbers of the attributes are those of linux/rtnetlink.h.
fn put_way(
    builder: &mut Builder,
    out: &mut [u8],
    hops: i32,
    priority: u32,
) -> Result<(), BuildError>
    requires fits { builder.old.len ≤ length out.old }
    ensures fits { builder.new.len ≤ length out.new }
{
    if hops == 1 {
        builder.put_bytes(out, 5, NO_FLAGS, &[192, 0, 2, 254])?;
        builder.put_u32(out, 6, NO_FLAGS, priority, Order::Little)?;
        return builder.put_u32(out, 4, NO_FLAGS, 10, Order::Little);
    }
    builder.put_u32(out, 6, NO_FLAGS, priority, Order::Little)?;
    builder.open_attr(out, 9, NO_FLAGS)?;
    for at in 0..hops {
        builder.open_hop(out, 0, 9, at)?;
        builder.put_bytes(out, 5, NO_FLAGS, &[192, 0, 2, 254])?;
        builder.close(out)?;
    }
    builder.close(out)
}

/// Builds the request for a route of this number, with so many next hops: its length, and one of
/// its bytes, so that none can be left out.
fn build(out: &mut [u8], number: u32, hops: i32, limits: &Limits) -> Result<u64, BuildError> {
    let mut builder = Builder::new(limits);
    builder.begin(out, 24, 0x605, number, 0, &FamilyHead::Route(ROUTE))?;
    builder.put_bytes(out, 1, NO_FLAGS, &Order::Big.u32_bytes(number))?;
    put_way(&mut builder, out, hops, number % 1024)?;
    builder.end(out)?;
    let bytes = builder.finish(out)?;
    let byte = bytes.get(number as usize % 64).copied().unwrap_or(0);
    Ok(bytes.len() as u64 + u64::from(byte))
}

/// Builds a thousand requests: the sum.
fn build_all(hops: i32, limits: &Limits) -> Result<u64> {
    let mut out = [0; 512];
    let mut count: u64 = 0;
    for number in 0..1000 {
        count = count.wrapping_add(build(&mut out, number, hops, limits)?);
    }
    Ok(count)
}

fn main(rt: HostRuntime) -> Result<()> {
    let alloc = rt.alloc();
    let words: Vec<String> = std::env::args(&rt)?.collect(alloc)?;
    let (what, passes) = match words.as_slice() {
        [_, what, passes] => (what.as_str(), passes.parse::<u32>()?),
        _ => bail!("rtnl_bench read|write|show|one|two N < RECORDING"),
    };
    let recording = std::io::read_to_string(alloc, rt.reader())?;
    let limits = Limits::standard();
    let datagrams = datagrams(alloc, &recording)?;
    let all = if what == "write" {
        all_messages(alloc, datagrams.as_slice(), &limits)?
    } else {
        Vec::new(alloc)
    };
    let mut count: u64 = 0;
    for _ in 0..passes {
        count = count.wrapping_add(match what {
            "read" => read(alloc, datagrams.as_slice(), &limits)?,
            "write" => write(alloc, all.as_slice(), &limits)?,
            "show" => show(alloc, &recording, &limits)?,
            "one" => build_all(1, &limits)?,
            "two" => build_all(2, &limits)?,
            _ => bail!("rtnl_bench read|write|show|one|two N < RECORDING"),
        });
    }
    println!(rt; "{count}")?;
    Ok(())
}
