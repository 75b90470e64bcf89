//! Bytes, and devices that take and give them.

use crate::devices::{Full, OneByOne};
use crate::same::{holds, same};
use nor_base::{ByteIn, ByteOut, Bytes, FromRead, IntoWrite, fill_from, put_all, put_parts};
use std::alloc::Global;
use std::process::Abort;
use std::test::Fail;

#[test]
fn whole_strings_through_devices(rt: HostRuntime) -> Result<(), Fail> {
    puts_a_string(&rt, rt.alloc());
    takes_a_string(&rt);
    let (long, short) = (b"kf".to_vec(rt.alloc())?, b"k".to_vec(rt.alloc())?);
    holds(&rt, "other bytes", Bytes::new(long) != Bytes::new(short));
    Ok(())
}

/// A string and then parts of one, to a writer that takes all.
fn puts_a_string(rt: &impl Abort, alloc: Global) {
    let mut writer = IntoWrite::new(Vec::new(alloc));
    holds(rt, "put", put_all(&mut writer, b"norscript").is_ok());
    let parts: [&[u8]; 3] = [b"", b" 1", b"\n"];
    holds(rt, "put in parts", put_parts(&mut writer, &parts).is_ok());
    same(rt, "failures", writer.failures(), 0);
    let held = writer.inner.as_slice();
    holds(rt, "held", held == b"norscript 1\n".as_slice());
}

/// Seven bytes from a reader that gives no more, four at a time.
fn takes_a_string(rt: &impl Abort) {
    let mut reader = FromRead::new(b"content".as_slice());
    let mut buffer = [0u8; 4];
    same(rt, "first", fill_from(&mut reader, &mut buffer), Ok(4));
    holds(rt, "its bytes", buffer == *b"cont");
    same(rt, "last", fill_from(&mut reader, &mut buffer), Ok(3));
    holds(rt, "its bytes", buffer.starts_with(b"ent"));
    same(rt, "failures", reader.failures(), 0);
    holds(rt, "all are taken", reader.into_inner().is_empty());
}

#[test]
fn a_failing_device_is_asked_once(rt: HostRuntime) {
    for fails_at in 1..=7usize {
        takes_up_to(&rt, OneByOne::new(rt.alloc(), fails_at));
        puts_up_to(&rt, OneByOne::new(rt.alloc(), fails_at));
    }
    let mut full = IntoWrite::new(Full);
    holds(&rt, "a full writer", put_all(&mut full, b"x").is_err());
    same(&rt, "its failures", full.failures(), 1);
}

/// Takes six bytes from a reader that may fail.
fn takes_up_to(rt: &impl Abort, inner: OneByOne) {
    let fails_at = inner.fails_at;
    let (given, failed) = (fails_at.saturating_sub(1).min(6), u64::from(fails_at < 7));
    let mut reader = FromRead::new(inner);
    let mut buffer = [0u8; 6];
    let filled = fill_from(&mut reader, &mut buffer);
    same(rt, "filled", filled.is_err(), fails_at < 7);
    same(rt, "failures", reader.failures(), failed);
    let front = buffer.iter().take(given);
    holds(rt, "what is given", front.copied().all(|byte| byte == 0x5A));
    same(rt, "calls", reader.into_inner().call, fails_at.min(6));
}

/// Puts six bytes to a writer that may fail.
fn puts_up_to(rt: &impl Abort, inner: OneByOne) {
    let text = b"end 3\n";
    let fails_at = inner.fails_at;
    let mut writer = IntoWrite::new(inner);
    let put = put_all(&mut writer, text);
    same(rt, "put", put.is_err(), fails_at < 7);
    same(rt, "failures", writer.failures(), u64::from(fails_at < 7));
    let held = writer.into_inner().held;
    same(rt, "held", held.len(), fails_at.saturating_sub(1));
    holds(rt, "a front", text.starts_with(held.as_slice()));
}
