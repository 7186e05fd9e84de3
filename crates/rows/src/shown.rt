//! What is written of runs.
use crate::devices::Devices;
use crate::row::{Call, Row, counted};
use std::alloc::{AllocError, AllocGlobal, Global};
use std::sync::Wait;
use std::thread::Threads;
use worker_gate::{HoldingGate, OpenGate};

// Adds a text.
fn put(out: &mut Vec<u8>, text: &str) -> Result<(), AllocError> {
    out.extend_from_slice(text.as_bytes())?;
    Ok(())
}

// Adds the name of a row and the number of a status, at the begin of a line.
fn head(alloc: Global, row: &Row, code: u8, out: &mut Vec<u8>) -> Result<(), AllocError> {
    let head = format!(in alloc; "{} {code}", row.name)?;
    put(out, head.as_str())
}

// How many line ends stand in these bytes.
fn line_count(bytes: &[u8]) -> usize {
    bytes.iter().filter(|byte| **byte == b'\n').count()
}

// Runs a row, and writes its name, its status, and the bytes of `out` and of `err`.
fn show_bytes<R: AllocGlobal + Threads + Wait + Sync>(
    rt: &R,
    row: &Row,
    devices: &mut Devices,
    out: &mut Vec<u8>,
) -> Result<(), AllocError> {
    let code = devices.run(rt, &row.words, &OpenGate).code();
    head(rt.alloc(), row, code, out)?;
    out.push(b'\n')?;
    out.extend_from_slice(devices.out())?;
    out.extend_from_slice(devices.err())?;
    Ok(())
}

// Runs a row, and writes its name, its status and how many bytes of the input it left.
fn show_left<R: AllocGlobal + Threads + Wait + Sync>(
    rt: &R,
    row: &Row,
    devices: &mut Devices,
    out: &mut Vec<u8>,
) -> Result<(), AllocError> {
    let code = devices.run(rt, &row.words, &OpenGate).code();
    head(rt.alloc(), row, code, out)?;
    let line = format!(in rt.alloc(); " left {}\n", devices.left())?;
    put(out, line.as_str())
}

// Runs a row one of whose writes fails, and writes the number of that write, the status, how many lines were written, and whether
// they are a front of the whole report.
fn show_one<R: AllocGlobal + Threads + Wait + Sync>(
    rt: &R,
    row: &mut Row,
    whole: &[u8],
    number: u64,
    out: &mut Vec<u8>,
) -> Result<(), AllocError> {
    row.fails.clear();
    row.fails.push((Call::Write, number.saturating_add(1)))?;
    let mut devices = row.devices(rt.alloc())?;
    let code = devices.run(rt, &row.words, &OpenGate).code();
    let lines = line_count(devices.out());
    let is_front = whole.starts_with(devices.out());
    let line = format!(in rt.alloc(); "{} {number} {code} {lines} {is_front}\n", row.name)?;
    put(out, line.as_str())
}

// Does so for each write up to a number.
fn show_each<R: AllocGlobal + Threads + Wait + Sync>(
    rt: &R,
    row: &mut Row,
    count: u64,
    out: &mut Vec<u8>,
) -> Result<(), AllocError> {
    let mut whole = row.devices(rt.alloc())?;
    whole.run(rt, &row.words, &OpenGate);
    for number in 0..count {
        show_one(rt, row, whole.out(), number, out)?;
    }
    Ok(())
}

// Runs a row while the worker that comes first is held at its first task until another one comes; writes whether it came, whether
// exactly the tasks below a number were begun, each once, and the status and the bytes.
fn show_held<R: AllocGlobal + Threads + Wait + Sync>(
    rt: &R,
    row: &Row,
    devices: &mut Devices,
    end: u64,
    out: &mut Vec<u8>,
) -> Result<(), AllocError> {
    let gate = HoldingGate::new();
    let code = devices.run(rt, &row.words, &gate).code();
    head(rt.alloc(), row, code, out)?;
    let came = gate.second_came();
    let below = if end < 64 { end as u32 } else { 64 };
    let each = gate.began_each_below(below);
    let line = format!(in rt.alloc(); " another came: {came}, each of {end} once: {each}\n")?;
    put(out, line.as_str())?;
    out.extend_from_slice(devices.out())?;
    Ok(())
}

/// Runs the row where a step says so, and writes what came of it.
pub fn show<R: AllocGlobal + Threads + Wait + Sync>(
    rt: &R,
    row: &mut Row,
    step: &str,
    rest: &str,
    out: &mut Vec<u8>,
) -> Result<(), AllocError> {
    match step {
        "each" => show_each(rt, row, counted(rest).0, out),
        "run" | "left" | "held" => {
            let mut devices = row.devices(rt.alloc())?;
            match step {
                "run" => show_bytes(rt, row, &mut devices, out),
                "held" => show_held(rt, row, &mut devices, counted(rest).0, out),
                _ => show_left(rt, row, &mut devices, out),
            }
        }
        _ => Ok(()),
    }
}
