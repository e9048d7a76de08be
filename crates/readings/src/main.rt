// Reads graph files at the edges of their limits, and tells of each how many tasks and edges it has, or why it is refused.
#![tactic(auto)]

use faults::Refusal;
use graphs::{Graph, name_of};
use std::alloc::{AllocError, Global};
use std::io;
use std::io::Write;

fn read(rt: &HostRuntime, what: &str, file: &[u8]) -> io::Result<()> {
    print!(rt; "{what}: ")?;
    let mut graph = Graph::new(rt.alloc());
    match graph.read(rt.alloc(), file) {
        Ok(()) => {
            let tasks = graph.tasks().len();
            let edges = graph.edges().len();
            println!(rt; "{tasks} tasks, {edges} edges")
        }
        Err(fault) => {
            let fault = fault.fault();
            println!(rt; "denied {fault}")
        }
    }
}

fn name(rt: &HostRuntime, file: &[u8], task: usize) -> io::Result<()> {
    print!(rt; "name of task {task}: ")?;
    match name_of(rt.alloc(), file, task) {
        Ok((text, place)) => {
            print!(rt; "at {place}, ")?;
            rt.stdout().write_all(text)?;
            println!(rt; "")
        }
        Err(fault) => {
            let fault = fault.fault();
            println!(rt; "denied {fault}")
        }
    }
}

// A file of one task.
fn task(heap: Global, name: &[u8], time: &[u8], size: &[u8]) -> Result<Vec<u8>, AllocError> {
    let mut file = [1u8, 1, 0].to_vec(heap)?;
    file.push((name.len() & 0x7f) as u8)?;
    file.extend_from_slice(name)?;
    file.extend_from_slice(time)?;
    file.extend_from_slice(size)?;
    Ok(file)
}

// A file of five tasks a to e, and of these edges.
fn edges(heap: Global, count: u8, edges: &[u8]) -> Result<Vec<u8>, AllocError> {
    let mut file = [1u8, 5, count].to_vec(heap)?;
    for letter in [97u8, 98, 99, 100, 101] {
        file.extend_from_slice(&[1, letter, 1, 0])?;
    }
    file.extend_from_slice(edges)?;
    Ok(file)
}

// Appends a number below 2^14.
fn put(file: &mut Vec<u8>, value: usize) -> Result<(), AllocError> {
    if value < 128 {
        file.push((value & 0x7f) as u8)?;
    } else {
        file.push((128 + (value & 0x7f)) as u8)?;
        file.push(((value / 128) & 0x7f) as u8)?;
    }
    Ok(())
}

// Appends an edge of amount 1.
fn put_edge(file: &mut Vec<u8>, from: usize, to: usize) -> Result<(), AllocError> {
    put(file, from)?;
    put(file, to)?;
    file.push(1)?;
    Ok(())
}

// A file of 512 tasks and 4,096 edges: 4,060 to the eight tasks after their own, and 36 to the ninth.
fn full(heap: Global) -> Result<Vec<u8>, AllocError> {
    let mut file = [1u8, 128, 4, 128, 32].to_vec(heap)?;
    for _ in 0..512 {
        file.extend_from_slice(&[1, 97, 1, 0])?;
    }
    for step in 1..9usize {
        for from in 0..512 - step {
            put_edge(&mut file, from, from + step)?;
        }
    }
    for from in 0..36usize {
        put_edge(&mut file, from, from + 9)?;
    }
    Ok(file)
}

fn read_numbers(rt: &HostRuntime) -> io::Result<()> {
    read(
        rt,
        "a task count of six bytes",
        &[1, 255, 255, 255, 255, 255, 127],
    )?;
    read(
        rt,
        "a task count of seven bytes",
        &[1, 255, 255, 255, 255, 255, 255, 127],
    )?;
    read(
        rt,
        "six bytes that announce another, and the end",
        &[1, 255, 255, 255, 255, 255, 255],
    )?;
    read(
        rt,
        "five bytes that announce another, and the end",
        &[1, 255, 255, 255, 255, 255],
    )?;
    read(rt, "a number that ends in 0", &[1, 128, 0])?;
    read(rt, "no tasks", &[1, 0, 0])?;
    read(rt, "513 tasks", &[1, 129, 4, 0])?;
    read(rt, "4097 edges", &[1, 128, 4, 129, 32])
}

fn read_tasks(rt: &HostRuntime) -> io::Result<()> {
    let heap = rt.alloc();
    read(
        rt,
        "a name of 31 bytes",
        &task(heap, &[97; 31], &[1], &[0])?,
    )?;
    read(
        rt,
        "a name of 32 bytes",
        &task(heap, &[97; 32], &[1], &[0])?,
    )?;
    read(
        rt,
        "name bytes 33 and 126",
        &task(heap, &[33, 126], &[1], &[0])?,
    )?;
    read(rt, "a name byte 127", &task(heap, &[33, 127], &[1], &[0])?)?;
    read(
        rt,
        "a time of 2^20",
        &task(heap, b"a", &[128, 128, 64], &[0])?,
    )?;
    read(
        rt,
        "a time of 2^20 + 1",
        &task(heap, b"a", &[129, 128, 64], &[0])?,
    )?;
    read(
        rt,
        "a size of 2^24",
        &task(heap, b"a", &[1], &[128, 128, 128, 8])?,
    )?;
    read(
        rt,
        "a size of 2^24 + 1",
        &task(heap, b"a", &[1], &[129, 128, 128, 8])?,
    )
}

fn read_edges(rt: &HostRuntime) -> io::Result<()> {
    let heap = rt.alloc();
    read(
        rt,
        "an amount of 2^20",
        &edges(heap, 1, &[0, 1, 128, 128, 64])?,
    )?;
    read(
        rt,
        "an amount of 2^20 + 1 to its own task",
        &edges(heap, 1, &[0, 0, 129, 128, 64])?,
    )?;
    read(
        rt,
        "an edge to its own task",
        &edges(heap, 2, &[0, 1, 1, 2, 2, 1])?,
    )?;
    read(
        rt,
        "an edge from no task",
        &edges(heap, 2, &[0, 1, 1, 5, 2, 1])?,
    )?;
    read(
        rt,
        "a pair both ways round",
        &edges(heap, 2, &[0, 1, 1, 1, 0, 1])?,
    )?;
    read(rt, "a pair again", &edges(heap, 2, &[0, 1, 1, 0, 1, 2])?)?;
    read(rt, "a byte that follows", &edges(heap, 1, &[0, 1, 1, 0])?)?;
    read(
        rt,
        "a task after a cycle",
        &edges(heap, 3, &[1, 2, 1, 2, 1, 1, 2, 0, 1])?,
    )?;
    read(rt, "512 tasks and 4096 edges", &full(heap)?)
}

fn read_names(rt: &HostRuntime) -> io::Result<()> {
    let file = edges(rt.alloc(), 1, &[0, 1, 1])?;
    name(rt, &file, 0)?;
    name(rt, &file, 4)?;
    name(rt, &file, 5)?;
    name(rt, &edges(rt.alloc(), 2, &[0, 1, 1, 1, 0, 1])?, 5)
}

fn main(rt: HostRuntime) -> io::Result<()> {
    read_numbers(&rt)?;
    read_tasks(&rt)?;
    read_edges(&rt)?;
    read_names(&rt)
}
