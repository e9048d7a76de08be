// What the sheet's program prints: one call makes all of it from the bytes of a graph file.
use crate::fault::SheetFault;
use faults::Fault;
use graphs::Graph;
use heaps::{Line, Ready};
use links::Rate;
use numbers::Writer;
use planner::Planner;
use plans::{Limits, PlanFault, Row};
use sheets::{put_denial, sheet};
use std::alloc::{AllocError, Global};

// The plan that the program makes: two workers with memory 100 each, ranked by policy 1.
const LIMITS: Limits = Limits {
    workers: 2,
    memory: 100,
};

const POLICY: u32 = 1;

// No sheet is longer: 512 lines of at most 63 bytes.
const LONGEST: usize = 32768;

// The line that tells a denial.
fn denial(heap: Global, fault: Fault) -> Result<Vec<u8>, AllocError> {
    let mut out = vec![in heap; 0u8; 96]?;
    let mut writer = Writer::new(&mut out);
    put_denial(&mut writer, fault);
    let len = writer.at();
    out.truncate(len);
    Ok(out)
}

// The line of a fault; want of memory has none.
fn tell(heap: Global, fault: SheetFault) -> Result<Vec<u8>, AllocError> {
    match fault {
        SheetFault::Denied(fault) => denial(heap, fault),
        SheetFault::Memory => Err(AllocError),
    }
}

// Plans the graph and writes its sheet to `out`.
fn plan_and_show(graph: &Graph, out: &mut [u8]) -> Result<usize, PlanFault> {
    let Ok(link) = Rate::new(1, 1) else {
        unreachable()
    };
    let planner = Planner {
        limits: LIMITS,
        policy: POLICY,
        link: &link,
    };
    let mut rows = [Row::default(); 512];
    let mut levels = [0u64; 512];
    let mut queue = [Ready::default(); 512];
    let mut lines = [Line::default(); 512];
    let _ = planner.plan(graph, &mut rows, &mut levels, &mut queue)?;
    sheet(graph, &rows, LIMITS, &link, &mut lines, out)
}

// The sheet of the plan of the graph in `file`.
fn sheet_or_fault(heap: Global, file: &[u8]) -> Result<Vec<u8>, SheetFault> {
    let mut graph = Graph::new(heap);
    graph.read(heap, file)?;
    let mut out = vec![in heap; 0u8; LONGEST]?;
    let len = plan_and_show(&graph, &mut out)?;
    out.truncate(len);
    Ok(out)
}

// The sheet of the plan of the graph in `file`, or the line of the denial.
pub fn sheet_of(heap: Global, file: &[u8]) -> Result<Vec<u8>, AllocError> {
    sheet_or_fault(heap, file).or_else(|fault| tell(heap, fault))
}
