ghost use Rattle.std.specs.Prelude.{◌≡◌, ℕ, ◌+◌, ◌<◌, ◌≤◌, not, length, position, IfOk, OnErr, Ok};
ghost use Rattle.std.specs.Char.{is_ascii_graphic};
ghost use Rattle.records.specs.declared.types.Head.{Head};
ghost use Rattle.records.specs.Faults.{counted_by};
ghost use Rattle.records.specs.Heads.{head_at, Few, Opens};
ghost use Rattle.records.specs.Names.{name_at, name_seen};
ghost use Rattle.records.specs.Records.{Item, seen, record_seen, item_seen, read_after, task_at, edge_at, record_at, Holds};

use crate::fault::{Counted, RecordFault, with_record};
use crate::field::read_field;
use crate::types::{Head, MOST_TASKS, Record};
use numbers::number::read_number;

// The first number of a graph file.
const KIND: u64 = 1;

const MOST_EDGES: u64 = 4096;

const LONGEST_NAME: u64 = 31;

const LONGEST_TIME: u64 = 1 << 20;

const LARGEST_SIZE: u64 = 1 << 24;

const LARGEST_AMOUNT: u64 = 1 << 20;

// The head of a graph file: its kind, its task count and its edge count.
pub fn read_head(file: &[u8]) -> Result<Head, RecordFault>
    ensures is { result ≡ head_at file.now }
    ensures law { IfOk result (Opens file.now) }
    ensures back { (h : Head) → Opens file.now h → result ≡ Ok h }
{
    read_counts(file)
}

#[tactic(auto, unfolding(crate::specs::Heads::head_at))]
// The answer; the further clauses of the public call follow from it.
fn read_counts(file: &[u8]) -> Result<Head, RecordFault>
    ensures { result ≡ head_at file.now }
{
    let (_, next) = read_field(file, 0, KIND, KIND)?;
    let (tasks, next) = read_field(file, next, 0, MOST_TASKS as u64)?;
    let (edges, next) = read_field(file, next, 0, MOST_EDGES)?;
    Ok(Head {
        tasks: tasks as usize,
        edges: edges as usize,
        next,
    })
}

// The index of the first byte of a name that is outside 33 to 126.
fn outside_at(name: &[u8]) -> Option<usize>
    ensures { result ≡ position (λ b. not (is_ascii_graphic b)) name.now }
{
    name.iter().position(|byte| !byte.is_ascii_graphic())
}

// The name whose length is at `at`, and its own offset.
#[tactic(auto, unfolding(crate::specs::Names::name_at))]
fn read_name<'a>(file: &'a [u8], at: usize) -> Result<(&'a [u8], usize), RecordFault>
    ensures is { name_seen result ≡ name_at file.now at }
    ensures within { IfOk result (λ p. (at < p.1) × (p.1 + length p.0.now ≤ length file.now)) }
{
    let (len, start) = read_field(file, at, 1, LONGEST_NAME)?;
    let Some(name) = file.get(start..start + len as usize) else {
        return Err(RecordFault::NameCut { place: file.len() });
    };
    if let Some(i) = outside_at(name) {
        return Err(RecordFault::NameByte { place: start + i });
    }
    Ok((name, start))
}

fn read_task<'a>(file: &'a [u8], at: usize) -> Result<(Record<'a>, usize), RecordFault>
    ensures is { record_seen result ≡ task_at file.now at }
    ensures law { (h : Head) (read : ℕ) → read < h.tasks → IfOk result (λ p. Holds file.now h read at (seen p.0) p.1) }
{
    let (name, place) = read_name(file, at)?;
    let (time, next) = read_field(file, place + name.len(), 1, LONGEST_TIME)?;
    let (size, next) = read_field(file, next, 0, LARGEST_SIZE)?;
    Ok((
        Record::Task {
            name,
            place,
            time: time as u32,
            size: size as u32,
        },
        next,
    ))
}

// The edge is read whole before its ends are judged.
fn read_edge<'a>(
    file: &'a [u8],
    at: usize,
    tasks: usize,
) -> Result<(Record<'a>, usize), RecordFault>
    ensures is { record_seen result ≡ edge_at file.now tasks at }
    ensures law { (h : Head) (read : ℕ) → h.tasks ≡ tasks → tasks ≤ read → read < tasks + h.edges → IfOk result (λ p. Holds file.now h read at (seen p.0) p.1) }
{
    let (from, next) = read_number(file, at)?;
    let (to, next) = read_number(file, next)?;
    let (amount, next) = read_field(file, next, 0, LARGEST_AMOUNT)?;
    if from >= tasks as u64 || to >= tasks as u64 || from == to {
        return Err(RecordFault::NoTask { place: at });
    }
    Ok((
        Record::Edge {
            from: from as usize,
            to: to as usize,
            amount: amount as u32,
        },
        next,
    ))
}

#[tactic(auto, unfolding(crate::specs::Records::record_at))]
fn read_record<'a>(
    file: &'a [u8],
    head: Head,
    read: usize,
    at: usize,
) -> Result<(Record<'a>, usize), RecordFault>
    ensures is { record_seen result ≡ record_at file.now head read at }
    ensures law { IfOk result (λ p. Holds file.now head read at (seen p.0) p.1) }
{
    if read < head.tasks {
        return read_task(file, at);
    }
    if read - head.tasks < head.edges {
        return read_edge(file, at, head.tasks);
    }
    if at < file.len() {
        return Err(RecordFault::Trailing { place: at });
    }
    Ok((Record::End, at))
}

// The file's next record, after `read` of them, which stands at `at`, and the offset after it:
// a task while tasks are left, then an edge while edges are left, then the end.
pub fn next_record<'a>(
    file: &'a [u8],
    head: Head,
    read: usize,
    at: usize,
) -> Result<(Record<'a>, usize), Counted>
    ensures is { record_seen result ≡ counted_by read (record_at file.now head read at) }
    ensures law { IfOk result (λ p. Holds file.now head read at (seen p.0) p.1) }
    ensures back { Few head → (i : Item) (next : ℕ) → Holds file.now head read at i next → record_seen result ≡ Ok (i, next) }
{
    with_record(read_record(file, head, read, at), read)
}

// The records of a graph file, read one after another: `read` of them so far, and the next one at `at`.
// Each record but the end has a byte, so no more are read than the bytes before `at`.
#[derive(Clone, Copy)]
pub struct Records<'a> {
    file: &'a [u8],
    head: Head,
    read: usize,
    at: usize,
    ghost counted: { read ≤ at },
}

impl<'a> Records<'a> {
    // The records of the file after its head, none of them read.
    pub fn new(file: &'a [u8], head: Head) -> Records<'a>
        ensures over { (result.file.now ≡ file.now) × (result.head ≡ head) }
        ensures start { (result.read ≡ 0) × (result.at ≡ head.next) }
    {
        Records {
            file,
            head,
            read: 0,
            at: head.next,
        }
    }

    // The offset of the next record.
    pub fn at(&self) -> usize
        ensures { result ≡ self.now.at }
    {
        self.at
    }

    // The next record: a task while tasks are left, then an edge while edges are left, then the end,
    // which is not counted. A fault leaves all as it was.
    pub fn read_next(&mut self) -> Result<Record<'a>, Counted>
        ensures is { item_seen result self.new.at ≡ counted_by self.old.read (record_at self.old.file.now self.old.head self.old.read self.old.at) }
        ensures law { IfOk result (λ r. Holds self.old.file.now self.old.head self.old.read self.old.at (seen r) self.new.at) }
        ensures back { Few self.old.head → (i : Item) (next : ℕ) → Holds self.old.file.now self.old.head self.old.read self.old.at i next → item_seen result self.new.at ≡ Ok (i, next) }
        ensures count { IfOk result (λ r. self.new.read ≡ read_after (seen r) self.old.read) }
        ensures over { (self.new.file ≡ self.old.file) × (self.new.head ≡ self.old.head) }
        ensures err { OnErr result ((self.new.read ≡ self.old.read) × (self.new.at ≡ self.old.at)) }
    {
        let (record, next) = next_record(self.file, self.head, self.read, self.at)?;
        // the end has no byte, and is not counted
        if self.at < next {
            self.read += 1;
        }
        self.at = next;
        Ok(record)
    }
}
