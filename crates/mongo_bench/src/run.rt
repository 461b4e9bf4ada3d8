ghost use Rattle.std.specs.Prelude.{◌≡◌, ◌≢◌, ◌<◌, ◌≤◌, ◌+◌, ◌++◌, ◌↔◌, IsOk, OnOk, map, codes, string_bytes};
ghost use Rattle.hex.specs.Hex.{encode_lower};
ghost use Rattle.std.specs.Io.KnownBytes.{Appends};
ghost use Rattle.mongo_bench.specs.Task.{AsksTask, AsksNothing, HasPrinted, Costs, bench_code, derived_by};
ghost use Rattle.mongo_bench.specs.Work.{nothing_done, work_of};

use crate::frames::run_frames;
use crate::insert::run_inserts;
use crate::login::run_logins;
use crate::task::{BenchTask, EXAMPLE_PASSWORD, EXAMPLE_SALT, Hash, task_of};
use crate::walking::{run_document, run_walk};
use crate::work::Work;
use mongo_mac::{Sha1Fn, Sha256Fn, Steps, Tag, hi};
use std::alloc::Global;
use std::io;
use std::io::Write;
use std::sync::ledger::{Blank, Ledger};

/// How a run ended.
#[derive(Clone, Copy, PartialEq, Eq, Debug)]
pub enum BenchStatus {
    /// The task was run and its line written.
    Done,
    /// The words ask for no task.
    Usage,
    /// The writer failed.
    SinkFault,
    /// Memory ran out, also for the words. The library refuses what a task gives it for no other cause.
    NoMemory,
}

impl BenchStatus {
    /// The exit status of the program.
    pub fn code(self) -> u8
        ensures { result ≡ bench_code self }
    {
        match self {
            BenchStatus::Done => 0,
            BenchStatus::Usage => 3,
            BenchStatus::SinkFault => 5,
            BenchStatus::NoMemory => 6,
        }
    }
}

/// How a run ended, and what was done in it.
#[derive(Clone, Copy, PartialEq, Eq, Debug)]
pub struct RanTask {
    /// How it ended.
    pub status: BenchStatus,
    /// What was done, where it ended well.
    pub work: Work,
}

impl RanTask {
    /// The end of a run whose line was written, or wasn't.
    pub fn written(line: io::Result<()>, work: Work) -> RanTask
        ensures done { (result.status ≡ BenchStatus.Done) ↔ IsOk line }
        ensures fault { result.status ≢ BenchStatus.Done → result.status ≡ BenchStatus.SinkFault }
        ensures work { result.work ≡ work }
    {
        let status = match line {
            Ok(()) => BenchStatus::Done,
            Err(_) => BenchStatus::SinkFault,
        };
        RanTask { status, work }
    }

    /// The end of a run for which there was no memory.
    pub fn without_memory() -> RanTask
        ensures { result ≡ record { status = BenchStatus.NoMemory; work = nothing_done } }
    {
        RanTask {
            status: BenchStatus::NoMemory,
            work: Work::nothing(),
        }
    }
}

/// Runs the task that `words` ask for, and writes what it prints to `out`. Where the writer fails, it may
/// have taken a part of it.
pub fn run<W: Write, G: Ledger>(
    alloc: Global,
    words: &[String],
    out: &mut W,
    steps: &mut Steps<G>,
) -> RanTask
    ensures done { (task : BenchTask) → AsksTask (map string_bytes words.now) task → result.status ≡ BenchStatus.Done →
        HasPrinted task (W.contents out.old) (W.contents out.new) }
    // So many passes and frames were done, and no others.
    ensures work { (task : BenchTask) → AsksTask (map string_bytes words.now) task → result.status ≡ BenchStatus.Done →
        result.work ≡ work_of task }
    ensures cost { (task : BenchTask) → AsksTask (map string_bytes words.now) task →
        Costs task result.status steps.old steps.new }
    ensures usage { (result.status ≡ BenchStatus.Usage) ↔ AsksNothing (map string_bytes words.now) }
    ensures usage_does_nothing { result.status ≡ BenchStatus.Usage →
        (out.new ≡ out.old) × (steps.new ≡ steps.old) }
{
    let Some(task) = task_of(words) else {
        return RanTask {
            status: BenchStatus::Usage,
            work: Work::nothing(),
        };
    };
    match task {
        BenchTask::Derive(hash, count) => run_derivation(hash, count, out, steps),
        BenchTask::Walk(pass, shape, count) => run_walk(alloc, pass, shape, count, out),
        BenchTask::Document(shape) => run_document(alloc, shape, out),
        BenchTask::Frames(direction, size, count) => run_frames(alloc, direction, size, count, out),
        BenchTask::Insert(count) => run_inserts(alloc, count, out),
        BenchTask::Login(hash, count) => run_logins(alloc, hash, count, out, steps),
    }
}

/// `run` with a counter of its own, of the ledger that `blank` opens.
pub fn run_counted<W: Write, G: Ledger>(
    alloc: Global,
    words: &[String],
    out: &mut W,
    blank: Blank,
) -> RanTask
    requires name { blank.name ≡ G.name }
    requires parts { blank.parts ≡ G.parts }
    requires has_a_part { 0 < G.parts }
    ensures done { (task : BenchTask) → AsksTask (map string_bytes words.now) task → result.status ≡ BenchStatus.Done →
        HasPrinted task (W.contents out.old) (W.contents out.new) }
    ensures work { (task : BenchTask) → AsksTask (map string_bytes words.now) task → result.status ≡ BenchStatus.Done →
        result.work ≡ work_of task }
    ensures usage { (result.status ≡ BenchStatus.Usage) ↔ AsksNothing (map string_bytes words.now) }
    ensures usage_writes_nothing { result.status ≡ BenchStatus.Usage → out.new ≡ out.old }
{
    let mut steps = Steps::<G>::new(blank);
    run(alloc, words, out, &mut steps)
}

/// Derives, and writes the line.
fn run_derivation<W: Write, G: Ledger>(
    hash: Hash,
    count: u32,
    out: &mut W,
    steps: &mut Steps<G>,
) -> RanTask
    requires { 1 ≤ count }
    ensures done { result.status ≡ BenchStatus.Done → HasPrinted (BenchTask.Derive hash count) (W.contents out.old) (W.contents out.new) }
    ensures work { result.work ≡ nothing_done }
    ensures cost { steps.new ≡ steps.old + count }
    ensures ran { result.status ≢ BenchStatus.Usage }
{
    let tag = derived_bytes(hash, count, steps);
    RanTask::written(write_line(&tag, out), Work::nothing())
}

/// The bytes that a derivation gives.
fn derived_bytes<G: Ledger>(hash: Hash, count: u32, steps: &mut Steps<G>) -> Tag
    requires { 1 ≤ count }
    ensures value { result ≡ derived_by hash count }
    ensures cost { steps.new ≡ steps.old + count }
{
    match hash {
        Hash::Sha1 => hi::<Sha1Fn, G>(EXAMPLE_PASSWORD, &EXAMPLE_SALT, count, steps),
        Hash::Sha256 => hi::<Sha256Fn, G>(EXAMPLE_PASSWORD, &EXAMPLE_SALT, count, steps),
    }
}

/// Writes the hex of a tag and a line feed.
fn write_line<W: Write>(tag: &Tag, out: &mut W) -> io::Result<()>
    ensures { OnOk result
        (Appends (W.contents out.old) (W.contents out.new) (encode_lower tag.now ++ codes "\n")) }
{
    let bytes = tag.as_bytes();
    let mut hex = [0; 64];
    let text = &mut hex[..2 * bytes.len()];
    hex::encode_to_slice(bytes, text).unwrap();
    out.write_all(text)?;
    out.write_all(b"\n")?;
    out.flush()
}
