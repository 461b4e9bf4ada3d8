ghost use Rattle.std.specs.Prelude.{◌≡◌, ◌+◌, ◌-◌, ◌^◌, ◌<◌, ◌≤◌, ◌↔◌, [], IsTrue, OnOk, IfOk};
ghost use Rattle.mongo_bson.specs.Document.{IsReadable, maximum_depth};
ghost use Rattle.mongo_wire.specs.Bytes.{first_maximum};
ghost use Rattle.mongo_wire.specs.Message.{Fits};
ghost use Rattle.mongo_scram.specs.Cache.{entries_of};
ghost use Rattle.mongo_scram.specs.Costs.{ledgers};
ghost use Rattle.mongo_establish.specs.KeyCosts.{StoresKey};
ghost use Rattle.mongo_bench.specs.Built.{IsWholeFrame};
ghost use Rattle.mongo_bench.specs.Login.{bench_key, AreReady};
ghost use Rattle.mongo_bench.specs.Work.{nothing_done, only_built, only_iterated, only_judged, only_logged_in, only_read, only_read_owned, only_written};

use crate::insert::insert_document;
use crate::peers::Peers;
use crate::slice_source::SliceSource;
use crate::walking::elements_in;
use mongo_bson::{Bytes, RawDocument};
use mongo_establish::want_of_memory;
use mongo_mac::Steps;
use mongo_wire::{FrameBuffer, MemoryLink, Message, RequestIds, read_frame};
use std::alloc::{AllocError, Global};
use std::sync::ledger::Ledger;

/// How often each thing that is measured was done. Only the private calls of this module count, each after it has done its
/// one thing once, so a count says how often it was done.
#[derive(Clone, Copy, PartialEq, Eq, Debug)]
pub struct Work {
    /// Iterations over the elements of all levels of a document.
    iterated: u32,
    /// Judgements whether a document is readable.
    judged: u32,
    /// Frames written.
    written: u32,
    /// Frames read into a buffer that is kept.
    read: u32,
    /// Frames read into a message that owns its parts.
    read_owned: u32,
    /// Commands of an insert built.
    built: u32,
    /// Logins made that both sides accepted.
    logged_in: u32,
}

/// What the last of many passes gave, and what was done in all.
#[derive(Clone, Copy, PartialEq, Eq, Debug)]
pub struct Passed<T> {
    /// What the last pass gave.
    pub last: T,
    /// What was done.
    pub work: Work,
}

/// Iterates so often over the document's elements of all levels, and gives how many the last iteration met.
pub fn iterate(document: RawDocument<'_>, count: u32) -> Passed<usize>
    ensures { result.work ≡ only_iterated count }
{
    let mut last = 0;
    let mut work = Work::nothing();
    'passes: while work.iterated < count {
        last = work.iterate(document);
    }
    Passed { last, work }
}

/// Judges so often whether the document is readable.
pub fn judge(document: RawDocument<'_>, count: u32) -> Passed<bool>
    ensures work { result.work ≡ only_judged count }
    ensures judged { 0 < count → (IsTrue result.last ↔ IsReadable maximum_depth document.entry.bytes.now) }
{
    let mut last = false;
    let mut work = Work::nothing();
    'passes: while work.judged < count {
        last = work.judge(document);
    }
    Passed { last, work }
}

/// Writes the message's frame so often over itself into memory that is kept, and gives how many bytes the last one had.
pub fn write_frames(
    alloc: Global,
    message: &Message,
    count: u32,
) -> Result<Passed<usize>, AllocError>
    requires fits { Fits first_maximum message.now }
    ensures { IfOk result (λ passed. passed.work ≡ only_written count) }
{
    let mut ids = RequestIds::new(0);
    let mut link = MemoryLink::new(alloc, Bytes::new(alloc));
    let mut work = Work::nothing();
    'passes: while work.written < count {
        link.clear_written();
        work.write(alloc, message, &mut ids, &mut link)?;
    }
    Ok(Passed {
        last: link.written().len(),
        work,
    })
}

/// Reads the frame so often into one buffer, and gives how many bytes the last one had.
pub fn read_frames(alloc: Global, frame: &[u8], count: u32) -> Result<Passed<usize>, AllocError>
    requires whole { IsWholeFrame frame.now }
    ensures { IfOk result (λ passed. passed.work ≡ only_read count) }
{
    let mut buffer = FrameBuffer::new(alloc);
    let mut last = 0;
    let mut work = Work::nothing();
    'passes: while work.read < count {
        last = work.read(alloc, frame, &mut buffer)?;
    }
    Ok(Passed { last, work })
}

/// Reads the frame so often into a message that owns its parts, and gives how many bytes the last one had.
pub fn read_owned_frames(
    alloc: Global,
    frame: &[u8],
    count: u32,
) -> Result<Passed<usize>, AllocError>
    requires whole { IsWholeFrame frame.now }
    ensures { IfOk result (λ passed. passed.work ≡ only_read_owned count) }
{
    let mut last = 0;
    let mut work = Work::nothing();
    'passes: while work.read_owned < count {
        last = work.read_owned(alloc, frame)?;
    }
    Ok(Passed { last, work })
}

/// Builds the command of an insert so often, and gives how many bytes the last one had.
pub fn build(alloc: Global, count: u32) -> Result<Passed<usize>, AllocError>
    ensures { IfOk result (λ passed. passed.work ≡ only_built count) }
{
    let mut last = 0;
    let mut work = Work::nothing();
    'passes: while work.built < count {
        last = work.build(alloc)?;
    }
    Ok(Passed { last, work })
}

/// Logs in so often, and gives how many logins both sides accepted.
pub fn log_in_repeatedly<G: Ledger>(
    alloc: Global,
    peers: &mut Peers,
    count: u32,
    steps: &mut Steps<G>,
) -> Result<Passed<usize>, AllocError>
    requires ready { AreReady peers.old }
    requires empty { entries_of peers.old.state.salted ≡ [] }
    requires some { 1 ≤ count }
    ensures accepted { IfOk result (λ passed. passed.last ≡ count) }
    ensures work { IfOk result (λ passed. passed.work ≡ only_logged_in count) }
    ensures cost { OnOk result (steps.new ≡ steps.old + 4096) }
    ensures steps { steps.old ≤ steps.new }
{
    let mut work = Work::nothing();
    'passes: while work.logged_in < count {
        work.log_in(alloc, peers, steps)?;
    }
    Ok(Passed {
        last: work.logged_in as usize,
        work,
    })
}

impl Work {
    /// Nothing yet.
    pub fn nothing() -> Work
        ensures { result ≡ nothing_done }
    {
        Work {
            iterated: 0,
            judged: 0,
            written: 0,
            read: 0,
            read_owned: 0,
            built: 0,
            logged_in: 0,
        }
    }

    // One iteration over the elements of all levels: how many it met.
    fn iterate(&mut self, document: RawDocument<'_>) -> usize
        requires { self.old.iterated < 2 ^ 32 - 1 }
        ensures { self.new ≡ record self.old { iterated = self.old.iterated + 1 } }
    {
        let elements = elements_in(document);
        self.iterated += 1;
        elements
    }

    // One judgement whether the document is readable.
    fn judge(&mut self, document: RawDocument<'_>) -> bool
        requires { self.old.judged < 2 ^ 32 - 1 }
        ensures work { self.new ≡ record self.old { judged = self.old.judged + 1 } }
        ensures judged { IsTrue result ↔ IsReadable maximum_depth document.entry.bytes.now }
    {
        let readable = document.readable();
        self.judged += 1;
        readable
    }

    // One frame, written behind what was written to the link.
    fn write(
        &mut self,
        alloc: Global,
        message: &Message,
        ids: &mut RequestIds,
        link: &mut MemoryLink,
    ) -> Result<(), AllocError>
        requires room { self.old.written < 2 ^ 32 - 1 }
        requires fits { Fits first_maximum message.now }
        ensures { OnOk result (self.new ≡ record self.old { written = self.old.written + 1 }) }
    {
        match message.write_op_msg_to(alloc, link, None, ids) {
            Ok(()) => {
                self.written += 1;
                Ok(())
            }
            Err(error) => Err(want_of_memory(error)),
        }
    }

    // One frame, read into the buffer: how many bytes it has.
    fn read(
        &mut self,
        alloc: Global,
        frame: &[u8],
        buffer: &mut FrameBuffer,
    ) -> Result<usize, AllocError>
        requires room { self.old.read < 2 ^ 32 - 1 }
        requires whole { IsWholeFrame frame.now }
        ensures { OnOk result (self.new ≡ record self.old { read = self.old.read + 1 }) }
    {
        let mut source = SliceSource::new(frame);
        match read_frame(alloc, &mut source, None, buffer) {
            Ok(message) => {
                let length = message.sections.len() + HEADER_AND_FLAGS;
                self.read += 1;
                Ok(length)
            }
            Err(error) => Err(want_of_memory(error)),
        }
    }

    // One frame, read into a message that owns its document: how many bytes the frame has where that is all it holds.
    fn read_owned(&mut self, alloc: Global, frame: &[u8]) -> Result<usize, AllocError>
        requires room { self.old.read_owned < 2 ^ 32 - 1 }
        requires whole { IsWholeFrame frame.now }
        ensures { OnOk result (self.new ≡ record self.old { read_owned = self.old.read_owned + 1 }) }
    {
        let mut source = SliceSource::new(frame);
        match Message::read_from(alloc, &mut source, None) {
            Ok(message) => {
                let document = message.document_payload.as_bytes().len();
                self.read_owned += 1;
                Ok(document + HEADER_AND_FLAGS + 1)
            }
            Err(error) => Err(want_of_memory(error)),
        }
    }

    // One command of an insert: how many bytes its document has.
    fn build(&mut self, alloc: Global) -> Result<usize, AllocError>
        requires { self.old.built < 2 ^ 32 - 1 }
        ensures { OnOk result (self.new ≡ record self.old { built = self.old.built + 1 }) }
    {
        let document = insert_document(alloc)?;
        self.built += 1;
        Ok(document.as_bytes().len())
    }

    // One login that both sides accepted.
    fn log_in<G: Ledger>(
        &mut self,
        alloc: Global,
        peers: &mut Peers,
        steps: &mut Steps<G>,
    ) -> Result<(), AllocError>
        requires room { self.old.logged_in < 2 ^ 32 - 1 }
        requires ready { AreReady peers.old }
        ensures ready { AreReady peers.new }
        ensures work { OnOk result (self.new ≡ record self.old { logged_in = self.old.logged_in + 1 }) }
        ensures takes { OnOk result (StoresKey (bench_key peers.old.hash) (ledgers steps.old peers.old.state.salted) (ledgers steps.new peers.new.state.salted)) }
        ensures hash { peers.new.hash ≡ peers.old.hash }
        ensures steps { steps.old ≤ steps.new }
    {
        peers.log_in(alloc, steps)?;
        self.logged_in += 1;
        Ok(())
    }
}

// How many bytes stand before the sections of a frame; a section of kind 0 has one more before its document.
const HEADER_AND_FLAGS: usize = 20;
