ghost use Rattle.std.specs.Prelude.{◌≡◌, ◌≢◌, pos, true, IfOk, IfErr};
ghost use Rattle.mongo_command.specs.EndsExchange.{footing};
ghost use Rattle.mongo_cursor.specs.Course.{BeginsBatch};
ghost use Rattle.mongo_cursor.specs.Cursors.{cursor_of, last_id, EndsNew, EndsAdvance, EndsReadAll, EndsClose};

use crate::CursorError;
use crate::batch::{Batch, FIRST_BATCH};
use crate::document_queue::DocumentQueue;
use crate::exchanges::{batch_of, kill, next_batch};
use crate::namespace::Namespace;
use mongo_bson::{Documents, RawDocumentBuf};
use mongo_command::{Command, Connection};
use mongo_wire::{Error, Link, RequestIds};
use std::alloc::Global;

/// What an [`Cursor::advance`] came to.
#[derive(Debug, Drop)]
pub enum Advance {
    /// The next document.
    Document(RawDocumentBuf),
    /// The server has sent an empty batch, and keeps the cursor open: there may be documents later.
    Empty,
    /// All documents were handed out, and the server has closed the cursor.
    End,
}

/// Documents that a server gives in batches, by the server's documentation of `find`, `getMore` and `killCursors`.
///
/// A batch is copied out of its reply when it is read, each document into memory of its own: what is handed out then takes
/// none. The copies take as much memory as the batch has bytes, and some 40 bytes for each document.
#[derive(Debug, Drop)]
pub struct Cursor {
    id: i64,
    namespace: Namespace,
    held: DocumentQueue,
    failed: bool,
}

impl Cursor {
    /// The cursor that a command makes: one frame of it is written, and one reply is taken, which holds the first batch.
    ///
    /// The reply's document has `cursor`, a document with `id`, an int64 or an int32, `ns`, a text in which a database that
    /// isn't empty stands before the first dot and a collection behind it, and `firstBatch`, an array of documents.
    ///
    /// The refusals of [`Connection::send_message`], then those of [`command_body`](mongo_command::command_body), then
    /// `InvalidResponse(Body)` where the reply has no such `cursor`. Never `Failed`.
    pub fn new<L: Link>(
        alloc: Global,
        connection: &mut Connection,
        link: &mut L,
        ids: &mut RequestIds,
        command: Command,
    ) -> Result<Cursor, CursorError>
        // The command's frame was written, and the cursor holds the batch of its reply; a refusal has its cause.
        ensures ends { EndsNew L.state command result (footing connection.old link.old ids.old) (footing connection.new link.new ids.new) }
    {
        let batch = batch_of(alloc, connection, link, ids, command, FIRST_BATCH)?;
        Ok(Cursor::of_batch(batch))
    }

    /// The next document. One that is held is handed out, without memory and with nothing written.
    ///
    /// Where none is held and the id is 0, it answers `End`. Else one `getMore` of the id is written and one reply taken, whose
    /// `cursor` is read as by [`Cursor::new`], with `nextBatch` in place of `firstBatch`: its first document is handed out,
    /// and for an empty batch the answer is `End` where the new id is 0 and `Empty` where it isn't. The namespace stays the one
    /// of the first reply.
    ///
    /// `Failed` exactly where an earlier call was refused, with nothing written. Else the refusals of
    /// [`Connection::send_message`], of [`command_body`](mongo_command::command_body), then `InvalidResponse(Body)`.
    pub fn advance<L: Link>(
        &mut self,
        alloc: Global,
        connection: &mut Connection,
        link: &mut L,
        ids: &mut RequestIds,
    ) -> Result<Advance, CursorError>
        // What was held and the batch of the reply, where one was due, are the document handed out and what is held; a refusal
        // has its cause, and the cursor has failed then.
        ensures ends { EndsAdvance L.state result self.old self.new (footing connection.old link.old ids.old) (footing connection.new link.new ids.new) }
    {
        if self.failed {
            return Err(CursorError::Failed);
        }
        if let Some(document) = self.held.pop_front() {
            return Ok(Advance::Document(document));
        }
        if self.id == 0 {
            return Ok(Advance::End);
        }
        match next_batch(alloc, connection, link, ids, &self.namespace, self.id) {
            Ok(batch) => Ok(self.begin(batch)),
            Err(error) => {
                self.failed = true;
                Err(CursorError::Wire(error))
            }
        }
    }

    /// Calls [`Cursor::advance`] at most `most` times, and puts each document that is handed out at the end of `out`. True
    /// exactly where it answered `End`, false where so many calls were made without that.
    ///
    /// The refusals of [`Cursor::advance`], and want of memory for `out`. What was put there stays. Where memory runs out, the
    /// last document that was handed out may be in neither `out` nor the cursor.
    pub fn read_all<L: Link>(
        &mut self,
        alloc: Global,
        connection: &mut Connection,
        link: &mut L,
        ids: &mut RequestIds,
        most: u64,
        out: &mut Documents,
    ) -> Result<bool, CursorError>
        // What was held and the batches of the replies are the documents that were put into the list and what is held, also
        // where it ends with a refusal.
        ensures ends { EndsReadAll L.state most result self.old self.new out.old out.new (footing connection.old link.old ids.old) (footing connection.new link.new ids.new) }
    {
        'calls: for call in 0..most {
            match self.advance(alloc, connection, link, ids)? {
                Advance::Document(document) => out.push(document)?,
                Advance::Empty => {}
                Advance::End => return Ok(true),
            }
        }
        Ok(false)
    }

    /// The id that the last reply said: 0 where the server has closed the cursor.
    pub fn id(&self) -> i64
        ensures { result ≡ last_id self.now }
    {
        self.id
    }

    /// Has the server close the cursor: one `killCursors` of the id is written and one reply taken. Where the id is 0 it does
    /// nothing, and takes no memory.
    ///
    /// The refusals of [`Connection::send_message`] and of [`command_body`](mongo_command::command_body). Never `Failed`: a
    /// cursor of which an [`Cursor::advance`] was refused can be closed.
    pub fn close<L: Link>(
        self,
        alloc: Global,
        connection: &mut Connection,
        link: &mut L,
        ids: &mut RequestIds,
    ) -> Result<(), CursorError>
        ensures ends { EndsClose L.state self result (footing connection.old link.old ids.old) (footing connection.new link.new ids.new) }
    {
        if self.id == 0 {
            return Ok(());
        }
        kill(alloc, connection, link, ids, &self.namespace, self.id)?;
        Ok(())
    }

    // The cursor that a batch begins.
    fn of_batch(batch: Batch) -> Cursor
        ensures { result ≡ cursor_of batch }
    {
        Cursor {
            id: batch.id,
            namespace: batch.namespace,
            held: batch.documents,
            failed: false,
        }
    }

    // Begins a batch, where nothing is held, and hands out its first document. The namespace stays.
    fn begin(&mut self, batch: Batch) -> Advance
        ensures { BeginsBatch batch result self.old self.new }
    {
        self.id = batch.id;
        self.held = batch.documents;
        match self.held.pop_front() {
            Some(document) => Advance::Document(document),
            None if self.id == 0 => Advance::End,
            None => Advance::Empty,
        }
    }
}
