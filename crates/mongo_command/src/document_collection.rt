ghost use Rattle.std.specs.Prelude.{◌≡◌, ◌^◌, ◌≤◌, ℕ, List, length, IfOk, IfErr, OnOk, OnErr};
ghost use Rattle.mongo_wire.specs.declared.error.ErrorKind.{ErrorKind};
ghost use Rattle.mongo_wire.specs.declared.error.ErrorKind.TheVariants.{InvalidArgument};
ghost use Rattle.mongo_wire.specs.declared.fault.ArgumentFault.TheVariants.{CheckedFailure};
ghost use Rattle.mongo_command.specs.declared.command.Command.{Command};
ghost use Rattle.mongo_command.specs.Collection.{LengthensBy, IsMemory};

use crate::Command;
use mongo_bson::{Documents, RawArrayBuf, RawDocumentBuf, RawValue, Text, array_entry_size_bytes};
use mongo_wire::{ArgumentFault, Error, ErrorKind};
use std::alloc::Global;

/// Documents that a command is to carry under one name: as a sequence beside its document ([`Documents`]), or as an array
/// in its body ([`RawArrayBuf`]). Who fills a message asks for each document what it adds, before it is put in.
pub trait RawDocumentCollection {
    // how many documents there are
    ghost count: { Self → ℕ };

    // how many bytes a document adds to a collection of so many
    ghost growth: { ℕ → List ℕ → ℕ };

    // the collection has the document at its end, and nothing else has changed
    ghost grows: { Self → List ℕ → Self → Type 0 };

    // why the document isn't put in
    ghost push_refused: { Self → List ℕ → ErrorKind → Type 0 };

    // the command has the collection under the name
    ghost carries: { Self → List ℕ → Command → Command → Type 0 };

    // why it hasn't
    ghost add_refused: { Self → List ℕ → Command → ErrorKind → Type 0 };

    /// How many bytes longer the message gets by a document that is put in after `index` others.
    ///
    /// `CheckedFailure` exactly where that doesn't fit a `usize`.
    fn bytes_added(index: usize, document: &RawDocumentBuf) -> Result<usize, Error>
        ensures size { IfOk result (λ size. size ≡ growth index document.now) }
        // The frame of a command that carries the collection is longer by exactly so many bytes.
        ensures lengthens { IfOk result (LengthensBy count grows carries index document.now) }
        ensures refused { IfErr result (λ e. (e.kind ≡ InvalidArgument CheckedFailure) × (2 ^ 64 ≤ growth index document.now)) };

    /// Puts a document at the end.
    ///
    /// `Bson(TooLong)` where an array would pass 2147483647 bytes. A refusal leaves the collection as it was.
    fn push(&mut self, document: RawDocumentBuf) -> Result<(), Error>
        ensures grows { OnOk result (grows self.old document self.new) }
        ensures unchanged { OnErr result (self.new ≡ self.old) }
        ensures refused { IfErr result (λ e. push_refused self.old document e.kind) };

    /// Puts the collection into a command under this name.
    ///
    /// For an array, `Bson(KeyHasZero)` where the name holds a zero byte, then `Bson(TooLong)` where the body would pass
    /// 2147483647 bytes. A refusal leaves the command as it was.
    fn add_to_command(
        self,
        alloc: Global,
        identifier: &str,
        command: &mut Command,
    ) -> Result<(), Error>
        ensures added { OnOk result (carries self identifier.now command.old command.new) }
        ensures unchanged { OnErr result (command.new ≡ command.old) }
        ensures refused { IfErr result (λ e. add_refused self identifier.now command.old e.kind) };
}

impl RawDocumentCollection for Documents {
    ghost use Rattle.mongo_command.specs.Collection.{sequence_growth, GrowsList, CarriesSequence};

    ghost count = { length };

    ghost growth = { sequence_growth };

    ghost grows = { GrowsList };

    ghost push_refused = { λ _ _ kind. IsMemory kind };

    ghost carries = { CarriesSequence };

    ghost add_refused = { λ _ _ _ kind. IsMemory kind };

    fn bytes_added(_index: usize, document: &RawDocumentBuf) -> Result<usize, Error> {
        Ok(document.as_bytes().len())
    }

    fn push(&mut self, document: RawDocumentBuf) -> Result<(), Error> {
        Documents::push(self, document)?;
        Ok(())
    }

    fn add_to_command(
        self,
        alloc: Global,
        identifier: &str,
        command: &mut Command,
    ) -> Result<(), Error> {
        command.add_document_sequence(Text::from_slice(alloc, identifier)?, self)
    }
}

impl RawDocumentCollection for RawArrayBuf {
    ghost use Rattle.mongo_command.specs.Collection.{array_growth, GrowsArray, ArrayPushRefused, CarriesArray, ArrayAddRefused};

    ghost count = { λ array. array.count };

    ghost growth = { array_growth };

    ghost grows = { GrowsArray };

    ghost push_refused = { ArrayPushRefused };

    ghost carries = { CarriesArray };

    ghost add_refused = { ArrayAddRefused };

    fn bytes_added(index: usize, document: &RawDocumentBuf) -> Result<usize, Error> {
        match array_entry_size_bytes(index, document.as_bytes().len()) {
            Ok(size) => Ok(size),
            Err(_) => unreachable!(),
        }
    }

    fn push(&mut self, document: RawDocumentBuf) -> Result<(), Error> {
        match RawArrayBuf::push(self, RawValue::Document(document.borrow())) {
            Ok(()) => Ok(()),
            Err(fault) => Err(fault.into()),
        }
    }

    fn add_to_command(
        self,
        _alloc: Global,
        identifier: &str,
        command: &mut Command,
    ) -> Result<(), Error> {
        match command
            .body
            .append(identifier, RawValue::Array(self.borrow()))
        {
            Ok(()) => Ok(()),
            Err(fault) => Err(fault.into()),
        }
    }
}
