mod collections;
mod commands;
mod descriptions;
mod failing;
mod hellos;
mod notation;
mod rows;
mod writes;

use mongo_bson::{BsonFault, RawDocumentBuf, Text};
use mongo_command::{HelloReply, RawCommandResponse, ServerAddress};
use mongo_wire::Error;
use std::alloc::Global;
use std::fmt::Debug;
use std::test::Fail;

// The reply of this document.
fn response(alloc: Global, document: RawDocumentBuf) -> Result<RawCommandResponse, BsonFault> {
    let source = ServerAddress::Unix {
        path: Text::from_slice(alloc, "/server.sock")?,
    };
    Ok(RawCommandResponse::new_raw(source, document))
}

// What the reply of this document says as the reply to a hello.
fn hello_reply(alloc: Global, document: RawDocumentBuf) -> Result<HelloReply, Error> {
    response(alloc, document)?.into_hello_reply(alloc)
}

// What a call gives, or its error as why the test fails. An `Error` is large where a proof holds it, so it is held here alone and
// in those below.
fn given<T: Drop, E: Debug + Drop>(answer: Result<T, E>) -> Result<T, Fail> {
    Ok(answer?)
}

// How a call was answered. Its drop is one call, and what is asked of it is asked by reference, in functions that are generic
// over the answer and over the error: so no proof but one small one holds either.
#[derive(Drop)]
struct Answered<T, E> {
    answer: Result<T, E>,
}

// An answer as it is printed.
fn printed<T: Debug + Drop, E: Debug + Drop>(
    alloc: Global,
    answer: Result<T, E>,
) -> Result<String, Fail> {
    let answered = Answered { answer };
    text_of(alloc, &answered.answer)
}

fn text_of<T: Debug>(alloc: Global, value: &T) -> Result<String, Fail> {
    Ok(format!(in alloc; "{value:?}")?)
}
