//! OP_QUERY, the question of old clients, with which new ones still say their first hello.

ghost use Rattle.std.specs.Prelude.{◌≡◌, ℕ, ◌<◌, List, ◌++◌, length, MatchOption};
ghost use Rattle.mongo_service.specs.Taken.{HasNoQuery, IsCommandOf, IsQueryBody, IsQueryOf};

use mongo_bson::{RawDocument, take_cstring, take_document};
use mongo_session::{command_name, inner_document};

// The key that wraps a command.
const QUERY: &str = "$query";

/// The command that what follows the header of an OP_QUERY asks for: `int32` flags, the collection's name as a cstring, two `int32`, a
/// document, and what may follow it. A document whose first key is `$query` wraps the command.
///
/// None where the bytes are no such body on `admin.$cmd`.
pub fn command_of_query<'a>(body: &'a [u8]) -> Option<RawDocument<'a>>
    ensures { MatchOption result ((command : List ℕ) → IsQueryBody body.now command → ⊥) (λ command. IsQueryBody body.now command.bytes.now) }
{
    match document_of_query(body) {
        Some(document) => query_command(document),
        None => None,
    }
}

// The command of a query's document.
fn query_command<'a>(document: RawDocument<'a>) -> Option<RawDocument<'a>>
    ensures { MatchOption result ((command : List ℕ) → IsCommandOf document.entry.bytes.now command → ⊥) (λ command. IsCommandOf document.entry.bytes.now command.bytes.now) }
{
    match command_name(document) {
        QUERY => inner_document(document, QUERY),
        _ => Some(document),
    }
}

// The document of a query on `admin.$cmd`.
fn document_of_query<'a>(body: &'a [u8]) -> Option<RawDocument<'a>>
    ensures { MatchOption result (HasNoQuery body.now) (λ document. IsQueryOf body.now document.bytes.now) }
{
    let after_flags = bytes_after(body, 4)?;
    let (collection, after_name) = take_cstring(after_flags)?;
    match collection {
        "admin.$cmd" => {
            let (document, _more) = take_document(bytes_after(after_name, 8)?)?;
            Some(document)
        }
        _ => None,
    }
}

// What follows so many bytes.
fn bytes_after(bytes: &[u8], count: usize) -> Option<&[u8]>
    ensures { MatchOption result (length bytes.now < count) (λ rest. (front : List ℕ) × (length front ≡ count) × (bytes.now ≡ front ++ rest.now)) }
{
    if bytes.len() < count {
        return None;
    }
    let (_front, rest) = bytes.split_at(count);
    Some(rest)
}
