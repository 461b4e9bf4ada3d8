ghost use Rattle.std.specs.Prelude.{MatchOption};
ghost use Rattle.mongo_wire.specs.Sections.{SplitsSequence, HasNoSequence, SplitsSection, HasNoSection};

use crate::header::number;
use mongo_bson::{MAXIMUM_LENGTH, RawDocument, take_cstring, take_document};

// The kind of the section that holds the body.
pub(crate) const BODY_KIND: u8 = 0;

// The kind of a section that holds a sequence.
pub(crate) const SEQUENCE_KIND: u8 = 1;

// A section as it lies in a frame.
#[derive(Debug, Clone, Copy)]
pub(crate) enum SectionRef<'a> {
    // the body
    Body(RawDocument<'a>),
    // a sequence
    Sequence(SequenceRef<'a>),
}

// A sequence: its identifier, and its documents one after another.
#[derive(Debug, Clone, Copy)]
pub(crate) struct SequenceRef<'a> {
    pub(crate) identifier: &'a str,
    pub(crate) documents: &'a [u8],
}

// The section at the front and the bytes after it. None where no section stands there. Whether documents fill a sequence
// isn't looked at.
pub(crate) fn split_section<'a>(bytes: &'a [u8]) -> Option<(SectionRef<'a>, &'a [u8])>
    ensures { MatchOption result (HasNoSection bytes.now) (λ p. SplitsSection bytes.now p.0 p.1.now) }
{
    let (kind, rest) = bytes.split_first()?;
    match *kind {
        BODY_KIND => match take_document(rest) {
            Some((document, after)) => Some((SectionRef::Body(document), after)),
            None => None,
        },
        SEQUENCE_KIND => match split_sequence(rest) {
            Some((sequence, after)) => Some((SectionRef::Sequence(sequence), after)),
            None => None,
        },
        _ => None,
    }
}

// The sequence that stands after its kind byte, and the bytes after it, where documents fill what its size counts.
fn split_sequence<'a>(bytes: &'a [u8]) -> Option<(SequenceRef<'a>, &'a [u8])>
    ensures { MatchOption result (HasNoSequence bytes.now) (λ p. SplitsSequence bytes.now p.0 p.1.now) }
{
    if bytes.len() < 4 {
        return None;
    }
    let size = number(bytes, 0);
    if size < 4 {
        return None;
    }
    if size as usize > MAXIMUM_LENGTH {
        return None;
    }
    if size as usize > bytes.len() {
        return None;
    }
    let (section, rest) = bytes.split_at(size as usize);
    let (_size, content) = section.split_at(4);
    let (identifier, documents) = take_cstring(content)?;
    let sequence = SequenceRef {
        identifier,
        documents,
    };
    Some((sequence, rest))
}
