ghost use Rattle.std.specs.Prelude.{◌≡◌, ◌+◌, ◌≤◌, ◌++◌, ℕ, pos, drop, length, Option, MatchOption, IfSome, IfOk, IfErr};
ghost use Rattle.mongo_wire.specs.Content.{HasNoSections, LiesAt};
ghost use Rattle.mongo_wire.specs.Copies.{CopiesSequences};
ghost use Rattle.mongo_wire.specs.Frame.{IsChecksum};
ghost use Rattle.mongo_wire.specs.Header.{header_bytes};
ghost use Rattle.mongo_wire.specs.declared.op_code.OpCode.TheVariants as op_code;

use crate::copies::judge_sequence;
use crate::header::number;
use crate::measure::{CHECKSUM_LENGTH, FLAGS_LENGTH, KIND_LENGTH};
use crate::sections::{SectionRef, split_section};
use crate::{Header, MessageFlags, Sequences};
use mongo_bson::BsonFault;
use std::alloc::Global;

// Where the parts of a frame lie in the bytes after its header: the only body, and the sections, which begin at 4, after
// the flags.
#[derive(Debug, Clone, Copy)]
pub(crate) struct Offsets {
    pub(crate) body_start: usize,
    pub(crate) body_end: usize,
    pub(crate) sections_end: usize,
}

// A frame that a buffer holds: its numbers, and where the rest lies.
#[derive(Debug, Clone, Copy)]
pub(crate) struct HeldFrame {
    pub(crate) header: Header,
    // the flag word
    pub(crate) word: u32,
    pub(crate) checksum: Option<u32>,
    pub(crate) offsets: Offsets,
}

impl HeldFrame {
    ghost use Rattle.mongo_wire.specs.Held.{NoFrame, IsHeld};

    // The frame that a header and what follows it make. None where it isn't in the grammar of OP_MSG. Where copies of its
    // sequences are wanted, they are made while it is judged.
    pub(crate) fn of(
        alloc: Global,
        header: Header,
        bytes: &[u8],
        copies: &mut Option<Sequences>,
    ) -> Result<Option<HeldFrame>, BsonFault>
        requires message { header.op_code ≡ op_code.Message }
        requires whole { pos (16 + length bytes.now) ≡ header.length }
        ensures held { IfOk result (λ found. MatchOption found (NoFrame (header_bytes header ++ bytes.now)) (IsHeld (header_bytes header ++ bytes.now))) }
        ensures copied { IfOk result (λ found. IfSome found (λ _. CopiesSequences bytes.now copies.old copies.new)) }
        ensures refused { IfErr result (λ fault. fault ≡ BsonFault.OutOfMemory) }
    {
        if bytes.len() < FLAGS_LENGTH {
            return Ok(None);
        }
        let word = number(bytes, 0);
        let Some(offsets) = find_sections(alloc, bytes, copies)? else {
            return Ok(None);
        };
        let (_sections, tail) = bytes.split_at(offsets.sections_end);
        match read_checksum(word, tail) {
            Some(checksum) => Ok(Some(HeldFrame {
                header,
                word,
                checksum,
                offsets,
            })),
            None => Ok(None),
        }
    }
}

// Where the sections that follow the flags lie, one of them with a body. A checksum's bytes at most may follow them, too few
// for another one. None where they don't. This is the one walk over a frame's sections: what is wanted of them is taken in it.
fn find_sections(
    alloc: Global,
    bytes: &[u8],
    copies: &mut Option<Sequences>,
) -> Result<Option<Offsets>, BsonFault>
    requires { 4 ≤ length bytes.now }
    ensures found { IfOk result (λ found. MatchOption found (HasNoSections (drop 4 bytes.now)) (LiesAt bytes.now)) }
    ensures copied { IfOk result (λ found. IfSome found (λ _. CopiesSequences bytes.now copies.old copies.new)) }
    ensures refused { IfErr result (λ fault. fault ≡ BsonFault.OutOfMemory) }
{
    let (_flags, sections) = bytes.split_at(FLAGS_LENGTH);
    let mut rest = sections;
    let mut body = None;
    'sections: while rest.len() > CHECKSUM_LENGTH {
        match split_section(rest) {
            Some((SectionRef::Sequence(sequence), after)) => {
                if !judge_sequence(alloc, sequence, copies)? {
                    return Ok(None);
                }
                rest = after;
            }
            Some((SectionRef::Body(_document), after)) => {
                if body.is_some() {
                    return Ok(None);
                }
                body = Some(Offsets {
                    body_start: bytes.len() - rest.len() + KIND_LENGTH,
                    body_end: bytes.len() - after.len(),
                    sections_end: bytes.len() - after.len(),
                });
                rest = after;
            }
            None => return Ok(None),
        }
    }
    match body {
        Some(body) => Ok(Some(Offsets {
            body_start: body.body_start,
            body_end: body.body_end,
            sections_end: bytes.len() - rest.len(),
        })),
        None => Ok(None),
    }
}

// The checksum that follows the sections, where the flag word tells of one. None where the tail is neither empty nor one.
fn read_checksum(word: u32, tail: &[u8]) -> Option<Option<u32>>
    ensures { MatchOption result ((sum : Option ℕ) → IsChecksum word tail.now sum → ⊥) (IsChecksum word tail.now) }
{
    if tail.is_empty() {
        return Some(None);
    }
    if tail.len() != CHECKSUM_LENGTH {
        return None;
    }
    if MessageFlags::has_checksum_flag(word) {
        Some(Some(number(tail, 0)))
    } else {
        None
    }
}
