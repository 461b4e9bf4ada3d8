ghost use Rattle.std.specs.Prelude.{◌≡◌, ◌+◌, ◌≤◌, ◌++◌, pos, ◌≤ℤ◌, length, None, Some, IfOk, IfErr, OnOk};
ghost use Rattle.std.specs.Io.KnownBytes.{Appends};
ghost use Rattle.mongo_wire.specs.Error.{kind_of_frame_fault};
ghost use Rattle.mongo_wire.specs.Frame.{int32};
ghost use Rattle.mongo_wire.specs.Header.{signed_at, number_at, op_code_of, header_with, header_bytes, maximum_of};
ghost use Rattle.mongo_wire.specs.Outside.{ReadsOn, WritesOn, WriteStops};
ghost use Rattle.mongo_wire.specs.Rows.{length_row};
ghost use Rattle.mongo_wire.specs.Small.{TakesHeader, HeaderRefused};
ghost use Rattle.mongo_wire.specs.declared.op_code.OpCode.TheVariants as op_code;

use crate::message::DEFAULT_MAX_MESSAGE_SIZE_BYTES;
use crate::reading::fill;
use crate::writing::write_out;
use crate::{ArgumentFault, Error, ErrorKind, FrameFault, OpCode, ResponseFault, Sink, Source};

/// The header of a frame: 16 bytes, four `int32` with the low byte first.
#[derive(Clone, Copy, Debug, PartialEq, Eq)]
pub struct Header {
    /// The length of the whole frame, the header included, in bytes.
    pub length: i32,
    /// The id of this frame.
    pub request_id: i32,
    /// The id of the frame that this one answers, or 0.
    pub response_to: i32,
    /// What the frame is.
    pub op_code: OpCode,
}

impl Header {
    /// How many bytes a header has.
    pub const LENGTH: usize = 16;

    /// The header that the bytes are. Its length isn't judged.
    ///
    /// `OpCode(number)` where the op code is none of 1, 2004, 2012 and 2013.
    pub fn decode(bytes: &[u8; 16]) -> Result<Header, ResponseFault>
        ensures header { IfOk result (λ header. (op_code_of (signed_at 12 bytes.now) ≡ Some header.op_code) × (header ≡ header_with bytes.now header.op_code)) }
        // It is spelled by just these bytes.
        ensures spelled { IfOk result (λ header. header_bytes header ≡ bytes.now) }
        ensures unknown { IfErr result (λ fault. (fault ≡ ResponseFault.OpCode (signed_at 12 bytes.now)) × (op_code_of (signed_at 12 bytes.now) ≡ None)) }
    {
        let op_code = OpCode::from_i32(signed(bytes, 12))?;
        Ok(Header {
            length: signed(bytes, 0),
            request_id: signed(bytes, 4),
            response_to: signed(bytes, 8),
            op_code,
        })
    }

    /// The 16 bytes of the header, each number with its low byte first. [`Header::decode`] gives the header back.
    pub fn encode(&self) -> [u8; 16]
        ensures bytes { result ≡ header_bytes self.now }
        ensures decoded { (op_code_of (signed_at 12 result) ≡ Some self.now.op_code) × (header_with result self.now.op_code ≡ self.now) }
    {
        numbers_bytes(
            self.length,
            self.request_id,
            self.response_to,
            self.op_code.number(),
        )
    }

    /// Reads the next 16 bytes of the source as a header. Its length isn't judged.
    ///
    /// `ReadFault` where the source failed, `EndOfInput` where it ended before, `OpCode` of an unknown op code, with the 16
    /// bytes taken.
    pub fn read_from<S: Source>(source: &mut S) -> Result<Header, Error>
        ensures read { IfOk result (TakesHeader (S.state source.old) (S.state source.new)) }
        ensures refused { IfErr result (λ e. HeaderRefused e.kind (S.state source.old) (S.state source.new)) }
        ensures on { ReadsOn (S.state source.old) (S.state source.new) }
    {
        let mut bytes = [0u8; Header::LENGTH];
        fill(source, &mut bytes)?;
        match Header::decode(&bytes) {
            Ok(header) => Ok(header),
            Err(fault) => Err(ErrorKind::InvalidResponse(fault).into()),
        }
    }

    /// Writes the header's 16 bytes as one piece. It doesn't flush.
    ///
    /// `WriteFault` where the sink failed, `OutOfMemory` where it wanted memory; a front of the bytes is written then.
    pub fn write_to<K: Sink>(&self, sink: &mut K) -> Result<(), Error>
        ensures written { OnOk result (Appends (K.state sink.old).written (K.state sink.new).written (header_bytes self.now)) }
        ensures writes { OnOk result ((K.state sink.new).write_faults ≡ (K.state sink.old).write_faults) }
        ensures refused { IfErr result (λ e. WriteStops e.kind (K.state sink.old) (K.state sink.new) (header_bytes self.now)) }
        ensures on { WritesOn (K.state sink.old) (K.state sink.new) }
    {
        write_out(sink, &self.encode())
    }

    // How many bytes follow the header of an OP_MSG within the maximum. Else the row that the header calls for.
    pub(crate) fn rest_within(&self, maximum: Option<i32>) -> Result<usize, FrameFault>
        ensures passes { IfOk result (λ rest. length_row (maximum_of maximum) self.now.length (Some self.now.op_code) (pos 0) ≡ None) }
        ensures length { IfOk result (λ rest. pos (16 + rest) ≡ self.now.length) }
        ensures message { IfOk result (λ rest. self.now.op_code ≡ op_code.Message) }
        ensures within { IfOk result (λ rest. pos (16 + rest) ≤ℤ maximum_of maximum) }
        ensures row { IfErr result (λ fault. length_row (maximum_of maximum) self.now.length (Some self.now.op_code) (pos 0) ≡ Some (kind_of_frame_fault fault)) }
    {
        if self.length > maximum.unwrap_or(DEFAULT_MAX_MESSAGE_SIZE_BYTES) {
            return Err(FrameFault::InvalidResponse(ResponseFault::OverMaximum));
        }
        match self.op_code {
            OpCode::Compressed => Err(FrameFault::InvalidResponse(ResponseFault::Compressed)),
            OpCode::Reply => Err(FrameFault::InvalidResponse(ResponseFault::NotMessage)),
            OpCode::Query => Err(FrameFault::InvalidResponse(ResponseFault::NotMessage)),
            OpCode::Message => {
                if self.length < Header::LENGTH as i32 {
                    Err(FrameFault::InvalidArgument(ArgumentFault::CheckedFailure))
                } else {
                    Ok(self.length as usize - Header::LENGTH)
                }
            }
        }
    }
}

// The unsigned number that stands at a place, four bytes, low byte first.
pub(crate) fn number(bytes: &[u8], at: usize) -> u32
    requires { at + 4 ≤ length bytes.now }
    ensures { result ≡ number_at at bytes.now }
{
    u32::from_le_bytes([bytes[at], bytes[at + 1], bytes[at + 2], bytes[at + 3]])
}

// The signed number that stands there.
pub(crate) fn signed(bytes: &[u8], at: usize) -> i32
    requires { at + 4 ≤ length bytes.now }
    ensures { result ≡ signed_at at bytes.now }
{
    number(bytes, at).cast_signed()
}

// The four numbers of a header one after another, each with its low byte first.
pub(crate) fn numbers_bytes(length: i32, request_id: i32, response_to: i32, code: i32) -> [u8; 16]
    ensures { result ≡ int32 length ++ (int32 request_id ++ (int32 response_to ++ int32 code)) }
{
    let [l0, l1, l2, l3] = length.to_le_bytes();
    let [i0, i1, i2, i3] = request_id.to_le_bytes();
    let [r0, r1, r2, r3] = response_to.to_le_bytes();
    let [c0, c1, c2, c3] = code.to_le_bytes();
    [
        l0, l1, l2, l3, i0, i1, i2, i3, r0, r1, r2, r3, c0, c1, c2, c3,
    ]
}
