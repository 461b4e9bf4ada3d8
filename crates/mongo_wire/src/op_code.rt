ghost use Rattle.std.specs.Prelude.{◌≡◌, None, Some, IfOk, IfErr};
ghost use Rattle.mongo_wire.specs.Header.{op_code_of, code_number};

use crate::ResponseFault;

// The numbers of the op codes.
const OP_REPLY: i32 = 1;

const OP_QUERY: i32 = 2004;

const OP_COMPRESSED: i32 = 2012;

const OP_MSG: i32 = 2013;

/// What a frame is, by the wire protocol.
#[derive(Clone, Copy, Debug, PartialEq, Eq)]
pub enum OpCode {
    /// OP_REPLY, 1: an answer of old servers.
    Reply,
    /// OP_QUERY, 2004: a question of old clients.
    Query,
    /// OP_MSG, 2013.
    Message,
    /// OP_COMPRESSED, 2012: another frame, compressed.
    Compressed,
}

impl OpCode {
    /// The op code of this number. `OpCode(number)` where it is none of 1, 2004, 2012 and 2013.
    pub fn from_i32(number: i32) -> Result<OpCode, ResponseFault>
        ensures code { IfOk result (λ code. op_code_of number ≡ Some code) }
        ensures unknown { IfErr result (λ fault. (fault ≡ ResponseFault.OpCode number) × (op_code_of number ≡ None)) }
    {
        match number {
            OP_REPLY => Ok(OpCode::Reply),
            OP_QUERY => Ok(OpCode::Query),
            OP_COMPRESSED => Ok(OpCode::Compressed),
            OP_MSG => Ok(OpCode::Message),
            _ => Err(ResponseFault::OpCode(number)),
        }
    }

    /// The number of the op code.
    pub fn number(&self) -> i32
        ensures { result ≡ code_number self.now }
    {
        match self {
            OpCode::Reply => OP_REPLY,
            OpCode::Query => OP_QUERY,
            OpCode::Compressed => OP_COMPRESSED,
            OpCode::Message => OP_MSG,
        }
    }
}
