// A first round that went with the hello: what the server answered to the client's first message in it.

ghost use Rattle.std.specs.Prelude.{◌≡◌, is_some, option_map};
ghost use Rattle.mongo_scram.specs.Client.{speculated_of};
ghost use Rattle.mongo_establish.specs.First.{first_document, scram_round, round_with, IsScramRound, IsRoundFrom};
ghost use Rattle.mongo_establish.specs.Speculation.{answer_to, left_in};

use crate::ClientFirst;
use mongo_command::HelloReply;

// The first round of a login.
#[derive(Debug, Drop)]
pub(crate) enum AnsweredRound {
    // That of SCRAM.
    Scram(mongo_scram::FirstRound),
    // That of X.509, which any answer ends.
    X509,
}

// The first round that went with the hello, where it was answered: the answer is taken out of the reply.
pub(crate) fn answered_round(
    first: Option<ClientFirst>,
    reply: &mut HelloReply,
) -> Option<AnsweredRound>
    ensures there { is_some result ≡ is_some (answer_to (option_map first_document first) reply.old.command_response.speculative_authenticate) }
    ensures scram { speculated_of (scram_round result) ≡ round_with first reply.old.command_response.speculative_authenticate }
    ensures kind { IsRoundFrom first result }
    ensures reply { reply.new ≡ record reply.old { command_response = record reply.old.command_response { speculative_authenticate = left_in (option_map first_document first) reply.old.command_response.speculative_authenticate } } }
{
    let Some(first) = first else {
        return None;
    };
    let Some(server_first) = reply.command_response.speculative_authenticate.take() else {
        return None;
    };
    match first {
        ClientFirst::Scram(_, client_first) => Some(AnsweredRound::Scram(
            mongo_scram::FirstRound {
                client_first,
                server_first,
            },
        )),
        ClientFirst::X509(_) => Some(AnsweredRound::X509),
    }
}

// A round of SCRAM.
pub(crate) fn scram_round(round: Option<AnsweredRound>) -> Option<mongo_scram::FirstRound>
    requires { IsScramRound round }
    ensures { result ≡ scram_round round }
{
    match round {
        None => None,
        Some(AnsweredRound::Scram(round)) => Some(round),
        Some(AnsweredRound::X509) => unreachable!(),
    }
}
