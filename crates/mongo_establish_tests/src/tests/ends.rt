use super::Told;
use mongo_establish::LoginState;

/// How an establishment ended, and what it left: the next command's id, how many bytes were said and heard, and the
/// cache's rounds and entries.
#[derive(Clone, Copy)]
pub(super) struct End {
    pub(super) told: Told,
    pub(super) next_id: i32,
    pub(super) said: usize,
    pub(super) heard: usize,
    pub(super) rounds: u64,
    pub(super) entries: usize,
}

pub(super) fn end_of(told: Told, state: &LoginState, said: usize, heard: usize) -> End {
    End {
        told,
        next_id: state.ids.next(),
        said,
        heard,
        rounds: state.salted.rounds(),
        entries: state.salted.len(),
    }
}

pub(super) fn is_same_end(end: &End, wanted: &End) -> bool {
    end.told == wanted.told
        && end.next_id == wanted.next_id
        && end.said == wanted.said
        && end.heard == wanted.heard
        && end.rounds == wanted.rounds
        && end.entries == wanted.entries
}
