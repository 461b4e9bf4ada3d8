use super::ends::{End, end_of, is_same_end};
use super::failing::{exchanges_of, talk_of, who_of};
use super::{PoolKind, SEVENTH, link_of, made_in_memory, new_state};
use mongo_establish::{LoginState, RequestIds};
use std::alloc::Global;
use std::test::Fail;

// The end of a login that hears so many bytes and no more: all of them are taken, and the command whose reply is cut is the
// last. The cache has the rounds and the entry of a login that was accepted before.
fn cut_end_at(login: u8, heard: usize) -> End {
    let mut end = End {
        told: ("none", 0, None),
        next_id: 0,
        said: 0,
        heard,
        rounds: 4096,
        entries: 1,
    };
    let mut left = heard;
    for (command, reply) in exchanges_of(login) {
        end.next_id = end.next_id.saturating_add(1);
        end.said = end.said.saturating_add(command.len());
        if left < reply.len() {
            let (_, _, generation) = end.told;
            end.told = ("EndOfInput", 0, generation);
            return end;
        }
        left -= reply.len();
        end.told = ("none", 0, SEVENTH);
    }
    end
}

// Whether a login by so much of its replies ends so, over a link that doesn't fail.
fn ends_so(alloc: Global, login: u8, heard: &[u8], state: &mut LoginState) -> Result<bool, Fail> {
    let mut link = link_of(alloc, heard)?;
    state.ids = RequestIds::new(0);
    let made = made_in_memory(alloc, who_of(login), PoolKind::Normal, &mut link, state)?;
    let taken = heard.len().saturating_sub(link.left().len());
    let end = end_of(made.told, state, link.written().len(), taken);
    Ok(is_same_end(&end, &cut_end_at(login, heard.len())))
}

#[test]
fn a_reply_that_is_cut_is_the_end_of_input(rt: HostRuntime) -> Result<(), Fail> {
    for login in 0..2 {
        let talk = talk_of(rt.alloc(), login)?;
        let mut state = new_state(rt.alloc());
        let heard = talk.heard.as_slice();
        // the whole puts the key into the cache
        assert!(rt;
            ends_so(rt.alloc(), login, heard, &mut state)?,
            "login {login}"
        );
        for cut in (0..heard.len()).rev() {
            let ends = ends_so(rt.alloc(), login, &heard[..cut], &mut state)?;
            assert!(rt; ends, "login {login} at {cut}");
        }
    }
    Ok(())
}
