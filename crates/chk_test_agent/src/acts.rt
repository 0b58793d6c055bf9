//! What others than the agent did in a rehearsal, as a script.

use chk_site::{Act, ActAnswer, Other, Role, Words};
use std::alloc::Global;
use std::test::Fail;

fn copied_words(alloc: Global, words: &Words) -> Result<Words, Fail> {
    let mut copied = Words::new(alloc);
    for word in words.as_slice() {
        copied.push(word.copy()?)?;
    }
    Ok(copied)
}

fn copied_answer(alloc: Global, answer: &ActAnswer) -> Result<ActAnswer, Fail> {
    match answer {
        ActAnswer::Done { words, number, of } => Ok(ActAnswer::Done {
            words: copied_words(alloc, words)?,
            number: *number,
            of: *of,
        }),
        ActAnswer::Refused { fault } => Ok(ActAnswer::Refused { fault: *fault }),
        _ => Err(Fail::from("an act of others that no rehearsal makes")),
    }
}

fn copied(alloc: Global, before: u64, act: &Act) -> Result<Other, Fail> {
    Ok(Other {
        before,
        act: Act {
            who: act.who.copy()?,
            call: act.call,
            words: copied_words(alloc, &act.words)?,
            number: act.number,
            max: act.max,
            answer: copied_answer(alloc, &act.answer)?,
        },
    })
}

// Each act of others stands before the call of the agent that came next.
pub(crate) fn others_in(alloc: Global, acts: &[Act]) -> Result<Vec<Other>, Fail> {
    let mut others = Vec::new(alloc);
    let mut before: u64 = 1;
    for act in acts {
        if act.who.role == Role::Agent {
            before = before.checked_add(1).ok_or("too many calls")?;
        } else {
            others.push(copied(alloc, before, act)?)?;
        }
    }
    Ok(others)
}
