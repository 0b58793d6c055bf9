// Scripts of a site in memory.
ghost use Rattle.std.specs.Prelude.{◌≡◌, [], ◌∷◌, None, Some, IfOk, codes};
ghost use Rattle.chk_site.specs.declared.acts.Role.TheVariants.{Collector, Writer};

use chk_bytes::{Bytes, Word};
use chk_site::{Act, ActAnswer, Call, Left, Lefts, Other, Role, Script, StopAt, Who, Words};
use std::alloc::Global;
use std::test::Fail;

/// The collector c1.
pub fn collector(alloc: Global) -> Result<Who, Fail>
    ensures role { IfOk result (λ who. who.role ≡ Collector) }
    ensures name { IfOk result (λ who. who.name ≡ codes "c1") }
{
    Ok(Who {
        role: Role::Collector,
        name: Word::new(alloc, b"c1".as_slice())?,
    })
}

/// A script in which nothing happens.
pub fn quiet(alloc: Global) -> Script
    ensures others { result.others.items ≡ [] }
    ensures failing { result.failing.items ≡ [] }
    ensures again { result.again.items ≡ [] }
    ensures stop { result.stop ≡ None }
{
    Script {
        others: Vec::new(alloc),
        failing: Vec::new(alloc),
        again: Vec::new(alloc),
        stop: None,
    }
}

/// A script in which the call of this number fails.
pub fn failing(alloc: Global, at: u64) -> Result<Script, Fail>
    ensures others { IfOk result (λ script. script.others.items ≡ []) }
    ensures failing { IfOk result (λ script. script.failing.items ≡ at ∷ []) }
    ensures again { IfOk result (λ script. script.again.items ≡ []) }
    ensures stop { IfOk result (λ script. script.stop ≡ None) }
{
    let failing = vec![in alloc; at]?;
    Ok(Script {
        others: Vec::new(alloc),
        failing,
        again: Vec::new(alloc),
        stop: None,
    })
}

/// A script in which these takings are repeated.
pub fn repeating(alloc: Global, takings: &[u64]) -> Result<Script, Fail>
    ensures others { IfOk result (λ script. script.others.items ≡ []) }
    ensures failing { IfOk result (λ script. script.failing.items ≡ []) }
    ensures again { IfOk result (λ script. script.again.items ≡ takings.now) }
    ensures stop { IfOk result (λ script. script.stop ≡ None) }
{
    let again = takings.to_vec(alloc)?;
    Ok(Script {
        others: Vec::new(alloc),
        failing: Vec::new(alloc),
        again,
        stop: None,
    })
}

/// A script with a stop at the call of this number.
pub fn stopping(alloc: Global, at: u64, left: Lefts) -> Script
    ensures others { result.others.items ≡ [] }
    ensures failing { result.failing.items ≡ [] }
    ensures again { result.again.items ≡ [] }
    ensures stop { result.stop ≡ Some (record { at = at; left = left }) }
{
    Script {
        others: Vec::new(alloc),
        failing: Vec::new(alloc),
        again: Vec::new(alloc),
        stop: Some(StopAt { at, left }),
    }
}

/// An act of a writer that was done.
pub fn written(alloc: Global, call: Call, texts: &[&[u8]]) -> Result<Other, Fail>
    ensures before { IfOk result (λ other. other.before ≡ 1) }
    ensures by { IfOk result (λ other. other.act.who.role ≡ Writer) }
    ensures call { IfOk result (λ other. other.act.call ≡ call) }
{
    let mut words = Words::new(alloc);
    for text in texts {
        words.push(Bytes::from_slice(alloc, text)?)?;
    }
    let name = Word::new(alloc, b"log".as_slice())?;
    let answer = ActAnswer::Done {
        words: Words::new(alloc),
        number: 0,
        of: 0,
    };
    Ok(Other {
        before: 1,
        act: Act {
            who: Who {
                role: Role::Writer,
                name,
            },
            call,
            words,
            number: 0,
            max: 0,
            answer,
        },
    })
}

/// What a stop leaves of each of these files: this tail past the synced length.
pub fn left_of(alloc: Global, names: &[&str], tail: &[u8], whole: bool) -> Result<Lefts, Fail> {
    let mut left = Lefts::new(alloc);
    for name in names {
        left.push(Left {
            name: Bytes::from_slice(alloc, name.as_bytes())?,
            tail: Bytes::from_slice(alloc, tail)?,
            whole,
        })?;
    }
    Ok(left)
}
