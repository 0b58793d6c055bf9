//! How a case is played: its lines, with each call of its work going wrong in turn, and pairs of calls.
use crate::cases::Case;
use crate::draws::Draws;
use crate::harms::{calls_in, left_at, place_of, takes_forged};
use crate::play::{answer, fits, play_line, play_lines, split_answer};
use crate::report::Report;
use crate::scene::Scene;
use chk_site::{Act, StopAt};
use std::test::Fail;

// The acts of work that doesn't go wrong; those from `first` on are the work's.
#[derive(Clone, Copy)]
struct Rehearsal<'a> {
    acts: &'a [Act],
    first: usize,
}

// How the work goes wrong: by this line, at the call of this number.
#[derive(Clone, Copy)]
struct Wrong<'a, 'b> {
    rehearsal: Rehearsal<'a>,
    harm: &'b str,
    at: u64,
}

impl<'a> Rehearsal<'a> {
    fn calls(self) -> u64 {
        calls_in(self.acts.get(self.first..).unwrap_or(&[]))
    }

    fn call(self, at: u64) -> Result<&'a Act, Fail> {
        let place = place_of(self.acts, self.first, at)?;
        Ok(self.acts.get(place).ok_or("no act there")?)
    }

    // Whether the call of this number can go wrong so. An entry is forged only in an append to a sink.
    fn takes(self, harm: &str, at: u64) -> Result<bool, Fail> {
        Ok(!harm.starts_with("forged") || takes_forged(self.call(at)?))
    }
}

// The number behind this word, or the other one if there is no such line.
fn number_of(case: Case<'_>, word: &str, other: u64) -> Result<u64, Fail> {
    for line in case.middle.lines() {
        if let Some(number) = line.strip_prefix(word) {
            return Ok(number.parse()?);
        }
    }
    Ok(other)
}

// A scene behind the setup. None: a line isn't answered as it says.
fn begin<S: Scene>(case: Case<'_>, report: &mut Report) -> Result<Option<Box<S>>, Fail> {
    report.begin(case.name)?;
    let mut scene = S::empty(case.alloc)?;
    if play_lines(&mut *scene, case.parts, case.setup, report)? {
        Ok(Some(scene))
    } else {
        Ok(None)
    }
}

// Does the work, and answers what its last line answers.
fn work<S: Scene>(case: Case<'_>, scene: &mut S, report: &mut Report) -> Result<String, Fail> {
    let mut given = String::new(case.alloc);
    for line in case.middle.lines() {
        if let Some(line) = line.strip_prefix("try ") {
            report.note(line)?;
            given = answer(scene, case.parts, line)?;
        }
    }
    Ok(given)
}

// Does the work, and answers at which act it begins.
fn rehearse<S: Scene>(case: Case<'_>, scene: &mut S, report: &mut Report) -> Result<usize, Fail> {
    let first = scene.outside().site.acts().len();
    let _given = work(case, scene, report)?;
    Ok(first)
}

// The next call of this number goes wrong.
fn put_harm<S: Scene>(
    case: Case<'_>,
    scene: &mut S,
    harm: &str,
    wrong: Wrong<'_, '_>,
) -> Result<(), Fail> {
    let Wrong { rehearsal, at, .. } = wrong;
    if matches!(harm, "synced" | "whole" | "forged") {
        let place = place_of(rehearsal.acts, rehearsal.first, at)?;
        let left = left_at(case.alloc, rehearsal.acts, place, harm)?;
        scene.outside().next.stop = Some(StopAt { at, left });
        return Ok(());
    }
    let line = format!(in case.alloc; "{harm} {at}")?;
    let _done = answer(scene, case.parts, line.as_str())?;
    Ok(())
}

// The answer that is wanted, with the name of the call in place of `{call}`.
fn wanted_of(case: Case<'_>, wanted: &str, wrong: Wrong<'_, '_>) -> Result<String, Fail> {
    match wanted.split_once("{call}") {
        Some((start, end)) => {
            let call = wrong.rehearsal.call(wrong.at)?.call.name();
            Ok(format!(in case.alloc; "{start}{call}{end}")?)
        }
        None => Ok(String::from_str(case.alloc, wanted)?),
    }
}

// What holds behind work that went wrong.
fn holds<S: Scene>(case: Case<'_>, scene: &mut S, report: &mut Report) -> Result<bool, Fail> {
    for line in case.middle.lines() {
        if let Some(line) = line.strip_prefix("wrong ") {
            if !play_line(scene, case.parts, line, report)? {
                return Ok(false);
            }
        }
    }
    Ok(true)
}

// The work goes wrong.
fn go_wrong<S: Scene>(
    case: Case<'_>,
    scene: &mut S,
    wrong: Wrong<'_, '_>,
    report: &mut Report,
) -> Result<bool, Fail> {
    let (harm, wanted) = split_answer(wrong.harm, "...");
    report.add_harm(harm, wrong.at)?;
    put_harm(case, scene, harm, wrong)?;
    let given = work(case, scene, report)?;
    let wanted = wanted_of(case, wanted, wrong)?;
    if !fits(given.as_str(), wanted.as_str()) {
        report.answer(given.as_str())?;
        return Ok(false);
    }
    holds(case, scene, report)
}

// The work goes wrong, first in another way if there is one, and at last all holds.
fn survives<S: Scene>(
    case: Case<'_>,
    first: Option<Wrong<'_, '_>>,
    last: Wrong<'_, '_>,
    report: &mut Report,
) -> Result<bool, Fail> {
    let Some(mut scene) = begin::<S>(case, report)? else {
        return Ok(false);
    };
    if let Some(first) = first {
        if !go_wrong(case, &mut *scene, first, report)? {
            return Ok(false);
        }
    }
    Ok(
        go_wrong(case, &mut *scene, last, report)?
            && play_lines(&mut *scene, case.parts, case.last, report)?,
    )
}

// The call of this number goes wrong in each way that it takes.
fn at_call<S: Scene>(
    case: Case<'_>,
    rehearsal: Rehearsal<'_>,
    at: u64,
    report: &mut Report,
) -> Result<bool, Fail> {
    for line in case.middle.lines() {
        if let Some(harm) = line.strip_prefix("harm ") {
            let wrong = Wrong {
                rehearsal,
                harm,
                at,
            };
            if rehearsal.takes(harm, at)? && !survives::<S>(case, None, wrong, report)? {
                return Ok(false);
            }
        }
    }
    Ok(true)
}

// From call to call, all of them or those between `from N` and `to N`.
fn at_each_call<S: Scene>(
    case: Case<'_>,
    rehearsal: Rehearsal<'_>,
    report: &mut Report,
) -> Result<bool, Fail> {
    let calls = rehearsal.calls();
    if calls < number_of(case, "least ", 0)? {
        report.answer("fewer calls")?;
        return Ok(false);
    }
    let first = number_of(case, "from ", 1)?;
    let last = number_of(case, "to ", calls)?;
    for at in first..=last {
        if !at_call::<S>(case, rehearsal, at, report)? {
            return Ok(false);
        }
    }
    Ok(true)
}

// The harms' lines.
fn harms(case: Case<'_>) -> Result<Vec<&str>, Fail> {
    let mut harms = Vec::new(case.alloc);
    for line in case.middle.lines() {
        if let Some(harm) = line.strip_prefix("harm ") {
            harms.push(harm)?;
        }
    }
    Ok(harms)
}

// A harm at a call, or at the first one behind it that takes it; or else the first harm.
fn drawn<'a, 'b>(
    draws: &mut Draws,
    case: Case<'b>,
    rehearsal: Rehearsal<'a>,
) -> Result<Wrong<'a, 'b>, Fail> {
    let harms = harms(case)?;
    let calls = rehearsal.calls();
    let before = draws.below(calls);
    let harm = harms.get(draws.below(harms.len() as u64) as usize);
    let harm = *harm.ok_or("no harm")?;
    for at in before..calls {
        let at = at + 1;
        if rehearsal.takes(harm, at)? {
            return Ok(Wrong {
                rehearsal,
                harm,
                at,
            });
        }
    }
    Ok(Wrong {
        rehearsal,
        harm: harms.first().copied().unwrap_or(""),
        at: before.saturating_add(1),
    })
}

// The work goes wrong so, and then in another way.
fn survives_two<S: Scene>(
    case: Case<'_>,
    draws: &mut Draws,
    first: Wrong<'_, '_>,
    report: &mut Report,
) -> Result<bool, Fail> {
    let Some(mut scene) = begin::<S>(case, report)? else {
        return Ok(false);
    };
    if !go_wrong(case, &mut *scene, first, report)? {
        return Ok(false);
    }
    let start = rehearse(case, &mut *scene, report)?;
    let rehearsal = Rehearsal {
        acts: scene.outside().site.acts(),
        first: start,
    };
    let second = drawn(draws, case, rehearsal)?;
    survives::<S>(case, Some(first), second, report)
}

// The work goes wrong at two calls, one behind the other, which a seed draws.
fn at_pairs<S: Scene>(
    case: Case<'_>,
    rehearsal: Rehearsal<'_>,
    report: &mut Report,
) -> Result<bool, Fail> {
    let seeds = number_of(case, "pairs ", 0)?;
    for seed in 0..seeds {
        let mut draws = Draws::new(seed + 1);
        let first = drawn(&mut draws, case, rehearsal)?;
        if !survives_two::<S>(case, &mut draws, first, report)? {
            return Ok(false);
        }
    }
    Ok(true)
}

// Plays the case's lines, then the work with each harm at each of its calls, and then with two harms.
pub(crate) fn play_case<S: Scene>(case: Case<'_>, report: &mut Report) -> Result<bool, Fail> {
    let Some(mut scene) = begin::<S>(case, report)? else {
        return Ok(false);
    };
    if case.middle.is_empty() {
        return Ok(true);
    }
    let first = rehearse(case, &mut *scene, report)?;
    let rehearsal = Rehearsal {
        acts: scene.outside().site.acts(),
        first,
    };
    Ok(at_each_call::<S>(case, rehearsal, report)? && at_pairs::<S>(case, rehearsal, report)?)
}
