// Scripts of a site in memory: messages between processes, takings that are repeated, and what stands after a stop.
use chk_bytes::Word;
use chk_site::{Call, Role, Script, Who};
use chk_site_mem::SiteMem;
use chk_test_calls::{collector, failing, follows, left_of, quiet, repeating, stopping, written};
use std::alloc::Global;
use std::test::Fail;

// The third send fails.
const MAILBOX: &str = "\
h1 send self early = 1
c1 start - = done
h1 send self one = 2
h1 send self lost = Failed
h1 send c1:80 elsewhere = 4
h1 send self two = 5
c1 take self - 5 = 1 [one]
c1 take self - 5 = 2 [two]
c1 take self - 5 = -
c1 take self - 5 = -
";

// The first two takings are repeated.
const REPEATS: &str = "\
h1 send c1:80 post = 1
h1 send c1:80 next = 2
c1 take c1:80 - 0 = 1 [post]
c1 take c1:80 - 0 = 2 [post]
c1 take c1:80 - 0 = 3 [post]
c1 take c1:80 - 0 = 4 [next]
c1 take c1:80 - 0 = -
";

// Another has sent the message 7 to the agent's door before.
const ANSWERS: &str = "\
h1 take h1:93 - 0 = 1 [list]
h1 send c1:80 post = 8
c1 take c1:80 - 0 = 2 [post]
c1 more - - 2 = []
h1 got - - 8 = []
h1 answer - notmine 2 = done
h1 got - - 8 = []
c1 answer - 200 2 = done
c1 answer - 503 2 = done
h1 got - - 8 = [200]
";

// The append of `abc` is stopped.
const STOPPED: &str = "\
c1 create f = done
c1 append f sure = done
c1 sync f = done
c1 append f xy = done
c1 append f abc = Failed
c1 sync f = Failed
";

const AFTER_STOP: &str = "\
c1 append f ! = done
c1 size f = 10
c1 read f - 0 99 = [sure01234!]
";

fn agent(alloc: Global) -> Result<Who, Fail> {
    Ok(Who {
        role: Role::Agent,
        name: Word::new(alloc, b"h1".as_slice())?,
    })
}

// The line begins with the process that makes the call.
fn play_line(alloc: Global, site: &mut SiteMem, line: &str) -> Result<(), Fail> {
    let (maker, call) = line.split_once(' ').ok_or("no call")?;
    follows(alloc, site, &made_by(alloc, maker)?, call)
}

fn made_by(alloc: Global, maker: &str) -> Result<Who, Fail> {
    match maker {
        "h1" => agent(alloc),
        _ => collector(alloc),
    }
}

// Each line is answered as it says.
fn play(alloc: Global, site: &mut SiteMem, program: &str) -> Result<(), Fail> {
    for line in program.lines() {
        play_line(alloc, site, line)?;
    }
    Ok(())
}

fn play_anew(alloc: Global, script: Script, program: &str) -> Result<(), Fail> {
    let mut site = SiteMem::new(alloc, script)?;
    play(alloc, &mut site, program)
}

fn failing_and_repeating(alloc: Global) -> Result<Script, Fail> {
    let mut script = repeating(alloc, &[1])?;
    script.failing = failing(alloc, 4)?.failing;
    Ok(script)
}

#[test]
fn mailbox_keeps_order(rt: HostRuntime) -> Result<(), Fail> {
    play_anew(rt.alloc(), failing_and_repeating(rt.alloc())?, MAILBOX)
}

#[test]
fn takings_are_repeated(rt: HostRuntime) -> Result<(), Fail> {
    play_anew(rt.alloc(), repeating(rt.alloc(), &[1, 2])?, REPEATS)
}

fn with_message(alloc: Global) -> Result<Script, Fail> {
    let mut sent = written(alloc, Call::Send, &[b"h1:93", b"list"])?;
    sent.act.number = 7;
    let mut script = quiet(alloc);
    script.others.push(sent)?;
    Ok(script)
}

#[test]
fn answers_are_got(rt: HostRuntime) -> Result<(), Fail> {
    play_anew(rt.alloc(), with_message(rt.alloc())?, ANSWERS)
}

// The tail is longer than the two loose bytes and the three of the piece.
fn stopped_site(alloc: Global) -> Result<SiteMem, Fail> {
    let left = left_of(alloc, &["f"], b"0123456789", false)?;
    let mut site = SiteMem::new(alloc, stopping(alloc, 5, left))?;
    play(alloc, &mut site, STOPPED)?;
    Ok(site)
}

// The calls after the stop are no acts.
#[test]
fn a_long_tail_is_cut(rt: HostRuntime) -> Result<(), Fail> {
    let mut site = stopped_site(rt.alloc())?;
    assert!(rt; site.acts().len() == 5);
    site.restart(quiet(rt.alloc()));
    play(rt.alloc(), &mut site, AFTER_STOP)
}
