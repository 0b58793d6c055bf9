// Each call on a site in memory in each of its answers.
use chk_site::{Script, Site};
use chk_site_mem::SiteMem;
use chk_test_calls::{collector, failing, follows, left_of, quiet, stopping};
use std::alloc::Global;
use std::test::Fail;

// Before each row the file f has 8 bytes, of which 5 are synced.
const BEFORE: &str = "\
create f = done
append f abcde = done
sync f = done
append f fgh = done
";

// The call's number.
const AT: u64 = 5;

// A call with its answer; then what the files f and g are where it is done; where it fails; where it is stopped, did not
// take place, and leaves `fg` behind the synced bytes of both; and where it is stopped so and took place.
const ROWS: &str = "\
create g = done | abcdefgh [] | abcdefgh - | abcdefg - | abcdefg []
append f 0123456789012345678901234 = done | abcdefgh0123456789012345678901234 - | abcdefgh01234567890123456789 - | abcdefg - | abcdefg -
sync f = done | abcdefgh - | abcdefgh - | abcdefg - | abcdefg -
rename f g = done | - abcdefgh | abcdefgh - | abcdefg - | - abcdefg
remove f = done | - - | abcdefgh - | abcdefg - | - -
cut f - 3 = done | abc - | abcdefgh - | abcdefg - | abc -
size f = 8 | abcdefgh - | abcdefgh - | abcdefg - | abcdefg -
read f - 6 9 = [gh] | abcdefgh - | abcdefgh - | abcdefg - | abcdefg -
list none = [] | abcdefgh - | abcdefgh - | abcdefg - | abcdefg -
start - = done | abcdefgh - | abcdefgh - | abcdefg - | abcdefg -
clock - = 0 | abcdefgh - | abcdefgh - | abcdefg - | abcdefg -
pause - - 7 = done | abcdefgh - | abcdefgh - | abcdefg - | abcdefg -
say - x = done | abcdefgh - | abcdefgh - | abcdefg - | abcdefg -
lognewest l = - | abcdefgh - | abcdefgh - | abcdefg - | abcdefg -
logread l base 0 1 = [] - | abcdefgh - | abcdefgh - | abcdefg - | abcdefg -
logappend l x = done | abcdefgh - | abcdefgh - | abcdefg - | abcdefg -
send d hi = 1 | abcdefgh - | abcdefgh - | abcdefg - | abcdefg -
take d - 0 = - | abcdefgh - | abcdefgh - | abcdefg - | abcdefg -
got - - 1 = [] | abcdefgh - | abcdefgh - | abcdefg - | abcdefg -
more - - 1 = [] | abcdefgh - | abcdefgh - | abcdefg - | abcdefg -
answer - x 1 = done | abcdefgh - | abcdefgh - | abcdefg - | abcdefg -
";

// Lines that begin with `!` are of a call that fails.
const REFUSALS: &str = "\
append g x = Missing
sync g = Missing
rename g f = Missing
remove g = Missing
cut g - 0 = Missing
size g = Missing
read g - 0 1 = Missing
create f = Exists
cut f - 9 = Short { size: 8 }
read f - 9 1 = Short { size: 8 }
! create f = Failed
! size g = Failed
";

const LOGS: &str = "\
! logappend l 0123456789012345678901234 = Failed
logread l base 0 99 = [01234567890123456789] -
logappend l abc = done
! logread l base 0 99 = Failed
! lognewest l = Failed
logread l base 20 99 = [abc] -
logread l base 24 1 = Short { size: 23 }
";

const MESSAGES: &str = "\
! start - = Failed
start - = done
! send d one = Failed
send d two = 2
! take d - 0 = Failed
take d - 0 = 1 [two]
! more - - 1 = Failed
more - - 1 = []
! answer - lost 1 = Failed
answer - kept 1 = done
! got - - 2 = Failed
got - - 2 = [kept]
got - - 1 = []
take d - 0 = -
";

// The clock counts the milliseconds of pauses, and of takings that found nothing.
const WAITS: &str = "\
clock - = 0
pause - - 7 = done
clock - = 7
take d - 5 = -
clock - = 12
";

// The lines are answered so, where a mark `!` doesn't count.
fn play(alloc: Global, site: &mut SiteMem, program: &str) -> Result<(), Fail> {
    let who = collector(alloc)?;
    for line in program.lines() {
        follows(alloc, site, &who, line.strip_prefix("! ").unwrap_or(line))?;
    }
    Ok(())
}

fn site_with_file(alloc: Global, script: Script) -> Result<SiteMem, Fail> {
    let mut site = SiteMem::new(alloc, script)?;
    play(alloc, &mut site, BEFORE)?;
    Ok(site)
}

// What a file is: `-` where it isn't there, `[]` where it is empty.
fn file_text<'a>(site: &'a SiteMem, name: &str) -> Result<&'a str, Fail> {
    match site.file(name) {
        None => Ok("-"),
        Some([]) => Ok("[]"),
        Some(bytes) => Ok(std::str::from_utf8(bytes)?),
    }
}

// The files f and g are what these two words say.
fn files_are(site: &SiteMem, files: &str) -> Result<(), Fail> {
    let (f, g) = files.split_once(' ').ok_or("no two files")?;
    file_is(site, "f", f)?;
    file_is(site, "g", g)
}

fn file_is(site: &SiteMem, name: &str, wanted: &str) -> Result<(), Fail> {
    let text = file_text(site, name)?;
    match text == wanted {
        true => Ok(()),
        false => Err(Fail::new(text)),
    }
}

// The calls are answered as their lines say, and leave these files.
fn leaves_on(alloc: Global, site: &mut SiteMem, calls: &str, files: &str) -> Result<(), Fail> {
    play(alloc, site, calls)?;
    files_are(site, files)
}

fn leaves(alloc: Global, script: Script, calls: &str, files: &str) -> Result<(), Fail> {
    let mut site = site_with_file(alloc, script)?;
    leaves_on(alloc, &mut site, calls, files)
}

fn column(row: &str, number: usize) -> Result<&str, Fail> {
    Ok(row.split(" | ").nth(number).ok_or("no such column")?)
}

// The line of the call where it fails.
fn failed_call(alloc: Global, row: &str) -> Result<String, Fail> {
    let (asked, _) = row.split_once(" = ").ok_or("no answer")?;
    Ok(format!(in alloc; "{asked} = Failed")?)
}

fn done_so(alloc: Global, row: &str) -> Result<(), Fail> {
    let call = column(row, 0)?;
    let files = column(row, 1)?;
    leaves(alloc, quiet(alloc), call, files)
}

// By this script the call fails, and leaves the files of this column.
fn fails_so(alloc: Global, script: Script, row: &str, number: usize) -> Result<(), Fail> {
    let call = failed_call(alloc, row)?;
    leaves(alloc, script, call.as_str(), column(row, number)?)
}

fn stops_so(alloc: Global, whole: bool, row: &str, number: usize) -> Result<(), Fail> {
    let left = left_of(alloc, &["f", "g"], b"fg", whole)?;
    fails_so(alloc, stopping(alloc, AT, left), row, number)
}

#[test]
fn each_call_is_done(rt: HostRuntime) -> Result<(), Fail> {
    let alloc = rt.alloc();
    for row in ROWS.lines() {
        done_so(alloc, row)?;
    }
    Ok(())
}

#[test]
fn each_call_fails(rt: HostRuntime) -> Result<(), Fail> {
    let alloc = rt.alloc();
    for row in ROWS.lines() {
        fails_so(alloc, failing(alloc, AT)?, row, 2)?;
    }
    Ok(())
}

#[test]
fn each_call_is_stopped(rt: HostRuntime) -> Result<(), Fail> {
    let alloc = rt.alloc();
    for row in ROWS.lines() {
        stops_so(alloc, false, row, 3)?;
        stops_so(alloc, true, row, 4)?;
    }
    Ok(())
}

// The script that lets the marked lines fail, where the first line is the call of this number.
fn marked(alloc: Global, program: &str, first: u64) -> Result<Script, Fail> {
    let mut failing = Vec::new(alloc);
    let mut at = first;
    for line in program.lines() {
        if line.starts_with("! ") {
            failing.push(at)?;
        }
        at = at.saturating_add(1);
    }
    let mut script = quiet(alloc);
    script.failing = failing;
    Ok(script)
}

fn play_anew(alloc: Global, program: &str) -> Result<(), Fail> {
    let mut site = SiteMem::new(alloc, marked(alloc, program, 1)?)?;
    play(alloc, &mut site, program)
}

#[test]
fn refusals_change_nothing(rt: HostRuntime) -> Result<(), Fail> {
    let alloc = rt.alloc();
    let mut site = site_with_file(alloc, marked(alloc, REFUSALS, AT)?)?;
    leaves_on(alloc, &mut site, REFUSALS, "abcdefgh -")?;
    assert!(rt; site.faults() == 2);
    Ok(())
}

#[test]
fn logs_fail(rt: HostRuntime) -> Result<(), Fail> {
    play_anew(rt.alloc(), LOGS)
}

#[test]
fn messages_fail(rt: HostRuntime) -> Result<(), Fail> {
    play_anew(rt.alloc(), MESSAGES)
}

#[test]
fn waits_are_counted(rt: HostRuntime) -> Result<(), Fail> {
    play_anew(rt.alloc(), WAITS)
}

const CUT: &str = "\
cut f - 3 = done
append f xyz = done
size f = Failed
size f = Failed
";

// The synced length after a cut is the new length: what is appended then is lost in a stop.
#[test]
fn cut_lowers_the_synced_length(rt: HostRuntime) -> Result<(), Fail> {
    let alloc = rt.alloc();
    let left = left_of(alloc, &["f"], b"", false)?;
    leaves(alloc, stopping(alloc, AT + 2, left), CUT, "abc -")
}
