//! Listings of folders that are kept.
use crate::programs::on_machine;
use chk_bytes::Word;
use chk_site_listings::{Listing, Listings, Stamp};
use std::alloc::Global;
use std::test::Fail;
use std::time::Duration;

// So many milliseconds after its last change a folder's listing is kept. Rotations right behind it
// are seen, and so is a generation that is made in the same second as another one.
const ROTATIONS: &str = "\
std dir kept
std write kept/t.log old
pause - - 5000 = done
logread kept/t.log - 0 9 = [old] -
logread kept/t.log - 0 9 = [old] -
std rename kept/t.log kept/t.log.2010-11-08
std write kept/t.log new
logread kept/t.log - 0 9 = [old] -
pause - - 3000 = done
logread kept/t.log - 0 9 = [old] .2010-11-08
std rename kept/t.log kept/t.log.2010-11-09
std write kept/t.log next
logread kept/t.log .2010-11-08 0 9 = [new] -
pause - - 3000 = done
logread kept/t.log .2010-11-08 0 9 = [new] .2010-11-09
logread kept/t.log .2010-11-09 0 9 = [next] -
std dir quick
std write quick/u.log old
std empty quick/u.log.2010-11-08
lognewest quick/u.log = .2010-11-08
std empty quick/u.log.2010-11-09
lognewest quick/u.log = .2010-11-09
std empty quick/u.log.2010-11-10
lognewest quick/u.log = .2010-11-10
";

#[test]
fn rotations_are_seen(rt: HostRuntime) -> Result<(), Fail> {
    on_machine(rt, ROTATIONS)
}

// `MODIFIED CHANGED NOW`, in seconds, and whether the folder is settled: after three seconds.
const SETTLED: &str = "\
100 100 100 false
100 100 103 false
100 100 104 true
90 100 103 false
100 90 103 false
90 100 104 true
100 100 96 false
9223372036854775807 100 104 false
";

fn is_settled(modified: i64, changed: i64, now: u64) -> bool {
    let stamp = Stamp {
        device: 1,
        number: 1,
        modified: (modified, 0),
        changed: (changed, 999_999_999),
    };
    stamp.is_settled(Duration::from_secs(now))
}

fn settles_so(row: &str) -> Result<(), Fail> {
    let mut words = row.split(' ');
    let modified = words.next().ok_or("no change of names")?.parse()?;
    let changed = words.next().ok_or("no change")?.parse()?;
    let now = words.next().ok_or("no moment")?.parse()?;
    let wanted = words.next() == Some("true");
    if is_settled(modified, changed, now) == wanted {
        Ok(())
    } else {
        Err(Fail::new(row))
    }
}

#[test]
fn a_folder_is_settled_after_three_seconds(rt: HostRuntime) -> Result<(), Fail> {
    for row in SETTLED.lines() {
        settles_so(row)?;
    }
    Ok(())
}

fn stamp(seconds: i64, nanoseconds: i64) -> Stamp {
    Stamp {
        device: 1,
        number: 1,
        modified: (1, 0),
        changed: (seconds, nanoseconds),
    }
}

fn names(alloc: Global, count: u32) -> Result<Vec<Word>, Fail> {
    let mut names = Vec::new(alloc);
    for _name in 0..count {
        names.push(Word::new(alloc, b"a.20101108".as_slice())?)?;
    }
    Ok(names)
}

// A listing of so many names.
fn listing(alloc: Global, folder: &str, stamp: Option<Stamp>, count: u32) -> Result<Listing, Fail> {
    let names = names(alloc, count)?;
    Ok(Listing {
        folder: String::from_str(alloc, folder)?,
        stamp,
        names,
    })
}

fn keeps(alloc: Global, listings: &mut Listings, folder: &str, count: u32) -> Result<(), Fail> {
    let listing = listing(alloc, folder, Some(stamp(1, 0)), count)?;
    listings.keep(listing);
    Ok(())
}

fn keeps_each(alloc: Global, listings: &mut Listings, count: u32) -> Result<(), Fail> {
    for folder in 0..count {
        let name = format!(in alloc; "f{folder}")?;
        keeps(alloc, listings, name.as_str(), 1)?;
    }
    Ok(())
}

fn keeps_without(alloc: Global, listings: &mut Listings, folder: &str) -> Result<(), Fail> {
    let listing = listing(alloc, folder, None, 1)?;
    listings.keep(listing);
    Ok(())
}

fn is_there(listings: &mut Listings, folder: &str) -> bool {
    match listings.take(folder) {
        Some(listing) => {
            listings.keep(listing);
            true
        }
        None => false,
    }
}

fn has(listings: &mut Listings, folder: &str, wanted: bool) -> Result<(), Fail> {
    if is_there(listings, folder) == wanted {
        Ok(())
    } else {
        Err(Fail::new(folder))
    }
}

// - `keep FOLDER N`: a listing of so many names is kept, and `unstamped FOLDER` one without a stamp.
// - `each N`: listings of so many folders are kept.
// - `has FOLDER`, `lacks FOLDER`: the folder's listing is there, or isn't.
fn plays(alloc: Global, listings: &mut Listings, line: &str) -> Result<(), Fail> {
    let (verb, rest) = line.split_once(' ').ok_or("no verb")?;
    let (folder, count) = rest.split_once(' ').unwrap_or((rest, "1"));
    match verb {
        "keep" => keeps(alloc, listings, folder, count.parse()?),
        "unstamped" => keeps_without(alloc, listings, folder),
        "each" => keeps_each(alloc, listings, folder.parse()?),
        "has" => has(listings, folder, true),
        _ => has(listings, folder, false),
    }
}

fn plays_each(alloc: Global, listings: &mut Listings, program: &str) -> Result<(), Fail> {
    for line in program.lines() {
        plays(alloc, listings, line)?;
    }
    Ok(())
}

fn follows(alloc: Global, program: &str) -> Result<(), Fail> {
    let mut listings = Listings::new(alloc);
    plays_each(alloc, &mut listings, program)
}

// The folder asked for least lately goes where there are more than 64.
const FOLDERS: &str = "\
each 64
has f0
keep more
has f0
lacks f1
has f2
has more
unstamped b
lacks b
";

// More than 65,536 names go.
const NAMES: &str = "\
keep a 1
has a
keep b 65535
has b
keep c 65537
lacks c
keep d 1
has d
lacks a
has b
";

#[test]
fn the_most_folders_and_names(rt: HostRuntime) -> Result<(), Fail> {
    follows(rt.alloc(), FOLDERS)?;
    follows(rt.alloc(), NAMES)
}

fn is_current(kept: &Listing, now: Option<Stamp>, wanted: bool) -> Result<(), Fail> {
    if kept.is_current(&now) == wanted {
        Ok(())
    } else {
        Err(Fail::new("a listing counts"))
    }
}

fn counts(kept: &Listing) -> Result<(), Fail> {
    is_current(kept, Some(stamp(1, 2)), true)?;
    is_current(kept, Some(stamp(1, 3)), false)?;
    is_current(kept, Some(stamp(2, 2)), false)?;
    is_current(kept, None, false)
}

#[test]
fn a_listing_counts_while_its_stamp_stays(rt: HostRuntime) -> Result<(), Fail> {
    let kept = listing(rt.alloc(), "a", Some(stamp(1, 2)), 1)?;
    counts(&kept)
}
