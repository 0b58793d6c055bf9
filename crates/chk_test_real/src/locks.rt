//! One process at a time has a name.
use crate::programs::{starts, tells};
use chk_site::{Role, Site};
use chk_site_real::SiteReal;
use std::alloc::Global;
use std::test::Fail;

fn expect(holds: bool, what: &str) -> Result<(), Fail> {
    if holds { Ok(()) } else { Err(Fail::new(what)) }
}

// The first process holds its name over further starts, and another name is free. A writer may
// always be started.
fn holds(
    alloc: Global,
    first: &mut SiteReal<HostRuntime>,
    later: &mut SiteReal<HostRuntime>,
    role: Role,
) -> Result<(), Fail> {
    expect(starts(alloc, first, role, "h1")?, "a start")?;
    expect(starts(alloc, first, role, "h1")?, "a further start")?;
    let again = starts(alloc, later, role, "h1")?;
    expect(again == (role == Role::Writer), "a second process")?;
    expect(starts(alloc, later, role, "h2")?, "another name")
}

fn holds_beside(
    rt: HostRuntime,
    later: &mut SiteReal<HostRuntime>,
    role: Role,
) -> Result<(), Fail> {
    let mut first = SiteReal::new(rt, rt.alloc());
    holds(rt.alloc(), &mut first, later, role)
}

// It is started once the first holder is gone.
fn starts_after(
    rt: HostRuntime,
    later: &mut SiteReal<HostRuntime>,
    role: Role,
) -> Result<(), Fail> {
    holds_beside(rt, later, role)?;
    expect(starts(rt.alloc(), later, role, "h1")?, "a start behind it")
}

fn is_alone(rt: HostRuntime, role: Role) -> Result<(), Fail> {
    let mut later = SiteReal::new(rt, rt.alloc());
    starts_after(rt, &mut later, role)
}

#[test]
fn one_process_at_a_time_has_a_name(rt: HostRuntime) -> Result<(), Fail> {
    is_alone(rt, Role::Agent)?;
    is_alone(rt, Role::Collector)?;
    is_alone(rt, Role::Writer)
}

fn second_is_refused(
    alloc: Global,
    first: &mut SiteReal<HostRuntime>,
    second: &mut SiteReal<HostRuntime>,
) -> Result<(), Fail> {
    expect(starts(alloc, first, Role::Job, "j1")?, "a job")?;
    expect(!starts(alloc, second, Role::Job, "j2")?, "two jobs")?;
    expect(second.faults() == 1, "one fault")?;
    tells(
        alloc,
        second,
        "start locks/job: another process holds this lock",
    )
}

// Whatever their names.
#[test]
fn jobs_are_one_process(rt: HostRuntime) -> Result<(), Fail> {
    let mut first = SiteReal::new(rt, rt.alloc());
    let mut second = SiteReal::new(rt, rt.alloc());
    second_is_refused(rt.alloc(), &mut first, &mut second)
}
