// What a site without failures lists.
use chk_bytes::Word;
use chk_site::{Role, Site, Who};
use chk_site_mem::SiteClean;
use std::alloc::Global;
use std::test::Fail;

fn who(alloc: Global, role: Role, name: &str) -> Result<Who, Fail> {
    Ok(Who {
        role,
        name: Word::new(alloc, name.as_bytes())?,
    })
}

#[test]
fn a_folder_is_listed(rt: HostRuntime) -> Result<(), Fail> {
    let alloc = rt.alloc();
    let mut site = SiteClean::new(alloc, Vec::new(alloc))?;
    let job = who(alloc, Role::Job, "job")?;
    for name in [
        "sinks/b",
        "sinks/a",
        "sinks/x/y",
        "sinksa",
        "sinks/",
        "other/c",
    ] {
        site.create(alloc, &job, name)?;
    }
    let names = site.list(alloc, &job, "sinks")?;
    assert_eq!(rt; names.len(), 2);
    for (name, wanted) in names.iter().zip(["a", "b"].iter()) {
        assert_eq!(rt; name.as_str(), *wanted);
    }
    assert_eq!(rt; site.list(alloc, &job, "none")?.len(), 0);
    Ok(())
}
