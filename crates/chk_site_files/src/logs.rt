//! Logs with their rotated generations, each a file whose name is the log's path and a suffix.
ghost use Rattle.std.specs.Prelude.{◌≡◌, ◌≤◌, ◌++◌, None, length, string_bytes, IfOk, IfSome, IsTrue};
ghost use Rattle.chk_bytes.specs.Words.{text_lt};
ghost use Rattle.chk_site.specs.Site.{EndsPast, MayBeShort, MayFail};
ghost use Rattle.chk_site.specs.declared.acts.CallFault.TheVariants.{Failed};
ghost use Rattle.chk_site_errors.specs.Faults.{answer_of, call_fault};
ghost use Rattle.chk_site_files.specs.Folders.{IsBaseOf};

use crate::folders::{file_size, folder_of};
use crate::host::Host;
use crate::kept::{Base, Kept, found_file};
use chk_bytes::{Bytes, NoMemory};
use chk_site::{Part, Piece, Suffix};
use chk_site_errors::{SystemFault, make_room, text};
use chk_site_listings::{Listing, Stamp, Wanted, names_in};
use chk_site_log::clock_moment;
use chk_site_rotations::{Change, FileId, Generation, Log, Passed, first_of, newest_of};
use std::alloc::Global;
use std::fs::{File, OpenFile, OpenOptions};
use std::io::{Eprint, ErrorKind, Write};
use std::rt::Files;
use std::time::Clock;

/// How often a read is made again where the log's names changed meanwhile.
const MORE_TRIES: u32 = 3;

/// What was read of a generation, and whether that reaches its end.
#[derive(Drop)]
struct Front {
    bytes: Bytes,
    is_whole: bool,
}

/// What was known of a log before a look.
#[derive(Clone, Copy)]
enum Known {
    /// The file that has its name had it at the look before, too.
    Steady,
    /// Another one had it, or none.
    Other,
    /// A renamed file is held.
    Held,
}

/// What a look at a log found.
#[derive(Drop)]
enum Seen {
    /// The file that has the log's name, if there is one.
    Named(Option<Base>),
    /// The base file was renamed and is still the base file; it has this suffix.
    Renamed(Base, Suffix),
    /// The log changed: what was found of its generations before may be no more so.
    Changed,
}

impl Seen {
    fn is_changed(&self) -> bool {
        match self {
            Seen::Changed => true,
            _ => false,
        }
    }

    // The suffix of the file that is still the base file; generations from it on aren't shown.
    fn held(&self) -> Option<&Suffix> {
        match self {
            Seen::Renamed(_, held) => Some(held),
            Seen::Named(_) => None,
            Seen::Changed => None,
        }
    }

    // The generation with this suffix is shown.
    fn shows(&self, suffix: &str) -> bool {
        match self.held() {
            Some(held) => suffix < held.as_str(),
            None => true,
        }
    }
}

impl<R: Files<File = File> + Clock + Eprint> Host<R> {
    /// Appends to the base file, and makes it where it isn't there. It is opened anew each time,
    /// since what was the base file may be a rotated generation now.
    pub fn append_log(&self, path: &str, bytes: &[u8]) -> Result<(), SystemFault>
        ensures { MayFail (answer_of result) }
    {
        let mut file = OpenOptions::new()
            .append(true)
            .create(true)
            .open(&self.rt, path)?;
        self.check_room(&file, bytes.len())?;
        Ok(file.write_all(bytes)?)
    }

    /// The greatest suffix that is shown, none where there is none.
    pub fn newest_suffix(
        &mut self,
        alloc: Global,
        path: &str,
    ) -> Result<Option<Suffix>, SystemFault>
        ensures { MayFail (answer_of result) }
    {
        for _ in 0..MORE_TRIES + 1 {
            let listing = self.listing(alloc, folder_of(path))?;
            let seen = self.look(alloc, path)?;
            let base = base_of(path);
            let newest = newest_of(alloc, listing.beginning_with(base), base, seen.held());
            self.listings.keep(listing);
            if !seen.is_changed() {
                return Ok(newest?);
            }
        }
        Err(keeps_changing())
    }

    /// Reads the first generation of the part.
    pub fn read_log(
        &mut self,
        alloc: Global,
        path: &str,
        part: Part<'_>,
        at: u64,
        max: u32,
    ) -> Result<Piece, SystemFault>
        ensures most { IfOk result (λ piece. length piece.bytes ≤ max) }
        ensures past { IfOk result (λ piece. EndsPast part.entry piece.ended) }
        ensures only { MayBeShort (answer_of result) }
    {
        match part {
            Part::Base => {
                let bytes = self.read_base(alloc, path, at, max)?;
                Ok(Piece { bytes, ended: None })
            }
            Part::After(None) => self.read_after(alloc, path, "", at, max),
            Part::After(Some(suffix)) => self.read_after(alloc, path, suffix.as_str(), at, max),
        }
    }

    // Reads the base file. One that isn't there has no byte.
    fn read_base(
        &mut self,
        alloc: Global,
        path: &str,
        at: u64,
        max: u32,
    ) -> Result<Bytes, SystemFault>
        ensures most { IfOk result (λ bytes. length bytes ≤ max) }
        ensures only { MayBeShort (answer_of result) }
    {
        for _ in 0..MORE_TRIES + 1 {
            let seen = self.look(alloc, path)?;
            if let Some(bytes) = self.read_seen(alloc, path, &seen, at, max)? {
                return Ok(bytes);
            }
        }
        Err(keeps_changing())
    }

    // Reads the first generation whose suffix is above `after`, or else the base file.
    fn read_after(
        &mut self,
        alloc: Global,
        path: &str,
        after: &str,
        at: u64,
        max: u32,
    ) -> Result<Piece, SystemFault>
        ensures most { IfOk result (λ piece. length piece.bytes ≤ max) }
        ensures past { IfOk result (λ piece. IfSome piece.ended (λ s. IsTrue (text_lt after.now s))) }
        ensures only { MayBeShort (answer_of result) }
    {
        for _ in 0..MORE_TRIES + 1 {
            if let Some(piece) = self.try_after(alloc, path, after, at, max)? {
                return Ok(piece);
            }
        }
        Err(keeps_changing())
    }

    // None where the log changed meanwhile. The generations are listed before the base file is looked at:
    // one that had the log's name at the look before and has it now was the base file all the while, so
    // that no generation came in between.
    fn try_after(
        &mut self,
        alloc: Global,
        path: &str,
        after: &str,
        at: u64,
        max: u32,
    ) -> Result<Option<Piece>, SystemFault>
        ensures most { IfOk result (λ found. IfSome found (λ piece. length piece.bytes ≤ max)) }
        ensures past { IfOk result (λ found. IfSome found (λ piece.
            IfSome piece.ended (λ s. IsTrue (text_lt after.now s)))) }
        ensures only { MayBeShort (answer_of result) }
    {
        let first = self.first_after(alloc, path, after)?;
        let seen = self.look(alloc, path)?;
        if seen.is_changed() {
            return Ok(None);
        }
        match first {
            Some(first) if seen.shows(first.as_str()) => {
                self.try_generation(alloc, path, first, after, at, max)
            }
            _ => {
                self.watch_passed(alloc, path, after);
                self.try_base(alloc, path, &seen, at, max)
            }
        }
    }

    fn try_base(
        &mut self,
        alloc: Global,
        path: &str,
        seen: &Seen,
        at: u64,
        max: u32,
    ) -> Result<Option<Piece>, SystemFault>
        ensures most { IfOk result (λ found. IfSome found (λ piece. length piece.bytes ≤ max)) }
        ensures base { IfOk result (λ found. IfSome found (λ piece. piece.ended ≡ None)) }
        ensures only { MayBeShort (answer_of result) }
    {
        match self.read_seen(alloc, path, seen, at, max)? {
            Some(bytes) => Ok(Some(Piece { bytes, ended: None })),
            None => Ok(None),
        }
    }

    // Reads a rotated generation. What was read counts where that is still the first one. None where it
    // isn't.
    fn try_generation(
        &mut self,
        alloc: Global,
        path: &str,
        first: Suffix,
        after: &str,
        at: u64,
        max: u32,
    ) -> Result<Option<Piece>, SystemFault>
        requires past { IsTrue (text_lt after.now first) }
        ensures most { IfOk result (λ found. IfSome found (λ piece. length piece.bytes ≤ max)) }
        ensures past { IfOk result (λ found. IfSome found (λ piece.
            IfSome piece.ended (λ s. IsTrue (text_lt after.now s)))) }
        ensures only { MayBeShort (answer_of result) }
    {
        let given = self.read_generation(alloc, path, &first, at, max);
        match self.first_after(alloc, path, after)? {
            Some(again) if again.as_str() == first.as_str() => {}
            _ => return Ok(None),
        }
        let front = given?;
        if !front.is_whole {
            return Ok(Some(Piece {
                bytes: front.bytes,
                ended: None,
            }));
        }
        let end = at.saturating_add(front.bytes.len() as u64);
        self.pass(alloc, path, first.as_str(), end);
        Ok(Some(Piece {
            bytes: front.bytes,
            ended: Some(first),
        }))
    }

    fn read_generation(
        &mut self,
        alloc: Global,
        path: &str,
        suffix: &Suffix,
        at: u64,
        max: u32,
    ) -> Result<Front, SystemFault>
        ensures most { IfOk result (λ front. length front.bytes ≤ max) }
        ensures only { MayBeShort (answer_of result) }
    {
        let name = joined(alloc, path, suffix.as_str())?;
        let Some(bytes) = self.read_found(alloc, name.as_str(), at, max)? else {
            return Err(generation_gone());
        };
        let end = at.saturating_add(bytes.len() as u64);
        let is_whole = match file_size(&self.rt, name.as_str())? {
            Some(size) => size <= end,
            None => return Err(generation_gone()),
        };
        Ok(Front { bytes, is_whole })
    }

    // Reads what a look found to be the base file; none where the log changed.
    fn read_seen(
        &mut self,
        alloc: Global,
        path: &str,
        seen: &Seen,
        at: u64,
        max: u32,
    ) -> Result<Option<Bytes>, SystemFault>
        ensures most { IfOk result (λ found. IfSome found (λ bytes. length bytes ≤ max)) }
        ensures only { MayBeShort (answer_of result) }
    {
        match seen {
            Seen::Named(Some(base)) => self.read_file(alloc, path, *base, at, max),
            Seen::Named(None) if at == 0 => Ok(Some(Bytes::new(alloc))),
            Seen::Named(None) => Err(SystemFault::Short { size: 0 }),
            Seen::Renamed(base, suffix) => {
                let name = joined(alloc, path, suffix.as_str())?;
                self.read_file(alloc, name.as_str(), *base, at, max)
            }
            Seen::Changed => Ok(None),
        }
    }

    // Reads the file that has this name, or had it when it was opened; none where another one has it now.
    fn read_file(
        &mut self,
        alloc: Global,
        name: &str,
        base: Base,
        at: u64,
        max: u32,
    ) -> Result<Option<Bytes>, SystemFault>
        ensures most { IfOk result (λ found. IfSome found (λ bytes. length bytes ≤ max)) }
        ensures only { MayBeShort (answer_of result) }
    {
        if base.size < at {
            return Err(SystemFault::Short { size: base.size });
        }
        if base.size == at || max == 0 {
            return Ok(Some(Bytes::new(alloc)));
        }
        let Some(reader) = self.base_reader(alloc, name, base.file)? else {
            return Ok(None);
        };
        let bytes = reader.piece(alloc, at, max)?;
        self.reading = Some(reader);
        Ok(Some(bytes))
    }

    // The file, taken from what is kept or opened; none where another one has its name.
    fn base_reader(
        &mut self,
        alloc: Global,
        name: &str,
        file: FileId,
    ) -> Result<Option<Kept>, SystemFault>
        ensures { MayFail (answer_of result) }
    {
        if let Some(kept) = self.reading.take() {
            if let Some(kept) = kept.if_file(file) {
                return Ok(Some(kept));
            }
        }
        let kept_name = text(alloc, name)?;
        let Some(opened) = self.opened(name)? else {
            return Ok(None);
        };
        Ok(Kept::new(kept_name, opened).if_file(file))
    }

    // The file, opened to be read; none where it isn't there any more.
    fn opened(&self, name: &str) -> Result<Option<File>, SystemFault>
        ensures { MayFail (answer_of result) }
    {
        match File::open(&self.rt, name) {
            Ok(file) => Ok(Some(file)),
            Err(error) if error.kind() == ErrorKind::NotFound => Ok(None),
            Err(error) => Err(SystemFault::Failed(error)),
        }
    }

    // Which file is the base file to readers now.
    fn look(&mut self, alloc: Global, path: &str) -> Result<Seen, SystemFault>
        ensures { MayFail (answer_of result) }
    {
        let named = found_file(&self.rt, path)?;
        let Some(place) = self.logs.place(alloc, path)? else {
            return Ok(Seen::Named(named));
        };
        let file = named.map(|base| base.file);
        match self.known(place, file) {
            Known::Steady => Ok(Seen::Named(named)),
            Known::Other => self.look_anew(alloc, path, place, file),
            Known::Held => self.look_held(alloc, path, place, file),
        }
    }

    // What is known of the log at the place, whose name this file has now.
    fn known(&self, place: usize, named: Option<FileId>) -> Known {
        match self.logs.seen.get(place) {
            Some(log) if log.held.is_some() => Known::Held,
            Some(log) if !log.is_steady(named) => Known::Other,
            _ => Known::Steady,
        }
    }

    // A look at a log whose name another file has than at the look before, or none. A file that may not
    // be read fails here, before anything is known of it.
    fn look_anew(
        &mut self,
        alloc: Global,
        path: &str,
        place: usize,
        named: Option<FileId>,
    ) -> Result<Seen, SystemFault>
        ensures { MayFail (answer_of result) }
    {
        if named.is_some() && self.opened(path)?.is_none() {
            return Ok(Seen::Changed);
        }
        let newest = self.newest_generation(alloc, path)?;
        let now = self.moment()?;
        let change = self.change_at(place, named, newest, now);
        if change != Change::Held {
            // A file that isn't there any more takes no room on the disk.
            self.stop_reading();
        }
        if change == Change::Replaced {
            self.notices.tell_replaced(&self.rt, alloc, path);
        }
        Ok(Seen::Changed)
    }

    // What the look at the log at the place showed.
    fn change_at(
        &mut self,
        place: usize,
        named: Option<FileId>,
        newest: Option<Generation>,
        now: u64,
    ) -> Change {
        match self.logs.seen.get_mut(place) {
            Some(log) => log.look(named, newest, now),
            None => Change::Nothing,
        }
    }

    // A look at a log whose base file was renamed and is still the base file.
    fn look_held(
        &mut self,
        alloc: Global,
        path: &str,
        place: usize,
        named: Option<FileId>,
    ) -> Result<Seen, SystemFault>
        ensures { MayFail (answer_of result) }
    {
        let Some((suffix, file)) = self.held_file(place)? else {
            return Ok(Seen::Changed);
        };
        let name = joined(alloc, path, suffix.as_str())?;
        let found = found_file(&self.rt, name.as_str())?.filter(|base| base.file == file);
        let now = self.moment()?;
        if !self.stays_held(place, found, named, now) {
            return Ok(Seen::Changed);
        }
        match found {
            Some(base) => Ok(Seen::Renamed(base, suffix)),
            None => Ok(Seen::Changed),
        }
    }

    // Whether the held file stays held, which was found so.
    fn stays_held(
        &mut self,
        place: usize,
        found: Option<Base>,
        named: Option<FileId>,
        now: u64,
    ) -> bool {
        match self.logs.seen.get_mut(place) {
            Some(log) => log.look_held(found.map(|base| base.size), named, now),
            None => false,
        }
    }

    // The suffix and the number of the file that is held.
    fn held_file(&self, place: usize) -> Result<Option<(Suffix, FileId)>, NoMemory> {
        let Some(log) = self.logs.seen.get(place) else {
            return Ok(None);
        };
        match &log.held {
            Some(held) => Ok(Some((held.suffix.copy()?, held.file))),
            None => Ok(None),
        }
    }

    // The log's newest generation, none where there is none.
    fn newest_generation(
        &mut self,
        alloc: Global,
        path: &str,
    ) -> Result<Option<Generation>, SystemFault>
        ensures { MayFail (answer_of result) }
    {
        let listing = self.listing(alloc, folder_of(path))?;
        let base = base_of(path);
        let newest = newest_of(alloc, listing.beginning_with(base), base, None);
        self.listings.keep(listing);
        let Some(suffix) = newest? else {
            return Ok(None);
        };
        let name = joined(alloc, path, suffix.as_str())?;
        let found = found_file(&self.rt, name.as_str())?;
        Ok(found.map(|base| Generation {
            suffix,
            file: base.file,
            size: base.size,
        }))
    }

    // Looks at the generation that was passed last for bytes that came later, and tells of them.
    fn watch_passed(&mut self, alloc: Global, path: &str, after: &str) {
        let Ok(now) = self.moment() else {
            return;
        };
        if after.is_empty() || !self.is_due(alloc, path, after, now) {
            return;
        }
        let Ok(name) = joined(alloc, path, after) else {
            return;
        };
        let Ok(Some(base)) = found_file(&self.rt, name.as_str()) else {
            return;
        };
        if let Some(count) = self.came(alloc, path, after, base.size, now) {
            self.notices
                .tell_late(&self.rt, alloc, name.as_str(), count);
        }
    }

    // The generation behind which a reader of the log reads is to be looked at.
    fn is_due(&mut self, alloc: Global, path: &str, after: &str, now: u64) -> bool {
        let Some(log) = self.log(alloc, path) else {
            return false;
        };
        match &log.passed {
            Some(passed) if passed.suffix.as_str() == after => passed.is_due(now),
            _ => true,
        }
    }

    // How many bytes came to it since it was passed. Of one that wasn't seen passed only later ones count.
    fn came(&mut self, alloc: Global, path: &str, after: &str, size: u64, now: u64) -> Option<u64> {
        if let Some(log) = self.log(alloc, path) {
            match &mut log.passed {
                Some(passed) if passed.suffix.as_str() == after => return passed.look(size, now),
                _ => {}
            }
        }
        self.pass(alloc, path, after, size);
        None
    }

    // A reader passed this generation, which has so many bytes.
    fn pass(&mut self, alloc: Global, path: &str, suffix: &str, size: u64) {
        let (Ok(suffix), Ok(now)) = (Suffix::new(alloc, suffix.as_bytes()), self.moment()) else {
            return;
        };
        if let Some(log) = self.log(alloc, path) {
            log.passed = Some(Passed::new(suffix, size, now));
        }
    }

    fn log(&mut self, alloc: Global, path: &str) -> Option<&mut Log> {
        match self.logs.place(alloc, path) {
            Ok(Some(place)) => self.logs.seen.get_mut(place),
            _ => None,
        }
    }

    // Milliseconds of a clock that doesn't go back.
    fn moment(&self) -> Result<u64, SystemFault>
        ensures { MayFail (answer_of result) }
    {
        clock_moment(&self.rt)
    }

    // The least suffix above `after`, none where there is none.
    fn first_after(
        &mut self,
        alloc: Global,
        path: &str,
        after: &str,
    ) -> Result<Option<Suffix>, SystemFault>
        ensures past { IfOk result (λ first. IfSome first (λ s. IsTrue (text_lt after.now s))) }
        ensures only { MayFail (answer_of result) }
    {
        let listing = self.listing(alloc, folder_of(path))?;
        let base = base_of(path);
        let first = first_of(alloc, listing.beginning_with(base), base, after)?;
        self.listings.keep(listing);
        Ok(first)
    }

    // What is kept of the folder, where it is still so, or else what is listed now. It is settled before
    // the listing begins, so that a change behind the listing shows in the folder's stamp.
    fn listing(&mut self, alloc: Global, folder: &str) -> Result<Listing, SystemFault>
        ensures { MayFail (answer_of result) }
    {
        let stamp = Stamp::of(&self.rt, folder);
        if let Some(kept) = self.listings.take(folder) {
            if kept.is_current(&stamp) {
                return Ok(kept);
            }
        }
        let stamp = self.settled(stamp);
        make_room(&mut self.buffer)?;
        let names = names_in(&self.rt, alloc, folder, Wanted::Rotated, &mut self.buffer)?;
        let folder = text(alloc, folder)?;
        Ok(Listing {
            folder,
            stamp,
            names,
        })
    }

    // The stamp, where each change of the folder from now on leaves another one.
    fn settled(&self, stamp: Option<Stamp>) -> Option<Stamp> {
        match self.rt.since_1970() {
            Ok(now) => stamp.filter(|stamp| stamp.is_settled(now)),
            Err(_) => None,
        }
    }
}

fn generation_gone() -> SystemFault
    ensures { call_fault result ≡ Failed }
{
    SystemFault::failed(
        ErrorKind::NotFound,
        "a rotated generation is not there any more",
    )
}

// The name that the file has in its folder.
fn base_of(path: &str) -> &str
    ensures { IsBaseOf path.now result.now }
{
    match path.rsplit_once('/') {
        Some((_, base)) => base,
        None => path,
    }
}

fn joined(alloc: Global, path: &str, suffix: &str) -> Result<String, NoMemory>
    ensures { IfOk result (λ name. string_bytes name ≡ path.now ++ suffix.now) }
{
    let mut name = text(alloc, path)?;
    name.push_str(suffix)?;
    Ok(name)
}

fn keeps_changing() -> SystemFault
    ensures { call_fault result ≡ Failed }
{
    SystemFault::failed(ErrorKind::Other, "its rotated generations keep changing")
}
