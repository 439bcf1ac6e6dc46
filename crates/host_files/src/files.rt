//! Files of the host.

ghost use Rattle.std.specs.Prelude.{◌≡◌, ◌≢◌, ◌↔◌, true, false, Ok, [], ◌++◌, IsTrue, IfOk, IfErr, OnOk, OnErr};
ghost use Rattle.dasd_jobs.specs.Written.{files_of};

use crate::drafts::{HostDraft, Old, note_folder, put_drafts, sync_folders};
use crate::locks::{
    Locked, find_old, is_locked, keep, look_again, open_locked, open_trace_file, try_to_write,
};
use crate::reading::{HostFile, read_some};
use crate::remarks::Remarks;
use crate::traces::{TraceFile, TraceSink};
use dasd_jobs::{FileFault, ImageFiles, Journals, NewFile, SavePlan, Sources, Traces, Written};
use file_journals::{SaveFault, recover_file, whole_file};
use file_places::{Notes, Told, beside, clear_folder, folder_of, home_of, is_free, wrong};
use std::alloc::Global;
use std::fs::{self, File};
use std::io::{BufWriter, ErrorKind};
use std::path::Path;
use std::{fmt, io};

/// The files of the host, and what is remarked of them.
#[derive(Drop)]
pub struct HostFiles<'a> {
    host: &'a HostRuntime,
    written: Written,
    opened: Sources,
    /// The files that are locked until the end.
    locked: Vec<Locked>,
    /// The folders that were cleared of what killed programs left.
    cleared: Vec<String>,
    /// The folders of new files, until they are synced.
    unsettled: Vec<String>,
    /// Whether a folder could not be synced, or a journal not be removed.
    is_unsettled: bool,
    remarks: &'a Remarks<'a>,
    is_verbose: bool,
    /// What becomes of files that are locked.
    plan: SavePlan,
}

impl<'a> HostFiles<'a> {
    /// The files of this host, none of which was written yet.
    pub fn new(host: &'a HostRuntime, remarks: &'a Remarks<'a>) -> HostFiles<'a>
        ensures written { result.written.files ≡ [] }
        ensures opened { result.opened.files ≡ [] }
    {
        HostFiles {
            host,
            written: Written::new(),
            opened: Sources::new(),
            locked: Vec::new(host.alloc()),
            cleared: Vec::new(host.alloc()),
            unsettled: Vec::new(host.alloc()),
            is_unsettled: false,
            remarks,
            is_verbose: false,
            plan: SavePlan::Replaced,
        }
    }

    /// Whether remarks are told: the words ask for them, or somebody sits at standard error.
    pub fn tells(&self) -> bool {
        self.is_verbose || self.remarks.is_terminal()
    }

    /// Clears the line of a terminal that shows how far a file is read.
    pub fn clear_line(&self) {
        self.remarks.clear_line();
    }

    /// Tells what was remarked, on standard error: all, or what everybody is told.
    pub fn print_remarks(&self) {
        self.remarks.print(self.tells());
    }

    /// Whether a folder could not be synced, or a journal not be removed, of files that are saved.
    pub fn is_unsettled(&self) -> bool {
        self.is_unsettled
    }

    // Puts new files there, all or none.
    fn save(&mut self, new: &[NewFile<HostDraft<'a>>]) -> Result<(), FileFault>
        ensures ok { OnOk result (self.new.written.files ≡ self.old.written.files ++ files_of (λ d. d.written.bytes) new.now) }
        ensures err { OnErr result (self.new.written ≡ self.old.written) }
        ensures same { self.new.opened ≡ self.old.opened }
    {
        match put_drafts(self.remarks, new) {
            Err((path, SaveFault::Kept(fault) | SaveFault::Begun(fault))) => {
                return Err(self.remarks.refuse(path, &fault));
            }
            Err((path, SaveFault::Saved(fault))) => {
                // all are saved, and then the command fails
                self.remarks.note_fault(path, &fault);
                self.is_unsettled = true;
            }
            Ok(()) => {}
        }
        for it in new {
            self.written = self.written.with(it.path.as_bytes(), it.draft.trace());
            let is_new = it.draft.is_new();
            if is_new && !note_folder(self.remarks, &mut self.unsettled, it.path) {
                self.is_unsettled = true;
            }
        }
        Ok(())
    }

    // Whether files that are locked are written later.
    fn saves(&self) -> bool
        ensures { IsTrue result ↔ (self.now.plan ≢ SavePlan.Nothing) }
    {
        !matches!(self.plan, SavePlan::Nothing)
    }

    // Whether the file at this path keeps its place, if it is written: that needs room in its name for that of a journal, where its length
    // alone decides.
    fn writes_over(&self, path: &str) -> io::Result<bool>
        ensures in_place { self.now.plan ≡ SavePlan.InPlace → result ≡ Ok true }
        ensures by_new { self.now.plan ≡ SavePlan.Replaced → result ≡ Ok false }
        ensures none { self.now.plan ≡ SavePlan.Nothing → result ≡ Ok false }
    {
        let SavePlan::SameLength(len) = self.plan else {
            return Ok(matches!(self.plan, SavePlan::InPlace));
        };
        match fs::metadata(self.host, path) {
            Ok(known) if known.is_file() && known.len() == len => {
                let home = home_of(self.host, path)?;
                Ok(beside(self.host, home.as_path())?.is_some())
            }
            Err(fault) if fault.kind() != ErrorKind::NotFound => Err(fault),
            _ => Ok(false),
        }
    }

    // Says before a deck is run why what it changes of a file could not be saved, if somebody is to hear it.
    fn forewarn(&self, path: &str) -> Result<(), FileFault>
        ensures { IfErr result (λ e. e ≡ FileFault.OutOfMemory) }
    {
        if !self.saves() || !self.tells() {
            return Ok(());
        }
        let tried = match self.writes_over(path) {
            Ok(in_place) => try_to_write(self.remarks, path, in_place),
            Err(fault) => Err(fault),
        };
        match tried {
            Ok(()) => Ok(()),
            Err(fault) if fault.kind() == ErrorKind::OutOfMemory => Err(FileFault::OutOfMemory),
            Err(fault) => {
                self.remarks.warn(path, &fault);
                Ok(())
            }
        }
    }

    // What is at a path that is to be written: a file that may be replaced, which is locked from now on, or none.
    fn find_old(&mut self, path: &str, replaces: bool) -> io::Result<Option<Old>>
        ensures written { self.new.written ≡ self.old.written }
        ensures opened { self.new.opened ≡ self.old.opened }
    {
        let in_place = replaces && self.writes_over(path)?;
        let old = find_old(self.remarks, &mut self.locked, path, replaces, in_place)?;
        // a save that can't be ended, since another file of it may not be written, or of a file that is gone
        let home = match &old {
            Some(old) => old.path.as_path(),
            None => Path::new(path),
        };
        if let Some(journal) = beside(self.host, home)? {
            if !is_free(self.host, journal.as_path())? {
                return Err(wrong("something is at the name of its journal"));
            }
        }
        Ok(old)
    }

    // Begins a new file for a path, in the place of the old one, if there is one. Its folder is cleared of what killed programs left.
    fn begin_draft(&mut self, path: &str, old: Option<Old>) -> io::Result<HostDraft<'a>>
        ensures written { self.new.written ≡ self.old.written }
        ensures opened { self.new.opened ≡ self.old.opened }
        ensures empty { IfOk result (λ draft. draft.written.bytes ≡ []) }
    {
        let beside = match &old {
            Some(old) => old.path.as_path(),
            None => Path::new(path),
        };
        let folder = folder_of(beside).as_str().to_string(self.host.alloc())?;
        let is_cleared = self.cleared.iter().any(|it| it.as_str() == folder.as_str());
        if !is_cleared {
            clear_folder(self.remarks, Path::new(folder.as_str()))?;
            self.cleared.push(folder)?;
        }
        HostDraft::begin(self.host, self.remarks, path, old)
    }
}

impl<'a> ImageFiles for HostFiles<'a> {
    type Opened = HostFile<'a>;

    type Draft = HostDraft<'a>;

    ghost written = { λ f. f.written.files };

    ghost opened = { λ f. f.opened.files };

    fn open(&mut self, _alloc: Global, path: &str) -> Result<HostFile<'a>, FileFault> {
        let opened = match File::open(self.host, path) {
            Ok(file) => HostFile::open(self.host.alloc(), self.remarks, path, file),
            Err(fault) => Err(fault),
        };
        match opened {
            Ok(file) => {
                self.opened = self.opened.with_unknown(path.as_bytes());
                Ok(file)
            }
            Err(fault) => Err(self.remarks.refuse(path, &fault)),
        }
    }

    fn plan_saving(&mut self, plan: SavePlan) {
        self.plan = plan;
    }

    fn lock(&mut self, alloc: Global, path: &str) -> Result<HostFile<'a>, FileFault> {
        let saves = self.saves();
        let locked = self.locked.as_slice();
        let (file, known) = match open_locked(self.host, locked, path, saves) {
            Ok(found) => found,
            Err(fault) => return Err(self.remarks.refuse(path, &fault)),
        };
        if is_locked(self.locked.as_slice(), &known) {
            self.remarks.note(&Told::Used(path));
            return Err(FileFault::Twice);
        }
        if let Err(fault) = keep(&mut self.locked, alloc, path, &file, &known) {
            return Err(self.remarks.refuse(path, &fault));
        }
        let may_write = saves && !known.permissions().readonly();
        let file = match whole_file(self.remarks, path, file, may_write) {
            Ok(file) => file,
            Err(fault) => return Err(self.remarks.refuse(path, &fault)),
        };
        if let Err(fault) = look_again(self.locked.as_mut_slice(), &known) {
            return Err(self.remarks.refuse(path, &fault));
        }
        self.forewarn(path)?;
        match HostFile::of(alloc, self.remarks, path, file, known.len()) {
            Ok(file) => {
                self.opened = self.opened.with_unknown(path.as_bytes());
                Ok(file)
            }
            Err(fault) => Err(self.remarks.refuse(path, &fault)),
        }
    }

    fn read(&mut self, _alloc: Global, path: &str, most: usize) -> Result<Vec<u8>, FileFault> {
        let read = match File::open(self.host, path) {
            Ok(file) => read_some(self.host.alloc(), file, most),
            Err(fault) => Err(fault),
        };
        match read {
            Ok(bytes) => {
                self.opened = self.opened.with_unknown(path.as_bytes());
                Ok(bytes)
            }
            Err(fault) => Err(self.remarks.refuse(path, &fault)),
        }
    }

    fn begin(
        &mut self,
        _alloc: Global,
        path: &str,
        replaces: bool,
    ) -> Result<HostDraft<'a>, FileFault> {
        let begun = match self.find_old(path, replaces) {
            Ok(old) => self.begin_draft(path, old),
            Err(fault) => Err(fault),
        };
        match begun {
            Ok(draft) => Ok(draft),
            Err(fault) => Err(self.remarks.refuse(path, &fault)),
        }
    }

    fn put(&mut self, path: &str, draft: HostDraft<'a>) -> Result<(), FileFault> {
        self.save(&[NewFile { path, draft }])
    }

    fn put_all(&mut self, new: Vec<NewFile<'_, HostDraft<'a>>>) -> Result<(), FileFault>
        ensures ok { OnOk result (self.new.written.files ≡ self.old.written.files ++ files_of (λ d. d.written.bytes) new.entry.items) }
        ensures err { OnErr result (self.new.written.files ≡ self.old.written.files) }
        ensures same { self.new.opened.files ≡ self.old.opened.files }
    {
        self.save(new.as_slice())
    }

    fn settle(&mut self) {
        if !sync_folders(self.remarks, &mut self.unsettled) {
            self.is_unsettled = true;
        }
    }

    fn remark<T: fmt::Display>(&mut self, text: &T) {
        self.remarks.note(text);
    }

    fn ask_remarks(&mut self) {
        self.is_verbose = true;
    }
}

impl<'a> Traces for HostFiles<'a> {
    type Sink = BufWriter<TraceSink<'a>>;

    fn open_trace(
        &mut self,
        alloc: Global,
        path: Option<&str>,
        beside: &[&str],
    ) -> Result<BufWriter<TraceSink<'a>>, FileFault> {
        let output = match path {
            None => TraceSink::StandardError(self.host),
            Some(path) => {
                match open_trace_file(self.host, &mut self.locked, path, beside) {
                    Ok((file, is_regular)) => {
                        let Ok(path) = path.to_string(alloc) else {
                            return Err(FileFault::OutOfMemory);
                        };
                        TraceSink::File(TraceFile::new(file, path, self.remarks, is_regular))
                    }
                    Err(fault) => return Err(self.remarks.refuse(path, &fault)),
                }
            }
        };
        BufWriter::new(alloc, output).map_err(|_| FileFault::OutOfMemory)
    }
}

impl<'a> Journals for HostFiles<'a> {
    fn recover(&mut self, path: &str, drops: bool) -> Result<(), FileFault> {
        // it is locked as long as it is open
        let done = match open_locked(self.host, &[], path, true) {
            Ok((_, known)) if !drops && known.permissions().readonly() => {
                Err(wrong("it may not be written"))
            }
            Ok((file, _)) => recover_file(self.remarks, path, file, drops),
            Err(fault) => Err(fault),
        };
        match done {
            Ok(()) => Ok(()),
            Err(fault) => Err(self.remarks.refuse(path, &fault)),
        }
    }
}
