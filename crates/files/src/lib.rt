// The files of a snapshot, read into lent buffers. No contract can say what is read; a file's size is its whole size,
// though no more of it is read than the buffer holds.
#![tactic(auto)]

ghost use Rattle.std.specs.Prelude.{◌≡◌, ◌≤◌, ◌↔◌, ◌||◌, length, take, replicate, unwrap_or, None, IsErr, IfOk, OnOk, OnErr, IsTrue};
ghost use Rattle.std.specs.Io.KnownBytes.{Consumes};
ghost use Rattle.std.specs.Option.{option_copied, option_map};
ghost use Rattle.names.specs.Means.{held};
ghost use Rattle.files.specs.Loaded.{is_missing, is_failed, size_of, size_if_there};

use arrayvec::ArrayString;
use blocks::block::BLOCK_SIZE;
use blocks::snapshot::{Sizes, Snapshot};
use names::bytes::lend;
use std::fmt::Write as _;
use std::io::{Read, Seek, SeekFrom};
use std::rt::Files;
use std::{fmt, fs, io};

// A file is there and can't be read; why was told on standard error.
#[derive(Debug, Clone, Copy, PartialEq, Eq)]
pub struct Told;

// The whole size of a file that was looked for, and none of one that is missing.
pub type Loaded = Result<Option<usize>, Told>;

pub fn is_missing(l: Loaded) -> bool
    ensures { result ≡ is_missing l }
{
    match l {
        Ok(None) => true,
        Ok(Some(_)) => false,
        Err(Told) => false,
    }
}

pub fn is_failed(l: Loaded) -> bool
    ensures { result ≡ is_failed l }
{
    match l {
        Ok(None) => false,
        Ok(Some(_)) => false,
        Err(Told) => true,
    }
}

// The whole size; 0 of a file that is missing, or can't be read.
pub fn size(l: Loaded) -> usize
    ensures { result ≡ size_of l }
{
    match l {
        Ok(None) => 0,
        Ok(Some(n)) => n,
        Err(Told) => 0,
    }
}

// The whole sizes of a snapshot's files. A missing file is an absent common region, or an empty worktree or packed.
// Kept: sizes beside the bytes, since a file may be larger than its buffer, and what refuses it asks its whole size.
#[derive(Debug, Clone, Copy)]
pub struct FileSizes {
    pub worktree: usize,
    pub common: Option<usize>,
    pub packed: usize,
}

// The sizes of the three, if each that is there can be read.
// Kept: the three files, here and in snapshot: what is read of each, and its bytes; SnapshotFiles holds the latter.
pub fn sizes(worktree: Loaded, common: Loaded, packed: Loaded) -> Result<FileSizes, Told>
    ensures err { IsErr result ↔ IsTrue (is_failed worktree || is_failed common || is_failed packed) }
    ensures ok { IfOk result (λ s. (s.worktree ≡ size_of worktree) × (s.common ≡ size_if_there common) × (s.packed ≡ size_of packed)) }
{
    Ok(FileSizes {
        worktree: worktree?.unwrap_or(0),
        common: common?,
        packed: packed?.unwrap_or(0),
    })
}

impl FileSizes {
    // What rows 1 and 2 look at.
    pub fn sizes(self) -> Sizes
        ensures worktree { result.worktree ≡ self.worktree }
        ensures common { result.common ≡ unwrap_or self.common 0 }
        ensures packed { result.packed ≡ self.packed }
    {
        Sizes {
            worktree: self.worktree,
            common: self.common.unwrap_or(0),
            packed: self.packed,
        }
    }

    // The snapshot of files whose bytes stand at the start of these buffers, where no file is larger than its buffer.
    pub fn snapshot<'a>(
        self,
        worktree: &'a [u8],
        common: &'a [u8],
        packed: &'a [u8],
    ) -> Snapshot<'a>
        ensures worktree { result.worktree.now ≡ held worktree.now self.worktree }
        ensures common { option_copied result.common ≡ option_map (λ n. held common.now n) self.common }
        ensures packed { result.packed.now ≡ held packed.now self.packed }
    {
        Snapshot {
            worktree: lend(worktree, self.worktree),
            common: self.common.map(|n| lend(common, n)),
            packed: lend(packed, self.packed),
        }
    }
}

// Room for the longest text of an error, which has 256 bytes, and the number behind it.
const LONGEST_REASON: usize = 320;

// An error's text without its number.
#[derive(Clone, Copy)]
struct Reason<'a>(&'a io::Error);

impl fmt::Display for Reason<'_> {
    fn fmt<W: fmt::Write>(&self, f: &mut fmt::Formatter<W>) -> fmt::Result {
        let mut text = ArrayString::<LONGEST_REASON>::new();
        write!(text, "{}", self.0)?;
        let all = text.as_str();
        match all.rsplit_once(" (os error ") {
            Some((words, _)) => f.write_str(words),
            None => f.write_str(all),
        }
    }
}

// A line on standard error: what failed, as the caller names it, and why. Where that can't be written either, nobody is told.
pub fn tell(rt: &impl Eprint, what: &str, why: &io::Error) -> Told {
    let _ = eprintln!(rt; "{what}: {}", Reason(why));
    Told
}

// Writes a program's text, and tells on standard error why it can't.
pub fn write_out(rt: &(impl Print + Eprint), text: &[u8]) {
    if let Err(why) = rt.write_all(text) {
        tell(rt, "standard output", &why);
    }
}

// The size of an open file, or an error where it can't be told, as of a pipe. Leaves the file at its start.
fn file_size(file: &mut impl Seek) -> io::Result<u64> {
    let size = file.seek(SeekFrom::End(0))?;
    file.seek(SeekFrom::Start(0))?;
    Ok(size)
}

// A directory opens and has a size, so a first read tells whether there is anything to be read.
fn try_read(file: &mut impl Read) -> io::Result<()> {
    let mut first = [0u8; 1];
    file.read(&mut first)?;
    Ok(())
}

// Reads until the buffer is full, the file ends or a read fails, and answers how many bytes it put at the buffer's start: those
// that the file has next.
// Kept: a loop over `read`, since std's `read_to_end` needs a Vec (no heap) and `read_exact` says nothing of a file that is shorter.
fn read_full<F: Read>(file: &mut F, buf: &mut [u8]) -> usize
    ensures in_bounds { result ≤ length buf.new }
    ensures bytes { Consumes (F.remaining file.old) (F.remaining file.new) (take result buf.new) }
{
    let mut done = 0;
    while done < buf.len() {
        match file.read(&mut buf[done..]) {
            Ok(0) | Err(_) => break,
            Ok(n) => done += n,
        }
    }
    done
}

// A read that fails looks like the end, so the count is held against the size.
fn read_open(
    rt: &impl Eprint,
    file: &mut (impl Read + Seek),
    path: &str,
    buf: &mut [u8],
) -> Result<usize, Told> {
    try_read(file).map_err(|why| tell(rt, path, &why))?;
    let whole = file_size(file).map_err(|why| tell(rt, path, &why))? as usize;
    let n = read_full(file, buf);
    if n < buf.len() && n < whole {
        let _ = eprintln!(rt; "{path}: not read to its end");
        return Err(Told);
    }
    Ok(whole)
}

// Reads the file of that name, and tells on standard error why one that is there can't be read. A name that is no UTF-8 text
// can't be opened.
pub fn load(rt: &(impl Files + Eprint), path: &[u8], buf: &mut [u8]) -> Loaded
    ensures { IsTrue (is_missing result) → buf.new ≡ buf.old }
{
    let Ok(path) = str::from_utf8(path) else {
        let _ = eprintln!(rt;
            "{}: not opened, since the name is no UTF-8 text",
            path.escape_ascii()
        );
        return Err(Told);
    };
    match fs::open(rt, path) {
        Ok(mut file) => Ok(Some(read_open(rt, &mut file, path, buf)?)),
        Err(why) if why.kind() == io::ErrorKind::NotFound => Ok(None),
        Err(why) => Err(tell(rt, path, &why)),
    }
}

// 40 blocks, as many as a program takes.
const FILE_SIZE: usize = 40 * BLOCK_SIZE;

// The three files of a snapshot, in the folder that a program is run in.
#[derive(Drop)]
pub struct SnapshotFiles {
    pub worktree: [u8; FILE_SIZE],
    pub common: [u8; FILE_SIZE],
    pub packed: [u8; FILE_SIZE],
    pub whole: FileSizes,
}

impl SnapshotFiles {
    // Three files that are not there.
    pub fn new() -> SnapshotFiles
        ensures whole { (result.whole.worktree ≡ 0) × (result.whole.common ≡ None) × (result.whole.packed ≡ 0) }
        ensures bytes { (result.worktree ≡ replicate FILE_SIZE 0) × (result.common ≡ replicate FILE_SIZE 0) × (result.packed ≡ replicate FILE_SIZE 0) }
    {
        SnapshotFiles {
            worktree: [0u8; FILE_SIZE],
            common: [0u8; FILE_SIZE],
            packed: [0u8; FILE_SIZE],
            whole: FileSizes {
                worktree: 0,
                common: None,
                packed: 0,
            },
        }
    }

    // Reads the three, each into its place. Where one can't be read the sizes stay, and a common region that is missing leaves its
    // place as it is.
    pub fn fill(&mut self, rt: &(impl Files + Eprint)) -> Result<(), Told>
        ensures failed { OnErr result (self.new.whole ≡ self.old.whole) }
        ensures missing { OnOk result (self.new.whole.common ≡ None → self.new.common ≡ self.old.common) }
    {
        let w = load(rt, b"worktree.blk", &mut self.worktree);
        let c = load(rt, b"common.blk", &mut self.common);
        let p = load(rt, b"packed.blk", &mut self.packed);
        self.whole = sizes(w, c, p)?;
        Ok(())
    }

    // The same, by value: what a common region that is missing leaves is zeros.
    pub fn load(rt: &(impl Files + Eprint)) -> Result<SnapshotFiles, Told>
        ensures { IfOk result (λ f. f.whole.common ≡ None → f.common ≡ replicate FILE_SIZE 0) }
    {
        let mut files = SnapshotFiles::new();
        files.fill(rt)?;
        Ok(files)
    }

    // Where no file is larger than its buffer.
    pub fn snapshot(&self) -> Snapshot<'_>
        ensures worktree { result.worktree.now ≡ held self.now.worktree self.now.whole.worktree }
        ensures common { option_copied result.common ≡ option_map (λ n. held self.now.common n) self.now.whole.common }
        ensures packed { result.packed.now ≡ held self.now.packed self.now.whole.packed }
    {
        self.whole
            .snapshot(&self.worktree, &self.common, &self.packed)
    }
}
