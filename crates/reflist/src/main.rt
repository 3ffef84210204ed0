// Lists the references of the snapshot in the folder that it is run in: worktree.blk, common.blk and packed.blk.
// What it writes is `text::reflist`'s, proved equal to document 01's definition of it.
#![tactic(auto)]

use files::{SnapshotFiles, write_out};
use text::reflist::{Report, put_report, put_size_report};

// Kept: six lines as in refshow: one function of both would take two closures and the text's size. The files and the text are filled
// in place, since each is many times what else the program holds, and handed on by value it is copied.
fn main(rt: HostRuntime) {
    let mut files = SnapshotFiles::new();
    if files.fill(&rt).is_err() {
        return;
    }
    let mut out = Report::new();
    if !put_size_report(&mut out, files.whole.sizes()) {
        put_report(&mut out, files.snapshot());
    }
    write_out(&rt, out.as_bytes());
}
