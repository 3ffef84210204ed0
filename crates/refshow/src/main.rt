// refshow NAME [NAMESPACE]: which commit does this reference name, in the snapshot of the folder that it is run in?
// What it writes is `text::refshow`'s, proved equal to its definition.
#![tactic(auto)]

use files::{SnapshotFiles, write_out};
use std::env::FillError;
use std::rt::{Env, Files};
use text::refshow::{Shown, put_show, put_size_show};

// The longest argument that is read; a longer one counts as empty.
const LONGEST_ARGUMENT: usize = 4096;

fn usage(rt: &impl Eprint) {
    let _ = eprintln!(rt; "usage: refshow NAME [NAMESPACE]");
}

// The program's argument of that number, if it was given one.
fn read_argument<'a>(
    rt: &impl Env,
    i: usize,
    buf: &'a mut [u8; LONGEST_ARGUMENT],
) -> Option<&'a [u8]> {
    match rt.arg(i, buf) {
        Ok(len) => Some(&buf[..len]),
        Err(FillError::TooLong) => Some(&buf[..0]),
        Err(FillError::NotPresent) => None,
    }
}

// Over the three files.
// Kept: six lines as in reflist, and in place, for the reasons that stand there.
fn show_name(rt: &(impl Files + Print + Eprint), name: &[u8], namespace: Option<&[u8]>) {
    let mut files = SnapshotFiles::new();
    if files.fill(rt).is_err() {
        return;
    }
    let mut out = Shown::new();
    if !put_size_show(&mut out, files.whole.sizes()) {
        put_show(&mut out, files.snapshot(), name, namespace);
    }
    write_out(rt, out.as_bytes());
}

fn main(rt: HostRuntime) {
    let mut name = [0u8; LONGEST_ARGUMENT];
    let mut namespace = [0u8; LONGEST_ARGUMENT];
    let mut more = [0u8; LONGEST_ARGUMENT];
    let first = read_argument(&rt, 1, &mut name);
    let second = read_argument(&rt, 2, &mut namespace);
    let third = read_argument(&rt, 3, &mut more);
    match (first, third) {
        (Some(name), None) => show_name(&rt, name, second),
        _ => usage(&rt),
    }
}
