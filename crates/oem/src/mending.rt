// `oem mend`: a damaged message is mended. The message goes to standard output, and the list of its changes to standard error.
ghost use Rattle.std.specs.Prelude.{◌≡◌, ◌+◌, ◌*◌, ◌≤◌, length};
ghost use Rattle.reports.specs.Reports.{list_of};
ghost use Rattle.received.specs.Versions.{edition_in};
ghost use Rattle.oem.specs.Answers.{Says};
ghost use Rattle.oem.specs.Mended.{mended_text, list_text};

use crate::output::{put, put_error};
use crate::reading::serve;
use received::{Mended, mend_message};
use reports::put_list;
use text::Writer;

// Room for a message of 1,100,000 bytes and a byte that is too many, for the mended one, for 65,536 changes, and for their list.
pub(crate) fn run(rt: &HostRuntime) {
    let mut input = [0u8; 1_100_001];
    let mut mended = [0u8; 1_100_100];
    let mut changes = [0u64; 131_072];
    let mut list = [0u8; 2_097_184];
    mend_input(rt, &mut input, &mut mended, &mut changes, &mut list);
}

// The changes, or the number that refuses, from the start of the buffer.
fn list_changes(list: &mut [u8], done: Mended, changes: &[u64]) -> usize
    requires { (2 * done.changes ≤ length changes.now) × (32 + 16 * length changes.now ≤ length list.old) }
    ensures { Says list.new result (list_of done.number changes.now done.changes) }
{
    let mut w = Writer::new(list);
    put_list(&mut w, done.number, changes, done.changes);
    w.place()
}

// The mended message from the start of one buffer, and the list from the start of another: how many bytes there are of each.
fn mend(text: &[u8], mended: &mut [u8], changes: &mut [u64], list: &mut [u8]) -> (usize, usize)
    requires { 32 + 16 * length changes.old ≤ length list.old }
    ensures says { Says mended.new result.0 (mended_text (edition_in text.now) text.now (length mended.old) (length changes.old)) }
    ensures says_2 { Says list.new result.1 (list_text (edition_in text.now) text.now (length mended.old) (length changes.old)) }
{
    let done = mend_message(text, mended, changes);
    let listed = list_changes(list, done, changes);
    (done.length, listed)
}

// Writes once everything is known.
fn mend_input(
    rt: &HostRuntime,
    input: &mut [u8],
    mended: &mut [u8],
    changes: &mut [u64],
    list: &mut [u8],
)
    requires { 32 + 16 * length changes.old ≤ length list.old }
{
    serve(
        rt,
        input,
        || put_error(rt, b"a message has at most 1100000 bytes\n"),
        |text| {
            let (written, listed) = mend(text, mended, changes, list);
            put(rt, &mended[..written]);
            put_error(rt, &list[..listed]);
        },
    );
}
