// `oem read`: a message is read, and what it says or the one line that refuses it is printed.
ghost use Rattle.std.specs.Prelude.{◌≡◌, ◌≤◌, length};
ghost use Rattle.reports.specs.Reports.{read_text};
ghost use Rattle.oem.specs.Answers.{Says};

use crate::output::put;
use crate::reading::serve;
use received::read_either;
use reports::put_report;
use text::Writer;

// Room for a message of 1,100,000 bytes and a byte that is too many, for the 13,253 points that it can have, and for what is printed of them.
pub(crate) fn run(rt: &HostRuntime) {
    let mut input = [0u8; 1_100_001];
    let mut epochs = [0u64; 13_253];
    let mut values = [0i64; 79_518];
    let mut out = [0u8; 2_029_308];
    print(rt, &mut input, &mut epochs, &mut values, &mut out);
}

// What is printed for a text, from the start of the buffer.
fn report(text: &[u8], epochs: &mut [u64], values: &mut [i64], out: &mut [u8]) -> usize
    requires text_len_bound { (length text.now ≤ 1100000) × (2029308 ≤ length out.old) }
    requires epochs_len { (length epochs.old ≡ 13253) × (length values.old ≡ 79518) }
    ensures { Says out.new result (read_text text.now) }
{
    let received = read_either(text, epochs, values);
    let mut w = Writer::new(out);
    put_report(&mut w, text, received, epochs, values);
    w.place()
}

// Prints once everything is known.
fn print(rt: &HostRuntime, input: &mut [u8], epochs: &mut [u64], values: &mut [i64], out: &mut [u8])
    requires input_len { (length input.old ≡ 1100001) × (2029308 ≤ length out.old) }
    requires epochs_len { (length epochs.old ≡ 13253) × (length values.old ≡ 79518) }
{
    serve(
        rt,
        input,
        || put(rt, b"a message has at most 1100000 bytes\n"),
        |text| {
            let length = report(text, epochs, values, out);
            put(rt, &out[..length]);
        },
    );
}
