// Lists where the two paths of a layout meet: it reads the text line "packed" and then a packed file from standard input, and
// writes the listing's text to standard output. If a read or a write fails, it says so in one text line on standard error.
#![tactic(auto)]

fn main(rt: HostRuntime) {
    // one byte more than an input may have: no more are read, and those behind would not change the answer (`read-enough` of
    // layout_listing/specs/ReadEnough.antt)
    let mut bytes = [0u8; layout_listing::BYTES + 1];
    let Ok(n) = streams::read_full(rt.stdin(), &mut bytes) else {
        let _ = eprintln!(rt; "crossings: standard input cannot be read");
        return;
    };
    answer(&rt, &bytes[..n]);
}

// Writes the answer to an input. There is room for the longest answer, so the end of this function is never reached:
// `answer-whole` of layout_listing/specs/Room.antt proves it for every input.
fn answer(rt: &HostRuntime, input: &[u8]) {
    let mut out = [0u8; layout_listing::ROOM];
    if let Ok(n) = layout_listing::list_layout(input, &mut out) {
        if n <= out.len() {
            write(rt, &out[..n]);
            return;
        }
    }
    let _ = eprintln!(rt; "crossings: no room for the answer");
}

// Writes all of a text. If it cannot be written, it says so on standard error.
fn write(rt: &HostRuntime, text: &[u8]) {
    if streams::write_full(rt.stdout(), text) < text.len() {
        let _ = eprintln!(rt; "crossings: standard output cannot be written");
    }
}
