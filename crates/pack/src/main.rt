// Packs a layout: it reads the layout's text from standard input and writes its packed form to standard output. If the text
// breaks its form, it writes the refusal to standard error and nothing else. If a read or a write fails, it says so in one text
// line on standard error.
#![tactic(auto)]

use answer_lines::LINE;
use layout_moves::MoveError;
use layout_packed::limits::LONGEST;

fn main(rt: HostRuntime) {
    // one byte more than a text may have, so that a longer text is noticed
    let mut text = [0u8; layout_text::BYTES + 1];
    let Ok(n) = streams::read_full(rt.stdin(), &mut text) else {
        let _ = eprintln!(rt; "pack: standard input cannot be read");
        return;
    };
    answer(&rt, &text[..n]);
}

// Writes the packed form of a text, or its refusal. There is room for the longest packed form, and a text has no offset told, so
// the end of this function is never reached: `pack-answers` of layout_moves/specs/PackPromise.antt proves it for every text.
fn answer(rt: &HostRuntime, text: &[u8]) {
    let mut out = [0u8; LONGEST];
    match layout_moves::pack_layout(text, &mut out) {
        Ok(n) if n <= out.len() => {
            write(rt, &out[..n]);
            return;
        }
        Err(MoveError::Refused(number)) => {
            refuse(rt, number);
            return;
        }
        _ => {}
    }
    let _ = eprintln!(rt; "pack: no room for the packed form");
}

// Writes the text line of a refusal to standard error.
fn refuse(rt: &HostRuntime, number: u64) {
    let mut line = [0u8; LINE];
    if let Ok(n) = answer_lines::write_refusal(number, &mut line) {
        if n <= line.len() {
            let _ = rt.stderr().write_all(&line[..n]);
        }
    }
}

// Writes all of a packed form. If it cannot be written, it says so on standard error.
fn write(rt: &HostRuntime, bytes: &[u8]) {
    if streams::write_full(rt.stdout(), bytes) < bytes.len() {
        let _ = eprintln!(rt; "pack: standard output cannot be written");
    }
}
