// Unpacks a layout: it reads a packed file from standard input and writes the layout's text to standard output. If the file
// breaks its form, it writes the refusal and the offset of the fault to standard error and nothing else. If a read or a write
// fails, it says so in one text line on standard error.
#![tactic(auto)]

use answer_lines::LINE;
use layout_moves::MoveError;
use layout_text::LONGEST;

fn main(rt: HostRuntime) {
    // one byte more than a packed file may have: the fault of a longer file lies within these (`unpack-enough` of
    // layout_moves/specs/ReadEnough.antt)
    let mut file = [0u8; layout_packed::limits::BYTES + 1];
    let Ok(n) = streams::read_full(rt.stdin(), &mut file) else {
        let _ = eprintln!(rt; "unpack: standard input cannot be read");
        return;
    };
    answer(&rt, &file[..n]);
}

// Writes the text of a packed file, or its refusal. There is room for the longest text, and a refusal has its offset told, so the
// end of this function is never reached: `unpack-answers` of layout_moves/specs/UnpackPromise.antt proves it for every file.
fn answer(rt: &HostRuntime, file: &[u8]) {
    let mut out = [0u8; LONGEST];
    match layout_moves::unpack_layout(file, &mut out) {
        Ok(n) if n <= out.len() => {
            write(rt, &out[..n]);
            return;
        }
        Err(MoveError::RefusedAt(number, place)) => {
            refuse(rt, number, place);
            return;
        }
        _ => {}
    }
    let _ = eprintln!(rt; "unpack: no room for the text");
}

// Writes the text line of a refusal to standard error.
fn refuse(rt: &HostRuntime, number: u64, place: usize) {
    let mut line = [0u8; LINE];
    if let Ok(n) = answer_lines::write_refusal_at(number, place, &mut line) {
        if n <= line.len() {
            let _ = rt.stderr().write_all(&line[..n]);
        }
    }
}

// Writes all of a text. If it cannot be written, it says so on standard error.
fn write(rt: &HostRuntime, bytes: &[u8]) {
    if streams::write_full(rt.stdout(), bytes) < bytes.len() {
        let _ = eprintln!(rt; "unpack: standard output cannot be written");
    }
}
