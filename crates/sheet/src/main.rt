// The program: a sheet on standard input, its listing on standard output (01, "The listing"); by `sheet figures` the one that is checked.
#![tactic(auto)]

use listed::asked_text;
use program::{Whole, arg_count, complain, is_word, read_whole, say};
use text::TEXT_BYTES;

fn main(rt: HostRuntime) {
    let bits = is_word(&rt, 1, b"figures");
    if (1 < arg_count(&rt)) & !bits {
        complain(
            &rt.stderr(),
            b"usage: sheet <SHEET, or sheet figures <SHEET\n",
        );
        return;
    }
    let mut buffer = [0u8; 65536];
    let Ok(Whole { bytes, more }) = read_whole(&mut buffer, &mut rt.reader()) else {
        complain(&rt.stderr(), b"sheet: standard input cannot be read\n");
        return;
    };
    let mut text = [0u8; TEXT_BYTES];
    let end = asked_text(&mut text, &buffer[..bytes], more, bits);
    say(&rt, &rt.stderr(), &text[..end]);
}
