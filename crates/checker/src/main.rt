// The program: `checker SHEET LISTING` says whether another planner's listing is ours to the last bit.
#![tactic(auto)]

ghost use Rattle.std.specs.Prelude.{◌≤◌, length};

use compared::{LINE_BYTES, check_text};
use program::{arg_count, complain, read_file, say};
use said::RefusalLine;

// The longest text of a listing that is read: 4,096 lines of 80 bytes.
const LISTING_BYTES: usize = 327680;

// Writes what is said of a sheet and a listing's text.
fn say_check(rt: &HostRuntime, sheet: &[u8], listing: &[u8])
    requires short { length listing.now ≤ 327680 }
{
    let mut line = [0u8; LINE_BYTES];
    match check_text(&mut line, sheet, listing) {
        Ok(end) => say(rt, &rt.stderr(), &line[..end]),
        Err(RefusalLine { end }) => complain(&rt.stderr(), &line[..end]),
    }
}

// The listing read, and then the verdict.
fn with_listing(rt: &HostRuntime, sheet: &[u8]) {
    let mut listing = [0u8; LISTING_BYTES];
    let too_long = b"checker: the listing has more than 327,680 bytes\n";
    let Some(n) = read_file(&mut listing, rt, &rt.stderr(), 2, too_long) else {
        return;
    };
    say_check(rt, sheet, &listing[..n]);
}

fn main(rt: HostRuntime) {
    if arg_count(&rt) != 3 {
        complain(&rt.stderr(), b"usage: checker SHEET LISTING\n");
        return;
    }
    let mut sheet = [0u8; 65536];
    let too_long = b"checker: the sheet has more than 65,536 bytes\n";
    let Some(n) = read_file(&mut sheet, &rt, &rt.stderr(), 1, too_long) else {
        return;
    };
    with_listing(&rt, &sheet[..n]);
}
