// The program `sheet`: prints the melt sheets, for each stick length the seconds of each melt rate.
#![tactic(auto)]

use printing::messages::{complain, complain_of};
use printing::sheets::{SHEETS_ROOM, sheets_text};
use std::env::FillError;
use std::io::Write;
use std::rt::Env;

fn print_sheets<P: Print, W: Write>(rt: &P, messages: &mut W) {
    let mut out = [0u8; SHEETS_ROOM];
    let n = sheets_text(&mut out);
    if let Err(error) = rt.write_all(&out[..n]) {
        complain(messages, b"sheet: ");
        complain_of(messages, b"standard output", &error);
    }
}

// Whether the program was given no name.
fn is_alone<E: Env>(rt: &E) -> bool {
    let mut front = [0u8; 1];
    matches!(rt.arg(1, &mut front), Err(FillError::NotPresent))
}

fn main(rt: HostRuntime) {
    let mut messages = rt.stderr();
    if is_alone(&rt) {
        print_sheets(&rt, &mut messages);
        return;
    }
    complain(&mut messages, b"sheet: give no names\n");
}
