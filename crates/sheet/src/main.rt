// The program `sheet`: a sheet from standard input, its report on standard output.
// It holds no logic of its own: public calls read the sheet, judge its notes and make every line.
#![tactic(auto)]

use console::{fill, pass_on, refuse, stand};
use flags::Flags;
use judge::judge;
use ltlf::{Book, Draft};
use numbers::Numbers;
use report::kept_line;
use sheet_text::{Heading, read_sheet};
use std::io;
use theory::Theory;

/// Writes the report of an accepted sheet: how many notes are kept, and whether they meet the rules of the book.
fn report<T: Theory>(
    theory: &T,
    book: &Book,
    visits: &[u16],
    out: &mut io::Stdout,
) -> io::Result<()> {
    let mut line = [0u8; 64];
    let made = kept_line(&mut line, visits.len() as u64);
    pass_on(out, &line, made)?;
    // Of an accepted sheet's notes the judge refuses only none at all.
    stand(out, judge(theory, book, visits))
}

/// Reads the sheet and writes its report.
// It begins as in `sheet_report`: a function that handed out what a sheet fills would move some 100 KiB.
fn run(bytes: &[u8], out: &mut io::Stdout) -> io::Result<()> {
    let mut draft = Draft::new();
    let mut flags = Flags::fresh();
    let mut numbers = Numbers::fresh();
    let mut visits = [0u16; 1024];
    let sheet = match read_sheet(bytes, &mut draft, &mut flags, &mut numbers, &mut visits) {
        Ok(sheet) => sheet,
        Err(refusal) => return refuse(out, refusal),
    };
    let book = draft.seal();
    let kept = sheet.notes.min(1024);
    match sheet.heading {
        Heading::Flags => report(&flags, &book, &visits[..kept], out),
        Heading::Numbers => report(&numbers, &book, &visits[..kept], out),
    }
}

// As in the other program: the buffer is its local, and the runtime comes to `main` alone.
fn main(rt: HostRuntime) -> io::Result<()> {
    let mut buffer = [0u8; 65537];
    let mut input = rt.stdin();
    let length = fill(&mut input, &mut buffer)?;
    let mut out = rt.stdout();
    run(&buffer[..length], &mut out)
}
