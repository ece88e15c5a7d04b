// The program `sheet_report`: a sheet from standard input, its whole report on standard output.
// It holds no logic of its own: public calls read the sheet, keep its notes, judge them, ask the question and make every line.
#![tactic(auto)]

use answer::{history_of, rows_of, verdict_of};
use console::{fill, pass_on, refuse, stand};
use flags::Flags;
use household::{question, stands};
use intern::Cell;
use ltlf::{Book, Draft};
use numbers::Numbers;
use record::Record;
use refusal::Refusal;
use report::{kept_line, question_refused_line, rows_line, verdict_line, visit_line};
use search::{Outcome, Row};
use sheet_text::read_sheet;
use sheet_theory::SheetTheory;
use std::io;

// A row that no question has filled.
const NO_ROW: Row = Row {
    place: 0,
    code: 0,
    label: 0,
    from: 0,
};

/// Takes all notes as one sync and confirms it; each note writes its entry of the visit list.
fn keep_all(record: Record, notes: &[u16], visits: &mut [u16]) -> Record {
    let mut sync = record.sync();
    for code in notes {
        let _ = sync.note(visits, *code);
    }
    sync.confirm()
}

// Output, theory, book and visits are lent to the writer of each line, as each writer asks for others of them.

/// Writes the line of a visit.
fn write_visit(out: &mut io::Stdout, theory: &SheetTheory, code: u16) -> io::Result<()> {
    let mut line = [0u8; 67];
    let made = visit_line(&mut line, theory, code);
    pass_on(out, &line, made)
}

/// Writes the line of each visit.
fn write_visits(out: &mut io::Stdout, theory: &SheetTheory, visits: &[u16]) -> io::Result<()> {
    for code in visits {
        write_visit(out, theory, *code)?;
    }
    Ok(())
}

/// Writes how many visits are kept, and whether they meet the rules.
fn write_kept(
    out: &mut io::Stdout,
    theory: &SheetTheory,
    book: &Book,
    record: &Record,
    visits: &[u16],
) -> io::Result<()> {
    let mut line = [0u8; 64];
    let made = kept_line(&mut line, record.kept() as u64);
    pass_on(out, &line, made)?;
    // Of an accepted sheet's visits only none at all are refused.
    stand(out, stands(record, book, theory, visits))
}

/// Writes the verdict, the row count and the history that is shown.
fn write_answer(
    out: &mut io::Stdout,
    theory: &SheetTheory,
    answer: Result<Outcome, Refusal>,
    history: &[u16],
) -> io::Result<()> {
    let mut line = [0u8; 64];
    let outcome = match answer {
        Ok(outcome) => outcome,
        Err(refusal) => {
            let made = question_refused_line(&mut line, refusal);
            return pass_on(out, &line, made);
        }
    };
    let made = verdict_line(&mut line, verdict_of(outcome));
    pass_on(out, &line, made)?;
    let made = rows_line(&mut line, rows_of(outcome));
    pass_on(out, &line, made)?;
    write_visits(out, theory, history_of(outcome, history))
}

/// Writes the report of an accepted sheet, whose notes are the first entries of the visit list.
fn write_report(
    out: &mut io::Stdout,
    theory: &SheetTheory,
    book: &Book,
    notes: &[u16],
    visits: &mut [u16],
) -> io::Result<()> {
    let record = keep_all(Record::open(book), notes, visits);
    write_kept(out, theory, book, &record, visits)?;
    let mut rows = [Cell::new(NO_ROW); 4096];
    let mut history = [0u16; 4096];
    let answer = question(&record, book, theory, visits, &mut rows, &mut history);
    write_answer(out, theory, answer, &history)
}

/// Reads the sheet and writes its report.
// It begins as in `sheet`: a function that handed out what a sheet fills would move some 100 KiB.
fn run(bytes: &[u8], out: &mut io::Stdout) -> io::Result<()> {
    let mut draft = Draft::new();
    let mut flags = Flags::fresh();
    let mut numbers = Numbers::fresh();
    let mut visits = [0u16; 1024];
    let sheet = match read_sheet(bytes, &mut draft, &mut flags, &mut numbers, &mut visits) {
        Ok(sheet) => sheet,
        Err(refusal) => return refuse(out, refusal),
    };
    let book = draft.seal();
    let theory = SheetTheory::of(sheet.heading, flags, numbers);
    let notes = visits;
    let count = sheet.notes.min(1024);
    write_report(out, &theory, &book, &notes[..count], &mut visits)
}

// As in the other program: the buffer is its local, and the runtime comes to `main` alone.
fn main(rt: HostRuntime) -> io::Result<()> {
    let mut buffer = [0u8; 65537];
    let mut input = rt.stdin();
    let length = fill(&mut input, &mut buffer)?;
    let mut out = rt.stdout();
    run(&buffer[..length], &mut out)
}
