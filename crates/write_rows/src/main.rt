// Writes rows that are handed in as words, by the writer of each kind: what the test of the writers runs (tools/test-writer). Standard input has records of
// 15 words of 8 bytes, the lowest byte first: the kind (0 freeze, 1 relief, 2 econ), the bytes of the buffer that are lent, up to 512, the place of the line,
// and the 12 words of a row, 0 after its last. Standard output gets, for each record, the status, the place after the line, and all 512 bytes of the buffer,
// which is not cleared between.
#![tactic(auto)]

ghost use Rattle.std.specs.Prelude.{◌≡◌, length};

use columns::line::write_status_line;
use econ_lines::econ::EconLines;
use freeze_lines::freeze::FreezeLines;
use refusals::Refusal;
use relief_lines::relief::ReliefLines;
use row_writer::lines::RowLines;
use row_writer::write_row;
use std::io::{ErrorKind, Read};
use std::{array, io};

// The words of a record.
fn words_of(bytes: &[u8; 120]) -> [u64; 15] {
    array::from_fn(|k| {
        let mut word = [0; 8];
        word.copy_from_slice(&bytes[8 * k..8 * k + 8]);
        u64::from_le_bytes(word)
    })
}

// A row of a kind, by its number in the record, written from a place on. A number and a `match`: the kind is known from the test's input only, and is asked here alone.
fn write_by(kind: u64, out: &mut [u8], at: usize, words: [u64; 12]) -> Result<usize, Refusal> {
    match kind {
        0 => write_row::<FreezeLines, _, _>(out, at, FreezeLines::row_of(&words)),
        1 => write_row::<ReliefLines, _, _>(out, at, ReliefLines::row_of(&words)),
        _ => {
            let [time, flow, setpoint, signal, outdoor, fan, mode, stage, ..] = words;
            let row = EconLines::row_of(&[time, flow, setpoint, signal, outdoor, fan, mode, stage]);
            write_row::<EconLines, _, _>(out, at, row)
        }
    }
}

// Prints a number as a line of one column, as the answers of `rows` are.
fn print_number(rt: &impl Print, n: u64) -> io::Result<()> {
    let mut line = [0u8; 22];
    write_status_line(&mut line, 0, n);
    rt.write_all(&line)
}

// Prints the status and the place after the line, 0 where the row is refused.
fn print_answer(rt: &impl Print, written: Result<usize, Refusal>) -> io::Result<()> {
    let (status, next) = match written {
        Ok(next) => (0, next as u64),
        Err(refusal) => (refusal.number(), 0),
    };
    print_number(rt, status)?;
    print_number(rt, next)
}

// Writes the row of a record into the first bytes of a buffer, as many as it says, and prints what became of it and the whole buffer.
fn print_row(rt: &impl Print, bytes: &[u8; 120], out: &mut [u8; 512]) -> io::Result<()> {
    let record = words_of(bytes);
    let [kind, room, at, ..] = record;
    let len = room.min(512) as usize;
    let row = array::from_fn(|k| record[3 + k]);
    let written = write_by(kind, &mut out[..len], at as usize, row);
    print_answer(rt, written)?;
    rt.write_all(out)
}

// Reads a record, and tells whether the input had all of it.
fn is_read(rt: &impl Input, bytes: &mut [u8; 120]) -> io::Result<bool> {
    match rt.reader().read_exact(bytes) {
        Ok(()) => Ok(true),
        Err(e) if e.kind() == ErrorKind::UnexpectedEof => Ok(false),
        Err(e) => Err(e),
    }
}

// Record after record. Each loop has to end, and nothing says that an input does: the records are counted, up to a number that no run uses up.
fn main(rt: HostRuntime) -> io::Result<()> {
    let mut bytes = [0; 120];
    let mut out = [0; 512];
    for _ in 0..u64::MAX {
        if !is_read(&rt, &mut bytes)? {
            break;
        }
        print_row(&rt, &bytes, &mut out)?;
    }
    Ok(())
}
