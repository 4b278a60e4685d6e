// Reads a row file from standard input and writes its answers to standard output. What came is answered and written
// before more is read, so it serves a pipe. Where reading or writing fails it says so on standard error, and stops; its exit status is 0 then too.
// With the argument `keep-hour` freeze protection starts so that its stage 2 keeps to its hour; rows of the other kinds are answered as without.
#![tactic(auto)]

ghost use Rattle.std.specs.Prelude.{◌≡◌, false};
ghost use Rattle.row_kinds.specs.Rows.{Lent};
ghost use Rattle.rows.specs.Turns.{TurnLeft, keeping_hour};

use freeze_protection::step::freeze_start;
use row_kinds::kind::Phase;
use row_kinds::types::{RowReader, fresh_at};
use row_reader::feed::{feed, finish};
use std::env::{Env, FillError};
use std::io::Read;

// The bytes kept of a line after a turn, whether all answers were written, and whether there is a next turn. They are two flags, and no Result, since what is
// proved of a turn speaks of both.
#[derive(Clone, Copy)]
struct Turned {
    len: usize,
    written: bool,
    more: bool,
}

// Says on standard error what has failed. Where that fails too, nothing is left to say it by.
fn say(rt: &impl Eprint, what: &str) {
    let _ = rt.eprintln(what);
}

// Writes answers, and tells whether they were written.
fn put(rt: &(impl Print + Eprint), answers: &[u8]) -> bool {
    let written = rt.write_all(answers).is_ok();
    if !written {
        say(rt, "rows: the answers could not be written");
    }
    written
}

// The last turn, in which answers were written, there were none, or they could not be.
fn last(written: bool) -> Turned
    ensures { result ≡ record { len = 0; written = written; more = false } }
{
    Turned {
        len: 0,
        written,
        more: false,
    }
}

// Reads once, and answers the lines that end in what came. There is no next turn where no more comes, the answers cannot be written, or the first
// line names no kind.
fn turn(
    rt: &(impl Input + Print + Eprint),
    buffer: &mut [u8],
    line: &mut [u8; 256],
    out: &mut [u8],
    times: &mut [f64; 512],
    integrals: &mut [f64; 512],
    reader: &mut RowReader,
    had: usize,
) -> Turned
    requires { Lent buffer.old had out.old }
    ensures { TurnLeft reader.new result.len result.written result.more times.new integrals.new }
{
    let n = match rt.reader().read(buffer) {
        Ok(0) => {
            let said = finish(reader, &line[..had], out);
            return last(put(rt, &out[..said]));
        }
        Ok(n) => n,
        // How the input ends is not known.
        Err(_) => {
            say(rt, "rows: the input could not be read");
            return last(true);
        }
    };
    let fed = feed(&buffer[..n], line, out, times, integrals, reader, had);
    let written = put(rt, &out[..fed.sent]);
    Turned {
        len: fed.len,
        written,
        more: written & !reader.phase.stopped(),
    }
}

// Freeze protection from its other start: stage 2 keeps to its hour.
fn keep_hour(reader: &mut RowReader)
    ensures { reader.new ≡ keeping_hour reader.old }
{
    reader.freeze = freeze_start(true);
}

// Turn after turn. Each loop has to end, and nothing says that an input does: the turns are counted, up to a number that no run uses up.
// Where stage 2 is to keep to its hour, the first line is read a byte at a time, so that freeze protection is started before the line of a row has come.
fn play(
    rt: &(impl Input + Print + Eprint),
    buffer: &mut [u8],
    line: &mut [u8; 256],
    out: &mut [u8],
    times: &mut [f64; 512],
    integrals: &mut [f64; 512],
    keeps_hour: bool,
)
    requires { Lent buffer.old 0 out.old }
{
    let mut reader = fresh_at(Phase::First);
    let mut len: usize = 0;
    for _ in 0..u64::MAX {
        let starts = keeps_hour & reader.phase.first();
        let size = if starts {
            buffer.len().min(1)
        } else {
            buffer.len()
        };
        let turned = turn(
            rt,
            &mut buffer[..size],
            line,
            out,
            times,
            integrals,
            &mut reader,
            len,
        );
        if starts & !reader.phase.first() {
            keep_hour(&mut reader);
        }
        len = turned.len;
        if !turned.more {
            break;
        }
    }
}

// Whether the arguments ask that stage 2 keeps to its hour; None where they ask for what is not known.
fn asked(rt: &impl Env) -> Option<bool> {
    let mut word = [0; 16];
    let Err(FillError::NotPresent) = rt.arg(2, &mut word) else {
        return None;
    };
    match rt.arg(1, &mut word) {
        Err(FillError::NotPresent) => Some(false),
        Ok(n) if word[..n].eq(b"keep-hour".as_slice()) => Some(true),
        _ => None,
    }
}

fn main(rt: HostRuntime) {
    let Some(keeps_hour) = asked(&rt) else {
        return say(&rt, "rows: the one argument that it takes is keep-hour");
    };
    // The bytes read at a time, and room for the answers to them: an answer has at most 22 bytes for each byte of its line, newline included, and 256 bytes of a
    // line may have been kept before.
    let mut buffer = [0; 8192];
    let mut line = [0; 256];
    let mut out = [0; 22 * (256 + 8192)];
    let mut times = [0.0; 512];
    let mut integrals = [0.0; 512];
    play(
        &rt,
        &mut buffer,
        &mut line,
        &mut out,
        &mut times,
        &mut integrals,
        keeps_hour,
    );
}
