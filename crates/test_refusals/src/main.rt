// Runs the cases on standard input through opening and line, and writes each refusal's number and count.
//
// A line = ends a case, and a line ~ is passed on with a near block of another size.
#![tactic(auto)]

ghost use Rattle.std.specs.Prelude.{◌≤◌, length, IfOk};

use answers::Answer;
use blocks::NO_POINT;
use readings::{Reading, fresh_readings};
use record_calls::Record;
use std::io;
use std::io::Read;

// What is to be written of a step: a refusal, or a case's end after so many lines.
#[derive(Clone, Copy)]
enum Said {
    // a number as the answer has it, which may be any
    Refusal { number: u64, count: u64 },
    CaseEnd { count: u64 },
}

// A record with what its calls are lent, but for the near block, which a line ~ is lent at another size. Arrays, since memory is fixed and there is
// no heap.
#[derive(Clone, Copy)]
struct Held {
    record: Record,
    far: [u32; 15200],
    slots: [u16; 30400],
    daily: [u32; 4392],
    readings: [Reading; 600],
    curve: [u64; 4400],
}

// What is written of an answer; no close is called, so none is reported.
fn said_of(answer: Answer) -> Option<Said> {
    match answer {
        Answer::Refused { number, count } => Some(Said::Refusal { number, count }),
        Answer::Accepted | Answer::Reported { .. } => None,
    }
}

impl Held {
    // Makes the record and the blocks fresh for the next case.
    fn end_case(&mut self, near: &mut [u32]) -> Said {
        let count = self.record.count;
        let opened = self.record.open(
            near,
            &mut self.far,
            &mut self.slots,
            &mut self.daily,
            &mut self.readings,
            &mut self.curve,
        );
        self.record = opened.record;
        Said::CaseEnd { count }
    }

    // Applies a line to the record.
    fn take(&mut self, line: &[u8], near: &mut [u32]) -> Option<Said> {
        let taken = self.record.line(
            line,
            near,
            &mut self.far,
            &mut self.slots,
            &mut self.daily,
            &mut self.readings,
            &self.curve,
        );
        self.record = taken.record;
        said_of(taken.answer)
    }
}

fn write_said(rt: &impl Print, said: Said) -> io::Result<()> {
    match said {
        Said::Refusal { number, count } => println!(rt; "{number}\t{count}"),
        Said::CaseEnd { count } => println!(rt; "=\t{count}"),
    }
}

// Reads until `buf` is full or the input ends, and returns how many bytes it put at the start of `buf`.
fn read_full<R: Read>(input: &mut R, buf: &mut [u8]) -> io::Result<usize>
    ensures { IfOk result (λ n. n ≤ length buf.new) }
{
    let mut done = 0;
    // a `while`, since how much a read brings shows only when it is done
    while done < buf.len() {
        let n = input.read(&mut buf[done..])?;
        if n == 0 {
            break;
        }
        done += n;
    }
    Ok(done)
}

// Where the last line ends, of a text whose first n bytes are the input. The input's end ends no line: a last one that has no byte 10 goes on over what
// follows in the text, so that an input that was cut off ends no case.
fn lines_end(text: &[u8], n: usize) -> usize
    requires { n ≤ length text.now }
    ensures { result ≤ length text.now }
{
    match text[..n].last() {
        None | Some(b'\n') => n,
        Some(_) => text.len(),
    }
}

fn main(rt: HostRuntime) -> io::Result<()> {
    let mut text = [0u8; 65536];
    let n = read_full(&mut rt.stdin(), &mut text)?;
    let mut near = [NO_POINT; 15200];
    let mut held = Held {
        record: Record::never_opened(),
        far: [NO_POINT; 15200],
        slots: [0; 30400],
        daily: [0; 4392],
        readings: fresh_readings(),
        curve: [0; 4400],
    };
    for ended in text[..lines_end(&text, n)].split_inclusive(|byte| *byte == b'\n') {
        let line = ended.strip_suffix(b"\n").unwrap_or(ended);
        let said = match line {
            b"=" => Some(held.end_case(&mut near)),
            b"~" => held.take(line, &mut []),
            _ => held.take(line, &mut near),
        };
        if let Some(said) = said {
            write_said(&rt, said)?;
        }
    }
    Ok(())
}
