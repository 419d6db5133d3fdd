// The cases by their names and the answers to them.
use crate::calls::{close_answer, line_answer, open_answer};
use crate::cases::Case;
use crate::records::is_before_s;
use crate::{Base, Forge};
use answers::Answer;
use std::io;

fn put_answer(rt: &impl Print, answer: Answer) -> io::Result<()> {
    match answer {
        Answer::Accepted => print!(rt; "\taccepted"),
        Answer::Refused { number, .. } => print!(rt; "\t{number}"),
        Answer::Reported { .. } => print!(rt; "\treported"),
    }
}

fn put_line_answer(rt: &impl Print, base: Base, forge: Forge) -> io::Result<()> {
    if is_before_s(base) {
        return put_answer(
            rt,
            line_answer(base, forge, b"S\tCF_96E/11\t2025\t2\tT\t5000000"),
        );
    }
    put_answer(rt, line_answer(base, forge, b"E\t1"))
}

// What opening, line and close answer, which ends the case's row.
fn put_answers(rt: &impl Print, base: Base, forge: Forge) -> io::Result<()> {
    put_answer(rt, open_answer(base, forge))?;
    put_line_answer(rt, base, forge)?;
    put_answer(rt, close_answer(base, forge))?;
    println!(rt)
}

// What is forged, and the three answers.
pub(crate) fn cases(rt: &impl Print, rows: &[Case]) -> io::Result<()> {
    for (name, base, forge) in rows {
        print!(rt; "{name}")?;
        put_answers(rt, *base, *forge)?;
    }
    Ok(())
}

// The same for the last dates, or years, of a tag.
pub(crate) fn last_dates<F: Fn(u64) -> Forge>(
    rt: &impl Print,
    letter: &str,
    last: F,
    dates: &[(&str, u64)],
) -> io::Result<()>
    requires { F.IsAlwaysCallable last }
{
    for (name, date) in dates {
        print!(rt; "last {letter} {name}")?;
        put_answers(rt, Base::Wind, last(*date))?;
    }
    Ok(())
}
