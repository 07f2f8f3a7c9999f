use crate::asserts::{equal, holds};
use crate::line::report;
use crate::words::words_of;
use kc_script_lines::Why;
use kc_top::{CheckWhy, Status};
use std::cell::RefCell;
use std::env::{Env, FillError};
use std::fmt::{Display, Write};
use std::process::ExitCode;
use std::test::Fail;
use std::{env, io};

// A standard error that keeps its text.
struct KeptText(RefCell<String>);

impl Eprint for KeptText {
    fn eprint<D: Display + Drop>(&self, value: D) -> io::Result<()> {
        let mut text = self.0.try_borrow_mut().map_err(|_| io::ErrorKind::Other)?;
        write!(text, "{value}")?;
        Ok(())
    }

    fn eprintln<D: Display + Drop>(&self, value: D) -> io::Result<()> {
        self.eprint(format_args!("{value}\n"))
    }
}

#[test]
fn each_status_has_its_line_and_its_exit_number(rt: HostRuntime) -> Result<(), Fail> {
    let script = Status::Script {
        part: 0,
        line: 2,
        why: Why::BadNumber,
    };
    let illegal = Status::Illegal {
        line: 4,
        why: CheckWhy::Order,
    };
    let rows = [
        (Status::Done, "", 0u8),
        (
            Status::Usage,
            "kcas: usage: kcas run, kcas files SETUP FILE.., kcas storm N, kcas check BUNDLE TEXT, or kcas texts TEXTS PICKS\n",
            2,
        ),
        (script, "kcas: part 0 line 2: bad number\n", 3),
        (Status::ReadFault, "kcas: reading failed\n", 4),
        (Status::WriteFault, "kcas: writing failed\n", 5),
        (Status::NoMemory, "kcas: out of memory\n", 6),
        (Status::TooLong, "kcas: input too long\n", 7),
        (illegal, "kcas: line 4: not the canonical order\n", 8),
    ];
    for (status, printed, number) in rows {
        let kept = KeptText(RefCell::new(String::new(rt.alloc())));
        let code = report(&kept, status);
        let KeptText(text) = kept;
        equal(&rt, text.into_inner().as_str(), printed);
        holds(&rt, code == ExitCode::from(number));
    }
    Ok(())
}

// A command line of the program's name and a word of these bytes.
#[derive(Drop)]
struct OneWord(&'static [u8]);

impl Env for OneWord {
    fn arg(&self, i: usize, buf: &mut [u8]) -> Result<usize, FillError> {
        let word: &[u8] = match i {
            0 => b"kcas",
            1 => self.0,
            _ => return Err(FillError::NotPresent),
        };
        if buf.len() < word.len() {
            return Err(FillError::TooLong);
        }
        buf[..word.len()].copy_from_slice(word);
        Ok(word.len())
    }

    fn var(&self, _name: &str, _buf: &mut [u8]) -> Result<usize, FillError> {
        Err(FillError::NotPresent)
    }

    fn var_at(&self, _i: usize, _buf: &mut [u8]) -> Result<usize, FillError> {
        Err(FillError::NotPresent)
    }
}

#[test]
fn a_word_that_is_not_utf8_is_no_command(rt: HostRuntime) -> Result<(), Fail> {
    let alloc = rt.alloc();
    let words = words_of(alloc, env::args(&(OneWord(b"run"), alloc)));
    let is_run = matches!(&words, Ok(words) if words.len() == 2 && words[1].as_str() == "run");
    holds(&rt, is_run);
    let words = words_of(alloc, env::args(&(OneWord(b"r\xffn"), alloc)));
    holds(&rt, matches!(&words, Err(Status::Usage)));
    let none = io::Error::from(io::ErrorKind::OutOfMemory);
    holds(
        &rt,
        matches!(&words_of(alloc, Err(none)), Err(Status::NoMemory)),
    );
    Ok(())
}
