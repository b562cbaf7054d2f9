//! Where the program tells what is no output of a run: one line after another.

use crate::plain::Plain;
use std::fmt::Display;
use std::io::ErrorKind;
use std::sync::atomic::Ordering::SeqCst;
use std::sync::atomic::{AtomicBool, AtomicU64};

/// Where lines are told.
pub trait Tell {
    /// Tells a line, which has no line end of its own.
    fn tell<D: Display + Drop>(&self, line: D);
}

/// Where one line may be written anew, again and again, between the lines that are told.
pub trait Renew: Tell {
    /// Whether it is.
    fn renews(&self) -> bool;

    /// Writes the line in the place of the last one that was written so.
    fn renew<D: Display + Drop>(&self, line: D);
}

/// What knows of a screen.
pub trait Screen {
    /// Whether standard error goes to a screen, to which standard output does not go.
    fn is_screen(&self) -> bool;

    /// Whether standard output goes to a screen.
    fn shows_output(&self) -> bool;

    /// Whether standard input comes from a terminal.
    fn hears_terminal(&self) -> bool;
}

/// Lines that go to standard error, [plainly](Plain). Nobody may read it any more, so a failure to write changes nothing.
#[derive(Drop)]
pub struct Errors<'r, R> {
    rt: &'r R,
    renews: bool,
}

impl<'r, R> Errors<'r, R> {
    /// The standard error of `rt`, and whether a line of it is written anew.
    pub fn new(rt: &'r R, renews: bool) -> Errors<'r, R> {
        Errors { rt, renews }
    }
}

impl<'r, R: Eprint> Tell for Errors<'r, R> {
    fn tell<D: Display + Drop>(&self, line: D) {
        let line = Plain(line);
        let _ = if self.renews {
            // (in the place of the line that is written anew, whose rest is erased)
            self.rt.eprint(format_args!("\r{line}\x1b[K\n"))
        } else {
            self.rt.eprintln(line)
        };
    }
}

impl<'r, R: Eprint> Renew for Errors<'r, R> {
    fn renews(&self) -> bool {
        self.renews
    }

    fn renew<D: Display + Drop>(&self, line: D) {
        let line = Plain(line);
        let _ = self.rt.eprint(format_args!("\r{line}\x1b[K"));
    }
}

/// Lines that go to standard output, [plainly](Plain), each at once, and are counted.
#[derive(Drop)]
pub struct Output<'r, R> {
    rt: &'r R,
    count: AtomicU64,
    has_failed: AtomicBool,
    is_closed: AtomicBool,
}

impl<'r, R> Output<'r, R> {
    /// The standard output of `rt`.
    pub fn new(rt: &'r R) -> Output<'r, R> {
        Output {
            rt,
            count: AtomicU64::new(0),
            has_failed: AtomicBool::new(false),
            is_closed: AtomicBool::new(false),
        }
    }

    /// How many lines were told.
    pub fn count(&self) -> u64 {
        self.count.load(SeqCst)
    }

    /// Whether one could not be written.
    pub fn has_failed(&self) -> bool {
        self.has_failed.load(SeqCst)
    }

    /// Whether one could not be written since nobody reads standard output any more.
    pub fn is_closed(&self) -> bool {
        self.is_closed.load(SeqCst)
    }
}

impl<'r, R: Print> Tell for Output<'r, R> {
    fn tell<D: Display + Drop>(&self, line: D) {
        self.count.fetch_add(1, SeqCst);
        if let Err(error) = self.rt.println(Plain(line)) {
            self.has_failed.store(true, SeqCst);
            if error.kind() == ErrorKind::BrokenPipe {
                self.is_closed.store(true, SeqCst);
            }
        }
    }
}
