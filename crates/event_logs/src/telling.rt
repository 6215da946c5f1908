//! Who hears of a run: the log and the warnings, in turn.

ghost use Rattle.std.specs.Prelude.{◌≡◌, true, false, is_some, option_map, ◌||◌};
ghost use Rattle.event_logs.specs.Warned.{heard, is_request};

use crate::log::EventLog;
use crate::warnings::Warnings;
use run_events::{Occurrence, Watch, What};
use std::alloc::AllocError;
use std::cell::RefCell;
use std::io::Write;

/// What hears of a run: a log, where there is one, and what keeps warnings, where they are asked for.
#[derive(Drop)]
pub struct Telling<W, E> {
    pub log: Option<EventLog<W>>,
    pub warnings: Option<Warnings>,
    /// Where it is said at once that the log has ended.
    alarm: Option<E>,
    /// A request was told since that was asked last.
    has_news: bool,
}

impl<W, E> Telling<W, E> {
    /// This log, these warnings, and where it is said at once that the log has ended, if at all.
    pub fn new(
        log: Option<EventLog<W>>,
        warnings: Option<Warnings>,
        alarm: Option<E>,
    ) -> Telling<W, E>
        ensures { result ≡ record { log = log; warnings = warnings; alarm = alarm; has_news = false } }
    {
        Telling {
            log,
            warnings,
            alarm,
            has_news: false,
        }
    }

    /// The log and the warnings.
    pub fn into_parts(self) -> (Option<EventLog<W>>, Option<Warnings>)
    where
        E: Drop,
        ensures log { result.0 ≡ self.log }
        ensures warnings { result.1 ≡ self.warnings }
    {
        let Telling {
            log,
            warnings,
            alarm: _,
            has_news: _,
        } = self;
        (log, warnings)
    }
}

impl<W: Write, E: Write> Telling<W, E> {
    /// The log has ended: a line could not be written.
    fn has_ended(&self) -> bool {
        self.log.as_ref().is_some_and(|log| log.is_lost())
    }

    /// Writes to the log, where there is one, and says so where it ends with that.
    pub fn write<F: FnOnce(&mut EventLog<W>) + Drop>(&mut self, lines: F)
        requires { F.IsAlwaysCallable lines }
        ensures warnings { self.new.warnings ≡ self.old.warnings }
        ensures news { self.new.has_news ≡ self.old.has_news }
        ensures log { is_some self.new.log ≡ is_some self.old.log }
    {
        let had_ended = self.has_ended();
        if let Some(log) = &mut self.log {
            lines(log);
        }
        if !had_ended {
            self.sound();
        }
    }

    /// Says that the log has ended, where it has.
    fn sound(&mut self)
        ensures warnings { self.new.warnings ≡ self.old.warnings }
        ensures news { self.new.has_news ≡ self.old.has_news }
        ensures log { self.new.log ≡ self.old.log }
    {
        let Some(log) = &self.log else {
            return;
        };
        if let Some(reason) = log.lost()
            && let Some(alarm) = &mut self.alarm
        {
            let _ = writeln!(alarm, "warning: the log of events ends here: {reason}");
            let _ = alarm.flush();
        }
    }

    /// Hears of what happened.
    fn hear(&mut self, occurrence: &Occurrence)
        ensures warnings { self.new.warnings ≡ option_map (heard occurrence.now) self.old.warnings }
        ensures news { self.new.has_news ≡ (self.old.has_news || is_request occurrence.now.what) }
        ensures log { is_some self.new.log ≡ is_some self.old.log }
    {
        if let What::Request(_, _, _) = occurrence.what {
            self.has_news = true;
        }
        if let Some(warnings) = &mut self.warnings {
            warnings.hear(occurrence);
        }
        self.write(|log| log.tell(occurrence));
    }
}

/// One of those who tell what hears of a run.
#[derive(Drop)]
pub struct Listening<'a, W, E> {
    telling: &'a RefCell<Telling<W, E>>,
    is_on: bool,
    is_detailed: bool,
}

impl<W, E> Clone for Listening<'_, W, E> {
    fn clone(&self) -> Result<Self, AllocError> {
        Ok(*self)
    }
}

impl<W, E> Copy for Listening<'_, W, E> {}

impl<'a, W: Write, E: Write> Listening<'a, W, E> {
    /// Tells this.
    pub fn new(telling: &'a RefCell<Telling<W, E>>) -> Listening<'a, W, E> {
        let (is_on, is_detailed) = match telling.try_borrow_mut() {
            Ok(told) => (
                told.log.is_some() || told.warnings.is_some(),
                told.log.is_some(),
            ),
            Err(_) => (false, false),
        };
        Listening {
            telling,
            is_on,
            is_detailed,
        }
    }

    /// There is a log.
    pub fn has_log(&self) -> bool {
        self.is_detailed
    }

    /// Writes to the log.
    pub fn write<F: FnOnce(&mut EventLog<W>) + Drop>(&self, lines: F)
        requires { F.IsAlwaysCallable lines }
    {
        if let Ok(mut telling) = self.telling.try_borrow_mut() {
            telling.write(lines);
        }
    }
}

impl<W: Write, E: Write> Watch for Listening<'_, W, E> {
    ghost hears = { λ s lines t. Unit {0} };

    ghost hears_refl = { λ s. tt };

    ghost hears_trans = { λ s t u xs ys h k. tt };

    #[inline(always)]
    fn is_on(&self) -> bool {
        self.is_on
    }

    #[inline(always)]
    fn is_detailed(&self) -> bool {
        self.is_detailed
    }

    fn takes_news(&mut self) -> bool {
        match self.telling.try_borrow_mut() {
            Ok(mut telling) => {
                let has_news = telling.has_news;
                telling.has_news = false;
                has_news
            }
            Err(_) => false,
        }
    }

    fn tell(&mut self, occurrence: &Occurrence) {
        if let Ok(mut telling) = self.telling.try_borrow_mut() {
            telling.hear(occurrence);
        }
    }
}
