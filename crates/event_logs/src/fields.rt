//! The fields of a JSON object (RFC 8259). Its keys and words are this program's own, and have nothing in them that would have to be escaped.

use std::fmt;

/// A field that holds a number.
#[derive(Clone, Copy)]
pub(crate) struct Number<'a>(pub(crate) &'a str, pub(crate) u64);

impl fmt::Display for Number<'_> {
    ghost use Rattle.std.specs.Prelude.{Some};
    ghost use Rattle.event_logs.specs.Fields.{number_field};

    ghost output = { λ t. Some (number_field t.0.now t.1) };

    fn fmt<W: fmt::Write>(&self, f: &mut fmt::Formatter<W>) -> fmt::Result {
        let (key, number) = (self.0, self.1);
        write!(f, ",\"{key}\":{number}")
    }
}

/// A field that holds a word.
#[derive(Clone, Copy)]
pub(crate) struct Word<'a>(pub(crate) &'a str, pub(crate) &'a str);

impl fmt::Display for Word<'_> {
    ghost use Rattle.std.specs.Prelude.{Some};
    ghost use Rattle.event_logs.specs.Fields.{word_field};

    ghost output = { λ t. Some (word_field t.0.now t.1.now) };

    fn fmt<W: fmt::Write>(&self, f: &mut fmt::Formatter<W>) -> fmt::Result {
        let (key, word) = (self.0, self.1);
        write!(f, ",\"{key}\":\"{word}\"")
    }
}

/// A field that holds a flag.
#[derive(Clone, Copy)]
pub(crate) struct Flag<'a>(pub(crate) &'a str, pub(crate) bool);

impl fmt::Display for Flag<'_> {
    ghost use Rattle.std.specs.Prelude.{Some};
    ghost use Rattle.event_logs.specs.Fields.{flag_field};

    ghost output = { λ t. Some (flag_field t.0.now t.1) };

    fn fmt<W: fmt::Write>(&self, f: &mut fmt::Formatter<W>) -> fmt::Result {
        let (key, is_set) = (self.0, self.1);
        write!(f, ",\"{key}\":{is_set}")
    }
}

/// A field whose value is not known.
#[derive(Clone, Copy)]
pub(crate) struct Null<'a>(pub(crate) &'a str);

impl fmt::Display for Null<'_> {
    ghost use Rattle.std.specs.Prelude.{Some};
    ghost use Rattle.event_logs.specs.Fields.{null_field};

    ghost output = { λ t. Some (null_field t.0.now) };

    fn fmt<W: fmt::Write>(&self, f: &mut fmt::Formatter<W>) -> fmt::Result {
        let key = self.0;
        write!(f, ",\"{key}\":null")
    }
}

/// The program of a service, where there are several.
#[derive(Clone, Copy)]
pub(crate) struct ServiceField(pub(crate) Option<u16>);

impl fmt::Display for ServiceField {
    ghost use Rattle.std.specs.Prelude.{Some};
    ghost use Rattle.event_logs.specs.Lines.{service_field};

    ghost output = { λ t. Some (service_field t.0) };

    fn fmt<W: fmt::Write>(&self, f: &mut fmt::Formatter<W>) -> fmt::Result {
        match self.0 {
            None => Ok(()),
            Some(program) => {
                let service = Number("service", u64::from(program));
                write!(f, "{service}")
            }
        }
    }
}
