//! Where a text of CSV stands behind some of its bytes, as the reader of records sees it.
ghost use Rattle.std.specs.Prelude.{◌≡◌, ◌<◌};
ghost use Rattle.csv.specs.Machine.{in_field, start_field, start_record, step};
ghost use Rattle.csv.specs.Reading.{default_config};
ghost use Rattle.csv.specs.declared.parser.State.TheVariants as st;
ghost use Rattle.loader.specs.States.{machine_state};

/// The byte between two of which a field may stand.
pub(crate) const QUOTE: u8 = b'"';

/// The byte between two fields. It lies behind all others that end a field or a record.
const COMMA: u8 = b',';

/// A carriage return, which ends a record as a line feed does.
const RETURN: u8 = b'\r';

/// A line feed.
pub(crate) const FEED: u8 = b'\n';

/// Where a text stands.
#[derive(Clone, Copy, Debug, PartialEq, Eq)]
pub(crate) enum State {
    /// Between two records, or before the first one.
    Between,
    /// Behind a comma.
    FieldStart,
    /// In a field, behind a byte of it that is not between quotes.
    InField,
    /// Between the quotes of a field.
    InQuotes,
    /// Behind a quote that was met between quotes: it ends them, or is the first one of two that stand for one.
    AfterQuote,
    /// Behind a carriage return that ended a record.
    AfterReturn,
}

impl State {
    /// Where the text stands behind one byte more.
    #[inline]
    pub fn after(self, byte: u8) -> State
        ensures { machine_state result ≡ (step default_config (machine_state self) byte).0 }
    {
        // Letters and digits, which most bytes are, lie behind all that end something.
        if byte > COMMA {
            return self.after_plain(byte);
        }
        self.after_any(byte)
    }

    /// The same, where the byte lies behind those that end something.
    #[inline]
    fn after_plain(self, byte: u8) -> State
        requires { 44 < byte }
        ensures { machine_state result ≡ (step default_config (machine_state self) byte).0 }
    {
        match self {
            State::InQuotes => State::InQuotes,
            State::Between => State::InField,
            State::FieldStart => State::InField,
            State::InField => State::InField,
            State::AfterQuote => State::InField,
            State::AfterReturn => State::InField,
        }
    }

    /// The same for any byte.
    fn after_any(self, byte: u8) -> State
        ensures { machine_state result ≡ (step default_config (machine_state self) byte).0 }
    {
        match self {
            State::Between => at_record(byte),
            State::AfterReturn => at_record(byte),
            State::FieldStart => at_field(byte),
            State::InField => in_field(byte),
            State::InQuotes => in_quotes(byte),
            State::AfterQuote => after_quote(byte),
        }
    }
}

/// Where a text stands behind a byte where a record may begin. Empty lines are no records.
fn at_record(byte: u8) -> State
    ensures { machine_state result ≡ (start_record default_config byte).0 }
{
    if byte == RETURN {
        State::Between
    } else if byte == FEED {
        State::Between
    } else {
        at_field(byte)
    }
}

/// Where a text stands behind the first byte of a field.
fn at_field(byte: u8) -> State
    ensures { machine_state result ≡ (start_field default_config byte).0 }
{
    if byte == QUOTE {
        State::InQuotes
    } else {
        in_field(byte)
    }
}

/// Where a text stands behind a byte that follows in a field, and is not between quotes.
fn in_field(byte: u8) -> State
    ensures { machine_state result ≡ (in_field default_config byte).0 }
{
    if byte == COMMA {
        State::FieldStart
    } else if byte == RETURN {
        State::AfterReturn
    } else if byte == FEED {
        State::Between
    } else {
        State::InField
    }
}

/// Where a text stands behind a byte that follows between quotes.
fn in_quotes(byte: u8) -> State
    ensures { machine_state result ≡ (step default_config st.InQuoted byte).0 }
{
    if byte == QUOTE {
        State::AfterQuote
    } else {
        State::InQuotes
    }
}

/// Where a text stands behind a byte that follows a quote.
fn after_quote(byte: u8) -> State
    ensures { machine_state result ≡ (step default_config st.AfterQuote byte).0 }
{
    if byte == QUOTE {
        State::InQuotes
    } else {
        in_field(byte)
    }
}
