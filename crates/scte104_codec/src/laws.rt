//! What holds of the grammar and of its readers, for every message.

ghost use Rattle.scte104_codec.specs.Laws.{MessagesAreFramed, MessagesReadBack, RepliesReadBack, RequestsReadBack, WhatIsReadFits};

/// A message of the grammar is cut where it ends, whatever follows it.
pub fn messages_are_framed()
    ensures { MessagesAreFramed }
{}

/// A message of the grammar is read with the fields that it spells.
pub fn messages_read_back()
    ensures { MessagesReadBack }
{}

/// A reply's bytes are one whole message, and have the reply's fields.
pub fn replies_read_back()
    ensures { RepliesReadBack }
{}

/// The data of a request for a break, and a list of avail ids, are read with the fields that they spell.
pub fn requests_read_back()
    ensures { RequestsReadBack }
{}

/// Whatever bytes are read, each field of the message is as wide as the standard has it.
pub fn what_is_read_fits()
    ensures { WhatIsReadFits }
{}
