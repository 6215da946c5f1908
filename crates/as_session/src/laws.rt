//! What holds of whole runs of a session.

ghost use Rattle.as_session.specs.Laws.{AnyPiecesGiveTheMessages, CallsGiveTheMessages, EachMessageFits, MessagesAreTheOnlyOnes};

/// A byte string is these messages and no others, up to a rest with no whole message at its front.
pub fn messages_are_the_only_ones()
    ensures { MessagesAreTheOnlyOnes }
{}

/// For every way to cut a byte string into pieces, the messages that come out are those of the string, in order, up
/// to a bad size.
pub fn any_pieces_give_the_messages()
    ensures { AnyPiecesGiveTheMessages }
{}

/// Whatever pieces a session is fed, call after call, the messages that it gives are those of the bytes that it used.
pub fn calls_give_the_messages()
    ensures { CallsGiveTheMessages }
{}

/// Whatever the bytes are, each field of each of their messages is as wide as the standard has it.
pub fn each_message_fits()
    ensures { EachMessageFits }
{}
