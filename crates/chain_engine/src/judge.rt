//! What judges messages.

use injector::Injector;
use scte104_codec::{BadMessage, Message, Reply};

/// Judges messages, one after another, and answers each: an injector, or what stands before several.
pub trait Judge {
    ghost use Rattle.scte104_codec.specs.declared.reply.Reply.{Reply};
    ghost use Rattle.scte104_codec.specs.Reading.{MessageReading};
    ghost use Rattle.scte104_codec.specs.Views.{reading_of};

    /// The message was judged and answered so, which led from the first to the second.
    ghost judges: { Self → MessageReading → Reply → Self → Type 0 };

    /// Judges a message, and answers it.
    fn ask(&mut self, message: Result<Message<'_>, BadMessage>) -> Reply
        ensures { judges self.old (reading_of message.entry) result self.new };
}

impl Judge for Injector {
    ghost use Rattle.chain_engine.specs.Judging.{InjectorJudges};

    ghost judges = { λ old m reply new. InjectorJudges old m reply new };

    fn ask(&mut self, message: Result<Message<'_>, BadMessage>) -> Reply {
        Injector::ask(self, message)
    }
}
